// The nets of a tree file, one after another, written with their links resolved.
#![tactic(auto)]

ghost use Rattle.std.specs.Prelude.{◌≡◌};
ghost use Rattle.resolve_nets.specs.Nets.{nets};

use resolve_walk::Pen;

// n nets from a place of the file on, at a place of the output; where both are gone on from.
pub fn nets(ws: &mut [u32], s: &[u8], out: &mut [u8], from: usize, n: u32, to: usize) -> Option<Pen>
    ensures { (result ≡ (nets s.now n ws.old out.old from to).is) × (ws.new ≡ (nets s.now n ws.old out.old from to).ws) × (out.new ≡ (nets s.now n ws.old out.old from to).out) }
{
    let mut at = from;
    let mut place = to;
    for _ in 0..n {
        let pen = resolve_net::net(ws, s, out, at, place)?;
        at = pen.from;
        place = pen.to;
    }
    Some(Pen {
        from: at,
        to: place,
    })
}

// Which wires of a flat net are one wire, in a lent table by wire. A pair is marked at its greater wire, by the net's stamp and its
// smaller wire. A mark of another stamp says nothing, so that nothing has to be cleared between nets.
#![tactic(auto)]

ghost use Rattle.std.specs.Prelude.{◌+◌, ◌*◌, ◌≡◌, set};
ghost use Rattle.fields.specs.Fields.{be16};
ghost use Rattle.stored.specs.Stored.{pairs_at};
ghost use Rattle.wire_marks.specs.Marks.{mark, marked, canon};

// The word that says: with this smaller wire, in the net of this stamp.
fn mark(stamp: u16, a: u16) -> u32
    ensures { result ≡ mark stamp a }
{
    65536 * (stamp as u32) + a as u32
}

// So many pairs, from a place on.
fn mark_from(ws: &mut [u32], stamp: u16, s: &[u8], at: usize, n: u16)
    ensures { ws.new ≡ marked stamp (pairs_at s.now (at + (2 + 4 * 0)) n) ws.old }
{
    for j in 0..n {
        let a = readers::be16_on(s, at, 2 + 4 * (j as usize));
        let b = readers::be16_on(s, at, 4 + 4 * (j as usize));
        words::put(ws, b as usize, mark(stamp, a));
    }
}

// The pairs after their count.
pub fn mark_pairs(ws: &mut [u32], stamp: u16, s: &[u8], at: usize)
    ensures { ws.new ≡ marked stamp (pairs_at s.now (at + 2) (be16 s.now at)) ws.old }
{
    mark_from(ws, stamp, s, at, fields::be16(s, at))
}

// The smaller of a wire and the one that it is a pair with (`canonicalize_ref` of net.rs).
pub fn canonical(ws: &[u32], stamp: u16, w: u16) -> u16
    ensures { result ≡ canon ws.now stamp w }
{
    let v = words::get(ws, w as usize);
    if v / 65536 == stamp as u32 {
        return (v % 65536) as u16;
    }
    w
}

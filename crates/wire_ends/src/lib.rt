// A table by wire, for one net that comes into the engine: the port that a wire was met at, 0 where none is open; for the larger wire
// of a pair the smaller one, with a mark. `add_flat_net` of engine.rs: `wires`, `link`.
#![tactic(auto)]

ghost use Rattle.std.specs.Prelude.{◌≡◌};
ghost use Rattle.wire_ends.specs.WireEnds.{canonical, join_wire, join_wires, put_pairs};

use layout::Port;

const PAIRED: u32 = 2147483648;

// Of a pair the smaller wire stands for both.
fn canonical(wires: &[u32], w: u32) -> u32
    ensures { result ≡ canonical wires.now w }
{
    let v = words::get(wires, w as usize);
    if v < PAIRED {
        return w;
    }
    v - PAIRED
}

// A wire's second port is joined with its first.
pub fn join_wire(ws: &mut [u32], wires: &mut [u32], w: u32, p: Port)
    ensures { (ws.new ≡ (join_wire ws.old wires.old w p.0).ws) × (wires.new ≡ (join_wire ws.old wires.old w p.0).wires) }
{
    let c = canonical(wires, w) as usize;
    let first = words::get(wires, c);
    if first == 0 {
        words::put(wires, c, p.0);
        return;
    }
    words::put(wires, c, 0);
    graph::link(ws, p, Port(first))
}

// k wires of the file from a place on, at the ports from p on.
pub fn join_wires(ws: &mut [u32], wires: &mut [u32], file: &[u8], from: usize, p: Port, k: u32)
    ensures { (ws.new ≡ (join_wires ws.old wires.old file.now from p.0 k).ws) × (wires.new ≡ (join_wires ws.old wires.old file.now from p.0 k).wires) }
{
    let mut at = from;
    let mut port = p;
    for _ in 0..k {
        join_wire(ws, wires, fields::be16(file, at) as u32, port);
        at = ends::on(file, at, 2);
        port = layout::next_port(port);
    }
}

// k pairs from a place on: the larger wire of each has the mark, and the smaller wire with it.
pub fn put_pairs(wires: &mut [u32], file: &[u8], from: usize, k: u32)
    ensures { wires.new ≡ put_pairs wires.old file.now from k }
{
    let mut at = from;
    for _ in 0..k {
        let a = fields::be16(file, at) as u32;
        let b = net_readers::pair_second(file, at);
        words::put(wires, b.0 as usize, PAIRED + a);
        at = ends::on(file, at, 4);
    }
}

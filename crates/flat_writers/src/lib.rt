// A flat net written with its links resolved: the flat `resolve_links` of net.rs. The table by wire says which wires are one wire,
// and which occur. A pair that occurs is used up; one that occurs nowhere stays.
#![tactic(auto)]

ghost use Rattle.std.specs.Prelude.{◌+◌, ◌≡◌, length};
ghost use Rattle.net_file.specs.Write.{be, counted, write_pair, write_node};
ghost use Rattle.fields.specs.Fields.{be16};
ghost use Rattle.stored.specs.Stored.{list_at, node_at};
ghost use Rattle.wire_marks.specs.Marks.{canon};
ghost use Rattle.text_writers.specs.Wrote.{Wrote};
ghost use Rattle.flat_writers.specs.Flat.{renamed, wire_bytes, wires_from, nodes_from, nodes_part};

fn flat_wire(out: &mut [u8], at: usize, ws: &[u32], stamp: u16, w: u16) -> usize
    ensures { Wrote (wire_bytes ws.now stamp w) at out.old out.new result }
{
    field_writers::two(out, at, wire_marks::canonical(ws, stamp, w))
}

// As many wires as are said, after a count of one byte.
fn flat_wires(
    out: &mut [u8],
    at: usize,
    ws: &[u32],
    stamp: u16,
    s: &[u8],
    from: usize,
    n: u8,
) -> usize
    ensures { Wrote (wires_from ws.now stamp s.now from 0 n) at out.old out.new result }
{
    let mut p = at;
    for j in 0..n {
        let w = readers::be16_on(s, from, 1 + 2 * (j as usize));
        p = flat_wire(out, p, ws, stamp, w);
    }
    p
}

pub fn list(out: &mut [u8], at: usize, ws: &[u32], stamp: u16, s: &[u8], from: usize) -> usize
    ensures { Wrote (counted 1 (wire_bytes ws.now stamp) (list_at s.now from)) at out.old out.new result }
{
    let k = fields::byte(s, from);
    let p = field_writers::one(out, at, k);
    flat_wires(out, p, ws, stamp, s, from, k)
}

fn node(out: &mut [u8], at: usize, ws: &[u32], stamp: u16, s: &[u8], from: usize) -> usize
    ensures { Wrote (write_node (renamed (canon ws.now stamp) (node_at s.now from))) at out.old out.new result }
{
    let p = field_writers::name(out, at, s, from);
    let e = ends::name_end(s, from);
    let q = flat_wire(out, p, ws, stamp, fields::be16(s, e));
    list(out, q, ws, stamp, s, ends::on(s, e, 2))
}

// So many nodes, from a place on.
fn nodes(out: &mut [u8], at: usize, ws: &[u32], stamp: u16, s: &[u8], from: usize, n: u16) -> usize
    ensures { Wrote (nodes_from ws.now stamp s.now from n) at out.old out.new result }
{
    let mut p = at;
    let mut place = from;
    for _ in 0..n {
        p = node(out, p, ws, stamp, s, place);
        place = ends::node_end(s, place);
    }
    p
}

// The nodes after their count.
pub fn counted_nodes(
    out: &mut [u8],
    at: usize,
    ws: &[u32],
    stamp: u16,
    s: &[u8],
    from: usize,
) -> usize
    ensures { Wrote (nodes_part ws.now stamp s.now from) at out.old out.new result }
{
    let n = fields::be16(s, from);
    let p = field_writers::two(out, at, n);
    nodes(out, p, ws, stamp, s, ends::on(s, from, 2), n)
}

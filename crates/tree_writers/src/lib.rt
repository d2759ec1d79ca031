// A flat net written as a tree net: `to_tree` of net.rs, each node hung on its principal wire. The table by wire says which wires
// are one wire.
#![tactic(auto)]

ghost use Rattle.net_file.specs.Write.{counted, write_link};
ghost use Rattle.stored.specs.Stored.{list_at, node_at};
ghost use Rattle.wire_marks.specs.Marks.{canon};
ghost use Rattle.text_writers.specs.Wrote.{Wrote};
ghost use Rattle.tree_writers.specs.Trees.{hung, wire_bytes, wires_from, links_from, nodes_part, net_part};

fn tree_wire(out: &mut [u8], at: usize, ws: &[u32], stamp: u16, w: u16) -> usize
    ensures { Wrote (wire_bytes ws.now stamp w) at out.old out.new result }
{
    let p = field_writers::one(out, at, 0);
    field_writers::two(out, p, wire_marks::canonical(ws, stamp, w))
}

// As many wires as are said, after a count of one byte.
fn tree_wires(
    out: &mut [u8],
    at: usize,
    ws: &[u32],
    stamp: u16,
    s: &[u8],
    from: usize,
    n: u8,
) -> usize
    ensures { Wrote (wires_from ws.now stamp s.now from 0 n) at out.old out.new result }
{
    let mut p = at;
    for j in 0..n {
        let w = readers::be16_on(s, from, 1 + 2 * (j as usize));
        p = tree_wire(out, p, ws, stamp, w);
    }
    p
}

// A list of wires, each a tree.
fn list(out: &mut [u8], at: usize, ws: &[u32], stamp: u16, s: &[u8], from: usize) -> usize
    ensures { Wrote (counted 1 (wire_bytes ws.now stamp) (list_at s.now from)) at out.old out.new result }
{
    let k = fields::byte(s, from);
    let p = field_writers::one(out, at, k);
    tree_wires(out, p, ws, stamp, s, from, k)
}

// A node on its principal wire.
fn link(out: &mut [u8], at: usize, ws: &[u32], stamp: u16, s: &[u8], from: usize) -> usize
    ensures { Wrote (write_link (hung (canon ws.now stamp) (node_at s.now from))) at out.old out.new result }
{
    let e = ends::name_end(s, from);
    let p = tree_wire(out, at, ws, stamp, fields::be16(s, e));
    let q = field_writers::one(out, p, 1);
    let t = field_writers::name(out, q, s, from);
    list(out, t, ws, stamp, s, ends::on(s, e, 2))
}

// So many nodes, from a place on.
fn links(out: &mut [u8], at: usize, ws: &[u32], stamp: u16, s: &[u8], from: usize, n: u16) -> usize
    ensures { Wrote (links_from ws.now stamp s.now from n) at out.old out.new result }
{
    let mut p = at;
    let mut place = from;
    for _ in 0..n {
        p = link(out, p, ws, stamp, s, place);
        place = ends::node_end(s, place);
    }
    p
}

// The nodes after their count.
fn counted_links(out: &mut [u8], at: usize, ws: &[u32], stamp: u16, s: &[u8], from: usize) -> usize
    ensures { Wrote (nodes_part ws.now stamp s.now from) at out.old out.new result }
{
    let n = fields::be16(s, from);
    let p = field_writers::two(out, at, n);
    links(out, p, ws, stamp, s, ends::on(s, from, 2), n)
}

// The net at a place of the file.
pub fn tree_net(out: &mut [u8], at: usize, ws: &[u32], stamp: u16, s: &[u8], from: usize) -> usize
    ensures { Wrote (net_part ws.now stamp s.now from) at out.old out.new result }
{
    let p = field_writers::net_head(out, at, s, from);
    let q = list(out, p, ws, stamp, s, ends::on(s, from, 7));
    counted_links(out, q, ws, stamp, s, ends::node_count_at(s, from))
}

// A net's nodes written: `finish` of engine.rs, in the order of the node list, wires numbered at first meeting from 0.
#![tactic(auto)]

ghost use Rattle.std.specs.Prelude.{◌≡◌};
ghost use Rattle.write_nodes.specs.Nodes.{on, numbered, wire_number_words, after_wire, write_wire, write_wires, aux_ports, free_ports, write_free, write_name_words, write_ports, write_node_words, write_live, write_entry, write_list};

use kinds::{NetId, NodeId};
use layout::Port;

// The place to write at next, and the wire number to give next.
#[derive(Clone, Copy)]
pub struct Pen {
    pub at: usize,
    pub wire: u32,
}

// A port that holds this or more holds the number of its wire, and this.
const NUMBERED: u32 = 2147483648;

// The place k bytes on.
pub fn on(at: usize, k: usize) -> usize
    ensures { result ≡ on at k }
{
    std::num::wrapping_add_usize(at, k)
}

// ---- wires

// What both ports of wire w hold once it is met.
fn numbered(w: u32) -> u32
    ensures { result ≡ numbered w }
{
    std::num::wrapping_add_u32(NUMBERED, w)
}

// The number of port p's wire: w if it is met for the first time.
fn wire_number(ws: &mut [u32], p: Port, w: u32) -> u32
    ensures { (result ≡ (wire_number_words ws.old p.0 w).is) × (ws.new ≡ (wire_number_words ws.old p.0 w).ws) }
{
    let q = layout::across(ws, p);
    if q.0 < NUMBERED {
        let v = Port(numbered(w));
        layout::set_across(ws, p, v);
        layout::set_across(ws, q, v);
        return w;
    }
    q.0 - NUMBERED
}

// The number to give next, after a wire of this number.
fn after_wire(w: u32, number: u32) -> u32
    ensures { result ≡ after_wire w number }
{
    if number == w {
        return layout::next(w);
    }
    w
}

// The wire of port p.
fn write_wire(ws: &mut [u32], out: &mut [u8], p: Port, pen: Pen) -> Pen
    ensures { (result ≡ (write_wire ws.old out.old p.0 pen).is) × (ws.new ≡ (write_wire ws.old out.old p.0 pen).ws) × (out.new ≡ (write_wire ws.old out.old p.0 pen).out) }
{
    let number = wire_number(ws, p, pen.wire);
    store::store16(out, pen.at, (number % 65536) as u16);
    let at = on(pen.at, 2);
    let wire = after_wire(pen.wire, number);
    Pen { at, wire }
}

// The wires of k ports from p on.
fn write_wires(ws: &mut [u32], out: &mut [u8], p: Port, k: u32, start: Pen) -> Pen
    ensures { (result ≡ (write_wires ws.old out.old p.0 k start).is) × (ws.new ≡ (write_wires ws.old out.old p.0 k start).ws) × (out.new ≡ (write_wires ws.old out.old p.0 k start).out) }
{
    let mut port = p;
    let mut pen = start;
    for _ in 0..k {
        pen = write_wire(ws, out, port, pen);
        port = layout::next_port(port);
    }
    pen
}

// ---- nodes

// Aux ports of node n.
fn aux_ports(ws: &[u32], n: NodeId) -> u32
    ensures { result ≡ aux_ports ws.now n.0 }
{
    layout::less(tried::arity(ws, n))
}

// Free ports of a net, of its free node n.
fn free_ports(ws: &[u32], n: NodeId) -> u32
    ensures { result ≡ free_ports ws.now n.0 }
{
    layout::less(aux_ports(ws, n))
}

// The free node's wires, at a place; its own wire, of ports 0 and 1, has a number and no place in a file.
fn write_free(ws: &mut [u32], out: &mut [u8], n: NodeId, at: usize, pen: Pen) -> Pen
    ensures { (result ≡ (write_free ws.old out.old n.0 at pen).is) × (ws.new ≡ (write_free ws.old out.old n.0 at pen).ws) × (out.new ≡ (write_free ws.old out.old n.0 at pen).out) }
{
    let p = layout::principal(n);
    let k = free_ports(ws, n);
    let number = wire_number(ws, p, pen.wire);
    let wire = after_wire(pen.wire, number);
    let q = layout::next_port(p);
    let end = write_wires(ws, out, layout::next_port(q), k, Pen { at, wire });
    Pen {
        at: pen.at,
        wire: end.wire,
    }
}

// The name at a place of the file; the place after it.
fn write_name(file: &[u8], out: &mut [u8], name: u32, at: usize) -> usize
    ensures { (result ≡ (write_name_words file.now out.old name at).is) × (out.new ≡ (write_name_words file.now out.old name at).out) }
{
    let from = name as usize;
    let end = ends::name_end(file, from);
    store::copy(out, at, file, from, end);
    on(at, measure::span(from, end))
}

// A node's principal wire, the number of its aux wires, these.
fn write_ports(ws: &mut [u32], out: &mut [u8], n: NodeId, pen: Pen) -> Pen
    ensures { (result ≡ (write_ports ws.old out.old n.0 pen).is) × (ws.new ≡ (write_ports ws.old out.old n.0 pen).ws) × (out.new ≡ (write_ports ws.old out.old n.0 pen).out) }
{
    let k = aux_ports(ws, n);
    let p = layout::principal(n);
    let q = layout::next_port(p);
    let first = write_wire(ws, out, p, pen);
    store::store8(out, first.at, (k % 256) as u8);
    let at = on(first.at, 1);
    write_wires(
        ws,
        out,
        q,
        k,
        Pen {
            at,
            wire: first.wire,
        },
    )
}

// A node: its name, its wires.
fn write_node(ws: &mut [u32], file: &[u8], out: &mut [u8], n: NodeId, pen: Pen) -> Pen
    ensures { (result ≡ (write_node_words ws.old file.now out.old n.0 pen).is) × (ws.new ≡ (write_node_words ws.old file.now out.old n.0 pen).ws) × (out.new ≡ (write_node_words ws.old file.now out.old n.0 pen).out) }
{
    let at = write_name(file, out, tried::name(ws, n), pen.at);
    write_ports(ws, out, n, Pen { at, wire: pen.wire })
}

// ---- lists

// Where a list is written: its net, and the place of its free wires.
#[derive(Clone, Copy)]
pub struct Page {
    pub net: NetId,
    pub free: usize,
}

// A node at its first place in its net's list. It is no more met.
fn write_live(ws: &mut [u32], file: &[u8], out: &mut [u8], page: Page, n: NodeId, pen: Pen) -> Pen
    ensures { (result ≡ (write_live ws.old file.now out.old page n.0 pen).is) × (ws.new ≡ (write_live ws.old file.now out.old page n.0 pen).ws) × (out.new ≡ (write_live ws.old file.now out.old page n.0 pen).out) }
{
    layout::set_node_word(ws, n, 0, 0);
    if n == NodeId(layout::net_word(ws, page.net, 1)) {
        return write_free(ws, out, n, page.free, pen);
    }
    write_node(ws, file, out, n, pen)
}

// An entry of a list: a stale one is passed over.
fn write_entry(ws: &mut [u32], file: &[u8], out: &mut [u8], page: Page, n: NodeId, pen: Pen) -> Pen
    ensures { (result ≡ (write_entry ws.old file.now out.old page n.0 pen).is) × (ws.new ≡ (write_entry ws.old file.now out.old page n.0 pen).ws) × (out.new ≡ (write_entry ws.old file.now out.old page n.0 pen).out) }
{
    if layout::node_word(ws, n, 0) == page.net.0 {
        return write_live(ws, file, out, page, n, pen);
    }
    pen
}

// A net's list, in order.
pub fn write_list(ws: &mut [u32], file: &[u8], out: &mut [u8], page: Page, start: Pen) -> Pen
    ensures { (result ≡ (write_list ws.old file.now out.old page start).is) × (ws.new ≡ (write_list ws.old file.now out.old page start).ws) × (out.new ≡ (write_list ws.old file.now out.old page start).out) }
{
    let count = layout::net_word(ws, page.net, 4);
    let mut c = layout::net_word(ws, page.net, 2);
    let mut pen = start;
    for _ in 0..count {
        let n = NodeId(layout::entry_word(ws, c, 0));
        pen = write_entry(ws, file, out, page, n, pen);
        c = layout::entry_word(ws, c, 1);
    }
    pen
}

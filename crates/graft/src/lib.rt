// The rule graft of common.rs, and `graft_net` of engine.rs.
#![tactic(auto)]

ghost use Rattle.std.specs.Prelude.{◌≡◌};
ghost use Rattle.graft.specs.Graft.{copy_node, copy_entries, copy_nodes, copy_of, copied_port, wire_ports, wire_copy, wire_entries, wire_copies, give_way, join_ports, copied_free, graft_net_words, graft_ready, graft_named_words, graft_child_words, graft};

use edits::Placed;
use kinds::{NetId, NodeId};
use layout::Port;
use tried::Tried;
use waits::Awaited;

// A copy of node n in net t, clean, its ports not yet wired; the clone map has its number.
fn copy_node(ws: &mut [u32], t: NetId, n: NodeId) -> u32
    ensures { (result ≡ (copy_node ws.old t.0 n.0).is) × (ws.new ≡ (copy_node ws.old t.0 n.0).ws) }
{
    let name = tried::name(ws, n);
    let k = tried::arity(ws, n);
    let placed = edits::place_node(ws, t, name, k);
    match placed {
        Placed::At(m) => {
            layout::set_node_word(ws, n, 5, m.0);
            0
        }
        Placed::Refused(r) => r,
    }
}

// Copies of the nodes of k entries from entry c on; 0, or the number by which one is refused.
fn copy_entries(ws: &mut [u32], t: NetId, first: u32, count: u32) -> u32
    ensures { (result ≡ (copy_entries ws.old t.0 first count).is) × (ws.new ≡ (copy_entries ws.old t.0 first count).ws) }
{
    let mut c = first;
    for _ in 0..count {
        let n = NodeId(layout::entry_word(ws, c, 0));
        let r = copy_node(ws, t, n);
        if 0 < r {
            return r;
        }
        c = layout::entry_word(ws, c, 1);
    }
    0
}

// Copies of the nodes in net m's list.
fn copy_nodes(ws: &mut [u32], m: NetId, t: NetId) -> u32
    ensures { (result ≡ (copy_nodes ws.old m.0 t.0).is) × (ws.new ≡ (copy_nodes ws.old m.0 t.0).ws) }
{
    let first = layout::net_word(ws, m, 2);
    let count = layout::net_word(ws, m, 4);
    copy_entries(ws, t, first, count)
}

fn copy_of(ws: &[u32], n: NodeId) -> NodeId
    ensures { result.0 ≡ copy_of ws.now n.0 }
{
    NodeId(layout::node_word(ws, n, 5))
}

// The same port of the copy of its node.
fn copied_port(ws: &[u32], p: Port) -> Port
    ensures { result.0 ≡ copied_port ws.now p.0 }
{
    let m = copy_of(ws, layout::node_of(p));
    Port(((32 * m.0 as u64 + (p.0 % 32) as u64) % 4294967296) as u32)
}

// k ports from q on are wired as those from p on, in the copies.
fn wire_ports(ws: &mut [u32], p: Port, q: Port, k: u32)
    ensures { ws.new ≡ wire_ports ws.old p.0 q.0 k }
{
    let mut x = p;
    let mut y = q;
    for _ in 0..k {
        let z = copied_port(ws, layout::across(ws, x));
        layout::set_across(ws, y, z);
        x = layout::next_port(x);
        y = layout::next_port(y);
    }
}

fn wire_copy(ws: &mut [u32], n: NodeId)
    ensures { ws.new ≡ wire_copy ws.old n.0 }
{
    let m = copy_of(ws, n);
    let k = tried::arity(ws, n);
    wire_ports(ws, layout::principal(n), layout::principal(m), k)
}

// The copies of the nodes of k entries from entry c on are wired.
fn wire_entries(ws: &mut [u32], first: u32, count: u32)
    ensures { ws.new ≡ wire_entries ws.old first count }
{
    let mut c = first;
    for _ in 0..count {
        let n = NodeId(layout::entry_word(ws, c, 0));
        wire_copy(ws, n);
        c = layout::entry_word(ws, c, 1);
    }
}

// The copies of the nodes in net m's list.
fn wire_copies(ws: &mut [u32], m: NetId)
    ensures { ws.new ≡ wire_copies ws.old m.0 }
{
    let first = layout::net_word(ws, m, 2);
    let count = layout::net_word(ws, m, 4);
    wire_entries(ws, first, count)
}

// The copied free node f gives way to node n: its own wire goes, its k other ports are joined with those of n.
fn give_way(ws: &mut [u32], f: NodeId, n: NodeId, k: u32)
    ensures { ws.new ≡ give_way ws.old f.0 n.0 k }
{
    let p = layout::principal(f);
    let q = layout::next_port(p);
    graph::remove_node(ws, f);
    graph::link(ws, p, q);
    graph::remove_node(ws, n);
    graph::link_all(ws, layout::next_port(q), layout::principal(n), k)
}

fn join_ports(ws: &mut [u32], f: NodeId, n: NodeId) -> Tried
    ensures { (result ≡ (join_ports ws.old f.0 n.0).is) × (ws.new ≡ (join_ports ws.old f.0 n.0).ws) }
{
    let k = tried::arity(ws, n);
    let ports = tried::arity(ws, f);
    if ports as u64 == k as u64 + 2 {
        give_way(ws, f, n, k);
        return Tried::Acted;
    }
    Tried::Refused(13)
}

// The copy of net m's free node.
fn copied_free(ws: &[u32], m: NetId) -> NodeId
    ensures { result.0 ≡ copied_free ws.now m.0 }
{
    copy_of(ws, NodeId(layout::net_word(ws, m, 1)))
}

fn graft_net(ws: &mut [u32], m: NetId, t: NetId, n: NodeId) -> Tried
    ensures { (result ≡ (graft_net_words ws.old m.0 t.0 n.0).is) × (ws.new ≡ (graft_net_words ws.old m.0 t.0 n.0).ws) }
{
    lists::tighten_net(ws, m);
    let r = copy_nodes(ws, m, t);
    if 0 < r {
        return Tried::Refused(r);
    }
    wire_copies(ws, m);
    join_ports(ws, copied_free(ws, m), n)
}

// Net m is at 0.
fn graft_ready(ws: &mut [u32], m: NetId, t: NetId, n: NodeId) -> Tried
    ensures { (result ≡ (graft_ready ws.old m.0 t.0 n.0).is) × (ws.new ≡ (graft_ready ws.old m.0 t.0 n.0).ws) }
{
    if tried::spent(ws) {
        return Tried::Refused(14);
    }
    graft_net(ws, m, t, n)
}

fn graft_named(ws: &mut [u32], m: NetId, t: NetId, n: NodeId) -> Tried
    ensures { (result ≡ (graft_named_words ws.old m.0 t.0 n.0).is) × (ws.new ≡ (graft_named_words ws.old m.0 t.0 n.0).ws) }
{
    let awaited = waits::await_net(ws, m, n);
    match awaited {
        Awaited::Ready => graft_ready(ws, m, t, n),
        Awaited::Waiting => Tried::Passed,
        Awaited::Full => Tried::Refused(11),
    }
}

fn graft_child(ws: &mut [u32], file: &[u8], t: NetId, n: NodeId) -> Tried
    ensures { (result ≡ (graft_child_words ws.old file.now t.0 n.0).is) × (ws.new ≡ (graft_child_words ws.old file.now t.0 n.0).ws) }
{
    let name = tried::name(ws, n);
    if node_names::child_count(file, name) == 0 {
        return Tried::Refused(12);
    }
    let m = layout::net_by_name(ws, node_names::first_child(file, name));
    if m.0 == 0 {
        return Tried::Passed;
    }
    graft_named(ws, m, t, n)
}

pub fn graft(ws: &mut [u32], file: &[u8], lazy: bool, t: NetId, n: NodeId) -> Tried
    ensures { (result ≡ (graft ws.old file.now lazy t.0 n.0).is) × (ws.new ≡ (graft ws.old file.now lazy t.0 n.0).ws) }
{
    if lazy {
        if layout::is_principal(layout::across(ws, layout::principal(n))) {
            return graft_child(ws, file, t, n);
        }
        return Tried::Passed;
    }
    graft_child(ws, file, t, n)
}

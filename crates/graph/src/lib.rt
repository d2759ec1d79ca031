// Nodes, ports and dirty marks: `link`, `remove_wire`, `mark_dirty`, `insert_node`, `remove_node` of engine.rs.
#![tactic(auto)]

ghost use Rattle.std.specs.Prelude.{◌≡◌};
ghost use Rattle.graph.specs.Graph.{grown, push_dirty, more, fewer, mark_dirty_words, join, link, link_all, remove_wire, remove_node, holes};

use kinds::{NetId, NodeId};
use layout::Port;

// A `Vec`'s capacity after a push that finds so many entries.
pub fn grown(capacity: u32, length: u32) -> u32
    ensures { result ≡ grown capacity length }
{
    if length == capacity {
        if capacity == 0 {
            return 4;
        }
        return std::num::wrapping_add_u32(capacity, capacity);
    }
    capacity
}

pub fn push_dirty(ws: &mut [u32], n: NodeId)
    ensures { ws.new ≡ push_dirty ws.old n.0 }
{
    let k = words::get(ws, layout::DIRTY_LENGTH);
    let c = words::get(ws, layout::DIRTY_CAPACITY);
    words::put(ws, layout::dirty_at(k), n.0);
    if k == c {
        words::put(ws, layout::DIRTY_CAPACITY, grown(c, k));
        words::put(ws, layout::DIRTY_LENGTH, layout::next(k));
        return;
    }
    words::put(ws, layout::DIRTY_LENGTH, layout::next(k))
}

// Net t has one more pending.
pub fn more(ws: &mut [u32], t: NetId)
    ensures { ws.new ≡ more ws.old t.0 }
{
    let p = layout::net_word(ws, t, 7);
    layout::set_net_word(ws, t, 7, layout::next(p))
}

pub fn fewer(ws: &mut [u32], t: NetId)
    ensures { ws.new ≡ fewer ws.old t.0 }
{
    let p = layout::net_word(ws, t, 7);
    layout::set_net_word(ws, t, 7, layout::less(p))
}

fn mark_slot(ws: &mut [u32], n: NodeId)
    ensures { ws.new ≡ mark_dirty_words ws.old n.0 }
{
    if layout::node_word(ws, n, 2) == 0 {
        layout::set_node_word(ws, n, 2, 1);
        push_dirty(ws, n);
        let t = layout::node_word(ws, n, 0);
        more(ws, NetId(t))
    }
}

// The same either way; where the node's record is there, this is tested once and not for each word.
pub fn mark_dirty(ws: &mut [u32], n: NodeId)
    ensures { ws.new ≡ mark_dirty_words ws.old n.0 }
{
    if layout::node_at(n, 2) < ws.len() {
        mark_slot(ws, n)
    } else {
        mark_slot(ws, n)
    }
}

// The two ends are wired together, and their nodes marked.
fn join(ws: &mut [u32], x: Port, y: Port)
    ensures { ws.new ≡ join ws.old x.0 y.0 }
{
    layout::set_across(ws, x, y);
    layout::set_across(ws, y, x);
    mark_dirty(ws, layout::node_of(x));
    mark_dirty(ws, layout::node_of(y))
}

pub fn link(ws: &mut [u32], a: Port, b: Port)
    ensures { ws.new ≡ link ws.old a.0 b.0 }
{
    let x = layout::across(ws, a);
    layout::set_across(ws, a, a);
    if x == b {
        layout::set_across(ws, b, b);
        return;
    }
    let y = layout::across(ws, b);
    layout::set_across(ws, b, b);
    join(ws, x, y)
}

// k ports of the one from a on with those from b on.
pub fn link_all(ws: &mut [u32], a: Port, b: Port, k: u32)
    ensures { ws.new ≡ link_all ws.old a.0 b.0 k }
{
    let mut x = a;
    let mut y = b;
    for _ in 0..k {
        link(ws, x, y);
        x = layout::next_port(x);
        y = layout::next_port(y);
    }
}

pub fn remove_wire(ws: &mut [u32], a: Port, b: Port)
    ensures { ws.new ≡ remove_wire ws.old a.0 b.0 }
{
    layout::set_across(ws, a, a);
    layout::set_across(ws, b, b)
}

// The node is to be removed when the edit is finished.
pub fn remove_node(ws: &mut [u32], n: NodeId)
    ensures { ws.new ≡ remove_node ws.old n.0 }
{
    let k = words::get(ws, layout::DEAD);
    words::put(ws, 32 + k as usize, n.0);
    words::put(ws, layout::DEAD, layout::next(k))
}

// k ports from p on are holes.
pub fn holes(ws: &mut [u32], p: Port, k: u32)
    ensures { ws.new ≡ holes ws.old p.0 k }
{
    let mut q = p;
    for _ in 0..k {
        layout::set_across(ws, q, q);
        q = layout::next_port(q);
    }
}

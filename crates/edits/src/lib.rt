// Nodes put in and taken out: `insert_node` and `finish_edit` of engine.rs.
#![tactic(auto)]

ghost use Rattle.std.specs.Prelude.{◌≡◌};
ghost use Rattle.edits.specs.Edits.{fill, place_node, insert_node, loose, went_dirty, went, vacate, remove, remove_dead, finish_edit_words};

use kinds::{NetId, NodeId};

#[derive(Clone, Copy)]
pub enum Placed {
    At(NodeId),
    Refused(u32),
}

// A node with so many ports in slot n, all holes.
fn fill_slot(ws: &mut [u32], n: NodeId, t: NetId, name: u32, arity: u32)
    ensures { ws.new ≡ fill ws.old n.0 t.0 name arity }
{
    layout::set_node_word(ws, n, 0, t.0);
    layout::set_node_word(ws, n, 1, name);
    layout::set_node_word(ws, n, 3, arity);
    graph::holes(ws, layout::principal(n), arity)
}

// The same either way; where the whole record is there, it is tested once and not for each word.
fn fill(ws: &mut [u32], n: NodeId, t: NetId, name: u32, arity: u32)
    ensures { ws.new ≡ fill ws.old n.0 t.0 name arity }
{
    if layout::node_at(n, 31) < ws.len() {
        fill_slot(ws, n, t, name, arity)
    } else {
        fill_slot(ws, n, t, name, arity)
    }
}

// A clean node. Slot before entry.
pub fn place_node(ws: &mut [u32], t: NetId, name: u32, arity: u32) -> Placed
    ensures { (result ≡ (place_node ws.old t.0 name arity).is) × (ws.new ≡ (place_node ws.old t.0 name arity).ws) }
{
    let c = pools::take_slot(ws);
    if c == 0 {
        return Placed::Refused(9);
    }
    let n = NodeId(layout::less(c));
    if lists::push_node(ws, t, n) {
        fill(ws, n, t, name, arity);
        return Placed::At(n);
    }
    Placed::Refused(10)
}

pub fn insert_node(ws: &mut [u32], t: NetId, name: u32, arity: u32) -> Placed
    ensures { (result ≡ (insert_node ws.old t.0 name arity).is) × (ws.new ≡ (insert_node ws.old t.0 name arity).ws) }
{
    let placed = place_node(ws, t, name, arity);
    match placed {
        Placed::At(n) => {
            graph::mark_dirty(ws, n);
            Placed::At(n)
        }
        Placed::Refused(r) => Placed::Refused(r),
    }
}

// Twice the stale entries reach the capacity.
fn loose(stale: u32, capacity: u32) -> bool
    ensures { result ≡ loose stale capacity }
{
    capacity as u64 <= 2 * stale as u64
}

// A dirty node of net t went.
fn went_dirty(ws: &mut [u32], t: NetId)
    ensures { ws.new ≡ went_dirty ws.old t.0 }
{
    let stale = layout::next(words::get(ws, layout::DIRTY_STALE));
    words::put(ws, layout::DIRTY_STALE, stale);
    graph::fewer(ws, t);
    if loose(stale, words::get(ws, layout::DIRTY_CAPACITY)) {
        lists::tighten_dirty(ws)
    }
}

// Net t's list has one stale entry more.
fn went(ws: &mut [u32], t: NetId)
    ensures { ws.new ≡ went ws.old t.0 }
{
    let stale = layout::next(layout::net_word(ws, t, 6));
    layout::set_net_word(ws, t, 6, stale);
    if loose(stale, layout::net_word(ws, t, 5)) {
        lists::tighten_net(ws, t)
    }
}

// Slot n is vacant.
fn vacate(ws: &mut [u32], n: NodeId)
    ensures { ws.new ≡ vacate ws.old n.0 }
{
    layout::set_node_word(ws, n, 0, 0);
    layout::set_node_word(ws, n, 2, 0);
    pools::give_slot(ws, n)
}

fn remove(ws: &mut [u32], n: NodeId)
    ensures { ws.new ≡ remove ws.old n.0 }
{
    let t = NetId(layout::node_word(ws, n, 0));
    let dirty = layout::node_word(ws, n, 2);
    vacate(ws, n);
    if dirty == 1 {
        went_dirty(ws, t);
        went(ws, t)
    } else {
        went(ws, t)
    }
}

// The i-th dead node goes.
fn remove_dead(ws: &mut [u32], i: u32)
    ensures { ws.new ≡ remove_dead ws.old i }
{
    let n = NodeId(words::get(ws, 32 + i as usize));
    remove(ws, n)
}

pub fn finish_edit(ws: &mut [u32])
    ensures { ws.new ≡ finish_edit_words ws.old }
{
    let dead = words::get(ws, layout::DEAD);
    for i in 0..dead {
        remove_dead(ws, i);
    }
    words::put(ws, layout::DEAD, 0)
}

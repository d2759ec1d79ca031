// Node lists and the dirty list: pushes, `tighten_net`, `tighten_dirty` of engine.rs.
#![tactic(auto)]

ghost use Rattle.std.specs.Prelude.{◌≡◌};
ghost use Rattle.layout.specs.Layout.{set_entry_word};
ghost use Rattle.lists.specs.Lists.{put_after, count_entry, append, push_node, sift, close, sweep, restore, tighten_net_words, dirty_node, keep_dirty, sweep_dirty, dirty_again, restore_dirty, tighten_dirty_words};

use kinds::{NetId, NodeId};

// Where a walk over a node list stands: the entry to look at, the last one that stays or 0, how many stay.
#[derive(Clone, Copy)]
pub struct Walk {
    pub entry: u32,
    pub last: u32,
    pub kept: u32,
}

// Entry c comes after entry p of net t's list, or first where p is 0.
pub fn put_after(ws: &mut [u32], t: NetId, p: u32, c: u32)
    ensures { ws.new ≡ put_after ws.old t.0 p c }
{
    if p == 0 {
        layout::set_net_word(ws, t, 2, c)
    } else {
        layout::set_entry_word(ws, p, 1, c)
    }
}

// One more in net t's list.
fn count_more(ws: &mut [u32], t: NetId)
    ensures { ws.new ≡ count_entry ws.old t.0 }
{
    let length = layout::net_word(ws, t, 4);
    let capacity = layout::net_word(ws, t, 5);
    if length == capacity {
        layout::set_net_word(ws, t, 5, graph::grown(capacity, length));
        layout::set_net_word(ws, t, 4, layout::next(length));
        return;
    }
    layout::set_net_word(ws, t, 4, layout::next(length))
}

// The same either way; where the net's words are there, this is tested once and not for each.
fn count_entry(ws: &mut [u32], t: NetId)
    ensures { ws.new ≡ count_entry ws.old t.0 }
{
    if layout::net_at(t, 5) < ws.len() {
        count_more(ws, t)
    } else {
        count_more(ws, t)
    }
}

// Entry c holds node n, and is the last.
fn put_entry(ws: &mut [u32], c: u32, n: NodeId)
    ensures { ws.new ≡ set_entry_word (set_entry_word ws.old c 0 n.0) c 1 0 }
{
    let i = layout::entry_at(ws, c, 0);
    words::put(ws, i, n.0);
    words::put(ws, i + 1, 0)
}

// Entry c, with node n, at the end of net t's list.
fn append(ws: &mut [u32], t: NetId, n: NodeId, c: u32)
    ensures { ws.new ≡ append ws.old t.0 n.0 c }
{
    let p = layout::net_word(ws, t, 3);
    put_entry(ws, c, n);
    put_after(ws, t, p, c);
    layout::set_net_word(ws, t, 3, c);
    count_entry(ws, t)
}

// Whether there was an entry for it.
pub fn push_node(ws: &mut [u32], t: NetId, n: NodeId) -> bool
    ensures { (result ≡ (push_node ws.old t.0 n.0).is) × (ws.new ≡ (push_node ws.old t.0 n.0).ws) }
{
    let c = pools::take_entry(ws);
    if c == 0 {
        return false;
    }
    append(ws, t, n, c);
    true
}

// A node of net t that is in its place: no net has the number 257.
const KEPT: u32 = 257;

fn sift(ws: &mut [u32], t: NetId, w: Walk) -> Walk
    ensures { (result ≡ (sift ws.old t.0 w).is) × (ws.new ≡ (sift ws.old t.0 w).ws) }
{
    let n = NodeId(layout::entry_word(ws, w.entry, 0));
    let after = layout::entry_word(ws, w.entry, 1);
    if layout::node_word(ws, n, 0) == t.0 {
        layout::set_node_word(ws, n, 0, KEPT);
        put_after(ws, t, w.last, w.entry);
        return Walk {
            entry: after,
            last: w.entry,
            kept: layout::next(w.kept),
        };
    }
    pools::give_entry(ws, w.entry);
    Walk {
        entry: after,
        last: w.last,
        kept: w.kept,
    }
}

// The list ends with the last that stays; none is stale.
fn close(ws: &mut [u32], t: NetId, w: Walk)
    ensures { ws.new ≡ close ws.old t.0 w }
{
    put_after(ws, t, w.last, 0);
    layout::set_net_word(ws, t, 3, w.last);
    layout::set_net_word(ws, t, 4, w.kept);
    layout::set_net_word(ws, t, 6, 0)
}

fn sweep(ws: &mut [u32], t: NetId)
    ensures { ws.new ≡ sweep ws.old t.0 }
{
    let k = layout::net_word(ws, t, 4);
    let mut w = Walk {
        entry: layout::net_word(ws, t, 2),
        last: 0,
        kept: 0,
    };
    for _ in 0..k {
        w = sift(ws, t, w);
    }
    close(ws, t, w)
}

// The nodes in net t's list are its own again.
fn restore(ws: &mut [u32], t: NetId)
    ensures { ws.new ≡ restore ws.old t.0 }
{
    let k = layout::net_word(ws, t, 4);
    let mut c = layout::net_word(ws, t, 2);
    for _ in 0..k {
        let n = NodeId(layout::entry_word(ws, c, 0));
        layout::set_node_word(ws, n, 0, t.0);
        c = layout::entry_word(ws, c, 1);
    }
}

pub fn tighten_net(ws: &mut [u32], t: NetId)
    ensures { ws.new ≡ tighten_net_words ws.old t.0 }
{
    sweep(ws, t);
    restore(ws, t)
}

// The node at entry i of the dirty list.
fn dirty_node(ws: &[u32], i: u32) -> NodeId
    ensures { result.0 ≡ dirty_node ws.now i }
{
    NodeId(words::get(ws, layout::dirty_at(i)))
}

// Entry i of the dirty list moves to place `kept`, if its node is still dirty; how many are kept then.
fn keep_dirty(ws: &mut [u32], i: u32, kept: u32) -> u32
    ensures { (result ≡ (keep_dirty ws.old i kept).is) × (ws.new ≡ (keep_dirty ws.old i kept).ws) }
{
    let n = dirty_node(ws, i);
    if layout::node_word(ws, n, 2) == 1 {
        layout::set_node_word(ws, n, 2, 0);
        words::put(ws, layout::dirty_at(kept), n.0);
        return layout::next(kept);
    }
    kept
}

fn sweep_dirty(ws: &mut [u32])
    ensures { ws.new ≡ sweep_dirty ws.old }
{
    let length = words::get(ws, layout::DIRTY_LENGTH);
    let mut kept: u32 = 0;
    for i in 0..length {
        kept = keep_dirty(ws, i, kept);
    }
    words::put(ws, layout::DIRTY_LENGTH, kept);
    words::put(ws, layout::DIRTY_STALE, 0)
}

// The node at entry i is dirty again.
fn dirty_again(ws: &mut [u32], i: u32)
    ensures { ws.new ≡ dirty_again ws.old i }
{
    let n = dirty_node(ws, i);
    layout::set_node_word(ws, n, 2, 1)
}

// All nodes in the dirty list.
fn restore_dirty(ws: &mut [u32])
    ensures { ws.new ≡ restore_dirty ws.old }
{
    let length = words::get(ws, layout::DIRTY_LENGTH);
    for i in 0..length {
        dirty_again(ws, i);
    }
}

pub fn tighten_dirty(ws: &mut [u32])
    ensures { ws.new ≡ tighten_dirty_words ws.old }
{
    sweep_dirty(ws);
    restore_dirty(ws)
}

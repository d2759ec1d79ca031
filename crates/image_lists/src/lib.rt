// The node lists of an image: chains that share no entry. A walk over them marks every entry and every node that it meets.
#![tactic(auto, unfolding(crate::specs::Lists::entry_holds, crate::specs::Lists::meets, crate::specs::Lists::meet, crate::specs::Lists::step_on, crate::specs::Lists::step, crate::specs::Lists::sizes_hold, crate::specs::Lists::list_sizes_hold, crate::specs::Lists::first_holds, crate::specs::Lists::starts, crate::specs::Lists::end_holds, crate::specs::Lists::walked, crate::specs::Lists::list_holds, words::specs::Choose::pick, words::specs::Choose::if_eq, words::specs::Choose::if_lt))]

ghost use Rattle.std.specs.Prelude.{◌≡◌};
ghost use Rattle.marks.specs.Walks.{each_with};
ghost use Rattle.image_lists.specs.Lists.{entry_holds, meets, meet, step, walk_list, sizes_hold, list_sizes_hold, end_holds, first_holds, starts, list_holds};

use image_chains::Pool;
use kinds::{NetId, NodeId};

// ---- marks: of entry c at c, of slot n at 16,385 + n

// Entry c is in use, has not been met, and names a slot.
fn entry_holds(ws: &[u32], marks: &[u8], c: u32) -> bool
    ensures { result ≡ entry_holds ws.now marks.now c }
{
    image_chains::is_new(ws, marks, Pool::Entries, c)
        && layout::entry_word(ws, c, 0) < words::get(ws, layout::NODE_POOL)
}

// Slot n holds a node of net t that has not been met.
fn meets(ws: &[u32], marks: &[u8], t: NetId, n: u32) -> bool
    ensures { result ≡ meets ws.now marks.now t.0 n }
{
    layout::node_word(ws, NodeId(n), 0) == t.0 && marks::clear(marks, 16385 + n as usize)
}

// ---- lists

// Where a walk over a list stands: the entry to look at, the one before it, and how many nodes of the net it has met. Past an
// entry that is not in order both are 0.
#[derive(Clone, Copy)]
pub struct Walk {
    pub entry: u32,
    pub last: u32,
    pub met: u32,
}

// How many nodes are met, with slot n.
fn meet(ws: &[u32], marks: &mut [u8], t: NetId, n: u32, met: u32) -> u32
    ensures { (result ≡ (meet ws.now marks.old t.0 n met).is) × (marks.new ≡ (meet ws.now marks.old t.0 n met).ws) }
{
    if meets(ws, marks, t, n) {
        marks::mark(marks, 16385 + n as usize);
        layout::next(met)
    } else {
        met
    }
}

fn step(ws: &[u32], marks: &mut [u8], t: NetId, w: Walk) -> Walk
    ensures { (result ≡ (step ws.now marks.old t.0 w).is) × (marks.new ≡ (step ws.now marks.old t.0 w).ws) }
{
    let c = w.entry;
    if !entry_holds(ws, marks, c) {
        return Walk {
            entry: 0,
            last: 0,
            ..w
        };
    }
    marks::mark(marks, c as usize);
    let met = meet(ws, marks, t, layout::entry_word(ws, c, 0), w.met);
    Walk {
        entry: layout::entry_word(ws, c, 1),
        last: c,
        met,
    }
}

// k entries on.
fn walk_list(ws: &[u32], marks: &mut [u8], t: NetId, from: Walk, k: u32) -> Walk
    ensures { (result ≡ (walk_list ws.now marks.old t.0 from k).is) × (marks.new ≡ (walk_list ws.now marks.old t.0 from k).ws) }
{
    let mut w = from;
    for _ in 0..k {
        w = step(ws, marks, t, w);
    }
    w
}

// A capacity that pushes make, 4, 8 .. 16,384; so many entries fit, and the stale ones are under half of it.
pub fn sizes_hold(length: u32, capacity: u32, stale: u32) -> bool
    ensures { result ≡ sizes_hold length capacity stale }
{
    4 <= capacity
        && 16384 % capacity == 0
        && length <= capacity
        && 2 * (stale as u64) < capacity as u64
}

fn list_sizes_hold(ws: &[u32], t: NetId) -> bool
    ensures { result ≡ list_sizes_hold ws.now t.0 }
{
    sizes_hold(
        layout::net_word(ws, t, 4),
        layout::net_word(ws, t, 5),
        layout::net_word(ws, t, 6),
    )
}

// The free node is first.
fn first_holds(ws: &[u32], t: NetId) -> bool
    ensures { result ≡ first_holds ws.now t.0 }
{
    let c = layout::net_word(ws, t, 2);
    layout::entry_word(ws, c, 0) == layout::net_word(ws, t, 1)
}

fn starts(ws: &[u32], t: NetId) -> bool
    ensures { result ≡ starts ws.now t.0 }
{
    list_sizes_hold(ws, t) && first_holds(ws, t)
}

// The walk came to the list's end, and all but the stale entries were nodes.
fn end_holds(ws: &[u32], t: NetId, w: Walk) -> bool
    ensures { result ≡ end_holds ws.now t.0 w }
{
    w.last != 0
        && w.entry == 0
        && w.last == layout::net_word(ws, t, 3)
        && w.met as u64 + layout::net_word(ws, t, 6) as u64 == layout::net_word(ws, t, 4) as u64
}

fn list_holds(ws: &[u32], marks: &mut [u8], t: NetId) -> bool
    ensures { (result ≡ (list_holds ws.now marks.old t.0).is) × (marks.new ≡ (list_holds ws.now marks.old t.0).ws) }
{
    if !starts(ws, t) {
        return false;
    }
    let from = Walk {
        entry: layout::net_word(ws, t, 2),
        last: 0,
        met: 0,
    };
    let w = walk_list(ws, marks, t, from, layout::net_word(ws, t, 4));
    end_holds(ws, t, w)
}

// The lists of k nets.
pub fn each_list_holds(ws: &[u32], marks: &mut [u8], k: u32) -> bool
    ensures { (result ≡ (each_with (list_holds ws.now) marks.old 1 k).is) × (marks.new ≡ (each_with (list_holds ws.now) marks.old 1 k).ws) }
{
    for i in 0..k {
        if !list_holds(ws, marks, NetId(i + 1)) {
            return false;
        }
    }
    true
}

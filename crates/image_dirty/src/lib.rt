// The dirty list of an image: every dirty node is in it, and the counts agree. Marks: of slot n at n.
#![tactic(auto, unfolding(crate::specs::Dirty::entry_holds, crate::specs::Dirty::meets, crate::specs::Dirty::meet, crate::specs::Dirty::mark_holds, crate::specs::Dirty::sizes_hold, crate::specs::Dirty::counts_from, crate::specs::Dirty::counts_hold, crate::specs::Dirty::dirty_holds, words::specs::Choose::pick, words::specs::Choose::if_eq, words::specs::Choose::if_lt))]

ghost use Rattle.std.specs.Prelude.{◌≡◌};
ghost use Rattle.image_dirty.specs.Dirty.{entry_holds, entries_hold, meets, meet, meet_all, mark_holds, marks_hold, sizes_hold, counts_from, counts_hold, dirty_holds};

use kinds::NodeId;

// Entry i names a slot.
fn entry_holds(ws: &[u32], i: u32) -> bool
    ensures { result ≡ entry_holds ws.now i }
{
    words::get(ws, layout::dirty_at(i)) < words::get(ws, layout::NODE_POOL)
}

// So do all k entries.
fn entries_hold(ws: &[u32], k: u32) -> bool
    ensures { result ≡ entries_hold ws.now k }
{
    (0..k).all(|i| entry_holds(ws, i))
}

// Node n is dirty and has not been met.
fn meets(ws: &[u32], marks: &[u8], n: u32) -> bool
    ensures { result ≡ meets ws.now marks.now n }
{
    layout::node_word(ws, NodeId(n), 2) == 1 && marks::clear(marks, n as usize)
}

// How many dirty nodes are met, with node n.
fn meet(ws: &[u32], marks: &mut [u8], n: u32, met: u32) -> u32
    ensures { (result ≡ (meet ws.now marks.old n met).is) × (marks.new ≡ (meet ws.now marks.old n met).ws) }
{
    if meets(ws, marks, n) {
        marks::see(marks, n);
        layout::next(met)
    } else {
        met
    }
}

// With those of k entries.
fn meet_all(ws: &[u32], marks: &mut [u8], k: u32) -> u32
    ensures { (result ≡ (meet_all ws.now marks.old 0 0 k).is) × (marks.new ≡ (meet_all ws.now marks.old 0 0 k).ws) }
{
    let mut met = 0;
    for i in 0..k {
        let n = words::get(ws, layout::dirty_at(i));
        met = meet(ws, marks, n, met);
    }
    met
}

// Slot n is dirty, 1, if it was met, and else clean, 0.
fn mark_holds(ws: &[u32], marks: &[u8], n: u32) -> bool
    ensures { result ≡ mark_holds ws.now marks.now n }
{
    layout::node_word(ws, NodeId(n), 2) == fields::byte(marks, n as usize) as u32
}

// All k slots.
fn marks_hold(ws: &[u32], marks: &[u8], k: u32) -> bool
    ensures { result ≡ marks_hold ws.now marks.now k }
{
    (0..k).all(|n| mark_holds(ws, marks, n))
}

// A capacity within 4N + 4; none was pushed where it is 0.
fn sizes_hold(nodes: u32, length: u32, capacity: u32, stale: u32) -> bool
    ensures { result ≡ sizes_hold nodes length capacity stale }
{
    if capacity == 0 {
        length == 0
    } else {
        capacity as u64 <= 4 * (nodes as u64) + 4
            && image_lists::sizes_hold(length, capacity, stale)
    }
}

// All but the stale entries are dirty nodes met for the first time, and no other is dirty.
fn counts_from(ws: &[u32], marks: &mut [u8], length: u32, stale: u32) -> bool
    ensures { (result ≡ (counts_from ws.now marks.old length stale).is) × (marks.new ≡ (counts_from ws.now marks.old length stale).ws) }
{
    let met = meet_all(ws, marks, length);
    met as u64 + stale as u64 == length as u64
        && marks_hold(ws, marks, words::get(ws, layout::FRESH_SLOT))
}

fn counts_hold(ws: &[u32], length: u32, stale: u32) -> bool
    ensures { result ≡ counts_hold ws.now length stale }
{
    let mut marks = [0u8; 4096];
    counts_from(ws, &mut marks, length, stale)
}

pub fn dirty_holds(ws: &[u32]) -> bool
    ensures { result ≡ dirty_holds ws.now }
{
    let nodes = words::get(ws, layout::NODE_POOL);
    let length = words::get(ws, layout::DIRTY_LENGTH);
    let stale = words::get(ws, layout::DIRTY_STALE);
    let capacity = words::get(ws, layout::DIRTY_CAPACITY);
    sizes_hold(nodes, length, capacity, stale)
        && entries_hold(ws, length)
        && counts_hold(ws, length, stale)
}

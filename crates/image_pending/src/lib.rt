// The pending numbers of an image, which count the dirty nodes of a net and the waits that its nodes made; and its waits, each on
// a net or free.
#![tactic(auto, unfolding(crate::specs::Pending::count, crate::specs::Pending::count_node, crate::specs::Pending::count_wait, crate::specs::Pending::count_holds, crate::specs::Pending::counted, crate::specs::Pending::pending_from, crate::specs::Pending::pending_holds, crate::specs::Pending::rest_holds, crate::specs::Pending::all_hold, crate::specs::Pending::waits_hold, words::specs::Choose::pick, words::specs::Choose::if_eq, words::specs::Choose::if_lt))]

ghost use Rattle.std.specs.Prelude.{◌≡◌};
ghost use Rattle.image_pending.specs.Pending.{count, count_node, count_nodes, count_wait, count_waits, count_holds, counts_hold, pending_from, pending_holds, all_hold, waits_hold};

use image_chains::Pool;
use kinds::{NetId, NodeId};

// One more for net t.
fn count(tally: &mut [u32], t: NetId)
    ensures { tally.new ≡ count tally.old t.0 }
{
    let k = words::get(tally, t.0 as usize);
    words::put(tally, t.0 as usize, layout::next(k))
}

// A dirty node counts for its net.
fn count_node(ws: &[u32], tally: &mut [u32], n: NodeId)
    ensures { tally.new ≡ count_node ws.now tally.old n.0 }
{
    if layout::node_word(ws, n, 2) == 1 {
        count(tally, NetId(layout::node_word(ws, n, 0)))
    }
}

// k slots from the first on.
fn count_nodes(ws: &[u32], tally: &mut [u32], k: u32)
    ensures { tally.new ≡ count_nodes ws.now tally.old 0 k }
{
    for n in 0..k {
        count_node(ws, tally, NodeId(n));
    }
}

// A wait that was met counts for the net of its node.
fn count_wait(ws: &[u32], marks: &[u8], tally: &mut [u32], c: u32)
    ensures { tally.new ≡ count_wait ws.now marks.now tally.old c }
{
    if marks::met(marks, c) {
        count(tally, NetId(layout::wait_word(ws, c, 1)))
    }
}

// k waits from the first on.
fn count_waits(ws: &[u32], marks: &[u8], tally: &mut [u32], k: u32)
    ensures { tally.new ≡ count_waits ws.now marks.now tally.old 1 k }
{
    for i in 0..k {
        count_wait(ws, marks, tally, i + 1);
    }
}

// Net t has as many pending as were counted.
fn count_holds(ws: &[u32], tally: &[u32], t: u32) -> bool
    ensures { result ≡ count_holds ws.now tally.now t }
{
    layout::net_word(ws, NetId(t), 7) == words::get(tally, t as usize)
}

// So have all k nets.
fn counts_hold(ws: &[u32], tally: &[u32], k: u32) -> bool
    ensures { result ≡ counts_hold ws.now tally.now k }
{
    (0..k).all(|i| count_holds(ws, tally, layout::next(i)))
}

// Of the marks those of the waits on nets are set.
fn pending_from(ws: &[u32], marks: &[u8], tally: &mut [u32]) -> bool
    ensures { (result ≡ (pending_from ws.now marks.now tally.old).is) × (tally.new ≡ (pending_from ws.now marks.now tally.old).ws) }
{
    count_nodes(ws, tally, words::get(ws, layout::FRESH_SLOT));
    count_waits(ws, marks, tally, words::get(ws, layout::FRESH_WAIT));
    counts_hold(ws, tally, words::get(ws, layout::NETS))
}

fn pending_holds(ws: &[u32], marks: &[u8]) -> bool
    ensures { result ≡ pending_holds ws.now marks.now }
{
    let mut tally = [0u32; 257];
    pending_from(ws, marks, &mut tally)
}

fn all_hold(ws: &[u32], marks: &mut [u8]) -> bool
    ensures { (result ≡ (all_hold ws.now marks.old).is) × (marks.new ≡ (all_hold ws.now marks.old).ws) }
{
    image_waits::each_net_holds(ws, marks, words::get(ws, layout::NETS))
        && pending_holds(ws, marks)
        && image_chains::pool_holds(ws, marks, Pool::Waits)
}

pub fn waits_hold(ws: &[u32]) -> bool
    ensures { result ≡ waits_hold ws.now }
{
    let mut marks = [0u8; 4097];
    all_hold(ws, &mut marks)
}

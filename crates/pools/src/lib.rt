// The three pools: slots, entries and waits. The last freed is taken first, else the next new one.
#![tactic(auto)]

ghost use Rattle.std.specs.Prelude.{◌≡◌};
ghost use Rattle.pools.specs.Pools.{take_fresh, take_slot, take_entry, take_wait, give_slot, give_entry, give_wait};

use kinds::NodeId;

// The number of the next new place of a pool (0 slots, 1 entries, 2 waits), counted from 1; 0 where there is none.
fn take_fresh(ws: &mut [u32], pool: u32) -> u32
    ensures { (result ≡ (take_fresh ws.old pool).is) × (ws.new ≡ (take_fresh ws.old pool).ws) }
{
    let k = words::get(ws, 9 + 2 * pool as usize);
    if k < words::get(ws, 1 + pool as usize) {
        let c = layout::next(k);
        words::put(ws, 9 + 2 * pool as usize, c);
        return c;
    }
    0
}

// A slot's number and one more; 0 where N slots hold nodes.
pub fn take_slot(ws: &mut [u32]) -> u32
    ensures { (result ≡ (take_slot ws.old).is) × (ws.new ≡ (take_slot ws.old).ws) }
{
    let c = words::get(ws, layout::FREE_SLOT);
    if c == 0 {
        return take_fresh(ws, 0);
    }
    let after = layout::node_word(ws, NodeId(layout::less(c)), 4);
    words::put(ws, layout::FREE_SLOT, after);
    c
}

pub fn give_slot(ws: &mut [u32], n: NodeId)
    ensures { ws.new ≡ give_slot ws.old n.0 }
{
    let after = words::get(ws, layout::FREE_SLOT);
    layout::set_node_word(ws, n, 4, after);
    words::put(ws, layout::FREE_SLOT, layout::next(n.0))
}

// 0 where all lists together hold E.
pub fn take_entry(ws: &mut [u32]) -> u32
    ensures { (result ≡ (take_entry ws.old).is) × (ws.new ≡ (take_entry ws.old).ws) }
{
    let c = words::get(ws, layout::FREE_ENTRY);
    if c == 0 {
        return take_fresh(ws, 1);
    }
    let after = layout::entry_word(ws, c, 1);
    words::put(ws, layout::FREE_ENTRY, after);
    c
}

pub fn give_entry(ws: &mut [u32], c: u32)
    ensures { ws.new ≡ give_entry ws.old c }
{
    let after = words::get(ws, layout::FREE_ENTRY);
    layout::set_entry_word(ws, c, 1, after);
    words::put(ws, layout::FREE_ENTRY, c)
}

// 0 where all waits together are W.
pub fn take_wait(ws: &mut [u32]) -> u32
    ensures { (result ≡ (take_wait ws.old).is) × (ws.new ≡ (take_wait ws.old).ws) }
{
    let c = words::get(ws, layout::FREE_WAIT);
    if c == 0 {
        return take_fresh(ws, 2);
    }
    let after = layout::wait_word(ws, c, 2);
    words::put(ws, layout::FREE_WAIT, after);
    c
}

pub fn give_wait(ws: &mut [u32], c: u32)
    ensures { ws.new ≡ give_wait ws.old c }
{
    let after = words::get(ws, layout::FREE_WAIT);
    layout::set_wait_word(ws, c, 2, after);
    words::put(ws, layout::FREE_WAIT, c)
}

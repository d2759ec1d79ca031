// The pools of an image: slots, entries and waits, counted from 1. Each place in use is in some list, or once in the chain of the free
// ones. Marks: of slot c - 1 at 16,384 + c, of entry c and of wait c at c.
#![tactic(auto, unfolding(crate::specs::Chains::used, crate::specs::Chains::first_free, crate::specs::Chains::after, crate::specs::Chains::spot, crate::specs::Chains::low, crate::specs::Chains::is_new, crate::specs::Chains::vacant, crate::specs::Chains::is_free, crate::specs::Chains::pool_holds, words::specs::Choose::pick, words::specs::Choose::if_eq, words::specs::Choose::if_lt))]

ghost use Rattle.std.specs.Prelude.{Bool, ◌≡◌};
ghost use Rattle.image_chains.specs.Chains.{used, first_free, after, spot, low, is_new, vacant, is_free, see, free_hold, pool_holds};

use kinds::NodeId;

#[derive(Clone, Copy)]
pub enum Pool {
    Slots,
    Entries,
    Waits,
}

// How many places were ever used.
fn used(ws: &[u32], pool: Pool) -> u32
    ensures { result ≡ used pool ws.now }
{
    match pool {
        Pool::Slots => words::get(ws, layout::FRESH_SLOT),
        Pool::Entries => words::get(ws, layout::FRESH_ENTRY),
        Pool::Waits => words::get(ws, layout::FRESH_WAIT),
    }
}

// The first of the free ones, 0 where there is none.
fn first_free(ws: &[u32], pool: Pool) -> u32
    ensures { result ≡ first_free pool ws.now }
{
    match pool {
        Pool::Slots => words::get(ws, layout::FREE_SLOT),
        Pool::Entries => words::get(ws, layout::FREE_ENTRY),
        Pool::Waits => words::get(ws, layout::FREE_WAIT),
    }
}

// The place after place c in the chain.
fn after(ws: &[u32], pool: Pool, c: u32) -> u32
    ensures { result ≡ after pool ws.now c }
{
    match pool {
        Pool::Slots => layout::node_word(ws, NodeId(layout::less(c)), 4),
        Pool::Entries => layout::entry_word(ws, c, 1),
        Pool::Waits => layout::wait_word(ws, c, 2),
    }
}

// Where the mark of place c is.
fn spot(pool: Pool, c: u32) -> usize
    ensures { result ≡ spot pool c }
{
    match pool {
        Pool::Slots => 16384 + c as usize,
        Pool::Entries | Pool::Waits => c as usize,
    }
}

// The mark of the first place.
fn low(pool: Pool) -> u32
    ensures { result ≡ low pool }
{
    match pool {
        Pool::Slots => 16385,
        Pool::Entries | Pool::Waits => 1,
    }
}

// Place c is in use and has not been met.
pub fn is_new(ws: &[u32], marks: &[u8], pool: Pool, c: u32) -> bool
    ensures { result ≡ is_new pool ws.now marks.now c }
{
    c != 0 && c <= used(ws, pool) && marks::clear(marks, spot(pool, c))
}

fn see(marks: &mut [u8], pool: Pool, c: u32)
    ensures { marks.new ≡ see pool marks.old c }
{
    marks::mark(marks, spot(pool, c))
}

// A slot holds no node.
fn vacant(ws: &[u32], pool: Pool, c: u32) -> bool
    ensures { result ≡ vacant pool ws.now c }
{
    match pool {
        Pool::Slots => layout::node_word(ws, NodeId(layout::less(c)), 0) == 0,
        Pool::Entries | Pool::Waits => true,
    }
}

// Place c may be the next of the chain.
fn is_free(ws: &[u32], marks: &[u8], pool: Pool, c: u32) -> bool
    ensures { result ≡ is_free pool ws.now marks.now c }
{
    is_new(ws, marks, pool, c) && vacant(ws, pool, c)
}

// The free places from c on, at most k.
fn free_hold(ws: &[u32], marks: &mut [u8], pool: Pool, first: u32, k: u32) -> bool
    ensures { (result ≡ (free_hold pool ws.now marks.old first k).is) × (marks.new ≡ (free_hold pool ws.now marks.old first k).ws) }
{
    let mut c = first;
    for _ in 0..k {
        if c == 0 {
            return true;
        }
        if !is_free(ws, marks, pool, c) {
            return false;
        }
        see(marks, pool, c);
        c = after(ws, pool, c);
    }
    c == 0
}

// Every place in use is in a list, which left its mark, or free.
pub fn pool_holds(ws: &[u32], marks: &mut [u8], pool: Pool) -> bool
    ensures { (result ≡ (pool_holds pool ws.now marks.old).is) × (marks.new ≡ (pool_holds pool ws.now marks.old).ws) }
{
    let k = used(ws, pool);
    free_hold(ws, marks, pool, first_free(ws, pool), k) && marks::all_met(marks, low(pool), k)
}

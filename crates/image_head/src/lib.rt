// The header of an image: its mark, its pools, how much of them is in use, the steps and the limit left.
#![tactic(auto, unfolding(crate::specs::Head::pools_hold, crate::specs::Head::used_hold, crate::specs::Head::header_holds, crate::specs::Head::left_holds, crate::specs::Head::steps_hold, words::specs::Choose::pick, words::specs::Choose::if_eq, words::specs::Choose::if_lt))]

ghost use Rattle.std.specs.Prelude.{◌≡◌};
ghost use Rattle.image_head.specs.Head.{pools_hold, used_hold, header_holds, left_holds, steps_hold};

// The mark, and the three pools.
fn pools_hold(ws: &[u32], nodes: u32, entries: u32, waits: u32) -> bool
    ensures { result ≡ pools_hold ws.now nodes entries waits }
{
    words::get(ws, layout::MARK) == 1
        && words::get(ws, layout::NODE_POOL) == nodes
        && words::get(ws, layout::ENTRY_POOL) == entries
        && words::get(ws, layout::WAIT_POOL) == waits
}

// No more of a pool is in use than there is.
fn used_hold(ws: &[u32], nodes: u32, entries: u32, waits: u32) -> bool
    ensures { result ≡ used_hold ws.now nodes entries waits }
{
    words::get(ws, layout::FRESH_SLOT) <= nodes
        && words::get(ws, layout::FRESH_ENTRY) <= entries
        && words::get(ws, layout::FRESH_WAIT) <= waits
}

pub fn header_holds(ws: &[u32], nodes: u32, entries: u32, waits: u32) -> bool
    ensures { result ≡ header_holds ws.now nodes entries waits }
{
    pools_hold(ws, nodes, entries, waits)
        && used_hold(ws, nodes, entries, waits)
        && words::get(ws, layout::DEAD) == 0
}

const NONE: u32 = 4294967295;

// With no limit none is left; else the steps taken and those left are the file's limit.
fn left_holds(limit: u32, steps: u32, left: u32) -> bool
    ensures { result ≡ left_holds limit steps left }
{
    if limit == NONE {
        return left == NONE;
    }
    left as u64 + steps as u64 == limit as u64
}

// At most 16,777,216 steps were taken.
pub fn steps_hold(ws: &[u32], file: &[u8]) -> bool
    ensures { result ≡ steps_hold ws.now file.now }
{
    let steps = words::get(ws, layout::STEPS);
    steps <= 16777216 && left_holds(readers::limit(file), steps, words::get(ws, layout::LIMIT))
}

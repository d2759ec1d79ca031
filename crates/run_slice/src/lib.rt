// The run: `run` of engine.rs, in slices.
#![tactic(auto)]

ghost use Rattle.std.specs.Prelude.{◌≡◌};
ghost use Rattle.run_slice.specs.Run.{leave, count_step, live_turn, entry_turn, turn, step_on, over, go_on, run, deduct, slice};

use kinds::{NetId, NodeId};
use tried::Tried;

// How a run ends, and after how many steps: it rests, or it is refused by a number.
#[derive(Clone, Copy)]
pub enum Ran {
    Rested(u32),
    Refused { steps: u32, number: u32 },
}

// The visit has ended: the node visited counts no more.
fn leave(ws: &mut [u32], t: NetId)
    ensures { ws.new ≡ leave ws.old t.0 }
{
    graph::fewer(ws, t);
    waits::finish_edit_net(ws, t)
}

const NONE: u32 = 4294967295;

// One step less of the limit left; a none stays none.
fn deduct(ws: &mut [u32])
    ensures { ws.new ≡ deduct ws.old }
{
    let limit = words::get(ws, layout::LIMIT);
    if limit == NONE {
        return;
    }
    words::put(ws, layout::LIMIT, layout::less(limit))
}

fn count_step(ws: &mut [u32])
    ensures { ws.new ≡ count_step ws.old }
{
    let s = words::get(ws, layout::STEPS);
    words::put(ws, layout::STEPS, layout::next(s));
    deduct(ws)
}

// A dirty node is visited.
fn live_turn(ws: &mut [u32], file: &[u8], sets: &[u64], n: NodeId) -> Tried
    ensures { (result ≡ (live_turn ws.old file.now sets.now n.0).is) × (ws.new ≡ (live_turn ws.old file.now sets.now n.0).ws) }
{
    let t = NetId(layout::node_word(ws, n, 0));
    layout::set_node_word(ws, n, 2, 0);
    let tried = visit::visit(ws, file, sets, t, n);
    match tried {
        Tried::Passed => {
            leave(ws, t);
            Tried::Passed
        }
        Tried::Acted => {
            count_step(ws);
            edits::finish_edit(ws);
            leave(ws, t);
            Tried::Acted
        }
        Tried::Refused(r) => Tried::Refused(r),
    }
}

// The dirty list's last entry was node n; a stale one is dropped.
fn entry_turn(ws: &mut [u32], file: &[u8], sets: &[u64], n: NodeId) -> Tried
    ensures { (result ≡ (entry_turn ws.old file.now sets.now n.0).is) × (ws.new ≡ (entry_turn ws.old file.now sets.now n.0).ws) }
{
    if layout::node_word(ws, n, 2) == 1 {
        return live_turn(ws, file, sets, n);
    }
    let s = words::get(ws, layout::DIRTY_STALE);
    words::put(ws, layout::DIRTY_STALE, layout::less(s));
    Tried::Passed
}

// The dirty list's last entry is taken.
fn turn(ws: &mut [u32], file: &[u8], sets: &[u64]) -> Tried
    ensures { (result ≡ (turn ws.old file.now sets.now).is) × (ws.new ≡ (turn ws.old file.now sets.now).ws) }
{
    let k = layout::less(words::get(ws, layout::DIRTY_LENGTH));
    let n = NodeId(words::get(ws, layout::dirty_at(k)));
    words::put(ws, layout::DIRTY_LENGTH, k);
    entry_turn(ws, file, sets, n)
}

// What a turn leads to: the steps taken so far, where the run goes on; or it rests, or is refused by a number.
#[derive(Clone, Copy)]
pub enum Went {
    Go(u32),
    Rest,
    Refused(u32),
}

// A turn after s steps.
fn step_on(ws: &mut [u32], file: &[u8], sets: &[u64], s: u32) -> Went
    ensures { (result ≡ (step_on ws.old file.now sets.now s).is) × (ws.new ≡ (step_on ws.old file.now sets.now s).ws) }
{
    let tried = turn(ws, file, sets);
    match tried {
        Tried::Passed => Went::Go(s),
        Tried::Acted => Went::Go(layout::next(s)),
        Tried::Refused(r) => Went::Refused(r),
    }
}

// No step is left.
fn over(ws: &[u32], most: u32, s: u32) -> bool
    ensures { result ≡ over ws.now most s }
{
    if most <= s {
        return true;
    }
    words::get(ws, layout::LIMIT) == 0
}

// A turn, while there are steps and entries.
fn go_on(ws: &mut [u32], file: &[u8], sets: &[u64], most: u32, s: u32) -> Went
    ensures { (result ≡ (go_on ws.old file.now sets.now most s).is) × (ws.new ≡ (go_on ws.old file.now sets.now most s).ws) }
{
    if over(ws, most, s) {
        return Went::Rest;
    }
    if words::get(ws, layout::DIRTY_LENGTH) == 0 {
        return Went::Rest;
    }
    step_on(ws, file, sets, s)
}

// Turn after turn.
fn run(ws: &mut [u32], file: &[u8], sets: &[u64], most: u32, fuel: u64) -> Ran
    ensures { (result ≡ (run ws.old file.now sets.now most 0 fuel).is) × (ws.new ≡ (run ws.old file.now sets.now most 0 fuel).ws) }
{
    let mut steps: u32 = 0;
    for _ in 0..fuel {
        let went = go_on(ws, file, sets, most, steps);
        match went {
            Went::Go(s) => {
                steps = s;
            }
            Went::Rest => return Ran::Rested(steps),
            Went::Refused(r) => return Ran::Refused { steps, number: r },
        }
    }
    Ran::Rested(steps)
}

// A slice of n: the smaller of n and the limit left.
pub fn slice(ws: &mut [u32], file: &[u8], n: u32) -> Ran
    ensures { (result ≡ (slice ws.old file.now n).is) × (ws.new ≡ (slice ws.old file.now n).ws) }
{
    let mut sets = [0u64; 2112];
    rule_sets::build(file, &mut sets);
    run(ws, file, &sets, n, 1099511627776)
}

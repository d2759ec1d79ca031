// Waits: `await_net` and `finish_edit_net` of engine.rs.
#![tactic(auto)]

ghost use Rattle.std.specs.Prelude.{◌≡◌};
ghost use Rattle.waits.specs.Waits.{append_wait, await_net_words, take_waits, wake, settle, answer, answer_all, finish_edit_net_words};

use kinds::{NetId, NodeId};

#[derive(Clone, Copy)]
pub enum Awaited {
    // The named net is at 0.
    Ready,
    Waiting,
    // All waits together are W.
    Full,
}

// Wait c at the end of net m's waits.
fn append_wait(ws: &mut [u32], m: NetId, c: u32)
    ensures { ws.new ≡ append_wait ws.old m.0 c }
{
    let p = layout::net_word(ws, m, 9);
    layout::set_wait_word(ws, c, 2, 0);
    if p == 0 {
        layout::set_net_word(ws, m, 8, c);
        layout::set_net_word(ws, m, 9, c);
        return;
    }
    layout::set_wait_word(ws, p, 2, c);
    layout::set_net_word(ws, m, 9, c)
}

pub fn await_net(ws: &mut [u32], m: NetId, n: NodeId) -> Awaited
    ensures { (result ≡ (await_net_words ws.old m.0 n.0).is) × (ws.new ≡ (await_net_words ws.old m.0 n.0).ws) }
{
    if layout::net_word(ws, m, 7) == 0 {
        return Awaited::Ready;
    }
    let c = pools::take_wait(ws);
    if c == 0 {
        return Awaited::Full;
    }
    let t = layout::node_word(ws, n, 0);
    layout::set_wait_word(ws, c, 0, n.0);
    layout::set_wait_word(ws, c, 1, t);
    append_wait(ws, m, c);
    graph::more(ws, NetId(t));
    Awaited::Waiting
}

// Net t's waits, taken from it, in front of the rest: the first of all.
fn take_waits(ws: &mut [u32], t: NetId, rest: u32) -> u32
    ensures { (result ≡ (take_waits ws.old t.0 rest).is) × (ws.new ≡ (take_waits ws.old t.0 rest).ws) }
{
    let first = layout::net_word(ws, t, 8);
    if first == 0 {
        return rest;
    }
    let last = layout::net_word(ws, t, 9);
    layout::set_wait_word(ws, last, 2, rest);
    layout::set_net_word(ws, t, 8, 0);
    layout::set_net_word(ws, t, 9, 0);
    first
}

// The waiting node is marked, if its slot still holds a node of its net.
fn wake(ws: &mut [u32], n: NodeId, t: NetId)
    ensures { ws.new ≡ wake ws.old n.0 t.0 }
{
    if layout::node_word(ws, n, 0) == t.0 {
        graph::mark_dirty(ws, n)
    }
}

// Node n of net t waits no more; the wait to answer next, of the rest or of those on t.
fn settle(ws: &mut [u32], n: NodeId, t: NetId, rest: u32) -> u32
    ensures { (result ≡ (settle ws.old n.0 t.0 rest).is) × (ws.new ≡ (settle ws.old n.0 t.0 rest).ws) }
{
    wake(ws, n, t);
    graph::fewer(ws, t);
    if layout::net_word(ws, t, 7) == 0 {
        return take_waits(ws, t, rest);
    }
    rest
}

// Wait c is answered; the wait to answer next, 0 where none is left.
fn answer(ws: &mut [u32], c: u32) -> u32
    ensures { (result ≡ (answer ws.old c).is) × (ws.new ≡ (answer ws.old c).ws) }
{
    let n = NodeId(layout::wait_word(ws, c, 0));
    let t = NetId(layout::wait_word(ws, c, 1));
    let rest = layout::wait_word(ws, c, 2);
    pools::give_wait(ws, c);
    settle(ws, n, t, rest)
}

// Wait c and those after it, at most k.
fn answer_all(ws: &mut [u32], c: u32, k: u32)
    ensures { ws.new ≡ answer_all ws.old c k }
{
    let mut cur = c;
    for _ in 0..k {
        if cur == 0 {
            return;
        }
        cur = answer(ws, cur);
    }
}

// Where net t is at 0 its waits are answered. Each is answered once, so their number is enough.
pub fn finish_edit_net(ws: &mut [u32], t: NetId)
    ensures { ws.new ≡ finish_edit_net_words ws.old t.0 }
{
    if layout::net_word(ws, t, 7) == 0 {
        let c = take_waits(ws, t, 0);
        let k = words::get(ws, layout::FRESH_WAIT);
        answer_all(ws, c, k)
    }
}

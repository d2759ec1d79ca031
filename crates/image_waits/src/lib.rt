// The waits of an image: chains that share none. Marks: of wait c at c.
#![tactic(auto, unfolding(crate::specs::Waits::wait_holds, crate::specs::Waits::is_wait, crate::specs::Waits::end_holds, crate::specs::Waits::idle, crate::specs::Waits::net_holds, words::specs::Choose::pick, words::specs::Choose::if_eq, words::specs::Choose::if_lt))]

ghost use Rattle.std.specs.Prelude.{◌≡◌};
ghost use Rattle.marks.specs.Walks.{each_with};
ghost use Rattle.image_waits.specs.Waits.{wait_holds, is_wait, end_holds, waits_from, idle, net_holds};

use image_chains::Pool;
use kinds::NetId;

// Wait c is that of a slot, and of a net.
fn wait_holds(ws: &[u32], c: u32) -> bool
    ensures { result ≡ wait_holds ws.now c }
{
    let t = layout::wait_word(ws, c, 1);
    t != 0
        && t <= words::get(ws, layout::NETS)
        && layout::wait_word(ws, c, 0) < words::get(ws, layout::NODE_POOL)
}

fn is_wait(ws: &[u32], marks: &[u8], c: u32) -> bool
    ensures { result ≡ is_wait ws.now marks.now c }
{
    image_chains::is_new(ws, marks, Pool::Waits, c) && wait_holds(ws, c)
}

// A walk that has come to wait c, past `last`, is at the end of net t's.
fn end_holds(ws: &[u32], t: NetId, c: u32, last: u32) -> bool
    ensures { result ≡ end_holds ws.now t.0 c last }
{
    c == 0 && last == layout::net_word(ws, t, 9)
}

// The waits on net t from its first on, at most k.
fn waits_from(ws: &[u32], marks: &mut [u8], t: NetId, first: u32, k: u32) -> bool
    ensures { (result ≡ (waits_from ws.now marks.old t.0 first 0 k).is) × (marks.new ≡ (waits_from ws.now marks.old t.0 first 0 k).ws) }
{
    let mut c = first;
    let mut last: u32 = 0;
    for _ in 0..k {
        if !is_wait(ws, marks, c) {
            return end_holds(ws, t, c, last);
        }
        marks::see(marks, c);
        last = c;
        c = layout::wait_word(ws, c, 2);
    }
    end_holds(ws, t, c, last)
}

// Net t is at 0 though it has waits on it.
fn idle(ws: &[u32], t: NetId) -> bool
    ensures { result ≡ idle ws.now t.0 }
{
    layout::net_word(ws, t, 7) == 0 && 0 < layout::net_word(ws, t, 8)
}

fn net_holds(ws: &[u32], marks: &mut [u8], t: NetId) -> bool
    ensures { (result ≡ (net_holds ws.now marks.old t.0).is) × (marks.new ≡ (net_holds ws.now marks.old t.0).ws) }
{
    if idle(ws, t) {
        return false;
    }
    let c = layout::net_word(ws, t, 8);
    waits_from(ws, marks, t, c, words::get(ws, layout::FRESH_WAIT))
}

// The waits on k nets.
pub fn each_net_holds(ws: &[u32], marks: &mut [u8], k: u32) -> bool
    ensures { (result ≡ (each_with (net_holds ws.now) marks.old 1 k).is) × (marks.new ≡ (each_with (net_holds ws.now) marks.old 1 k).ws) }
{
    for i in 0..k {
        if !net_holds(ws, marks, NetId(i + 1)) {
            return false;
        }
    }
    true
}

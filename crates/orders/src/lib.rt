// The orders of check 6 on flat nets: nets ascend by their names; a pair has its smaller wire first, pairs ascend by it, and no
// wire is in two. `last` is one more than the name or wire before, and 0 at first. A wire is marked by a word above a base,
// so that nothing has to be cleared between nets; there are 1,024 words and, for nets that may have more wires, 65,536.
#![tactic(auto)]

ghost use Rattle.std.specs.Prelude.{◌+◌, ◌≤◌, ◌≡◌};
ghost use Rattle.fields.specs.Fields.{be16};
ghost use Rattle.wiring.specs.Wiring.{pair_run, net_pairs};
ghost use Rattle.orders.specs.Orders.{marked, mark, pair_fits, pair_step, pairs_from, name_fits, net_ordered, told, nets_wide, nets_ordered};

use wiring::Told;

// Whether a wire was seen.
fn marked(counts: &[u32], base: u16, w: u16) -> bool
    ensures { result ≡ marked counts.now base w }
{
    let c = words::get(counts, w as usize);
    (base as u32) < c
}

fn mark(counts: &mut [u32], base: u16, w: u16)
    ensures { counts.new ≡ mark counts.old base w }
{
    words::put(counts, w as usize, base as u32 + 1)
}

// Whether a pair may follow those before it.
fn pair_fits(counts: &[u32], base: u16, last: u32, a: u16, b: u16) -> bool
    ensures { result ≡ pair_fits counts.now base last a b }
{
    if (a as u32) < last {
        return false;
    }
    if b <= a {
        return false;
    }
    if marked(counts, base, a) {
        return false;
    }
    if marked(counts, base, b) {
        return false;
    }
    true
}

// One pair.
fn pair_step(counts: &mut [u32], base: u16, last: u32, a: u16, b: u16) -> bool
    ensures { (result ≡ (pair_step counts.old base last a b).is) × (counts.new ≡ (pair_step counts.old base last a b).ws) }
{
    if pair_fits(counts, base, last, a, b) {
        mark(counts, base, a);
        mark(counts, base, b);
        return true;
    }
    false
}

// n pairs, where all are there.
pub fn pairs_run(counts: &mut [u32], base: u16, s: &[u8], from: usize, n: u32) -> bool
    ensures { (result ≡ (pairs_from counts.old base 0 (pair_run s.now from n)).is) × (counts.new ≡ (pairs_from counts.old base 0 (pair_run s.now from n)).ws) }
{
    if !wiring::there(s, from, n, 4) {
        return true;
    }
    let mut at = from;
    let mut last: u32 = 0;
    for _ in 0..n {
        let a = fields::be16(s, at);
        let b = fields::be16(s, at + 2);
        if !pair_step(counts, base, last, a, b) {
            return false;
        }
        last = a as u32 + 1;
        at += 4;
    }
    true
}

// The pairs of the net at a place.
pub fn net_pairs(counts: &mut [u32], base: u16, s: &[u8], at: usize) -> bool
    ensures { (result ≡ (pairs_from counts.old base 0 (net_pairs s.now at)).is) × (counts.new ≡ (pairs_from counts.old base 0 (net_pairs s.now at)).ws) }
{
    let p = ends::pair_count_at(s, at);
    let k = fields::be16(s, p);
    let from = ends::on(s, p, 2);
    pairs_run(counts, base, s, from, k as u32)
}

// Whether the name of the net at a place may follow those before it. Tree nets are held to it too.
pub fn name_fits(s: &[u8], at: usize, last: u32) -> bool
    ensures { result ≡ name_fits s.now at last }
{
    let m = fields::be16(s, at);
    last <= m as u32
}

// One more than the name of the net at a place.
fn above_name(s: &[u8], at: usize) -> u32
    ensures { result ≡ be16 s.now at + 1 }
{
    fields::be16(s, at) as u32 + 1
}

// One net.
fn net_ordered(counts: &mut [u32], base: u16, last: u32, s: &[u8], at: usize) -> bool
    ensures { (result ≡ (net_ordered counts.old base last s.now at).is) × (counts.new ≡ (net_ordered counts.old base last s.now at).ws) }
{
    if name_fits(s, at, last) {
        return net_pairs(counts, base, s, at);
    }
    false
}

// The nets that are left: so many, from a place on, where the names before are below a number.
#[derive(Clone, Copy)]
pub struct Rest {
    pub last: u32,
    pub at: usize,
    pub left: u16,
}

// n nets, one after another, each above a base of its own.
// Not by the generic loop of check 7: this one carries a name from net to net, and hands it on with the nets that are left.
fn nets_told(counts: &mut [u32], s: &[u8], before: u32, from: usize, n: u16) -> Told<Rest>
    requires { n ≤ 256 }
    ensures { (result ≡ (told counts.old 0 before s.now from n).is) × (counts.new ≡ (told counts.old 0 before s.now from n).ws) }
{
    let mut at = from;
    let mut base: u16 = 0;
    let mut last: u32 = before;
    for i in 0..n {
        let left = n - i;
        if !wiring::fits(counts, s, at) {
            return Told::Wide(Rest { last, at, left });
        }
        if !net_ordered(counts, base, last, s, at) {
            return Told::Not;
        }
        last = above_name(s, at);
        at = ends::next_net(s, at, left as u32);
        base += 4;
    }
    Told::Well
}

// With a word for each wire that a net may have.
fn nets_wide(s: &[u8], before: u32, from: usize, n: u16) -> bool
    ensures { result ≡ nets_wide s.now before from n }
{
    if 256 < n {
        return false;
    }
    let mut counts = [0u32; 65536];
    matches!(nets_told(&mut counts, s, before, from, n), Told::Well)
}

// With words for 1,024 wires, up to a net that may have more.
pub fn nets_ordered(s: &[u8], from: usize, n: u16) -> bool
    ensures { result ≡ nets_ordered s.now from n }
{
    if 256 < n {
        return false;
    }
    let mut counts = [0u32; 1024];
    match nets_told(&mut counts, s, 0, from, n) {
        Told::Well => true,
        Told::Not => false,
        Told::Wide(rest) => nets_wide(s, rest.last, rest.at, rest.left),
    }
}

// The two passes of `resolve_links` over the links of a stored tree net: the links of two wires, then the trees that hang on wires.
#![tactic(auto)]

ghost use Rattle.std.specs.Prelude.{◌≡◌};
ghost use Rattle.resolve_pass.specs.Pass.{wire_at, tree_end, link_wires, wire_links, over, hung_tree, hung_links, mark_wire, mark_tree, marked_links, free_tree, free_links, place, next, less, add_kept, meet, pass_link, pass};

// How many links are kept, and on how many wires a tree hangs.
#[derive(Clone, Copy)]
pub struct Passed {
    pub kept: u32,
    pub left: u32,
}

// ---- places

// The wire of a tree that is one.
pub fn wire_at(s: &[u8], at: usize) -> u16
    ensures { result ≡ wire_at s.now at }
{
    fields::be16(s, ends::on(s, at, 1))
}

// The place behind a tree; a wire, the usual one, is not scanned.
pub fn tree_end(s: &[u8], at: usize) -> usize
    ensures { result ≡ tree_end s.now at }
{
    if at < s.len() {
        if fields::byte(s, at) == 0 {
            return ends::on(s, at, 3);
        }
    }
    let c = scan_tree::count(s, at, 1);
    c.end
}

// A place as a word.
fn place(at: usize) -> u32
    ensures { result ≡ place at }
{
    (at % 4294967296) as u32
}

// ---- the links of two wires

fn link_wires(ws: &mut [u32], s: &[u8], a: usize, b: usize)
    ensures { ws.new ≡ link_wires ws.old s.now a b }
{
    if fields::byte(s, a) == 0 {
        if fields::byte(s, b) == 0 {
            wire_tables::link(ws, wire_at(s, a), wire_at(s, b));
            return;
        }
    }
}

// Those among n links; the place behind them all.
pub fn wire_links(ws: &mut [u32], s: &[u8], from: usize, n: u32) -> usize
    ensures { (result ≡ (wire_links ws.old s.now from n).is) × (ws.new ≡ (wire_links ws.old s.now from n).ws) }
{
    let mut at = from;
    for _ in 0..n {
        let b = tree_end(s, at);
        link_wires(ws, s, at, b);
        at = tree_end(s, b);
    }
    at
}

// ---- the wires of links on which trees hang

// t, or one more than w, where a tree hangs there and w is not below t.
fn over(ws: &[u32], w: u16, t: u32) -> u32
    ensures { result ≡ over ws.now w t }
{
    let v = wire_tables::hung(ws, w);
    if v == 0 {
        return t;
    }
    if (w as u32) < t {
        return t;
    }
    w as u32 + 1
}

fn hung_tree(ws: &[u32], s: &[u8], at: usize, t: u32) -> u32
    ensures { result ≡ hung_tree ws.now s.now at t }
{
    if fields::byte(s, at) == 0 {
        return over(ws, wire_at(s, at), t);
    }
    t
}

// One more than the greatest of n links, or 0.
pub fn hung_links(ws: &[u32], s: &[u8], from: usize, n: u32) -> u32
    ensures { result ≡ hung_links ws.now s.now from n 0 }
{
    let mut at = from;
    let mut t: u32 = 0;
    for _ in 0..n {
        let b = tree_end(s, at);
        let u = hung_tree(ws, s, at, t);
        t = hung_tree(ws, s, b, u);
        at = tree_end(s, b);
    }
    t
}

// Wire w is marked where a tree hangs on it.
fn mark_wire(ws: &[u32], w: u16, bs: &mut [u32])
    ensures { bs.new ≡ mark_wire ws.now w bs.old }
{
    let v = wire_tables::hung(ws, w);
    if v == 0 {
        return;
    }
    wire_blocks::mark(bs, 0, w)
}

fn mark_tree(ws: &[u32], s: &[u8], at: usize, bs: &mut [u32])
    ensures { bs.new ≡ mark_tree ws.now s.now at bs.old }
{
    if fields::byte(s, at) == 0 {
        mark_wire(ws, wire_at(s, at), bs)
    }
}

// Those of n links, so that only they and the wires near them need be looked at.
pub fn mark_links(ws: &[u32], s: &[u8], from: usize, n: u32, bs: &mut [u32])
    ensures { bs.new ≡ marked_links ws.now s.now from n bs.old }
{
    let mut at = from;
    for _ in 0..n {
        let b = tree_end(s, at);
        mark_tree(ws, s, at, bs);
        mark_tree(ws, s, b, bs);
        at = tree_end(s, b);
    }
}

// ---- the wires of links, freed

fn free_tree(ws: &mut [u32], s: &[u8], at: usize)
    ensures { ws.new ≡ free_tree ws.old s.now at }
{
    if fields::byte(s, at) == 0 {
        wire_tables::free(ws, wire_at(s, at))
    }
}

// Those of n links: in the tables nothing is left of them. That costs less than to clear a table of 65,536 wires.
pub fn free_links(ws: &mut [u32], s: &[u8], from: usize, n: u32)
    ensures { ws.new ≡ free_links ws.old s.now from n }
{
    let mut at = from;
    for _ in 0..n {
        let b = tree_end(s, at);
        free_tree(ws, s, at);
        free_tree(ws, s, b);
        at = tree_end(s, b);
    }
}

// ---- the trees that hang

fn next(x: u32) -> u32
    ensures { result ≡ next x }
{
    std::num::wrapping_add_u32(x, 1)
}

fn less(x: u32) -> u32
    ensures { result ≡ less x }
{
    std::num::wrapping_add_u32(x, 4294967295)
}

// One more link is kept.
fn add_kept(ws: &mut [u32], a: u32, b: u32, p: Passed) -> Passed
    ensures { (result ≡ (add_kept ws.old a b p).is) × (ws.new ≡ (add_kept ws.old a b p).ws) }
{
    wire_tables::keep(ws, p.kept, a, b);
    Passed {
        kept: next(p.kept),
        left: p.left,
    }
}

// A tree meets a wire: it hangs there, or is linked with the tree that does.
fn meet(ws: &mut [u32], w: u16, at: u32, p: Passed) -> Passed
    ensures { (result ≡ (meet ws.old w at p).is) × (ws.new ≡ (meet ws.old w at p).ws) }
{
    let c = wire_tables::canonicalize(ws, w);
    let u = wire_tables::unhang(ws, c);
    if u == 0 {
        wire_tables::hang(ws, c, next(at));
        return Passed {
            kept: p.kept,
            left: next(p.left),
        };
    }
    let left = less(p.left);
    add_kept(ws, u - 1, at, Passed { kept: p.kept, left })
}

// A link of the second pass.
fn pass_link(ws: &mut [u32], s: &[u8], a: usize, b: usize, p: Passed) -> Passed
    ensures { (result ≡ (pass_link ws.old s.now a b p).is) × (ws.new ≡ (pass_link ws.old s.now a b p).ws) }
{
    if fields::byte(s, a) == 0 {
        if fields::byte(s, b) == 0 {
            return p;
        }
        return meet(ws, wire_at(s, a), place(b), p);
    }
    if fields::byte(s, b) == 0 {
        return meet(ws, wire_at(s, b), place(a), p);
    }
    add_kept(ws, place(a), place(b), p)
}

// The second pass over n links.
pub fn pass(ws: &mut [u32], s: &[u8], from: usize, n: u32) -> Passed
    ensures { (result ≡ (pass ws.old s.now from n (record { kept = 0; left = 0 })).is) × (ws.new ≡ (pass ws.old s.now from n (record { kept = 0; left = 0 })).ws) }
{
    let mut at = from;
    let mut p = Passed { kept: 0, left: 0 };
    for _ in 0..n {
        let b = tree_end(s, at);
        p = pass_link(ws, s, at, b, p);
        at = tree_end(s, b);
    }
    p
}

// Interactions tried on two nodes whose principal ports meet: `visit` of engine.rs, its first half.
#![tactic(auto)]

ghost use Rattle.std.specs.Prelude.{Bool, ◌≡◌};
ghost use Rattle.stored.specs.Stored.{list_at};
ghost use Rattle.interactions.specs.Interactions.{registered, first_of_words, apply, apply_both, in_order, straight, pair, interact};

use kinds::{NetId, NodeId};
use tried::Tried;

// A node and its net; where its principal port meets a principal port, that port's node; the paths of both.
#[derive(Clone, Copy)]
pub struct Visited {
    pub net: NetId,
    pub node: NodeId,
    pub path: u32,
    pub meets: bool,
    pub other: NodeId,
    pub facing: u32,
}

// Rule r is registered for the pair of paths p, q.
fn registered(sets: &[u64], r: u32, p: u32, q: u32) -> bool
    ensures { result ≡ registered sets.now r p q }
{
    if rule_sets::has(rule_sets::set_of(sets, p, 0), r) {
        rule_sets::has(rule_sets::set_of(sets, q, 1), r)
    } else {
        false
    }
}

// Of paths p and q that which stands first in the list at a place is p.
fn stands_first(file: &[u8], at: usize, p: u32, q: u32) -> bool
    ensures { result ≡ first_of_words p q (list_at file.now at) }
{
    let count = fields::byte(file, at);
    let mut i = ends::on(file, at, 1);
    for _ in 0..count {
        let path = fields::be16(file, i) as u32;
        if path == p {
            return true;
        }
        if path == q {
            return false;
        }
        i = ends::on(file, i, 2);
    }
    true
}

// Erase or commute.
fn apply(ws: &mut [u32], tag: u8, t: NetId, a: NodeId, b: NodeId) -> Tried
    ensures { (result ≡ (apply ws.old tag t.0 a.0 b.0).is) × (ws.new ≡ (apply ws.old tag t.0 a.0 b.0).ws) }
{
    if tag == 3 {
        return erase::erase(ws, t, a, b);
    }
    commute::commute(ws, t, a, b)
}

// As it is, then flipped.
fn apply_both(ws: &mut [u32], tag: u8, t: NetId, a: NodeId, b: NodeId) -> Tried
    ensures { (result ≡ (apply_both ws.old tag t.0 a.0 b.0).is) × (ws.new ≡ (apply_both ws.old tag t.0 a.0 b.0).ws) }
{
    let tried = apply(ws, tag, t, a, b);
    match tried {
        Tried::Passed => apply(ws, tag, t, b, a),
        Tried::Acted => Tried::Acted,
        Tried::Refused(r) => Tried::Refused(r),
    }
}

// Registered both ways: the path that stands first in the first list is tried first.
fn in_order(ws: &mut [u32], file: &[u8], at: usize, v: Visited) -> Tried
    ensures { (result ≡ (in_order ws.old file.now at v).is) × (ws.new ≡ (in_order ws.old file.now at v).ws) }
{
    let tag = fields::byte(file, at);
    if stands_first(file, ends::on(file, at, 1), v.path, v.facing) {
        return apply_both(ws, tag, v.net, v.node, v.other);
    }
    apply_both(ws, tag, v.net, v.other, v.node)
}

// Registered for the paths as they are.
fn straight(ws: &mut [u32], file: &[u8], sets: &[u64], r: u32, v: Visited) -> Tried
    ensures { (result ≡ (straight ws.old file.now sets.now r v).is) × (ws.new ≡ (straight ws.old file.now sets.now r v).ws) }
{
    let at = rule_sets::rule_at(sets, r);
    if v.path == v.facing {
        return apply(ws, fields::byte(file, at), v.net, v.node, v.other);
    }
    if registered(sets, r, v.facing, v.path) {
        return in_order(ws, file, at, v);
    }
    apply(ws, fields::byte(file, at), v.net, v.node, v.other)
}

// Erase or commute r.
fn pair(ws: &mut [u32], file: &[u8], sets: &[u64], r: u32, v: Visited) -> Tried
    ensures { (result ≡ (pair ws.old file.now sets.now r v).is) × (ws.new ≡ (pair ws.old file.now sets.now r v).ws) }
{
    if registered(sets, r, v.path, v.facing) {
        return straight(ws, file, sets, r, v);
    }
    if registered(sets, r, v.facing, v.path) {
        let tag = fields::byte(file, rule_sets::rule_at(sets, r));
        return apply(ws, tag, v.net, v.other, v.node);
    }
    Tried::Passed
}

// Interaction r.
pub fn interact(ws: &mut [u32], file: &[u8], sets: &[u64], r: u32, v: Visited) -> Tried
    ensures { (result ≡ (interact ws.old file.now sets.now r v).is) × (ws.new ≡ (interact ws.old file.now sets.now r v).ws) }
{
    if fields::byte(file, rule_sets::rule_at(sets, r)) == 2 {
        if v.path == v.facing {
            return annihilate::annihilate(ws, file, v.node, v.other);
        }
        return Tried::Passed;
    }
    pair(ws, file, sets, r, v)
}

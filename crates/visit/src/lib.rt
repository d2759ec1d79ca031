// A visit of one node: `visit` of engine.rs.
#![tactic(auto)]

ghost use Rattle.std.specs.Prelude.{◌≡◌};
ghost use Rattle.visit.specs.Visits.{rewrite, attempt, tried_if, tries, rewrites, visit_pair, visit};

use interactions::Visited;
use kinds::{NetId, NodeId};
use tried::Tried;

// Rewrite r.
fn rewrite(ws: &mut [u32], file: &[u8], sets: &[u64], r: u32, v: Visited) -> Tried
    ensures { (result ≡ (rewrite ws.old file.now sets.now r v).is) × (ws.new ≡ (rewrite ws.old file.now sets.now r v).ws) }
{
    let at = rule_sets::rule_at(sets, r);
    if fields::byte(file, at) == 1 {
        return graft::graft(ws, file, readers::graft_lazy(file, at), v.net, v.node);
    }
    eta::eta_reduce(ws, file, sets, r, v.net, v.node)
}

// Rule r: an interaction where principal ports meet, else a rewrite.
fn attempt(ws: &mut [u32], file: &[u8], sets: &[u64], r: u32, v: Visited) -> Tried
    ensures { (result ≡ (attempt ws.old file.now sets.now r v).is) × (ws.new ≡ (attempt ws.old file.now sets.now r v).ws) }
{
    if v.meets {
        return interactions::interact(ws, file, sets, r, v);
    }
    rewrite(ws, file, sets, r, v)
}

// Rule r, if the lowest bit of a set says so.
fn tried_if(ws: &mut [u32], file: &[u8], sets: &[u64], set: u64, r: u32, v: Visited) -> Tried
    ensures { (result ≡ (tried_if ws.old file.now sets.now set r v).is) × (ws.new ≡ (tried_if ws.old file.now sets.now set r v).ws) }
{
    if set % 2 == 1 {
        return attempt(ws, file, sets, r, v);
    }
    Tried::Passed
}

// The rules of a set, in order, until one acts.
fn tries(ws: &mut [u32], file: &[u8], sets: &[u64], rules: u64, v: Visited) -> Tried
    ensures { (result ≡ (tries ws.old file.now sets.now v rules 0 64).is) × (ws.new ≡ (tries ws.old file.now sets.now v rules 0 64).ws) }
{
    let mut set = rules;
    for r in 0..64 {
        if set == 0 {
            return Tried::Passed;
        }
        let tried = tried_if(ws, file, sets, set, r, v);
        match tried {
            Tried::Passed => {}
            Tried::Acted => return Tried::Acted,
            Tried::Refused(n) => return Tried::Refused(n),
        }
        set = set / 2;
    }
    Tried::Passed
}

// The rewrites of node n's path p.
fn rewrites(ws: &mut [u32], file: &[u8], sets: &[u64], t: NetId, n: NodeId, p: u32) -> Tried
    ensures { (result ≡ (rewrites ws.old file.now sets.now t.0 n.0 p).is) × (ws.new ≡ (rewrites ws.old file.now sets.now t.0 n.0 p).ws) }
{
    let v = Visited {
        net: t,
        node: n,
        path: p,
        meets: false,
        other: n,
        facing: p,
    };
    let set = rule_sets::set_of(sets, p, 3);
    if set == 0 {
        return Tried::Passed;
    }
    let tried = tries(ws, file, sets, set, v);
    match tried {
        Tried::Passed => Tried::Passed,
        Tried::Acted => Tried::Acted,
        Tried::Refused(r) => Tried::Refused(r),
    }
}

// Node n, of path p, meets node m with its principal port: the interactions, then the rewrites.
fn visit_pair(
    ws: &mut [u32],
    file: &[u8],
    sets: &[u64],
    t: NetId,
    n: NodeId,
    m: NodeId,
    p: u32,
) -> Tried
    ensures { (result ≡ (visit_pair ws.old file.now sets.now t.0 n.0 m.0 p).is) × (ws.new ≡ (visit_pair ws.old file.now sets.now t.0 n.0 m.0 p).ws) }
{
    let q = node_names::path(file, tried::name(ws, m));
    let v = Visited {
        net: t,
        node: n,
        path: p,
        meets: true,
        other: m,
        facing: q,
    };
    let tried = tries(ws, file, sets, rule_sets::set_of(sets, p, 2), v);
    match tried {
        Tried::Passed => rewrites(ws, file, sets, t, n, p),
        Tried::Acted => Tried::Acted,
        Tried::Refused(r) => Tried::Refused(r),
    }
}

// No rule names a free node.
pub fn visit(ws: &mut [u32], file: &[u8], sets: &[u64], t: NetId, n: NodeId) -> Tried
    ensures { (result ≡ (visit ws.old file.now sets.now t.0 n.0).is) × (ws.new ≡ (visit ws.old file.now sets.now t.0 n.0).ws) }
{
    let name = tried::name(ws, n);
    if name == 0 {
        return Tried::Passed;
    }
    let p = node_names::path(file, name);
    let q = layout::across(ws, layout::principal(n));
    if layout::is_principal(q) {
        return visit_pair(ws, file, sets, t, n, layout::node_of(q), p);
    }
    rewrites(ws, file, sets, t, n, p)
}

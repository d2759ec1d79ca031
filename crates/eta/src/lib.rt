// The rule eta_reduce of common.rs.
#![tactic(auto)]

ghost use Rattle.std.specs.Prelude.{◌≡◌};
ghost use Rattle.eta.specs.Eta.{odd_port, nils, straight, all_straight, drop_straight, drop_all_straight, join_around, act_combinators, alike, eta_combinators, eta_reduce};

use kinds::{NetId, NodeId};
use layout::Port;
use tried::Tried;

// ---- combinators

// Ports p and q meet nils of one name.
fn nils(ws: &[u32], file: &[u8], sets: &[u64], r: u32, p: Port, q: Port) -> bool
    ensures { result ≡ nils ws.now file.now sets.now r p.0 q.0 }
{
    let m = eta_values::meets(ws, p);
    let name = tried::name(ws, m);
    if tried::arity(ws, m) == 1 {
        if eta_values::is_value(ws, file, eta_values::meets(ws, q), name) {
            return rule_sets::nil(file, sets, r, name);
        }
        return false;
    }
    false
}

// Ports p and q meet each other, or nils of one name.
fn straight(ws: &[u32], file: &[u8], sets: &[u64], r: u32, p: Port, q: Port) -> bool
    ensures { result ≡ straight ws.now file.now sets.now r p.0 q.0 }
{
    if layout::across(ws, p) == q {
        return true;
    }
    nils(ws, file, sets, r, p, q)
}

fn all_straight(ws: &[u32], file: &[u8], sets: &[u64], r: u32, p: Port, q: Port, k: u32) -> bool
    ensures { result ≡ all_straight ws.now file.now sets.now r p.0 q.0 k }
{
    let mut x = p;
    let mut y = q;
    for _ in 0..k {
        if !straight(ws, file, sets, r, x, y) {
            return false;
        }
        x = layout::next_port(x);
        y = layout::next_port(y);
    }
    true
}

// The wire between p and q is cut, or the nils that they meet go.
fn drop_straight(ws: &mut [u32], p: Port, q: Port)
    ensures { ws.new ≡ drop_straight ws.old p.0 q.0 }
{
    if layout::across(ws, p) == q {
        graph::remove_wire(ws, p, q);
        return;
    }
    eta_values::drop_value(ws, p);
    eta_values::drop_value(ws, q)
}

fn drop_all_straight(ws: &mut [u32], p: Port, q: Port, k: u32)
    ensures { ws.new ≡ drop_all_straight ws.old p.0 q.0 k }
{
    let mut x = p;
    let mut y = q;
    for _ in 0..k {
        drop_straight(ws, x, y);
        x = layout::next_port(x);
        y = layout::next_port(y);
    }
}

// Nodes a and b are to go, what their principal ports meet is joined.
fn join_around(ws: &mut [u32], a: NodeId, b: NodeId)
    ensures { ws.new ≡ join_around ws.old a.0 b.0 }
{
    graph::remove_node(ws, a);
    graph::remove_node(ws, b);
    graph::link(ws, layout::principal(a), layout::principal(b))
}

fn act_combinators(ws: &mut [u32], a: NodeId, b: NodeId, k: u32) -> Tried
    ensures { (result ≡ (act_combinators ws.old a.0 b.0 k).is) × (ws.new ≡ (act_combinators ws.old a.0 b.0 k).ws) }
{
    if tried::spent(ws) {
        return Tried::Refused(14);
    }
    join_around(ws, a, b);
    drop_all_straight(ws, eta_values::aux(a), eta_values::aux(b), k);
    Tried::Acted
}

// Names and numbers of ports are the same.
fn alike(ws: &[u32], file: &[u8], a: NodeId, b: NodeId) -> bool
    ensures { result ≡ alike ws.now file.now a.0 b.0 }
{
    if tried::arity(ws, a) == tried::arity(ws, b) {
        return node_names::same_name(file, tried::name(ws, a), tried::name(ws, b));
    }
    false
}

fn eta_combinators(
    ws: &mut [u32],
    file: &[u8],
    sets: &[u64],
    r: u32,
    a: NodeId,
    b: NodeId,
    k: u32,
) -> Tried
    ensures { (result ≡ (eta_combinators ws.old file.now sets.now r a.0 b.0 k).is)
        × (ws.new ≡ (eta_combinators ws.old file.now sets.now r a.0 b.0 k).ws) }
{
    if alike(ws, file, a, b) {
        if all_straight(ws, file, sets, r, eta_values::aux(a), eta_values::aux(b), k) {
            return act_combinators(ws, a, b, k);
        }
        return Tried::Passed;
    }
    Tried::Passed
}

// ---- the rule

// The first of k ports from p on that does not meet a principal port; 0, which is no port, where all do.
fn odd_port(ws: &[u32], p: Port, k: u32) -> Port
    ensures { result.0 ≡ odd_port ws.now p.0 k }
{
    let mut q = p;
    for _ in 0..k {
        if !layout::is_principal(layout::across(ws, q)) {
            return q;
        }
        q = layout::next_port(q);
    }
    Port(0)
}

pub fn eta_reduce(ws: &mut [u32], file: &[u8], sets: &[u64], r: u32, t: NetId, n: NodeId) -> Tried
    ensures { (result ≡ (eta_reduce ws.old file.now sets.now r t.0 n.0).is)
        × (ws.new ≡ (eta_reduce ws.old file.now sets.now r t.0 n.0).ws) }
{
    let k = layout::less(tried::arity(ws, n));
    if k == 0 {
        return Tried::Passed;
    }
    let q = odd_port(ws, eta_values::aux(n), k);
    if q.0 == 0 {
        return eta_values::eta_values(ws, file, sets, r, t, n, k);
    }
    let b = eta_values::meets(ws, q);
    eta_combinators(ws, file, sets, r, n, b, k)
}

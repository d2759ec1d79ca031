// The rule eta_reduce of common.rs, on values.
#![tactic(auto)]

ghost use Rattle.std.specs.Prelude.{◌≡◌};
ghost use Rattle.eta_values.specs.Values.{aux, meets, is_value, all_values, drop_value, drop_values, remove_values, put_value, act_values, eta_values_words};

use edits::Placed;
use kinds::{NetId, NodeId};
use layout::Port;
use tried::Tried;

// The first auxiliary port of node n.
pub fn aux(n: NodeId) -> Port
    ensures { result.0 ≡ aux n.0 }
{
    layout::next_port(layout::principal(n))
}

// The node that port p meets.
pub fn meets(ws: &[u32], p: Port) -> NodeId
    ensures { result.0 ≡ meets ws.now p.0 }
{
    layout::node_of(layout::across(ws, p))
}

// Node n has one port and this name.
pub fn is_value(ws: &[u32], file: &[u8], n: NodeId, name: u32) -> bool
    ensures { result ≡ is_value ws.now file.now n.0 name }
{
    if tried::arity(ws, n) == 1 {
        return node_names::same_name(file, tried::name(ws, n), name);
    }
    false
}

// All k ports from p on meet values of this name.
fn all_values(ws: &[u32], file: &[u8], p: Port, k: u32, name: u32) -> bool
    ensures { result ≡ all_values ws.now file.now p.0 k name }
{
    let mut q = p;
    for _ in 0..k {
        if !is_value(ws, file, meets(ws, q), name) {
            return false;
        }
        q = layout::next_port(q);
    }
    true
}

// What port p meets is to go, its wire is cut.
pub fn drop_value(ws: &mut [u32], p: Port)
    ensures { ws.new ≡ drop_value ws.old p.0 }
{
    let m = meets(ws, p);
    graph::remove_node(ws, m);
    graph::remove_wire(ws, p, layout::principal(m))
}

fn drop_values(ws: &mut [u32], p: Port, k: u32)
    ensures { ws.new ≡ drop_values ws.old p.0 k }
{
    let mut q = p;
    for _ in 0..k {
        drop_value(ws, q);
        q = layout::next_port(q);
    }
}

// Node n and the k values that it meets are to go.
fn remove_values(ws: &mut [u32], n: NodeId, k: u32)
    ensures { ws.new ≡ remove_values ws.old n.0 k }
{
    graph::remove_node(ws, n);
    drop_values(ws, aux(n), k)
}

// A value of this name in net t, linked with node n's principal port.
fn put_value(ws: &mut [u32], t: NetId, n: NodeId, name: u32) -> Tried
    ensures { (result ≡ (put_value ws.old t.0 n.0 name).is) × (ws.new ≡ (put_value ws.old t.0 n.0 name).ws) }
{
    let placed = edits::insert_node(ws, t, name, 1);
    match placed {
        Placed::At(m) => {
            graph::link(ws, layout::principal(n), layout::principal(m));
            Tried::Acted
        }
        Placed::Refused(r) => Tried::Refused(r),
    }
}

// One value in place of node n and its k.
fn act_values(ws: &mut [u32], t: NetId, n: NodeId, k: u32, name: u32) -> Tried
    ensures { (result ≡ (act_values ws.old t.0 n.0 k name).is) × (ws.new ≡ (act_values ws.old t.0 n.0 k name).ws) }
{
    if tried::spent(ws) {
        return Tried::Refused(14);
    }
    remove_values(ws, n, k);
    put_value(ws, t, n, name)
}

pub fn eta_values(
    ws: &mut [u32],
    file: &[u8],
    sets: &[u64],
    r: u32,
    t: NetId,
    n: NodeId,
    k: u32,
) -> Tried
    ensures { (result ≡ (eta_values_words ws.old file.now sets.now r t.0 n.0 k).is)
        × (ws.new ≡ (eta_values_words ws.old file.now sets.now r t.0 n.0 k).ws) }
{
    let p = aux(n);
    let name = tried::name(ws, meets(ws, p));
    if rule_sets::value(file, sets, r, name) {
        if all_values(ws, file, p, k, name) {
            return act_values(ws, t, n, k, name);
        }
        return Tried::Passed;
    }
    Tried::Passed
}

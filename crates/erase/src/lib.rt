// The rule erase of common.rs.
#![tactic(auto)]

ghost use Rattle.std.specs.Prelude.{◌≡◌};
ghost use Rattle.erase.specs.Erase.{erase_ports, part, act, erase};

use edits::Placed;
use kinds::{NetId, NodeId};
use layout::Port;
use tried::Tried;

// An eraser of its own for each of k ports from p on.
fn erase_ports(ws: &mut [u32], t: NetId, name: u32, p: Port, k: u32) -> Tried
    ensures { (result ≡ (erase_ports ws.old t.0 name p.0 k).is) × (ws.new ≡ (erase_ports ws.old t.0 name p.0 k).ws) }
{
    let mut port = p;
    for _ in 0..k {
        let placed = edits::insert_node(ws, t, name, 1);
        match placed {
            Placed::At(n) => graph::link(ws, port, layout::principal(n)),
            Placed::Refused(r) => return Tried::Refused(r),
        }
        port = layout::next_port(port);
    }
    Tried::Acted
}

// Both nodes are to go, the wire between them is cut.
pub fn part(ws: &mut [u32], a: NodeId, b: NodeId)
    ensures { ws.new ≡ part ws.old a.0 b.0 }
{
    graph::remove_node(ws, a);
    graph::remove_node(ws, b);
    graph::remove_wire(ws, layout::principal(a), layout::principal(b))
}

fn act(ws: &mut [u32], t: NetId, eraser: NodeId, node: NodeId) -> Tried
    ensures { (result ≡ (act ws.old t.0 eraser.0 node.0).is) × (ws.new ≡ (act ws.old t.0 eraser.0 node.0).ws) }
{
    let name = tried::name(ws, eraser);
    let k = layout::less(tried::arity(ws, node));
    let p = layout::next_port(layout::principal(node));
    part(ws, eraser, node);
    erase_ports(ws, t, name, p, k)
}

pub fn erase(ws: &mut [u32], t: NetId, eraser: NodeId, node: NodeId) -> Tried
    ensures { (result ≡ (erase ws.old t.0 eraser.0 node.0).is) × (ws.new ≡ (erase ws.old t.0 eraser.0 node.0).ws) }
{
    if tried::arity(ws, eraser) == 1 {
        if tried::spent(ws) {
            return Tried::Refused(14);
        }
        return act(ws, t, eraser, node);
    }
    Tried::Passed
}

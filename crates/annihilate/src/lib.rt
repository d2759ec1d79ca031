// The rule annihilate of common.rs.
#![tactic(auto)]

ghost use Rattle.std.specs.Prelude.{◌≡◌};
ghost use Rattle.annihilate.specs.Annihilate.{alike, act, annihilate};

use kinds::NodeId;
use tried::Tried;

// The two have the same name.
fn alike(ws: &[u32], file: &[u8], a: NodeId, b: NodeId) -> bool
    ensures { result ≡ alike ws.now file.now a.0 b.0 }
{
    node_names::same_name(file, tried::name(ws, a), tried::name(ws, b))
}

fn act(ws: &mut [u32], a: NodeId, b: NodeId, k: u32) -> Tried
    ensures { (result ≡ (act ws.old a.0 b.0 k).is) × (ws.new ≡ (act ws.old a.0 b.0 k).ws) }
{
    if tried::spent(ws) {
        return Tried::Refused(14);
    }
    graph::remove_node(ws, a);
    graph::remove_node(ws, b);
    graph::link_all(ws, layout::principal(a), layout::principal(b), k);
    Tried::Acted
}

pub fn annihilate(ws: &mut [u32], file: &[u8], a: NodeId, b: NodeId) -> Tried
    ensures { (result ≡ (annihilate ws.old file.now a.0 b.0).is) × (ws.new ≡ (annihilate ws.old file.now a.0 b.0).ws) }
{
    if alike(ws, file, a, b) {
        let k = tried::arity(ws, a);
        if k == tried::arity(ws, b) {
            return act(ws, a, b, k);
        }
        return Tried::Passed;
    }
    Tried::Passed
}

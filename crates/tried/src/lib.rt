// What trying a rule answers, and what every rule asks of a node.
#![tactic(auto)]

ghost use Rattle.std.specs.Prelude.{◌≡◌};
ghost use Rattle.tried.specs.Tries.{spent, arity, name};

use kinds::NodeId;

#[derive(Clone, Copy)]
pub enum Tried {
    Passed,
    Acted,
    Refused(u32),
}

// 14 comes before anything is changed.
pub fn spent(ws: &[u32]) -> bool
    ensures { result ≡ spent ws.now }
{
    words::get(ws, layout::STEPS) == 16777216
}

pub fn arity(ws: &[u32], n: NodeId) -> u32
    ensures { result ≡ arity ws.now n.0 }
{
    layout::node_word(ws, n, 3)
}

pub fn name(ws: &[u32], n: NodeId) -> u32
    ensures { result ≡ name ws.now n.0 }
{
    layout::node_word(ws, n, 1)
}

// Check 7 on all nets of trees of a file.
#![tactic(auto)]

ghost use Rattle.std.specs.Prelude.{◌≡◌};
ghost use Rattle.wiring_tree_nets.specs.Nets.{tree, nets_wired};

use wiring_nets::Wires;

// Nets of trees.
struct Trees;

impl Wires for Trees {
    ghost net = { tree };

    fn next(counts: &mut [u32], base: u16, s: &[u8], at: usize, _left: u16) -> Option<usize> {
        let end = wiring_tree::tally_net(counts, base, s, at);
        if wiring_tree::net_wired(counts, base, s, at) {
            Some(end)
        } else {
            None
        }
    }
}

// Whether each of n nets of trees is well wired.
pub fn nets_wired(s: &[u8], from: usize, n: u16) -> bool
    ensures { result ≡ nets_wired s.now from n }
{
    wiring_nets::nets_well::<Trees>(s, from, n)
}

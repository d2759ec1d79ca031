// Check 5 on a whole flat file, from its fifth byte to its last.
#![tactic(auto)]

ghost use Rattle.std.specs.Prelude.{◌≡◌};
ghost use Rattle.net_file.specs.Values.{FlatNet};
ghost use Rattle.net_file.specs.Read.{read_flat_net, read_body};
ghost use Rattle.net_file.specs.Checks.{flat};
ghost use Rattle.walk.specs.After.{after};
ghost use Rattle.body_flat.specs.Flat.{flat_nets};

use body::Nets;

struct FlatNets;

impl Nets for FlatNets {
    ghost Net = { FlatNet };

    ghost kind = { flat_nets };

    fn walk(s: &[u8], from: usize, n: u32, paths: u32, names: u32) -> Option<usize> {
        walk_flat::flat_nets(s, from, n, paths, names)
    }

    fn nodes(s: &[u8], from: usize, n: u32) -> u32 {
        count_flat::nets_nodes(s, from, n)
    }
}

pub fn flat_body(s: &[u8]) -> Option<usize>
    ensures { result ≡ after 5 (read_body read_flat_net flat.nodes) s.now }
{
    body::body::<FlatNets>(s)
}

// Check 5 on a whole tree file, from its fifth byte to its last.
#![tactic(auto)]

ghost use Rattle.std.specs.Prelude.{◌≡◌};
ghost use Rattle.net_file.specs.Values.{TreeNet};
ghost use Rattle.net_file.specs.Read.{read_tree_net, read_body};
ghost use Rattle.net_file.specs.Checks.{tree};
ghost use Rattle.walk.specs.After.{after};
ghost use Rattle.body_tree.specs.Tree.{tree_nets};

use body::Nets;

struct TreeNets;

impl Nets for TreeNets {
    ghost Net = { TreeNet };

    ghost kind = { tree_nets };

    fn walk(s: &[u8], from: usize, n: u32, paths: u32, names: u32) -> Option<usize> {
        walk_tree::tree_nets(s, from, n, paths, names)
    }

    fn nodes(s: &[u8], from: usize, n: u32) -> u32 {
        scan_tree::nets_nodes(s, from, n)
    }
}

pub fn tree_body(s: &[u8]) -> Option<usize>
    ensures { result ≡ after 5 (read_body read_tree_net tree.nodes) s.now }
{
    body::body::<TreeNets>(s)
}

// Check 5's limit of 4,096 nodes a file, on flat nets: counted up to 4,097, so that no count can wrap.
#![tactic(auto)]

ghost use Rattle.std.specs.Prelude.{◌≡◌, ◌+◌, min};
ghost use Rattle.count_flat.specs.Count.{net_nodes, nets_nodes};

pub fn add(total: u32, more: u32) -> u32
    ensures { result ≡ min 4097 (total + more) }
{
    (total as u64 + more as u64).min(4097) as u32
}

// The nodes of one net.
pub fn net_nodes(s: &[u8], at: usize) -> u16
    ensures { result ≡ net_nodes s.now at }
{
    fields::be16(s, ends::node_count_at(s, at))
}

// The nodes of n nets, one after another.
pub fn nets_nodes(s: &[u8], from: usize, n: u32) -> u32
    ensures { result ≡ min 4097 (nets_nodes s.now from n) }
{
    let mut at = from;
    let mut total: u32 = 0;
    for i in 0..n {
        total = add(total, net_nodes(s, at) as u32);
        at = ends::next_net(s, at, n - i);
    }
    total
}

// Check 5 on flat nets. The room is tested twice: `s.len().checked_sub(2)? < at` was tried, and runs slower.
#![tactic(auto, using(crate::specs::Flat::ways))]

ghost use Rattle.std.specs.Prelude.{◌≡◌};
ghost use Rattle.net_file.specs.Read.{times, many, read_node, read_pair, read_flat_net};
ghost use Rattle.walk.specs.After.{after};
ghost use Rattle.walk_flat.specs.Flat.{read_ports, read_parts};

// A node's wires: the principal one, then at most 15.
fn ports(s: &[u8], at: usize, wires: u32) -> Option<usize>
    ensures { result ≡ after at (read_ports wires) s.now }
{
    if s.len() < 3 {
        return None;
    }
    if s.len() - 3 < at {
        return None;
    }
    let p = fields::be16(s, at);
    if wires <= p as u32 {
        return None;
    }
    walk::counted(s, at + 2, 15, wires)
}

pub fn node(s: &[u8], at: usize, paths: u32, names: u32, wires: u32) -> Option<usize>
    ensures { result ≡ after at (read_node paths names wires) s.now }
{
    let e = walk::name(s, at, paths, names)?;
    ports(s, e, wires)
}

// n nodes, one after another.
fn nodes(s: &[u8], from: usize, n: u32, paths: u32, names: u32, wires: u32) -> Option<usize>
    ensures { result ≡ after from (times n (read_node paths names wires)) s.now }
{
    if s.len() < from {
        return None;
    }
    let mut at = from;
    for _ in 0..n {
        at = node(s, at, paths, names, wires)?;
    }
    Some(at)
}

// A count of two bytes, at most 4,096, then as many nodes.
fn counted_nodes(s: &[u8], at: usize, paths: u32, names: u32, wires: u32) -> Option<usize>
    ensures { result ≡ after at (many 2 4096 (read_node paths names wires)) s.now }
{
    if s.len() < 2 {
        return None;
    }
    if s.len() - 2 < at {
        return None;
    }
    let k = fields::be16(s, at);
    if 4096 < k {
        return None;
    }
    nodes(s, at + 2, k as u32, paths, names, wires)
}

// A pair is walked over as two wires.
fn pairs(s: &[u8], at: usize, wires: u32) -> Option<usize>
    ensures { result ≡ after at (many 2 65535 (read_pair wires)) s.now }
{
    if s.len() < 2 {
        return None;
    }
    if s.len() - 2 < at {
        return None;
    }
    let k = fields::be16(s, at);
    walk::numbers(s, at + 2, 2 * (k as u32), wires)
}

// All that follows a net's head: free wires, pairs, nodes.
fn parts(s: &[u8], at: usize, paths: u32, names: u32, wires: u32) -> Option<usize>
    ensures { result ≡ after at (read_parts paths names wires) s.now }
{
    let e = walk::counted(s, at, 14, wires)?;
    let q = pairs(s, e, wires)?;
    counted_nodes(s, q, paths, names, wires)
}

pub fn flat_net(s: &[u8], at: usize, paths: u32, names: u32) -> Option<usize>
    ensures { result ≡ after at (read_flat_net paths names) s.now }
{
    let e = walk_head::net_head(s, at, names)?;
    let wires = fields::be32(s, at + 3);
    parts(s, e, paths, names, wires)
}

// n nets, one after another.
pub fn flat_nets(s: &[u8], from: usize, n: u32, paths: u32, names: u32) -> Option<usize>
    ensures { result ≡ after from (times n (read_flat_net paths names)) s.now }
{
    if s.len() < from {
        return None;
    }
    let mut at = from;
    for _ in 0..n {
        at = flat_net(s, at, paths, names)?;
    }
    Some(at)
}

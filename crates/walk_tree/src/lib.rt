// Check 5 for trees: each function walks over one part of a tree file, and answers the place after it, or `None` where it cannot be read.
// What is right is what the reader of that part says (`after`).
#![tactic(auto, using(crate::specs::Tree::ways, crate::specs::Net::ways))]

ghost use Rattle.std.specs.Prelude.{◌≡◌};
ghost use Rattle.net_file.specs.Read.{times, many, read_wire, read_tree, read_link, read_tree_net};
ghost use Rattle.walk.specs.After.{after};
ghost use Rattle.walk_tree.specs.Net.{read_net_trees};

// A wire behind its tag: two bytes.
fn wire(s: &[u8], at: usize, wires: u32) -> Option<usize>
    ensures { result ≡ after at (read_wire wires) s.now }
{
    if s.len() < 2 {
        return None;
    }
    if s.len() - 2 < at {
        return None;
    }
    let w = fields::be16(s, at);
    if wires <= w as u32 {
        return None;
    }
    Some(at + 2)
}

// A tree of at most depth d. With `trees` it calls itself: the depth that is left falls, so the stack holds at most 2 * 64 calls.
#[cycle(tree_trees)]
pub fn tree(s: &[u8], at: usize, paths: u32, names: u32, wires: u32, d: u32) -> Option<usize>
    ensures { result ≡ after at (read_tree paths names wires d) s.now }
{
    if s.len() <= at {
        return None;
    }
    let tag = fields::byte(s, at);
    if tag == 0 {
        return wire(s, at + 1, wires);
    }
    if 1 < tag {
        return None;
    }
    if d == 0 {
        return None;
    }
    let e = walk::name(s, at + 1, paths, names)?;
    if s.len() <= e {
        return None;
    }
    let k = fields::byte(s, e);
    if 15 < k {
        return None;
    }
    trees(s, e + 1, k as u32, paths, names, wires, d - 1)
}

// n trees of at most depth d, one after another.
#[cycle(tree_trees)]
pub fn trees(
    s: &[u8],
    from: usize,
    n: u32,
    paths: u32,
    names: u32,
    wires: u32,
    d: u32,
) -> Option<usize>
    ensures { result ≡ after from (times n (read_tree paths names wires d)) s.now }
{
    if s.len() < from {
        return None;
    }
    let mut at = from;
    for _ in 0..n {
        at = tree(s, at, paths, names, wires, d)?;
    }
    Some(at)
}

// A net's free trees: a count of one byte, at most 14.
fn free(s: &[u8], at: usize, paths: u32, names: u32, wires: u32) -> Option<usize>
    ensures { result ≡ after at (many 1 14 (read_tree paths names wires 64)) s.now }
{
    if s.len() <= at {
        return None;
    }
    let k = fields::byte(s, at);
    if 14 < k {
        return None;
    }
    trees(s, at + 1, k as u32, paths, names, wires, 64)
}

// A net's links: a count of two bytes, then two trees for each link, which are walked over as one run of trees.
fn links(s: &[u8], at: usize, paths: u32, names: u32, wires: u32) -> Option<usize>
    ensures { result ≡ after at (many 2 65535 (read_link paths names wires)) s.now }
{
    if s.len().checked_sub(2)? < at {
        return None;
    }
    let k = fields::be16(s, at);
    trees(s, at + 2, 2 * (k as u32), paths, names, wires, 64)
}

// All the trees of a net.
fn net_trees(s: &[u8], at: usize, paths: u32, names: u32, wires: u32) -> Option<usize>
    ensures { result ≡ after at (read_net_trees paths names wires) s.now }
{
    let e = free(s, at, paths, names, wires)?;
    links(s, e, paths, names, wires)
}

pub fn tree_net(s: &[u8], at: usize, paths: u32, names: u32) -> Option<usize>
    ensures { result ≡ after at (read_tree_net paths names) s.now }
{
    let e = walk_head::net_head(s, at, names)?;
    let wires = fields::be32(s, at + 3);
    net_trees(s, e, paths, names, wires)
}

// n nets, one after another.
pub fn tree_nets(s: &[u8], from: usize, n: u32, paths: u32, names: u32) -> Option<usize>
    ensures { result ≡ after from (times n (read_tree_net paths names)) s.now }
{
    if s.len() < from {
        return None;
    }
    let mut at = from;
    for _ in 0..n {
        at = tree_net(s, at, paths, names)?;
    }
    Some(at)
}

// A scan of stored trees in one loop, without recursion: at a place it keeps how many trees are still to come there. A wire is one
// less; a node is one less and its children more. Where the bytes left are fewer than the trees to come, nothing comes: so the
// sums do not wrap, on any bytes, and on a file that is read it never happens.
#![tactic(auto)]

ghost use Rattle.std.specs.Prelude.{◌≡◌, ◌+◌, ◌≤◌, min, length};
ghost use Rattle.scan_tree.specs.Scan.{begin, step};
ghost use Rattle.scan_tree.specs.Count.{node_at, nodes_from, end_from, links_at, net_nodes, net_end, nets_nodes};

// The place of a tree, and how many come from there on.
#[derive(Clone, Copy)]
pub struct Scan {
    pub at: usize,
    pub left: usize,
}

pub fn begin(s: &[u8], at: usize, left: usize) -> Scan
    ensures { result ≡ begin s.now at left }
{
    if s.len() < at {
        return Scan { at: at, left: 0 };
    }
    if s.len() - at < left {
        return Scan { at: at, left: 0 };
    }
    Scan { at: at, left: left }
}

// Past one tree's own bytes, to its first child or to what follows it.
pub fn step(s: &[u8], at: usize, left: usize) -> Scan
    ensures { result ≡ step s.now at left }
{
    if left == 0 {
        return Scan { at: at, left: 0 };
    }
    if s.len() <= at {
        return Scan { at: at, left: 0 };
    }
    if s.len() - at < left {
        return Scan { at: at, left: 0 };
    }
    let tag = fields::byte(s, at);
    if tag == 0 {
        return begin(s, at + 3, left - 1);
    }
    let e = at + 12 + 2 * (fields::byte(s, at + 11) as usize);
    let n = fields::byte(s, e);
    begin(s, e + 1, left - 1 + n as usize)
}

// 1 for a node, 0 for a wire.
fn node_at(s: &[u8], at: usize) -> usize
    ensures { (result ≡ node_at s.now at) × (result ≤ 1) }
{
    if fields::byte(s, at) == 0 { 0 } else { 1 }
}

// How many nodes the scan met, and the place behind it.
#[derive(Clone, Copy)]
pub struct Counted {
    pub nodes: usize,
    pub end: usize,
}

// The nodes of k trees. A node takes a byte at least, so there are not more of them than bytes.
pub fn count(s: &[u8], from: usize, k: usize) -> Counted
    ensures nodes_value { (result.nodes ≡ nodes_from s.now from k) × (result.end ≡ end_from s.now from k) }
    ensures nodes_in_bounds { (result.nodes ≤ length s.now) × (result.end ≤ length s.now) }
{
    let mut c = begin(s, from, k);
    let mut n: usize = 0;
    while 0 < c.left {
        let at = c.at;
        let left = c.left;
        n += node_at(s, at);
        c = step(s, at, left);
    }
    let end = c.at;
    if s.len() < end {
        return Counted {
            nodes: n,
            end: s.len(),
        };
    }
    Counted { nodes: n, end: end }
}

// The place of a net's link count, behind its free trees.
pub fn links_at(s: &[u8], at: usize) -> usize
    ensures { (result ≡ links_at s.now at) × (result ≤ length s.now) }
{
    if s.len() < at {
        return s.len();
    }
    let free = fields::byte(s, at + 7);
    let f = count(s, at + 8, free as usize);
    f.end
}

// The nodes of a net: of its free trees, then of its links, of which each is two trees.
pub fn count_net(s: &[u8], at: usize) -> Counted
    ensures { (result.nodes ≡ net_nodes s.now at) × (result.end ≡ net_end s.now at) }
{
    if s.len() < at {
        return Counted {
            nodes: 0,
            end: s.len(),
        };
    }
    let free = fields::byte(s, at + 7);
    let f = count(s, at + 8, free as usize);
    let p = f.end;
    let links = fields::be16(s, p);
    let l = count(s, p + 2, 2 * (links as usize));
    Counted {
        nodes: f.nodes + l.nodes,
        end: l.end,
    }
}

// A sum of nodes up to 4,097, one more than a file may have.
fn capped(total: u32, more: usize) -> u32
    ensures { result ≡ min 4097 (total + more) }
{
    (total as usize).saturating_add(more).min(4097) as u32
}

// The nodes of n nets, up to 4,097: whether there are at most 4,096 is told exactly, and no sum wraps.
pub fn nets_nodes(s: &[u8], from: usize, n: u32) -> u32
    ensures { result ≡ min 4097 (nets_nodes s.now from n) }
{
    let mut at = from;
    let mut total: u32 = 0;
    for _ in 0..n {
        let c = count_net(s, at);
        total = capped(total, c.nodes);
        at = c.end;
    }
    total
}

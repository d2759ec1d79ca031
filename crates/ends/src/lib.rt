// The place after each part of a flat file, by the counts that stand there; where that is past the end, the end.
#![tactic(auto)]

ghost use Rattle.std.specs.Prelude.{◌+◌, ◌≡◌};
ghost use Rattle.stored.specs.Stored.{table_end, list_end, path_end, name_end, node_end, rule_end, pair_count_at, node_count_at, flat_net_end};
ghost use Rattle.ends.specs.Ends.{within, on, next_net};
ghost use Rattle.ends.specs.Whole.{whole_node};

// k bytes on.
pub fn on(s: &[u8], at: usize, k: usize) -> usize
    ensures { result ≡ on s.now at k }
{
    let n = s.len();
    if n <= at {
        return n;
    }
    if n - at < k {
        return n;
    }
    at + k
}

// A count of one byte, then as many numbers of two.
pub fn list_end(s: &[u8], at: usize) -> usize
    ensures { result ≡ within s.now (list_end s.now at) }
{
    let n = s.len();
    if n <= at {
        return n;
    }
    let k = 2 * (fields::byte(s, at) as usize);
    if n - at <= k {
        return n;
    }
    at + 1 + k
}

pub fn path_end(s: &[u8], at: usize) -> usize
    ensures { result ≡ within s.now (path_end s.now at) }
{
    let n = s.len();
    if n <= at {
        return n;
    }
    let k = fields::byte(s, at) as usize;
    if n - at <= k {
        return n;
    }
    at + 1 + k
}

pub fn name_end(s: &[u8], at: usize) -> usize
    ensures { result ≡ within s.now (name_end s.now at) }
{
    let n = s.len();
    if n <= 10 {
        return n;
    }
    if n - 10 <= at {
        return n;
    }
    list_end(s, at + 10)
}

// A node's wires, after its name: the principal one, then a list.
pub fn wires_end(s: &[u8], e: usize) -> usize
    ensures { result ≡ within s.now (list_end s.now (e + 2)) }
{
    let n = s.len();
    if n <= 2 {
        return n;
    }
    if n - 2 <= e {
        return n;
    }
    list_end(s, e + 2)
}

pub fn node_end(s: &[u8], at: usize) -> usize
    ensures { result ≡ within s.now (node_end s.now at) }
{
    wires_end(s, name_end(s, at))
}

// Where a node's name ends; 0 where the node does not stand in the file as a whole.
pub fn whole_node(s: &[u8], at: usize) -> usize
    ensures { result ≡ whole_node s.now at }
{
    let n = s.len();
    if n < 14 {
        return 0;
    }
    if n - 14 < at {
        return 0;
    }
    let e = at + 11 + 2 * (fields::byte(s, at + 10) as usize);
    if n - 3 < e {
        return 0;
    }
    if n - 3 - e < 2 * (fields::byte(s, e + 2) as usize) {
        return 0;
    }
    e
}

// n nodes, one after another.
pub fn nodes_end(s: &[u8], from: usize, n: u32) -> usize
    ensures { result ≡ within s.now (table_end (node_end s.now) from n) }
{
    let mut at = from;
    for _ in 0..n {
        at = node_end(s, at);
    }
    if s.len() < at {
        return s.len();
    }
    at
}

// The place of a flat net's pair count.
pub fn pair_count_at(s: &[u8], at: usize) -> usize
    ensures { result ≡ within s.now (pair_count_at s.now at) }
{
    let n = s.len();
    if n <= 7 {
        return n;
    }
    if n - 7 <= at {
        return n;
    }
    list_end(s, at + 7)
}

// The place of a flat net's node count.
pub fn node_count_at(s: &[u8], at: usize) -> usize
    ensures { result ≡ within s.now (node_count_at s.now at) }
{
    let n = s.len();
    let p = pair_count_at(s, at);
    let k = 4 * (fields::be16(s, p) as usize);
    if n - p < 2 {
        return n;
    }
    if n - p - 2 < k {
        return n;
    }
    p + 2 + k
}

pub fn flat_net_end(s: &[u8], at: usize) -> usize
    ensures { result ≡ within s.now (flat_net_end s.now at) }
{
    let n = s.len();
    let q = node_count_at(s, at);
    let k = fields::be16(s, q);
    if n - q < 2 {
        return n;
    }
    nodes_end(s, q + 2, k as u32)
}

// The place after a flat net where another follows; after the last of those that are left nothing is looked for.
pub fn next_net(s: &[u8], at: usize, left: u32) -> usize
    ensures { result ≡ next_net s.now at left }
{
    if 1 < left {
        return flat_net_end(s, at);
    }
    at
}

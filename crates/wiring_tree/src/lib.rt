// Check 7 on nets of trees: all wires of a net are tallied by one scan; then, by a second, each of them was seen twice.
#![tactic(auto)]

ghost use Rattle.std.specs.Prelude.{◌≡◌, ◌<◌, ◌≤◌, length};
ghost use Rattle.net_file.specs.Lists.{all};
ghost use Rattle.tally.specs.Tally.{tally};
ghost use Rattle.wiring.specs.Wiring.{twice};
ghost use Rattle.scan_tree.specs.Count.{wire_at, wires_from, end_from, net_end};
ghost use Rattle.wiring_tree.specs.Wiring.{net_tallied, net_wired};

// The wire at a tree's place; a node has none.
fn tally_tree(counts: &mut [u32], base: u16, s: &[u8], at: usize)
    requires { at < length s.now }
    ensures { counts.new ≡ tally counts.old base (wire_at s.now at) }
{
    if fields::byte(s, at) == 0 {
        let w = fields::be16(s, at + 1);
        tally::bump(counts, base, w)
    }
}

// The wires of k trees; the answer is the place behind them.
pub fn tally_trees(counts: &mut [u32], base: u16, s: &[u8], from: usize, k: usize) -> usize
    ensures { (counts.new ≡ tally counts.old base (wires_from s.now from k)) × (result ≡ end_from s.now from k) × (result ≤ length s.now) }
{
    let mut c = scan_tree::begin(s, from, k);
    while 0 < c.left {
        let at = c.at;
        let left = c.left;
        tally_tree(counts, base, s, at);
        c = scan_tree::step(s, at, left);
    }
    let end = c.at;
    if s.len() < end {
        return s.len();
    }
    end
}

// A net's wires: those of its free trees, then those of its links. The answer is the place behind the net.
pub fn tally_net(counts: &mut [u32], base: u16, s: &[u8], at: usize) -> usize
    ensures { (counts.new ≡ net_tallied counts.old base s.now at) × (result ≡ net_end s.now at) }
{
    if s.len() < at {
        return s.len();
    }
    let free = fields::byte(s, at + 7);
    let p = tally_trees(counts, base, s, at + 8, free as usize);
    let links = fields::be16(s, p);
    tally_trees(counts, base, s, p + 2, 2 * (links as usize))
}

// Whether the wire at a tree's place was seen twice, if one is there.
fn twice_tree(counts: &[u32], base: u16, s: &[u8], at: usize) -> bool
    requires { at < length s.now }
    ensures { result ≡ all (twice counts.now base) (wire_at s.now at) }
{
    if fields::byte(s, at) != 0 {
        return true;
    }
    let w = fields::be16(s, at + 1);
    wiring::twice(counts, base, w)
}

// Whether each wire of k trees was.
pub fn twice_trees(counts: &[u32], base: u16, s: &[u8], from: usize, k: usize) -> bool
    ensures { result ≡ all (twice counts.now base) (wires_from s.now from k) }
{
    let mut c = scan_tree::begin(s, from, k);
    while 0 < c.left {
        let at = c.at;
        let left = c.left;
        if !twice_tree(counts, base, s, at) {
            return false;
        }
        c = scan_tree::step(s, at, left);
    }
    true
}

// Of a net whose wires are tallied: whether each was seen twice.
pub fn net_wired(counts: &[u32], base: u16, s: &[u8], at: usize) -> bool
    ensures { result ≡ net_wired counts.now base s.now at }
{
    if s.len() < at {
        return true;
    }
    let free = fields::byte(s, at + 7);
    if twice_trees(counts, base, s, at + 8, free as usize) {
        let p = scan_tree::links_at(s, at);
        let links = fields::be16(s, p);
        return twice_trees(counts, base, s, p + 2, 2 * (links as usize));
    }
    false
}

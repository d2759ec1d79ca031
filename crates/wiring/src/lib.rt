// Check 7 on flat nets: all wires of a net are tallied, those of its pairs too; then the two of a pair occur alike, and every
// wire in a free or node place was seen twice: a wire in a pair once there and once in its pair, any other twice.
#![tactic(auto)]

ghost use Rattle.std.specs.Prelude.{◌+◌, ◌*◌, ◌<◌, ◌≤◌, ◌≡◌, ◌++◌, length, MatchBool};
ghost use Rattle.fields.specs.Fields.{byte, be16};
ghost use Rattle.ends.specs.Ends.{on};
ghost use Rattle.net_file.specs.Lists.{all};
ghost use Rattle.tally.specs.Tally.{tally};
ghost use Rattle.ends.specs.Runs.{run};
ghost use Rattle.wiring.specs.Wiring.{pair_run, nodes_wires, free_wires, paired_wires, net_pairs, net_nodes, twice, alike, net_tallied, net_wired};
ghost use Rattle.wiring.specs.Fits.{fits};

// A wire that is there: no byte of it is tested for.
fn wire(s: &[u8], at: usize) -> u16
    requires { at + 2 ≤ length s.now }
    ensures { result ≡ be16 s.now at }
{
    u16::from_be_bytes([s[at], s[at + 1]])
}

// Whether n of so many bytes each are there from a place on.
pub fn there(s: &[u8], from: usize, n: u32, size: u8) -> bool
    ensures { MatchBool result (from + size * n ≤ length s.now) (length s.now < from + size * n) }
{
    from <= s.len() && size as usize * n as usize <= s.len() - from
}

// n wires that stand one after another, where all are there.
pub fn tally_run(counts: &mut [u32], base: u16, s: &[u8], from: usize, n: u32)
    ensures { counts.new ≡ tally counts.old base (run s.now from n) }
{
    if !there(s, from, n, 2) {
        return;
    }
    let mut at = from;
    for _ in 0..n {
        let w = wire(s, at);
        tally::bump(counts, base, w);
        at += 2;
    }
}

// A node's wires, where its name ends: the principal one, then the others.
fn tally_both(counts: &mut [u32], base: u16, s: &[u8], e: usize)
    ensures { counts.new ≡ tally counts.old base (run s.now e 1 ++ run s.now (on s.now e 3) (byte s.now (on s.now e 2))) }
{
    tally_run(counts, base, s, e, 1);
    let k = fields::byte(s, ends::on(s, e, 2));
    let from = ends::on(s, e, 3);
    tally_run(counts, base, s, from, k as u32)
}

// The same; mostly the principal wire and the count are there.
fn tally_node(counts: &mut [u32], base: u16, s: &[u8], e: usize)
    ensures { counts.new ≡ tally counts.old base (run s.now e 1 ++ run s.now (on s.now e 3) (byte s.now (on s.now e 2))) }
{
    if s.len() < 3 {
        return tally_both(counts, base, s, e);
    }
    if s.len() - 3 < e {
        return tally_both(counts, base, s, e);
    }
    tally::bump(counts, base, wire(s, e));
    let k = s[e + 2] as u16;
    tally_run(counts, base, s, e + 3, k as u32)
}

pub fn tally_nodes(counts: &mut [u32], base: u16, s: &[u8], from: usize, n: u32)
    ensures { counts.new ≡ tally counts.old base (nodes_wires s.now from n) }
{
    let mut at = from;
    for _ in 0..n {
        let e = ends::name_end(s, at);
        tally_node(counts, base, s, e);
        at = ends::wires_end(s, e);
    }
}

// A net's free wires, those of its pairs, and those of its nodes.
fn tally_free(counts: &mut [u32], base: u16, s: &[u8], at: usize)
    ensures { counts.new ≡ tally counts.old base (free_wires s.now at) }
{
    let free = fields::byte(s, ends::on(s, at, 7));
    let first = ends::on(s, at, 8);
    tally_run(counts, base, s, first, free as u32)
}

fn tally_pairs(counts: &mut [u32], base: u16, s: &[u8], at: usize)
    ensures { counts.new ≡ tally counts.old base (paired_wires s.now at) }
{
    let p = ends::pair_count_at(s, at);
    let k = fields::be16(s, p);
    let from = ends::on(s, p, 2);
    tally_run(counts, base, s, from, 2 * (k as u32))
}

fn tally_places(counts: &mut [u32], base: u16, s: &[u8], at: usize)
    ensures { counts.new ≡ tally counts.old base (net_nodes s.now at) }
{
    let q = ends::node_count_at(s, at);
    let k = fields::be16(s, q);
    let from = ends::on(s, q, 2);
    tally_nodes(counts, base, s, from, k as u32)
}

pub fn tally_net(counts: &mut [u32], base: u16, s: &[u8], at: usize)
    ensures { counts.new ≡ net_tallied counts.old base s.now at }
{
    tally_free(counts, base, s, at);
    tally_pairs(counts, base, s, at);
    tally_places(counts, base, s, at)
}

// Whether a wire was seen twice.
pub fn twice(counts: &[u32], base: u16, w: u16) -> bool
    ensures { result ≡ twice counts.now base w }
{
    words::get(counts, w as usize) == base as u32 + 2
}

// Whether each of n wires was.
pub fn twice_run(counts: &[u32], base: u16, s: &[u8], from: usize, n: u32) -> bool
    ensures { result ≡ all (twice counts.now base) (run s.now from n) }
{
    if !there(s, from, n, 2) {
        return true;
    }
    let mut at = from;
    for _ in 0..n {
        if !twice(counts, base, wire(s, at)) {
            return false;
        }
        at += 2;
    }
    true
}

// Whether those of the node were whose name ends here.
fn twice_both(counts: &[u32], base: u16, s: &[u8], e: usize) -> bool
    ensures { result ≡ all (twice counts.now base) (run s.now e 1 ++ run s.now (on s.now e 3) (byte s.now (on s.now e 2))) }
{
    if twice_run(counts, base, s, e, 1) {
        let k = fields::byte(s, ends::on(s, e, 2));
        let from = ends::on(s, e, 3);
        return twice_run(counts, base, s, from, k as u32);
    }
    false
}

// The same; mostly the principal wire and the count are there.
fn twice_node(counts: &[u32], base: u16, s: &[u8], e: usize) -> bool
    ensures { result ≡ all (twice counts.now base) (run s.now e 1 ++ run s.now (on s.now e 3) (byte s.now (on s.now e 2))) }
{
    if s.len() < 3 {
        return twice_both(counts, base, s, e);
    }
    if s.len() - 3 < e {
        return twice_both(counts, base, s, e);
    }
    if !twice(counts, base, wire(s, e)) {
        return false;
    }
    let k = s[e + 2] as u16;
    twice_run(counts, base, s, e + 3, k as u32)
}

pub fn twice_nodes(counts: &[u32], base: u16, s: &[u8], from: usize, n: u32) -> bool
    ensures { result ≡ all (twice counts.now base) (nodes_wires s.now from n) }
{
    let mut at = from;
    for _ in 0..n {
        let e = ends::name_end(s, at);
        if !twice_node(counts, base, s, e) {
            return false;
        }
        at = ends::wires_end(s, e);
    }
    true
}

// Whether the two wires of a pair were seen alike.
fn alike(counts: &[u32], a: u16, b: u16) -> bool
    ensures { result ≡ alike counts.now (a, b) }
{
    words::get(counts, a as usize) == words::get(counts, b as usize)
}

// Whether those of each of n pairs were.
pub fn alike_run(counts: &[u32], s: &[u8], from: usize, n: u32) -> bool
    ensures { result ≡ all (alike counts.now) (pair_run s.now from n) }
{
    if !there(s, from, n, 4) {
        return true;
    }
    let mut at = from;
    for _ in 0..n {
        let a = fields::be16(s, at);
        let b = fields::be16(s, at + 2);
        if !alike(counts, a, b) {
            return false;
        }
        at += 4;
    }
    true
}

fn twice_free(counts: &[u32], base: u16, s: &[u8], at: usize) -> bool
    ensures { result ≡ all (twice counts.now base) (free_wires s.now at) }
{
    let k = fields::byte(s, ends::on(s, at, 7));
    let from = ends::on(s, at, 8);
    twice_run(counts, base, s, from, k as u32)
}

fn alike_pairs(counts: &[u32], s: &[u8], at: usize) -> bool
    ensures { result ≡ all (alike counts.now) (net_pairs s.now at) }
{
    let p = ends::pair_count_at(s, at);
    let k = fields::be16(s, p);
    let from = ends::on(s, p, 2);
    alike_run(counts, s, from, k as u32)
}

fn twice_places(counts: &[u32], base: u16, s: &[u8], at: usize) -> bool
    ensures { result ≡ all (twice counts.now base) (net_nodes s.now at) }
{
    let q = ends::node_count_at(s, at);
    let k = fields::be16(s, q);
    let from = ends::on(s, q, 2);
    twice_nodes(counts, base, s, from, k as u32)
}

// Of a net whose wires are tallied: whether they were seen as they should.
pub fn net_wired(counts: &[u32], base: u16, s: &[u8], at: usize) -> bool
    ensures { result ≡ net_wired counts.now base s.now at }
{
    if alike_pairs(counts, s, at) {
        if twice_free(counts, base, s, at) {
            return twice_places(counts, base, s, at);
        }
    }
    false
}

// Whether there is a word for each wire of the net at a place, flat or of trees: they are below its counter, which its head has.
pub fn fits(counts: &[u32], s: &[u8], at: usize) -> bool
    ensures { result ≡ fits counts.now s.now at }
{
    let wires = fields::be32(s, ends::on(s, at, 3));
    wires as usize <= counts.len()
}

// How far nets are told by the words at hand: all are well, one is not, or some are left that need more words.
#[derive(Clone, Copy)]
pub enum Told<R> {
    Well,
    Not,
    Wide(R),
}

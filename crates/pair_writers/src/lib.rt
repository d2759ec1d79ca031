// A flat net written with its links resolved: of its pairs those that occur nowhere stay, the others are used up.
#![tactic(auto)]

ghost use Rattle.std.specs.Prelude.{◌+◌, ◌*◌, ◌≡◌, length};
ghost use Rattle.stored.specs.Stored.{pairs_at};
ghost use Rattle.text_writers.specs.Wrote.{Wrote};
ghost use Rattle.flat_writers.specs.Flat.{unused_by};
ghost use Rattle.pair_writers.specs.Pairs.{used, kept_bit, pair_bytes, pairs_from, pairs_part, net_part};

// 1 for a wire that occurs nowhere, else 0.
fn kept(ws: &[u32], stamp: u16, a: u16) -> u16
    ensures { result ≡ kept_bit ws.now stamp a }
{
    !wire_places::occurs(ws, stamp, a) as u16
}

// How many of the pairs after their count stay.
fn kept_pairs(ws: &[u32], stamp: u16, s: &[u8], at: usize, n: u16) -> u16
    ensures { result ≡ length (unused_by (used ws.now stamp) (pairs_at s.now (at + (2 + 4 * 0)) n)) }
{
    let mut c: u16 = 0;
    for j in 0..n {
        let a = readers::be16_on(s, at, 2 + 4 * (j as usize));
        c += kept(ws, stamp, a);
    }
    c
}

// The pair at a place, if it stays.
fn pair(out: &mut [u8], at: usize, ws: &[u32], stamp: u16, s: &[u8], from: usize) -> usize
    ensures { Wrote (pair_bytes ws.now stamp s.now from) at out.old out.new result }
{
    let a = fields::be16(s, from);
    if wire_places::occurs(ws, stamp, a) {
        return at;
    }
    let p = field_writers::two(out, at, a);
    field_writers::two(out, p, readers::be16_on(s, from, 2))
}

// So many pairs, from a place on.
fn pairs(out: &mut [u8], at: usize, ws: &[u32], stamp: u16, s: &[u8], from: usize, n: u16) -> usize
    ensures { Wrote (pairs_from ws.now stamp s.now from n) at out.old out.new result }
{
    let mut p = at;
    let mut place = from;
    for _ in 0..n {
        p = pair(out, p, ws, stamp, s, place);
        place = ends::on(s, place, 4);
    }
    p
}

// The pairs after their count.
fn counted_pairs(out: &mut [u8], at: usize, ws: &[u32], stamp: u16, s: &[u8], from: usize) -> usize
    ensures { Wrote (pairs_part ws.now stamp s.now from) at out.old out.new result }
{
    let n = fields::be16(s, from);
    let p = field_writers::two(out, at, kept_pairs(ws, stamp, s, from, n));
    pairs(out, p, ws, stamp, s, ends::on(s, from, 2), n)
}

// The net at a place of the file.
pub fn flat_net(out: &mut [u8], at: usize, ws: &[u32], stamp: u16, s: &[u8], from: usize) -> usize
    ensures { Wrote (net_part ws.now stamp s.now from) at out.old out.new result }
{
    let p = field_writers::net_head(out, at, s, from);
    let q = flat_writers::list(out, p, ws, stamp, s, ends::on(s, from, 7));
    let t = counted_pairs(out, q, ws, stamp, s, ends::pair_count_at(s, from));
    flat_writers::counted_nodes(out, t, ws, stamp, s, ends::node_count_at(s, from))
}

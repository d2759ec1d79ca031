// Check 6 on tables: whether n paths, or n names, that stand one after another are pairwise different. The places of those already
// seen are kept sorted by the bytes that stand there, so that each new one is looked up in at most 12 comparisons, whatever the
// file holds: a hash would leave a bad file a way to make the work quadratic.
#![tactic(auto)]

ghost use Rattle.std.specs.Prelude.{◌≡◌, ◌≤◌, get_or, length, ◌+◌, ◌*◌};
ghost use Rattle.fields.specs.Fields.{byte};
ghost use Rattle.repeats.specs.Repeats.{size_of, compare, narrow, search, known, insert, differ_in, differ};

use std::cmp::Ordering;

// What the table is of. Either tells its own size, so of two that differ none is the other's beginning.
#[derive(Clone, Copy)]
pub enum Item {
    Path,
    Name,
}

// The part of the sorted places that a search has left.
// std's binary search stays out: it says what it finds in a sorted slice only, `search` what it answers for any content.
#[derive(Clone, Copy)]
pub struct Span {
    pub lo: usize,
    pub hi: usize,
}

// How many bytes the item takes.
pub fn item_size(s: &[u8], at: usize, item: Item) -> usize
    ensures { result ≡ size_of s.now item at }
{
    match item {
        Item::Path => 1 + fields::byte(s, at) as usize,
        Item::Name => name_size(s, at),
    }
}

fn name_size(s: &[u8], at: usize) -> usize
    ensures { result ≡ 11 + 2 * byte s.now (at + 10) }
{
    let m = s.len();
    if m < 11 {
        return 11;
    }
    if m - 11 < at {
        return 11;
    }
    11 + 2 * (fields::byte(s, at + 10) as usize)
}

// So many bytes are looked at one by one: a name's before its children. Items mostly differ there, and the order of slices reads more
// than the byte that decides.
const FEW: usize = 11;

// The first difference of n bytes that are there.
fn compare_bytes(s: &[u8], a: usize, b: usize, n: usize) -> Ordering
    requires first { a + n ≤ length s.now }
    requires second { b + n ≤ length s.now }
    ensures { result ≡ compare s.now a b n }
{
    for i in 0..n {
        let order = s[a + i].cmp(&s[b + i]);
        if order.is_ne() {
            return order;
        }
    }
    Ordering::Equal
}

// The same of more bytes. Never inlined: that leaves the search of short items small enough to be unrolled.
#[inline(never)]
fn compare_long(s: &[u8], a: usize, b: usize, n: usize) -> Ordering
    requires first { a + n ≤ length s.now }
    requires second { b + n ≤ length s.now }
    requires more { FEW ≤ n }
    ensures { result ≡ compare s.now a b n }
{
    let order = compare_bytes(s, a, b, FEW);
    if order.is_ne() {
        return order;
    }
    s[a..a + n].cmp(&s[b..b + n])
}

// The first difference of n bytes at a and at b. Bytes that are not there are no item's: the answer is then the one that refuses.
pub fn compare(s: &[u8], a: usize, b: usize, n: usize) -> Ordering
    ensures { result ≡ compare s.now a b n }
{
    let m = s.len();
    if m < n || m - n < a || m - n < b {
        return Ordering::Equal;
    }
    if FEW < n {
        return compare_long(s, a, b, n);
    }
    compare_bytes(s, a, b, n)
}

fn entry(sorted: &[usize], i: usize) -> usize
    ensures { result ≡ get_or sorted.now i 0 }
{
    if i < sorted.len() { sorted[i] } else { 0 }
}

// The half of the span in which the first place is whose item is not less than the n bytes at `at`.
fn narrow(s: &[u8], sorted: &[usize], at: usize, n: usize, w: Span) -> Span
    ensures { result ≡ narrow s.now sorted.now at n w }
{
    let lo = w.lo;
    let hi = w.hi;
    if hi <= lo {
        return Span { lo, hi };
    }
    let mid = lo + (hi - lo) / 2;
    if compare(s, entry(sorted, mid), at, n).is_lt() {
        Span { lo: mid + 1, hi }
    } else {
        Span { lo, hi: mid }
    }
}

// The first of m sorted places whose item is not less than the n bytes at `at`. 11 halvings leave nothing of 1,024.
pub fn search(s: &[u8], sorted: &[usize], m: usize, at: usize, n: usize) -> usize
    ensures { result ≡ search s.now sorted.now m at n }
{
    let mut w = Span { lo: 0, hi: m };
    for _ in 0..11u32 {
        w = narrow(s, sorted, at, n, w);
    }
    w.lo
}

// Whether the place that was found holds the same n bytes.
pub fn known(s: &[u8], sorted: &[usize], m: usize, p: usize, at: usize, n: usize) -> bool
    ensures { result ≡ known s.now sorted.now m p at n }
{
    if m <= p {
        return false;
    }
    compare(s, entry(sorted, p), at, n).is_eq()
}

// A place put in at p: those from p on move up by one.
pub fn insert(sorted: &mut [usize], m: usize, p: usize, at: usize)
    ensures { sorted.new ≡ insert sorted.old m p at }
{
    if sorted.len() <= m {
        return;
    }
    if m < p {
        return;
    }
    sorted.copy_within(p..m, p + 1);
    sorted[p] = at;
}

// Whether n items from `from` on differ. Items that run past the end are none.
fn differ_in(s: &[u8], sorted: &mut [usize], from: usize, n: u32, item: Item) -> bool
    ensures { result ≡ differ_in s.now item sorted.old from 0 n }
{
    let mut at = from;
    let mut m: usize = 0;
    for _ in 0..n {
        let z = item_size(s, at, item);
        if s.len() < z {
            return false;
        }
        if s.len() - z < at {
            return false;
        }
        let p = search(s, sorted, m, at, z);
        if known(s, sorted, m, p, at, z) {
            return false;
        }
        insert(sorted, m, p, at);
        at += z;
        m += 1;
    }
    true
}

// Whether n items from `at` on are pairwise different. False for more than 1,024: a file that passes check 5 has two the same then.
// Few items have a table of their own, which is cleared sooner.
pub fn differ(s: &[u8], at: usize, n: u32, item: Item) -> bool
    ensures { result ≡ differ s.now at n item }
{
    if 1024 < n {
        return false;
    }
    if 64 < n {
        let mut sorted = [0usize; 1024];
        return differ_in(s, &mut sorted, at, n, item);
    }
    let mut few = [0usize; 64];
    differ_in(s, &mut few, at, n, item)
}

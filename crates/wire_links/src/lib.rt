// `WireLinks` of net.rs as a table by wire in the lent words: 0 where a wire is linked with none, else one more than the wire that it is linked with.
#![tactic(auto)]

ghost use Rattle.std.specs.Prelude.{◌≡◌, ◌≤◌};
ghost use Rattle.wire_blocks.specs.Blocks.{looked};
ghost use Rattle.wire_links.specs.Table.{on, far, raised, join, link, begins, count_over, pair_place, pair_bytes, place_over, bytes_over, extent, pair_count, pairs_end, pairs_out};

// The place k bytes on, up to the greatest number there is.
pub fn on(at: usize, k: usize) -> usize
    ensures { result ≡ on at k }
{
    if 18446744073709551615 - at < k {
        return 18446744073709551615;
    }
    at + k
}

// ---- links

// What wire a is linked with, or a itself.
fn far(ws: &[u32], a: u16) -> u16
    ensures { result ≡ far ws.now a }
{
    let p = words::get(ws, a as usize);
    if p == 0 {
        return a;
    }
    ((p - 1) % 65536) as u16
}

// The word behind the table is above each wire that was linked.
const TOP: usize = 65536;

// Behind it are the marks of rows and blocks of wires: a wire that was linked is in marked ones.
pub const MARKS: u32 = 65537;

fn raise(ws: &mut [u32], x: u16)
    ensures { ws.new ≡ raised ws.old x }
{
    wire_blocks::mark(ws, MARKS, x);
    let t = words::get(ws, TOP);
    if (x as u32) < t {
        return;
    }
    words::put(ws, TOP, x as u32 + 1)
}

// Two wires linked with each other, unless they are one.
fn join(ws: &mut [u32], x: u16, y: u16)
    ensures { ws.new ≡ join ws.old x y }
{
    if x == y {
        return;
    }
    words::put(ws, x as usize, y as u32 + 1);
    words::put(ws, y as usize, x as u32 + 1);
    raise(ws, x);
    raise(ws, y)
}

// Wires a and b are one: the far ends of what they were linked with become so.
pub fn link(ws: &mut [u32], a: u16, b: u16)
    ensures { ws.new ≡ link ws.old a b }
{
    let x = far(ws, a);
    words::put(ws, a as usize, 0);
    let y = far(ws, b);
    words::put(ws, b as usize, 0);
    join(ws, x, y)
}

// ---- the pairs of the wires below a counter, ascending

// 1 where wire a is linked with a greater one, else 0.
fn begins(ws: &[u32], a: u32) -> u32
    ensures { (result ≡ begins ws.now a) × (result ≤ 1) }
{
    if a as u64 + 1 < words::get(ws, a as usize) as u64 {
        return 1;
    }
    0
}

// Stays `while`, as `put_below` does: how far it is to the next wire is read from the marks.
fn count_below(ws: &[u32], wires: u32) -> u32
    ensures { (result ≡ count_over ws.now (looked 65537 ws.now wires 0)) × (result ≤ wires) }
{
    let mut w: u64 = 0;
    let mut n: u32 = 0;
    while w < wires as u64 {
        n += begins(ws, w as u32);
        w += wire_blocks::stride(ws, MARKS, w as u32) as u64;
    }
    n
}

// How far wires are linked, below a counter: to look at each wire below a counter would take longer than a usual net.
pub fn extent(ws: &[u32], wires: u32) -> u32
    ensures { result ≡ extent ws.now wires }
{
    let t = words::get(ws, TOP);
    if t < wires {
        return t;
    }
    wires
}

pub fn count_pairs(ws: &[u32], wires: u32) -> u32
    ensures { (result ≡ pair_count ws.now wires) × (result ≤ wires) }
{
    let e = extent(ws, wires);
    count_below(ws, e)
}

// The pair that begins at wire a, if one does; the place after it.
fn put_pair(ws: &[u32], out: &mut [u8], to: usize, a: u32) -> usize
    ensures { (result ≡ pair_place ws.now to a) × (out.new ≡ pair_bytes ws.now out.old to a) }
{
    let b = words::get(ws, a as usize);
    if (b as u64) <= a as u64 + 1 {
        return to;
    }
    field_writers::two(out, to, (a % 65536) as u16);
    field_writers::two(out, on(to, 2), ((b - 1) % 65536) as u16);
    on(to, 4)
}

fn put_below(ws: &[u32], out: &mut [u8], at: usize, wires: u32) -> usize
    ensures { (result ≡ place_over ws.now (looked 65537 ws.now wires 0) at) × (out.new ≡ bytes_over ws.now (looked 65537 ws.now wires 0) at out.old) }
{
    let mut a: u64 = 0;
    let mut to = at;
    while a < wires as u64 {
        to = put_pair(ws, out, to, a as u32);
        a += wire_blocks::stride(ws, MARKS, a as u32) as u64;
    }
    to
}

// All of them, from a place on; the place after them.
pub fn put_pairs(ws: &[u32], out: &mut [u8], at: usize, wires: u32) -> usize
    ensures { (result ≡ pairs_end ws.now wires at) × (out.new ≡ pairs_out ws.now wires at out.old) }
{
    let e = extent(ws, wires);
    put_below(ws, out, at, e)
}

// Tables by wire in lent words: which wire each wire is linked with (`WireLinks` of net.rs), which tree hangs on it, and the links
// that are kept. A word is 0 where there is nothing, else one more than a wire or than the place of a tree.
#![tactic(auto)]

ghost use Rattle.std.specs.Prelude.{◌<◌, ◌≡◌};
ghost use Rattle.wire_tables.specs.Tables.{far, joined, link, unlink, smaller, hung, hang, keep, kept_left, kept_right, freed};

// The place of the trees that hang, behind the links.
const HUNG: usize = 65536;

// The place of the links that are kept, behind the trees.
const KEPT: usize = 131072;

// ---- links

// What a is linked with, or a itself.
pub fn far(ws: &[u32], a: u16) -> u16
    ensures { result ≡ far ws.now a }
{
    let v = words::get(ws, a as usize);
    if v == 0 {
        return a;
    }
    ((v - 1) % 65536) as u16
}

// Two wires that are linked with nothing become one; one is so with itself.
fn join(ws: &mut [u32], x: u16, y: u16)
    ensures { ws.new ≡ joined ws.old x y }
{
    if x == y {
        return;
    }
    words::put(ws, x as usize, y as u32 + 1);
    words::put(ws, y as usize, x as u32 + 1)
}

// a and b are one wire: the far ends of what they were linked with become so.
pub fn link(ws: &mut [u32], a: u16, b: u16)
    ensures { ws.new ≡ link ws.old a b }
{
    let x = far(ws, a);
    words::put(ws, a as usize, 0);
    let y = far(ws, b);
    words::put(ws, b as usize, 0);
    join(ws, x, y)
}

// The smaller of a and what it is linked with; the link is then used up on this side.
pub fn canonicalize(ws: &mut [u32], a: u16) -> u16
    ensures { (result ≡ smaller ws.old a) × (ws.new ≡ unlink ws.old a) }
{
    let b = far(ws, a);
    words::put(ws, a as usize, 0);
    if b < a {
        return b;
    }
    a
}

// ---- trees that hang

// One more than the place of the tree that hangs on w, or 0.
pub fn hung(ws: &[u32], w: u16) -> u32
    ensures { result ≡ hung ws.now w }
{
    words::get(ws, HUNG + w as usize)
}

pub fn hang(ws: &mut [u32], w: u16, v: u32)
    ensures { ws.new ≡ hang ws.old w v }
{
    words::put(ws, HUNG + w as usize, v)
}

// The tree that hangs on w, which hangs there no more.
pub fn unhang(ws: &mut [u32], w: u16) -> u32
    ensures { (result ≡ hung ws.old w) × (ws.new ≡ hang ws.old w 0) }
{
    let v = hung(ws, w);
    hang(ws, w, 0);
    v
}

// ---- links that are kept

pub fn keep(ws: &mut [u32], i: u32, a: u32, b: u32)
    ensures { ws.new ≡ keep ws.old i a b }
{
    words::put(ws, KEPT + 2 * i as usize, a);
    words::put(ws, KEPT + 2 * i as usize + 1, b)
}

pub fn kept_left(ws: &[u32], i: u32) -> u32
    ensures { result ≡ kept_left ws.now i }
{
    words::get(ws, KEPT + 2 * i as usize)
}

pub fn kept_right(ws: &[u32], i: u32) -> u32
    ensures { result ≡ kept_right ws.now i }
{
    words::get(ws, KEPT + 2 * i as usize + 1)
}

// ---- freed

// w is not linked, and nothing hangs on it.
pub fn free(ws: &mut [u32], w: u16)
    ensures { ws.new ≡ freed ws.old w }
{
    words::put(ws, w as usize, 0);
    words::put(ws, HUNG + w as usize, 0)
}

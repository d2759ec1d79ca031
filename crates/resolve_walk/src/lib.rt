// Stored trees written with their wires renamed, and each wire that a tree hangs on taken for that tree: `visit` of net.rs. Where
// the output has no room for a part it is not written, and the places are told all the same.
#![tactic(auto)]

ghost use Rattle.std.specs.Prelude.{◌≡◌};
ghost use Rattle.resolve_walk.specs.Walk.{on, span, lead, write_wire, write_head, resume, tree, trees};

// A place of the file to go on from, and the place to write at next. A walk answers None where a tree is too deep.
#[derive(Clone, Copy)]
pub struct Pen {
    pub from: usize,
    pub to: usize,
}

// ---- places

// The place k bytes on; the last place of all where there is none.
pub fn on(to: usize, k: usize) -> usize
    ensures { result ≡ on to k }
{
    let room = 18446744073709551615 - to;
    if room < k {
        return 18446744073709551615;
    }
    to + k
}

// The bytes from a place up to another.
pub fn span(from: usize, to: usize) -> usize
    ensures { result ≡ span from to }
{
    if to < from {
        return 0;
    }
    to - from
}

// ---- one tree

// What a tree's place leads to: one more than a node's place, or 0 and a wire; and one more than the place behind a wire that
// stood there, or 0.
#[derive(Clone, Copy)]
pub struct Led {
    pub node: usize,
    pub wire: u16,
    pub behind: usize,
}

// A wire is renamed; where a tree hangs on it, that tree is led to, and hangs there no more.
fn lead(ws: &mut [u32], s: &[u8], at: usize) -> Led
    ensures { (result ≡ (lead s.now ws.old at).is) × (ws.new ≡ (lead s.now ws.old at).ws) }
{
    if s.len() <= at {
        return Led {
            node: 0,
            wire: 0,
            behind: 0,
        };
    }
    if fields::byte(s, at) == 0 {
        let w = resolve_pass::wire_at(s, at);
        let c = wire_tables::canonicalize(ws, w);
        let u = wire_tables::unhang(ws, c);
        return Led {
            node: u as usize,
            wire: c,
            behind: at + 1,
        };
    }
    Led {
        node: at + 1,
        wire: 0,
        behind: 0,
    }
}

// The wire that was led to.
fn write_wire(s: &[u8], out: &mut [u8], led: Led, to: usize) -> Option<Pen>
    ensures { (result ≡ (write_wire s.now out.old led to).is) × (out.new ≡ (write_wire s.now out.old led to).out) }
{
    store::store8(out, to, 0);
    store::store16(out, on(to, 1), led.wire);
    Some(Pen {
        from: ends::on(s, led.behind, 2),
        to: on(to, 3),
    })
}

// Behind a node's own bytes: the place of its first child, how many there are, the place to write at next.
#[derive(Clone, Copy)]
pub struct Head {
    pub from: usize,
    pub count: u32,
    pub to: usize,
}

// A node's own bytes: its tag, its name, the number of its children.
fn write_head(s: &[u8], out: &mut [u8], at: usize, to: usize) -> Head
    ensures { (result ≡ (write_head s.now out.old at to).is) × (out.new ≡ (write_head s.now out.old at to).out) }
{
    let e = ends::name_end(s, ends::on(s, at, 1));
    let count = fields::byte(s, e) as u32;
    let from = ends::on(s, e, 1);
    store::copy(out, to, s, at, from);
    Head {
        from,
        count,
        to: on(to, span(at, from)),
    }
}

// From behind the wire that led away, or from where the tree ended.
fn resume(s: &[u8], led: Led, t: Option<Pen>) -> Option<Pen>
    ensures { result ≡ resume s.now led t }
{
    if led.behind == 0 {
        return t;
    }
    let pen = t?;
    Some(Pen {
        from: ends::on(s, led.behind, 2),
        to: pen.to,
    })
}

// ---- trees in trees

// A tree of at most depth d. With `trees` it calls itself: the depth that is left falls, so the stack holds at most 2 * 64 calls.
#[cycle(tree_trees)]
pub fn tree(ws: &mut [u32], s: &[u8], out: &mut [u8], at: usize, to: usize, d: u32) -> Option<Pen>
    ensures { (result ≡ (tree s.now d ws.old out.old at to).is) × (ws.new ≡ (tree s.now d ws.old out.old at to).ws) × (out.new ≡ (tree s.now d ws.old out.old at to).out) }
{
    let led = lead(ws, s, at);
    if led.node == 0 {
        return write_wire(s, out, led, to);
    }
    if d == 0 {
        return None;
    }
    let head = write_head(s, out, led.node - 1, to);
    let t = trees(ws, s, out, head.from, head.count, head.to, d - 1);
    resume(s, led, t)
}

// n trees of at most depth d, one after another.
#[cycle(tree_trees)]
pub fn trees(
    ws: &mut [u32],
    s: &[u8],
    out: &mut [u8],
    from: usize,
    n: u32,
    to: usize,
    d: u32,
) -> Option<Pen>
    ensures { (result ≡ (trees (tree s.now d) n ws.old out.old from to).is) × (ws.new ≡ (trees (tree s.now d) n ws.old out.old from to).ws) × (out.new ≡ (trees (tree s.now d) n ws.old out.old from to).out) }
{
    let mut at = from;
    let mut place = to;
    for _ in 0..n {
        let pen = tree(ws, s, out, at, place, d)?;
        at = pen.from;
        place = pen.to;
    }
    Some(Pen {
        from: at,
        to: place,
    })
}

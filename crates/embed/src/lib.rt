// `embed` of net.rs over the stored trees of a file: numbers for nodes and wires, and the nodes written where there is room.
// The same walk measures and writes; what it numbers does not depend on the output.
#![tactic(auto)]

ghost use Rattle.std.specs.Prelude.{◌≡◌};
ghost use Rattle.embed.specs.Embed.{next, principal, counter, name_size, kids, leaf, entered, head_written, topped, top_written, closed, walked, walked_all, written, written_all};

// Where a walk is.
#[derive(Clone, Copy)]
pub struct Growth {
    // the place of the next tree in the file
    pub at: usize,
    // the wire counter, and the nodes so far: up to 65,537, one more than a counter may be
    pub wires: u32,
    pub nodes: u32,
    // where the next node is written, and where the next top wire
    pub to: usize,
    pub aux: usize,
    // the top wire of the last tree
    pub top: u16,
}

// For a node that takes a new wire.
pub const NEW: u32 = 65536;

fn next(n: u32) -> u32
    ensures { result ≡ next n }
{
    if 65536 < n {
        return 65537;
    }
    n + 1
}

// A node's principal wire: the one given, or the next.
fn principal(wires: u32, up: u32) -> u16
    ensures { result ≡ principal wires up }
{
    if up < NEW {
        return (up % 65536) as u16;
    }
    (wires % 65536) as u16
}

// The counter after that.
fn counter(wires: u32, up: u32) -> u32
    ensures { result ≡ counter wires up }
{
    if up < NEW {
        return wires;
    }
    next(wires)
}

// ---- what stands at a node's place

// How many bytes its name has.
fn name_size(s: &[u8], at: usize) -> u16
    ensures { result ≡ name_size s.now at }
{
    11 + 2 * (readers::byte_on(s, at, 11) as u16)
}

// How many children it has.
fn kids(s: &[u8], at: usize) -> u8
    ensures { result ≡ kids s.now at }
{
    let n = name_size(s, at);
    readers::byte_on(s, at, n as usize + 1)
}

// ---- one tree

// A wire.
fn leaf(s: &[u8], g: Growth) -> Growth
    ensures { result ≡ leaf s.now g }
{
    Growth {
        at: ends::on(s, g.at, 3),
        wires: g.wires,
        nodes: g.nodes,
        to: g.to,
        aux: g.aux,
        top: readers::be16_on(s, g.at, 1),
    }
}

// A node before its children.
fn entered(s: &[u8], g: Growth, up: u32) -> Growth
    ensures { result ≡ entered s.now g up }
{
    let n = name_size(s, g.at) as usize;
    let k = kids(s, g.at);
    let aux = wire_links::on(g.to, n + 3);
    Growth {
        at: ends::on(s, g.at, n + 2),
        wires: counter(g.wires, up),
        nodes: next(g.nodes),
        to: wire_links::on(aux, 2 * (k as usize)),
        aux: aux,
        top: principal(g.wires, up),
    }
}

// Its name, its principal wire and how many aux wires it has, written.
fn write_head(s: &[u8], out: &mut [u8], g: Growth, top: u16)
    ensures { out.new ≡ head_written s.now out.old g top }
{
    let n = name_size(s, g.at) as usize;
    field_writers::name(out, g.to, s, ends::on(s, g.at, 1));
    field_writers::two(out, wire_links::on(g.to, n), top);
    field_writers::one(out, wire_links::on(g.to, n + 2), kids(s, g.at));
}

// A child's top wire, written among its parent's.
fn put_top(out: &mut [u8], t: Growth, aux: usize) -> Growth
    ensures { (result ≡ topped t aux) × (out.new ≡ top_written out.old t aux) }
{
    field_writers::two(out, aux, t.top);
    Growth {
        at: t.at,
        wires: t.wires,
        nodes: t.nodes,
        to: t.to,
        aux: wire_links::on(aux, 2),
        top: t.top,
    }
}

// A node after its children.
fn closed(r: Growth, top: u16) -> Growth
    ensures { result ≡ closed r top }
{
    Growth {
        at: r.at,
        wires: r.wires,
        nodes: r.nodes,
        to: r.to,
        aux: r.aux,
        top: top,
    }
}

// A tree of at most depth d. With `embed_all` it calls itself: the depth that is left falls.
#[cycle(embed_embed_all)]
pub fn embed(s: &[u8], out: &mut [u8], g: Growth, up: u32, d: u32) -> Growth
    ensures { (result ≡ walked s.now d g up) × (out.new ≡ written s.now d g up out.old) }
{
    if fields::byte(s, g.at) == 0 {
        return leaf(s, g);
    }
    if d == 0 {
        return leaf(s, g);
    }
    let o = entered(s, g, up);
    let k = kids(s, g.at);
    write_head(s, out, g, o.top);
    let r = embed_all(s, out, o, k as u32, d - 1);
    closed(r, o.top)
}

// k trees of at most depth d, one after another; the children that are left fall.
#[cycle(embed_embed_all)]
pub fn embed_all(s: &[u8], out: &mut [u8], g: Growth, k: u32, d: u32) -> Growth
    ensures { (result ≡ walked_all s.now d g k) × (out.new ≡ written_all s.now d g k out.old) }
{
    let mut x = g;
    for _ in 0..k {
        let aux = x.aux;
        let t = embed(s, out, x, NEW, d);
        x = put_top(out, t, aux);
    }
    x
}

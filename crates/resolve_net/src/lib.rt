// A stored tree net written with its links resolved: `resolve_links` of net.rs.
#![tactic(auto)]

ghost use Rattle.std.specs.Prelude.{◌≡◌};
ghost use Rattle.wire_blocks.specs.Blocks.{looked};
ghost use Rattle.wire_blocks.specs.Laws.{wires_from};
ghost use Rattle.resolve_net.specs.Plain.{copy_tree, copy_link, copy_links, plain};
ghost use Rattle.resolve_net.specs.Renamed.{visit_link, visit_links, circle, circles, left_below, left_circles, end_links, renamed_links, renamed};
ghost use Rattle.resolve_net.specs.Net.{wires_at, pass_links, prepare, onward, resolved, freed, net};

use resolve_walk::Pen;

// ---- as it stands

// A tree as it stands; the place behind it.
fn copy_tree(s: &[u8], out: &mut [u8], at: usize, to: usize) -> usize
    ensures { (result ≡ (copy_tree s.now out.old at to).is) × (out.new ≡ (copy_tree s.now out.old at to).out) }
{
    let end = resolve_pass::tree_end(s, at);
    store::copy(out, to, s, at, end);
    resolve_walk::on(to, resolve_walk::span(at, end))
}

// Kept link i.
fn copy_link(ws: &[u32], s: &[u8], out: &mut [u8], i: u32, to: usize) -> usize
    ensures { (result ≡ (copy_link s.now ws.now out.old i to).is) × (out.new ≡ (copy_link s.now ws.now out.old i to).out) }
{
    let a = wire_tables::kept_left(ws, i);
    let b = wire_tables::kept_right(ws, i);
    let place = copy_tree(s, out, a as usize, to);
    copy_tree(s, out, b as usize, place)
}

// n kept links; the place behind them.
fn copy_links(ws: &[u32], s: &[u8], out: &mut [u8], n: u32, to: usize) -> usize
    ensures { (result ≡ (copy_links s.now ws.now n out.old 0 to).is) × (out.new ≡ (copy_links s.now ws.now n out.old 0 to).out) }
{
    let mut place = to;
    for i in 0..n {
        place = copy_link(ws, s, out, i, place);
    }
    place
}

// A net in which no tree is left hanging: its head and its free trees as they stand, up to the link count, then the kept links.
fn plain(
    ws: &[u32],
    s: &[u8],
    out: &mut [u8],
    at: usize,
    links: usize,
    kept: u32,
    to: usize,
) -> usize
    ensures { (result ≡ (plain s.now ws.now out.old at links kept to).is) × (out.new ≡ (plain s.now ws.now out.old at links kept to).out) }
{
    store::copy(out, to, s, at, links);
    let p = resolve_walk::on(to, resolve_walk::span(at, links));
    store::store16(out, p, (kept % 65536) as u16);
    copy_links(ws, s, out, kept, resolve_walk::on(p, 2))
}

// ---- renamed

// Kept link i, its two trees visited one after the other.
fn visit_link(ws: &mut [u32], s: &[u8], out: &mut [u8], i: u32, to: usize) -> Option<Pen>
    ensures { (result ≡ (visit_link s.now ws.old out.old i to).is) × (ws.new ≡ (visit_link s.now ws.old out.old i to).ws) × (out.new ≡ (visit_link s.now ws.old out.old i to).out) }
{
    let a = wire_tables::kept_left(ws, i);
    let b = wire_tables::kept_right(ws, i);
    let pen = resolve_walk::tree(ws, s, out, a as usize, to, 64)?;
    resolve_walk::tree(ws, s, out, b as usize, pen.to, 64)
}

// n kept links.
fn visit_links(ws: &mut [u32], s: &[u8], out: &mut [u8], n: u32, to: usize) -> Option<Pen>
    ensures { (result ≡ (visit_links s.now n ws.old out.old 0 to).is) × (ws.new ≡ (visit_links s.now n ws.old out.old 0 to).ws) × (out.new ≡ (visit_links s.now n ws.old out.old 0 to).out) }
{
    let mut place = to;
    for i in 0..n {
        let pen = visit_link(ws, s, out, i, place)?;
        place = pen.to;
    }
    Some(Pen { from: 0, to: place })
}

// How many circles were listed, and the place behind them.
#[derive(Clone, Copy)]
pub struct Listed {
    pub count: u32,
    pub to: usize,
}

// The tree that is left on wire w, if any, as it stands.
fn circle(ws: &[u32], s: &[u8], out: &mut [u8], w: u16, c: Listed) -> Listed
    ensures { (result ≡ (circle s.now ws.now out.old w c).is) × (out.new ≡ (circle s.now ws.now out.old w c).out) }
{
    let v = wire_tables::hung(ws, w);
    if v == 0 {
        return c;
    }
    store::store8(out, c.to, 0);
    store::store16(out, resolve_walk::on(c.to, 1), w);
    let to = copy_tree(s, out, (v - 1) as usize, resolve_walk::on(c.to, 3));
    Listed {
        count: std::num::wrapping_add_u32(c.count, 1),
        to,
    }
}

// What is left in vicious circles, by ascending wire: each wire below a given one is looked at.
fn all_circles(ws: &[u32], s: &[u8], out: &mut [u8], wires: u32, to: usize) -> Listed
    ensures { (result ≡ (circles s.now ws.now (wires_from 0 wires) out.old (record { count = 0; to = to })).is) × (out.new ≡ (circles s.now ws.now (wires_from 0 wires) out.old (record { count = 0; to = to })).out) }
{
    let mut c = Listed { count: 0, to };
    for w in 0..wires {
        c = circle(ws, s, out, (w % 65536) as u16, c);
    }
    c
}

// The same, with those looked at that are not passed over by these marks.
// Stays `while`: how far it is to the next wire is read from the marks.
fn marked_circles(ws: &[u32], s: &[u8], out: &mut [u8], bs: &[u32], wires: u32, to: usize) -> Listed
    ensures { (result ≡ (circles s.now ws.now (looked 0 bs.now wires 0) out.old (record { count = 0; to = to })).is) × (out.new ≡ (circles s.now ws.now (looked 0 bs.now wires 0) out.old (record { count = 0; to = to })).out) }
{
    let mut w: usize = 0;
    let mut c = Listed { count: 0, to };
    while w < wires as usize {
        c = circle(ws, s, out, (w % 65536) as u16, c);
        w += wire_blocks::stride(bs, 0, w as u32) as usize;
    }
    c
}

// Below which wire all trees hang that are left, of the links whose count stands at a place: the counter, or less where it is so
// great that to look at each wire below it would take longer than to look at the links.
fn left_below(ws: &[u32], s: &[u8], links: usize, wires: u32) -> u32
    ensures { result ≡ left_below s.now ws.now links wires }
{
    let from = ends::on(s, links, 2);
    let n = fields::be16(s, links) as u32;
    if wires < 16 * n {
        return wires;
    }
    let t = resolve_pass::hung_links(ws, s, from, n);
    if t < wires {
        return t;
    }
    wires
}

// What is left in vicious circles, of the links whose count stands at a place. Where it may hang so high that to look at each wire below
// would take longer than to look at the links, the wires on which trees hang are marked.
fn left_circles(ws: &[u32], s: &[u8], out: &mut [u8], links: usize, wires: u32, to: usize) -> Listed
    ensures { (result ≡ (left_circles s.now ws.now out.old links wires to).is) × (out.new ≡ (left_circles s.now ws.now out.old links wires to).out) }
{
    let n = fields::be16(s, links) as u32;
    let below = left_below(ws, s, links, wires);
    if below < 16 * n + 512 {
        return all_circles(ws, s, out, below, to);
    }
    let mut bs = [0u32; wire_blocks::MARKS];
    resolve_pass::mark_links(ws, s, ends::on(s, links, 2), n, &mut bs);
    marked_circles(ws, s, out, &bs, below, to)
}

// Behind the kept links: the circles, and the count of all, which stands before them; the place behind.
fn end_links(
    ws: &[u32],
    s: &[u8],
    out: &mut [u8],
    links: usize,
    wires: u32,
    kept: u32,
    to: usize,
    place: usize,
) -> usize
    ensures { (result ≡ (end_links s.now ws.now out.old links wires kept to place).is) × (out.new ≡ (end_links s.now ws.now out.old links wires kept to place).out) }
{
    let c = left_circles(ws, s, out, links, wires, place);
    let n = std::num::wrapping_add_u32(kept, c.count);
    store::store16(out, to, (n % 65536) as u16);
    c.to
}

// The links: their count, the kept ones visited, then the circles.
fn renamed_links(
    ws: &mut [u32],
    s: &[u8],
    out: &mut [u8],
    links: usize,
    wires: u32,
    kept: u32,
    to: usize,
) -> Option<Pen>
    ensures { (result ≡ (renamed_links s.now ws.old out.old links wires kept to).is) × (ws.new ≡ (renamed_links s.now ws.old out.old links wires kept to).ws) × (out.new ≡ (renamed_links s.now ws.old out.old links wires kept to).out) }
{
    let pen = visit_links(ws, s, out, kept, resolve_walk::on(to, 2))?;
    let place = end_links(ws, s, out, links, wires, kept, to, pen.to);
    Some(Pen { from: 0, to: place })
}

// A net in which trees are left hanging: its head and free count, its free trees visited, its links.
fn renamed(
    ws: &mut [u32],
    s: &[u8],
    out: &mut [u8],
    at: usize,
    links: usize,
    wires: u32,
    kept: u32,
    to: usize,
) -> Option<Pen>
    ensures { (result ≡ (renamed s.now ws.old out.old at links wires kept to).is) × (ws.new ≡ (renamed s.now ws.old out.old at links wires kept to).ws) × (out.new ≡ (renamed s.now ws.old out.old at links wires kept to).out) }
{
    let from = ends::on(s, at, 8);
    let n = fields::byte(s, ends::on(s, at, 7)) as u32;
    store::copy(out, to, s, at, from);
    let pen = resolve_walk::trees(ws, s, out, from, n, resolve_walk::on(to, 8), 64)?;
    renamed_links(ws, s, out, links, wires, kept, pen.to)
}

// ---- a net

// The wire counter of the net at a place.
fn wires_at(s: &[u8], at: usize) -> u32
    ensures { result ≡ wires_at s.now at }
{
    fields::be32(s, ends::on(s, at, 3))
}

// What both passes tell: the place of the link count, the place behind the net, the links that are kept, the trees that are left.
#[derive(Clone, Copy)]
pub struct Ready {
    pub links: usize,
    pub end: usize,
    pub kept: u32,
    pub left: u32,
}

// Both passes over the links whose count stands at a place.
fn pass_links(ws: &mut [u32], s: &[u8], links: usize) -> Ready
    ensures { (result ≡ (pass_links s.now ws.old links).is) × (ws.new ≡ (pass_links s.now ws.old links).ws) }
{
    let from = ends::on(s, links, 2);
    let n = fields::be16(s, links) as u32;
    let end = resolve_pass::wire_links(ws, s, from, n);
    let p = resolve_pass::pass(ws, s, from, n);
    Ready {
        links,
        end,
        kept: p.kept,
        left: p.left,
    }
}

// The tables of the net at a place, of tables in which nothing is said.
fn prepare(ws: &mut [u32], s: &[u8], at: usize) -> Ready
    ensures { (result ≡ (prepare s.now ws.old at).is) × (ws.new ≡ (prepare s.now ws.old at).ws) }
{
    let links = scan_tree::links_at(s, at);
    pass_links(ws, s, links)
}

// With the place of the file to go on from.
fn onward(t: Option<Pen>, from: usize) -> Option<Pen>
    ensures { result ≡ onward t from }
{
    let pen = t?;
    Some(Pen { from, to: pen.to })
}

// The net as it stands, or renamed.
fn resolved(ws: &mut [u32], s: &[u8], out: &mut [u8], at: usize, to: usize, r: Ready) -> Option<Pen>
    ensures { (result ≡ (resolved s.now r ws.old out.old at to).is) × (ws.new ≡ (resolved s.now r ws.old out.old at to).ws) × (out.new ≡ (resolved s.now r ws.old out.old at to).out) }
{
    if r.left == 0 {
        let place = plain(ws, s, out, at, r.links, r.kept, to);
        return Some(Pen {
            from: r.end,
            to: place,
        });
    }
    let t = renamed(ws, s, out, at, r.links, wires_at(s, at), r.kept, to);
    onward(t, r.end)
}

// Of the links whose count stands at a place nothing is left in the tables.
fn free(ws: &mut [u32], s: &[u8], links: usize)
    ensures { ws.new ≡ freed s.now ws.old links }
{
    let from = ends::on(s, links, 2);
    let n = fields::be16(s, links) as u32;
    resolve_pass::free_links(ws, s, from, n)
}

// The net at a place of the file, at a place of the output, of tables in which nothing is said, as it is then too.
pub fn net(ws: &mut [u32], s: &[u8], out: &mut [u8], at: usize, to: usize) -> Option<Pen>
    ensures { (result ≡ (net s.now ws.old out.old at to).is) × (ws.new ≡ (net s.now ws.old out.old at to).ws) × (out.new ≡ (net s.now ws.old out.old at to).out) }
{
    let r = prepare(ws, s, at);
    let t = resolved(ws, s, out, at, to, r);
    free(ws, s, r.links);
    t
}

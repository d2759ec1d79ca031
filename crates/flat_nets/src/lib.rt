// Tree nets of a file as flat nets: each is measured, and then written. `to_flat` of net.rs, net by net.
#![tactic(auto)]

ghost use Rattle.std.specs.Prelude.{◌≡◌, eqb, ◌+◌, ◌≤◌};
ghost use Rattle.net_file.specs.Lists.{bit};
ghost use Rattle.fields.specs.Fields.{byte};
ghost use Rattle.flat_nets.specs.Flat.{zero_from, empty_over, emptied, measured, linked, size, summed, passed, summed_all, passed_all, head_written, before_place, before_written, net_spot, net_words, net_out, nets_spot, nets_words, nets_out};
ghost use Rattle.wire_links.specs.Table.{on, extent, looks_below};

// ---- measured

// What a net takes as a flat one: the place after it in the file, its wire counter, its nodes, its pairs, and its nodes' bytes.
#[derive(Clone, Copy)]
pub struct Measured {
    pub end: usize,
    pub wires: u32,
    pub nodes: u32,
    pub pairs: u32,
    pub bytes: usize,
}

// n words from a place on made 0, as far as there are words.
fn zero_words(ws: &mut [u32], from: u32, n: u32)
    ensures { ws.new ≡ zero_from from n ws.old }
{
    let start = (from as usize).min(ws.len());
    let end = (from as usize + n as usize).min(ws.len());
    ws[start..end].fill(0);
}

// The words of the wires that are looked at made 0; how far wires are linked.
// Stays `while`: how far it is to the next wire is read from the marks.
fn empty_wires(ws: &mut [u32]) -> u32
    ensures { (result ≡ extent ws.old 65536) × (result ≤ 65536) × (ws.new ≡ empty_over (looks_below ws.old 65536) ws.old) }
{
    let e = wire_links::extent(ws, 65536);
    let mut w: u32 = 0;
    while w < e {
        words::put(ws, w as usize, 0);
        w += wire_blocks::stride(ws, wire_links::MARKS, w);
    }
    e
}

// The table without links again: the words of those wires, the word behind the table, and the marks of the rows and of the blocks below it.
// To clear all words would take longer than a usual net.
fn empty(ws: &mut [u32])
    ensures { ws.new ≡ emptied ws.old }
{
    let e = empty_wires(ws);
    zero_words(ws, 65536, 1 + (e + 1023) / 1024);
    zero_words(ws, 65601, (e + 31) / 32)
}

// The net at a place, with a table without links. Its links are in the table then.
fn measure_net(s: &[u8], ws: &mut [u32], at: usize) -> Measured
    ensures { (result ≡ measured s.now ws.old at) × (ws.new ≡ linked s.now ws.old at) }
{
    let mut none = [0u8; 1];
    let g = embed_nets::embed_net(s, ws, &mut none, at, 0, 0);
    let pairs = wire_links::count_pairs(ws, g.wires);
    Measured {
        end: g.at,
        wires: g.wires,
        nodes: g.nodes,
        pairs: pairs,
        bytes: g.to,
    }
}

// How many bytes it takes.
fn size(s: &[u8], at: usize, m: Measured) -> usize
    ensures { result ≡ size s.now at m }
{
    let k = readers::byte_on(s, at, 7);
    let links = 4 * (m.pairs as usize);
    wire_links::on(m.bytes, 12 + 2 * (k as usize) + links)
}

// Nets so far: the place of the next, the greatest counter among them, the place after them in the output.
#[derive(Clone, Copy)]
pub struct Total {
    pub at: usize,
    pub wires: u32,
    pub to: usize,
}

// One net more.
fn sum(s: &[u8], ws: &mut [u32], t: Total) -> Total
    ensures { (result ≡ summed s.now ws.old t) × (ws.new ≡ passed s.now ws.old t.at) }
{
    let m = measure_net(s, ws, t.at);
    empty(ws);
    let to = wire_links::on(t.to, size(s, t.at, m));
    if t.wires < m.wires {
        return Total {
            at: m.end,
            wires: m.wires,
            to: to,
        };
    }
    Total {
        at: m.end,
        wires: t.wires,
        to: to,
    }
}

// n nets, one after another.
pub fn measure_nets(s: &[u8], ws: &mut [u32], from: usize, n: u32, to: usize) -> Total
    ensures { (result ≡ summed_all s.now ws.old (record { at = from; wires = 0; to = to }) n) × (ws.new ≡ passed_all s.now ws.old (record { at = from; wires = 0; to = to }) n) }
{
    let mut t = Total {
        at: from,
        wires: 0,
        to: to,
    };
    for _ in 0..n {
        t = sum(s, ws, t);
    }
    t
}

// ---- written

// The included mark of the net at a place: 1 for 1, else 0.
fn mark(s: &[u8], at: usize) -> u8
    ensures { result ≡ bit (eqb (byte s.now (at + 2)) 1) }
{
    if readers::byte_on(s, at, 2) == 1 {
        return 1;
    }
    0
}

// Name, included mark, wire counter and how many free wires there are; the place of these.
fn write_head(s: &[u8], out: &mut [u8], at: usize, to: usize, wires: u32) -> usize
    ensures { (result ≡ on to 8) × (out.new ≡ head_written s.now at to wires out.old) }
{
    let p = field_writers::two(out, to, fields::be16(s, at));
    let q = field_writers::one(out, p, mark(s, at));
    let r = field_writers::four(out, q, wires);
    field_writers::one(out, r, readers::byte_on(s, at, 7));
    wire_links::on(to, 8)
}

// All that comes before a net's nodes, but for its free wires; the place of its nodes.
fn write_before(s: &[u8], ws: &[u32], out: &mut [u8], at: usize, to: usize, m: Measured) -> usize
    ensures { (result ≡ before_place s.now ws.now at to m) × (out.new ≡ before_written s.now ws.now at to m out.old) }
{
    let k = readers::byte_on(s, at, 7);
    let free = write_head(s, out, at, to, m.wires);
    let c = wire_links::on(free, 2 * (k as usize));
    field_writers::two(out, c, (m.pairs % 65536) as u16);
    let p = wire_links::on(c, 2);
    let q = wire_links::put_pairs(ws, out, p, m.wires);
    field_writers::two(out, q, (m.nodes % 65536) as u16);
    wire_links::on(q, 2)
}

// The place of a net in the file, and in the output.
#[derive(Clone, Copy)]
pub struct Spot {
    pub at: usize,
    pub to: usize,
}

// The net there; the place of the next.
fn write_net(s: &[u8], ws: &mut [u32], out: &mut [u8], p: Spot) -> Spot
    ensures { (result ≡ net_spot s.now ws.old p) × (ws.new ≡ net_words s.now ws.old p) × (out.new ≡ net_out s.now ws.old p out.old) }
{
    let m = measure_net(s, ws, p.at);
    let nodes = write_before(s, ws, out, p.at, p.to, m);
    let free = wire_links::on(p.to, 8);
    let g = embed_nets::embed_net(s, ws, out, p.at, nodes, free);
    empty(ws);
    Spot { at: g.at, to: g.to }
}

// n nets, one after another.
pub fn write_nets(s: &[u8], ws: &mut [u32], out: &mut [u8], from: Spot, n: u32) -> Spot
    ensures { (result ≡ nets_spot s.now ws.old from n) × (ws.new ≡ nets_words s.now ws.old from n) × (out.new ≡ nets_out s.now ws.old from n out.old) }
{
    let mut p = from;
    for _ in 0..n {
        p = write_net(s, ws, out, p);
    }
    p
}

// The trees of a net, free ones and links, embedded one after another: the walk of `to_flat` of net.rs.
#![tactic(auto)]

ghost use Rattle.std.specs.Prelude.{◌≡◌};
ghost use Rattle.embed_nets.specs.Nets.{hung, link_walked, link_hung, link_written, links_walked, links_hung, links_written, at_free, at_links, net_walked, net_hung, net_written};

use embed::Growth;

// ---- links

// Where the right tree of a link is a wire, it and the top wire of the left one are one.
fn hang(s: &[u8], ws: &mut [u32], a: Growth)
    ensures { ws.new ≡ hung s.now ws.old a }
{
    if fields::byte(s, a.at) == 0 {
        wire_links::link(ws, a.top, readers::be16_on(s, a.at, 1));
    }
}

// A link: the right tree hangs on the top wire of the left one.
fn embed_link(s: &[u8], ws: &mut [u32], out: &mut [u8], g: Growth) -> Growth
    ensures { (result ≡ link_walked s.now g) × (ws.new ≡ link_hung s.now ws.old g) × (out.new ≡ link_written s.now g out.old) }
{
    let a = embed::embed(s, out, g, embed::NEW, 64);
    hang(s, ws, a);
    embed::embed(s, out, a, a.top as u32, 64)
}

// k links, one after another.
fn embed_links(s: &[u8], ws: &mut [u32], out: &mut [u8], g: Growth, k: u32) -> Growth
    ensures { (result ≡ links_walked s.now g k) × (ws.new ≡ links_hung s.now ws.old g k) × (out.new ≡ links_written s.now g k out.old) }
{
    let mut x = g;
    for _ in 0..k {
        x = embed_link(s, ws, out, x);
    }
    x
}

// ---- a net

// At the first free tree of the net at a place.
fn at_free(s: &[u8], at: usize, to: usize, aux: usize) -> Growth
    ensures { result ≡ at_free s.now at to aux }
{
    Growth {
        at: ends::on(s, at, 8),
        wires: readers::be32_on(s, at, 3),
        nodes: 0,
        to: to,
        aux: aux,
        top: 0,
    }
}

// At the first link, from the links' count.
fn at_links(s: &[u8], f: Growth) -> Growth
    ensures { result ≡ at_links s.now f }
{
    Growth {
        at: ends::on(s, f.at, 2),
        wires: f.wires,
        nodes: f.nodes,
        to: f.to,
        aux: f.aux,
        top: f.top,
    }
}

// The net at a place of the file: its nodes written from one place on, its free wires from another.
pub fn embed_net(
    s: &[u8],
    ws: &mut [u32],
    out: &mut [u8],
    at: usize,
    to: usize,
    aux: usize,
) -> Growth
    ensures { (result ≡ net_walked s.now at to aux) × (ws.new ≡ net_hung s.now ws.old at to aux) × (out.new ≡ net_written s.now at to aux out.old) }
{
    let g = at_free(s, at, to, aux);
    let k = readers::byte_on(s, at, 7);
    let f = embed::embed_all(s, out, g, k as u32, 64);
    let n = fields::be16(s, f.at);
    embed_links(s, ws, out, at_links(s, f), n as u32)
}

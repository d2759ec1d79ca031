// The result written: `finish` of engine.rs. Tables and nets that are not included are copied, included nets are written anew.
#![tactic(auto)]

ghost use Rattle.std.specs.Prelude.{◌≡◌};
ghost use Rattle.stored.specs.Stored.{flat_net_end};
ghost use Rattle.ends.specs.Ends.{within};
ghost use Rattle.finish.specs.Finish.{live_nodes_words, write_counts, write_net_head, write_included, write_net, write_nets, write_head, write_path_words, write_rest, write};

use kinds::NetId;
use write_nodes::{Page, Pen};

// ---- nets

// Entries of net t's list that are live, the free node not counted.
fn live_nodes(ws: &[u32], t: NetId) -> u32
    ensures { result ≡ live_nodes_words ws.now t.0 }
{
    let length = layout::net_word(ws, t, 4);
    let stale = layout::net_word(ws, t, 6);
    if stale < length {
        return length - stale - 1;
    }
    0
}

// No pairs and so many nodes; the place after the counts.
fn write_counts(out: &mut [u8], at: usize, nodes: u32) -> usize
    ensures { (result ≡ (write_counts out.old at nodes).is) × (out.new ≡ (write_counts out.old at nodes).out) }
{
    store::store16(out, at, 0);
    store::store16(out, write_nodes::on(at, 2), (nodes % 65536) as u16);
    write_nodes::on(at, 4)
}

// What comes before the nodes of the net at a place of the file, but for the wires; the place after it.
fn write_net_head(file: &[u8], out: &mut [u8], from: usize, at: usize, nodes: u32) -> usize
    ensures { (result ≡ (write_net_head file.now out.old from at nodes).is) × (out.new ≡ (write_net_head file.now out.old from at nodes).out) }
{
    let k = net_readers::free_count(file, from);
    let pairs = write_nodes::on(at, 8 + 2 * k as usize);
    store::copy(out, at, file, from, ends::on(file, from, 3));
    store::store8(out, write_nodes::on(at, 7), k);
    write_counts(out, pairs, nodes)
}

// Net t, at a place of the file; the place after it.
fn write_included(
    ws: &mut [u32],
    file: &[u8],
    out: &mut [u8],
    t: NetId,
    from: usize,
    at: usize,
) -> usize
    ensures { (result ≡ (write_included ws.old file.now out.old t.0 from at).is) × (ws.new ≡ (write_included ws.old file.now out.old t.0 from at).ws) × (out.new ≡ (write_included ws.old file.now out.old t.0 from at).out) }
{
    let nodes = live_nodes(ws, t);
    let first = write_net_head(file, out, from, at, nodes);
    let free = write_nodes::on(at, 8);
    let pen = write_nodes::write_list(
        ws,
        file,
        out,
        Page { net: t, free },
        Pen { at: first, wire: 0 },
    );
    store::store32(out, write_nodes::on(at, 3), pen.wire);
    pen.at
}

// The net at a place of the file; the place after it.
fn write_net(ws: &mut [u32], file: &[u8], out: &mut [u8], from: usize, at: usize) -> usize
    ensures { (result ≡ (write_net ws.old file.now out.old from (within file.now (flat_net_end file.now from)) at).is) × (ws.new ≡ (write_net ws.old file.now out.old from (within file.now (flat_net_end file.now from)) at).ws) × (out.new ≡ (write_net ws.old file.now out.old from (within file.now (flat_net_end file.now from)) at).out) }
{
    let t = layout::net_by_name(ws, net_readers::net_name(file, from).0);
    if t.0 == 0 {
        let end = ends::flat_net_end(file, from);
        store::copy(out, at, file, from, end);
        return write_nodes::on(at, measure::span(from, end));
    }
    write_included(ws, file, out, t, from, at)
}

// So many nets from a place of the file on; the place after them.
fn write_nets(
    ws: &mut [u32],
    file: &[u8],
    out: &mut [u8],
    from: usize,
    count: u32,
    to: usize,
) -> usize
    ensures { (result ≡ (write_nets ws.old file.now out.old from count to).is) × (ws.new ≡ (write_nets ws.old file.now out.old from count to).ws) × (out.new ≡ (write_nets ws.old file.now out.old from count to).out) }
{
    let mut place = from;
    let mut at = to;
    for i in 0..count {
        at = write_net(ws, file, out, place, at);
        place = ends::next_net(file, place, count - i);
    }
    at
}

// ---- the file

// The length, the version, the limit left, the number of paths.
fn write_head(ws: &[u32], file: &[u8], out: &mut [u8], length: usize, joined: u16)
    ensures { out.new ≡ write_head ws.now file.now out.old length joined }
{
    let paths = std::num::wrapping_add_u16(readers::path_count(file), joined);
    store::store32(out, 0, (measure::span(4, length) % 4294967296) as u32);
    store::store8(out, 4, 1);
    store::store32(out, 5, words::get(ws, layout::LIMIT));
    store::store16(out, 9, paths)
}

// The free path, at a place; the place after it.
fn write_path(out: &mut [u8], at: usize) -> usize
    ensures { (result ≡ (write_path_words out.old at).is) × (out.new ≡ (write_path_words out.old at).out) }
{
    store::copy(out, at, b"\x0fivy:engine:free", 0, 16);
    write_nodes::on(at, 16)
}

// The file from its names on, at a place; the place after it.
fn write_rest(ws: &mut [u32], file: &[u8], out: &mut [u8], names: usize, at: usize) -> usize
    ensures { (result ≡ (write_rest ws.old file.now out.old names at).is) × (ws.new ≡ (write_rest ws.old file.now out.old names at).ws) × (out.new ≡ (write_rest ws.old file.now out.old names at).out) }
{
    let nets = readers::net_count_at(file);
    let from = ends::on(file, nets, 2);
    let to = write_nodes::on(at, measure::span(names, from));
    let count = fields::be16(file, nets) as u32;
    store::copy(out, at, file, names, from);
    write_nets(ws, file, out, from, count, to)
}

// The whole result, of this length; the place after it.
pub fn write(ws: &mut [u32], file: &[u8], out: &mut [u8], length: usize) -> usize
    ensures { (result ≡ (write ws.old file.now out.old length).is) × (ws.new ≡ (write ws.old file.now out.old length).ws) × (out.new ≡ (write ws.old file.now out.old length).out) }
{
    let names = readers::name_count_at(file);
    store::copy(out, 11, file, 11, names);
    if measure::path_joins(ws, file) {
        write_head(ws, file, out, length, 1);
        let at = write_path(out, names);
        return write_rest(ws, file, out, names, at);
    }
    write_head(ws, file, out, length, 0);
    write_rest(ws, file, out, names, names)
}

// Included nets come into the engine: `add_flat_nets` and `add_flat_net` of engine.rs.
#![tactic(auto)]

ghost use Rattle.std.specs.Prelude.{◌+◌, ◌*◌, ◌<◌, ◌≤◌, ◌≡◌, length};
ghost use Rattle.fields.specs.Fields.{byte, be16};
ghost use Rattle.stored.specs.Stored.{list_end, name_end};
ghost use Rattle.ends.specs.Ends.{within};
ghost use Rattle.layout.specs.Layout.{next, nets};
ghost use Rattle.wire_ends.specs.WireEnds.{join_wires};
ghost use Rattle.load.specs.Load.{join_node, join_free, add_node, add_nodes, add_free, add_all, add_wired, add_sized, new_net_words, add_flat_net_words, add_if_included, add_flat_nets, load};

use edits::Placed;
use kinds::{NetId, NodeId};
use layout::Port;

// ---- nodes

// Node n's k + 1 wires, which stand from a place on: the principal one, a count, the others.
fn join_node(ws: &mut [u32], wires: &mut [u32], file: &[u8], at: usize, n: NodeId, k: u32)
    ensures { (ws.new ≡ (join_node ws.old wires.old file.now at n.0 k).ws) × (wires.new ≡ (join_node ws.old wires.old file.now at n.0 k).wires) }
{
    let p = layout::principal(n);
    wire_ends::join_wire(ws, wires, fields::be16(file, at) as u32, p);
    wire_ends::join_wires(
        ws,
        wires,
        file,
        ends::on(file, at, 3),
        layout::next_port(p),
        k,
    )
}

// The node at a place, whose name ends at e; 0, or the number by which it is refused.
fn add_node(ws: &mut [u32], wires: &mut [u32], file: &[u8], t: NetId, at: usize, e: usize) -> u32
    requires { e ≡ within file.now (name_end file.now at) }
    ensures { (result ≡ (add_node ws.old wires.old file.now t.0 at).is) × (ws.new ≡ (add_node ws.old wires.old file.now t.0 at).ws) × (wires.new ≡ (add_node ws.old wires.old file.now t.0 at).wires) }
{
    let k = readers::byte_on(file, e, 2) as u32;
    let placed = edits::insert_node(ws, t, (at % 4294967296) as u32, 1 + k);
    match placed {
        Placed::At(n) => {
            join_node(ws, wires, file, e, n, k);
            0
        }
        Placed::Refused(r) => r,
    }
}

// So many nodes from a place on.
fn add_rest(
    ws: &mut [u32],
    wires: &mut [u32],
    file: &[u8],
    t: NetId,
    from: usize,
    count: u32,
) -> u32
    ensures { (result ≡ (add_nodes ws.old wires.old file.now t.0 from count).is) × (ws.new ≡ (add_nodes ws.old wires.old file.now t.0 from count).ws) × (wires.new ≡ (add_nodes ws.old wires.old file.now t.0 from count).wires) }
{
    let mut at = from;
    for _ in 0..count {
        let e = ends::name_end(file, at);
        let end = ends::wires_end(file, e);
        let r = add_node(ws, wires, file, t, at, e);
        if 0 < r {
            return r;
        }
        at = end;
    }
    0
}

// ---- nodes that stand in the file as a whole: no byte is tested for

fn wire(file: &[u8], at: usize) -> u16
    requires { at + 2 ≤ length file.now }
    ensures { result ≡ be16 file.now at }
{
    u16::from_be_bytes([file[at], file[at + 1]])
}

// The number of aux wires, where the name ends at e.
fn aux_count(file: &[u8], e: usize) -> u16
    requires { e + 3 ≤ length file.now }
    ensures { (result ≡ byte file.now (e + 2)) × (result < 256) }
{
    file[e + 2] as u16
}

fn after_wires(file: &[u8], e: usize) -> usize
    requires { list_end file.now (e + 2) ≤ length file.now }
    ensures { result ≡ list_end file.now (e + 2) }
{
    e + 3 + 2 * aux_count(file, e) as usize
}

fn join_there(ws: &mut [u32], wires: &mut [u32], file: &[u8], from: usize, p: Port, k: u32)
    requires { from + 2 * k ≤ length file.now }
    ensures { (ws.new ≡ (join_wires ws.old wires.old file.now from p.0 k).ws) × (wires.new ≡ (join_wires ws.old wires.old file.now from p.0 k).wires) }
{
    let mut at = from;
    let mut port = p;
    for _ in 0..k {
        wire_ends::join_wire(ws, wires, wire(file, at) as u32, port);
        at += 2;
        port = layout::next_port(port);
    }
}

fn join_whole(ws: &mut [u32], wires: &mut [u32], file: &[u8], at: usize, n: NodeId, k: u32)
    requires { at + 3 + 2 * k ≤ length file.now }
    ensures { (ws.new ≡ (join_node ws.old wires.old file.now at n.0 k).ws) × (wires.new ≡ (join_node ws.old wires.old file.now at n.0 k).wires) }
{
    let p = layout::principal(n);
    wire_ends::join_wire(ws, wires, wire(file, at) as u32, p);
    join_there(ws, wires, file, at + 3, layout::next_port(p), k)
}

// The node at a place, whose name ends at e; 0, or the number by which it is refused.
fn add_whole(ws: &mut [u32], wires: &mut [u32], file: &[u8], t: NetId, at: usize, e: usize) -> u32
    requires { (e ≡ name_end file.now at) × (list_end file.now (e + 2) ≤ length file.now) }
    ensures { (result ≡ (add_node ws.old wires.old file.now t.0 at).is) × (ws.new ≡ (add_node ws.old wires.old file.now t.0 at).ws) × (wires.new ≡ (add_node ws.old wires.old file.now t.0 at).wires) }
{
    let k = aux_count(file, e) as u32;
    let placed = edits::insert_node(ws, t, (at % 4294967296) as u32, 1 + k);
    match placed {
        Placed::At(n) => {
            join_whole(ws, wires, file, e, n, k);
            0
        }
        Placed::Refused(r) => r,
    }
}

// The same; mostly the nodes stand in the file as a whole.
fn add_nodes(
    ws: &mut [u32],
    wires: &mut [u32],
    file: &[u8],
    t: NetId,
    from: usize,
    count: u32,
) -> u32
    ensures { (result ≡ (add_nodes ws.old wires.old file.now t.0 from count).is) × (ws.new ≡ (add_nodes ws.old wires.old file.now t.0 from count).ws) × (wires.new ≡ (add_nodes ws.old wires.old file.now t.0 from count).wires) }
{
    let mut at = from;
    for i in 0..count {
        let e = ends::whole_node(file, at);
        if e == 0 {
            return add_rest(ws, wires, file, t, at, count - i);
        }
        let r = add_whole(ws, wires, file, t, at, e);
        if 0 < r {
            return r;
        }
        at = after_wires(file, e);
    }
    0
}

// The free node n of net t, for the net at a place: its principal port with its first, then the k free wires.
fn join_free(ws: &mut [u32], wires: &mut [u32], file: &[u8], t: NetId, at: usize, n: NodeId, k: u32)
    ensures { (ws.new ≡ (join_free ws.old wires.old file.now t.0 at n.0 k).ws) × (wires.new ≡ (join_free ws.old wires.old file.now t.0 at n.0 k).wires) }
{
    let p = layout::principal(n);
    let q = layout::next_port(p);
    layout::set_net_word(ws, t, 1, n.0);
    graph::link(ws, p, q);
    wire_ends::join_wires(
        ws,
        wires,
        file,
        ends::on(file, at, 8),
        layout::next_port(q),
        k,
    )
}

// The free node of net t; 0, or the number by which it is refused.
fn add_free(ws: &mut [u32], wires: &mut [u32], file: &[u8], t: NetId, at: usize) -> u32
    ensures { (result ≡ (add_free ws.old wires.old file.now t.0 at).is) × (ws.new ≡ (add_free ws.old wires.old file.now t.0 at).ws) × (wires.new ≡ (add_free ws.old wires.old file.now t.0 at).wires) }
{
    let k = net_readers::free_count(file, at) as u32;
    let placed = edits::insert_node(ws, t, 0, 2 + k);
    match placed {
        Placed::At(n) => {
            join_free(ws, wires, file, t, at, n, k);
            0
        }
        Placed::Refused(r) => r,
    }
}

// The free node, then the nodes.
fn add_all(ws: &mut [u32], wires: &mut [u32], file: &[u8], t: NetId, at: usize) -> u32
    ensures { (result ≡ (add_all ws.old wires.old file.now t.0 at).is) × (ws.new ≡ (add_all ws.old wires.old file.now t.0 at).ws) × (wires.new ≡ (add_all ws.old wires.old file.now t.0 at).wires) }
{
    let r = add_free(ws, wires, file, t, at);
    if 0 < r {
        return r;
    }
    let nodes = ends::node_count_at(file, at);
    add_nodes(
        ws,
        wires,
        file,
        t,
        ends::on(file, nodes, 2),
        fields::be16(file, nodes) as u32,
    )
}

// ---- nets

// All of net t, by a table for its wires that is clear.
fn add_wired(ws: &mut [u32], wires: &mut [u32], file: &[u8], t: NetId, at: usize) -> u32
    ensures { (result ≡ (add_wired ws.old wires.old file.now t.0 at).is) × (ws.new ≡ (add_wired ws.old wires.old file.now t.0 at).ws) × (wires.new ≡ (add_wired ws.old wires.old file.now t.0 at).wires) }
{
    let pairs = ends::pair_count_at(file, at);
    let from = ends::on(file, pairs, 2);
    wire_ends::put_pairs(wires, file, from, fields::be16(file, pairs) as u32);
    add_all(ws, wires, file, t, at)
}

// By a table for so many wires.
fn add_sized<const WIRES: usize>(ws: &mut [u32], file: &[u8], t: NetId, at: usize) -> u32
    requires { WIRES ≤ 65536 }
    ensures { (result ≡ (add_sized WIRES ws.old file.now t.0 at).is) × (ws.new ≡ (add_sized WIRES ws.old file.now t.0 at).ws) }
{
    let mut wires = [0u32; WIRES];
    add_wired(ws, &mut wires, file, t, at)
}

// One net more, with the name that stands at a place.
fn new_net(ws: &mut [u32], file: &[u8], at: usize) -> NetId
    ensures { (result.0 ≡ next (nets ws.old)) × (ws.new ≡ new_net_words ws.old file.now at) }
{
    let name = net_readers::net_name(file, at);
    let t = layout::next(words::get(ws, layout::NETS));
    words::put(ws, layout::NETS, t);
    words::put(ws, 64 + name.0 as usize, t);
    layout::set_net_word(ws, NetId(t), 0, name.0);
    NetId(t)
}

// The net at a place. A table of 65,536 has room for every wire of a file; 1,024 have room for those of most nets, and are quicker to clear.
fn add_flat_net(ws: &mut [u32], file: &[u8], at: usize) -> u32
    ensures { (result ≡ (add_flat_net_words ws.old file.now at).is) × (ws.new ≡ (add_flat_net_words ws.old file.now at).ws) }
{
    let t = new_net(ws, file, at);
    if net_readers::net_wires(file, at) <= 1024 {
        return add_sized::<1024>(ws, file, t, at);
    }
    add_sized::<65536>(ws, file, t, at)
}

fn add_if_included(ws: &mut [u32], file: &[u8], at: usize) -> u32
    ensures { (result ≡ (add_if_included ws.old file.now at).is) × (ws.new ≡ (add_if_included ws.old file.now at).ws) }
{
    if net_readers::net_included(file, at) {
        return add_flat_net(ws, file, at);
    }
    0
}

// The nets of a file from a place on; 0, or the number by which one is refused.
fn add_flat_nets(ws: &mut [u32], file: &[u8], from: usize, count: u32) -> u32
    ensures { (result ≡ (add_flat_nets ws.old file.now from count).is) × (ws.new ≡ (add_flat_nets ws.old file.now from count).ws) }
{
    let mut at = from;
    for i in 0..count {
        let r = add_if_included(ws, file, at);
        if 0 < r {
            return r;
        }
        at = ends::next_net(file, at, count - i);
    }
    0
}

// The included nets of a file, in its order; 0, or the number by which one is refused.
pub fn load(ws: &mut [u32], file: &[u8]) -> u32
    ensures { (result ≡ (load ws.old file.now).is) × (ws.new ≡ (load ws.old file.now).ws) }
{
    let nets = readers::net_count_at(file);
    add_flat_nets(
        ws,
        file,
        ends::on(file, nets, 2),
        fields::be16(file, nets) as u32,
    )
}

// The slots of an image: nodes with well formed names, whose links agree at both ends within one net; vacant slots are clean.
#![tactic(auto, unfolding(crate::specs::Slots::has_port, crate::specs::Slots::is_port, crate::specs::Slots::port_holds, crate::specs::Slots::node_holds, crate::specs::Slots::name_holds, crate::specs::Slots::filled_holds, crate::specs::Slots::slot_holds, crate::specs::Slots::slots_hold, words::specs::Choose::pick, words::specs::Choose::if_eq, words::specs::Choose::if_lt))]

ghost use Rattle.std.specs.Prelude.{◌≡◌};
ghost use Rattle.image_slots.specs.Slots.{has_port, is_port, port_holds, ports_hold, name_stands, name_holds, node_holds, filled_holds, slot_holds, all_hold, slots_hold};

use kinds::{NetId, NodeId};
use layout::Port;

// Word i of node n's record is one of its ports.
fn has_port(ws: &[u32], n: NodeId, i: u32) -> bool
    ensures { result ≡ has_port ws.now n.0 i }
{
    8 <= i && i - 8 < layout::node_word(ws, n, 3)
}

// p is a port of a node of net t.
fn is_port(ws: &[u32], t: NetId, p: Port) -> bool
    ensures { result ≡ is_port ws.now t.0 p.0 }
{
    let n = layout::node_of(p);
    n.0 < words::get(ws, layout::FRESH_SLOT)
        && layout::node_word(ws, n, 0) == t.0
        && has_port(ws, n, p.0 % 32)
}

// Across from port p, of net t, is another port of that net, from which p is across.
fn port_holds(ws: &[u32], t: NetId, p: u32) -> bool
    ensures { result ≡ port_holds ws.now t.0 p }
{
    let q = layout::across(ws, Port(p));
    q.0 != p && layout::across(ws, q).0 == p && is_port(ws, t, q)
}

// k ports from p on.
fn ports_hold(ws: &[u32], t: NetId, p: u32, k: u32) -> bool
    ensures { result ≡ ports_hold ws.now t.0 p k }
{
    (0..k).all(|i| port_holds(ws, t, p.wrapping_add(i)))
}

// 1 to 16 ports.
fn node_holds(ws: &[u32], t: NetId, n: NodeId) -> bool
    ensures { result ≡ node_holds ws.now t.0 n.0 }
{
    let k = layout::node_word(ws, n, 3);
    k != 0 && k <= 16 && ports_hold(ws, t, layout::principal(n).0, k)
}

// A node's name, over so many paths and names, stands at a place of the file.
fn name_stands(file: &[u8], paths: u32, names: u32, at: u32) -> bool
    ensures { result ≡ name_stands file.now paths names at }
{
    walk::name(file, at as usize, paths, names).is_some()
}

// Net t's free node has no name, every other node has one.
fn name_holds(ws: &[u32], file: &[u8], paths: u32, names: u32, t: NetId, n: NodeId) -> bool
    ensures { result ≡ name_holds ws.now file.now paths names t.0 n.0 }
{
    let name = layout::node_word(ws, n, 1);
    if name == 0 {
        layout::net_word(ws, t, 1) == n.0
    } else {
        name_stands(file, paths, names, name)
    }
}

// Slot n, which is in use, holds a node of net t.
fn filled_holds(ws: &[u32], file: &[u8], paths: u32, names: u32, t: NetId, n: NodeId) -> bool
    ensures { result ≡ filled_holds ws.now file.now paths names t.0 n.0 }
{
    t.0 <= words::get(ws, layout::NETS)
        && n.0 < words::get(ws, layout::FRESH_SLOT)
        && node_holds(ws, t, n)
        && name_holds(ws, file, paths, names, t, n)
}

// A vacant slot is clean.
fn slot_holds(ws: &[u32], file: &[u8], paths: u32, names: u32, n: u32) -> bool
    ensures { result ≡ slot_holds ws.now file.now paths names n }
{
    let t = layout::node_word(ws, NodeId(n), 0);
    if t == 0 {
        layout::node_word(ws, NodeId(n), 2) == 0
    } else {
        filled_holds(ws, file, paths, names, NetId(t), NodeId(n))
    }
}

// k slots from the first on.
fn all_hold(ws: &[u32], file: &[u8], paths: u32, names: u32, k: u32) -> bool
    ensures { result ≡ all_hold ws.now file.now paths names k }
{
    (0..k).all(|n| slot_holds(ws, file, paths, names, n))
}

// All N slots.
pub fn slots_hold(ws: &[u32], file: &[u8]) -> bool
    ensures { result ≡ slots_hold ws.now file.now }
{
    let paths = readers::path_count(file) as u32;
    let names = readers::name_count(file) as u32;
    all_hold(ws, file, paths, names, words::get(ws, layout::NODE_POOL))
}

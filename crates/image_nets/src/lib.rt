// The nets of an image: the included nets of the held file in its order, each with its free node, and the nets by name.
#![tactic(auto, unfolding(crate::specs::Nets::closed, crate::specs::Nets::is_free, crate::specs::Nets::free_holds, crate::specs::Nets::called, crate::specs::Nets::net_holds, crate::specs::Nets::numbered, crate::specs::Nets::after_net, crate::specs::Nets::counted, crate::specs::Nets::name_holds, crate::specs::Nets::nets_hold, words::specs::Choose::pick, words::specs::Choose::if_eq, words::specs::Choose::if_lt))]

ghost use Rattle.std.specs.Prelude.{◌+◌, ◌≡◌};
ghost use Rattle.image_nets.specs.Nets.{closed, is_free, free_holds, called, net_holds, numbered, after_net, counted, included_hold, name_holds, names_hold, nets_hold};

use kinds::{NetId, NodeId};

// Ports 0 and 1 of a node are wired together.
fn closed(ws: &[u32], n: NodeId) -> bool
    ensures { result ≡ closed ws.now n.0 }
{
    let p = layout::principal(n);
    layout::across(ws, p).0 == layout::next_port(p).0
}

// Node n, with no name and so many ports, is net t's.
fn is_free(ws: &[u32], t: NetId, n: NodeId, arity: u32) -> bool
    ensures { result ≡ is_free ws.now t.0 n.0 arity }
{
    layout::node_word(ws, n, 0) == t.0
        && layout::node_word(ws, n, 1) == 0
        && layout::node_word(ws, n, 3) == arity
}

// Net t has a free node with so many ports.
fn free_holds(ws: &[u32], t: NetId, arity: u32) -> bool
    ensures { result ≡ free_holds ws.now t.0 arity }
{
    let n = layout::net_word(ws, t, 1);
    n < words::get(ws, layout::FRESH_SLOT)
        && is_free(ws, t, NodeId(n), arity)
        && closed(ws, NodeId(n))
}

// Net t has this name, and the name this net.
fn called(ws: &[u32], t: NetId, name: u32) -> bool
    ensures { result ≡ called ws.now t.0 name }
{
    layout::net_word(ws, t, 0) == name && layout::net_by_name(ws, name).0 == t.0
}

// Net t is the net at a place of the file.
fn net_holds(ws: &[u32], file: &[u8], t: NetId, at: usize) -> bool
    ensures { result ≡ net_holds ws.now file.now t.0 at }
{
    called(ws, t, fields::be16(file, at) as u32)
        && free_holds(ws, t, 2 + readers::byte_on(file, at, 7) as u32)
}

// A net's number: nets count from 1.
fn numbered(t: u32) -> Option<u32>
    ensures { result ≡ numbered t }
{
    if t == 0 { None } else { Some(t) }
}

// The number after net t, where that is the net at a place; the same number, where the net there is not included; none where all is
// not well.
fn after_net(ws: &[u32], file: &[u8], t: u32, at: usize) -> Option<u32>
    ensures { result ≡ after_net ws.now file.now t at }
{
    if readers::byte_on(file, at, 2) != 1 {
        numbered(t)
    } else if net_holds(ws, file, NetId(t), at) {
        numbered(layout::next(t))
    } else {
        None
    }
}

// The next net would be net t.
fn counted(ws: &[u32], t: u32) -> bool
    ensures { result ≡ counted ws.now t }
{
    t == layout::next(words::get(ws, layout::NETS))
}

// The included nets of so many from a place on.
fn included_hold(ws: &[u32], file: &[u8], from: usize, count: u32) -> bool
    ensures { result ≡ included_hold ws.now file.now from 1 count }
{
    let mut at = from;
    let mut t: u32 = 1;
    for i in 0..count {
        let Some(after) = after_net(ws, file, t, at) else {
            return false;
        };
        t = after;
        at = ends::next_net(file, at, count - i);
    }
    counted(ws, t)
}

// The net of a name, if there is one, has this name.
fn name_holds(ws: &[u32], name: u32) -> bool
    ensures { result ≡ name_holds ws.now name }
{
    let t = layout::net_by_name(ws, name);
    t.0 == 0 || t.0 <= words::get(ws, layout::NETS) && layout::net_word(ws, t, 0) == name
}

// All 1,024 names.
fn names_hold(ws: &[u32]) -> bool
    ensures { result ≡ names_hold ws.now }
{
    (0..1024).all(|name| name_holds(ws, name))
}

pub fn nets_hold(ws: &[u32], file: &[u8]) -> bool
    ensures { result ≡ nets_hold ws.now file.now }
{
    let nets = readers::net_count_at(file);
    let from = ends::on(file, nets, 2);
    included_hold(ws, file, from, fields::be16(file, nets) as u32) && names_hold(ws)
}

// Which wires occur in the free and node places of a flat net, in the second half of a lent table by wire: at a wire that occurs
// stands the net's stamp.
#![tactic(auto)]

ghost use Rattle.std.specs.Prelude.{◌+◌, ◌*◌, ◌≡◌, get_or, set, eqb};
ghost use Rattle.stored.specs.Stored.{numbers_at, list_at, node_at};
ghost use Rattle.wire_places.specs.Places.{seen, node_wires, nodes_wires, places_part};

fn mark_wire(ws: &mut [u32], stamp: u16, w: u16)
    ensures { ws.new ≡ set ws.old (65536 + w) stamp }
{
    words::put(ws, 65536 + w as usize, stamp as u32)
}

// As many wires as are said, after a count of one byte.
fn mark_wires(ws: &mut [u32], stamp: u16, s: &[u8], from: usize, n: u8)
    ensures { ws.new ≡ seen stamp (numbers_at s.now (from + (1 + 2 * 0)) n) ws.old }
{
    for j in 0..n {
        let w = readers::be16_on(s, from, 1 + 2 * (j as usize));
        mark_wire(ws, stamp, w);
    }
}

fn mark_list(ws: &mut [u32], stamp: u16, s: &[u8], from: usize)
    ensures { ws.new ≡ seen stamp (list_at s.now from) ws.old }
{
    mark_wires(ws, stamp, s, from, fields::byte(s, from))
}

// A node's wires, principal first.
fn mark_node(ws: &mut [u32], stamp: u16, s: &[u8], from: usize)
    ensures { ws.new ≡ seen stamp (node_wires (node_at s.now from)) ws.old }
{
    let e = ends::name_end(s, from);
    mark_wire(ws, stamp, fields::be16(s, e));
    mark_list(ws, stamp, s, ends::on(s, e, 2))
}

// So many nodes, from a place on.
fn mark_nodes(ws: &mut [u32], stamp: u16, s: &[u8], from: usize, n: u16)
    ensures { ws.new ≡ seen stamp (nodes_wires s.now from n) ws.old }
{
    let mut place = from;
    for _ in 0..n {
        mark_node(ws, stamp, s, place);
        place = ends::node_end(s, place);
    }
}

// The free and node places of the net at a place.
pub fn mark_places(ws: &mut [u32], stamp: u16, s: &[u8], from: usize)
    ensures { ws.new ≡ seen stamp (places_part s.now from) ws.old }
{
    mark_list(ws, stamp, s, ends::on(s, from, 7));
    let q = ends::node_count_at(s, from);
    mark_nodes(ws, stamp, s, ends::on(s, q, 2), fields::be16(s, q))
}

pub fn occurs(ws: &[u32], stamp: u16, w: u16) -> bool
    ensures { result ≡ eqb (get_or ws.now (65536 + w) 0) stamp }
{
    words::get(ws, 65536 + w as usize) == stamp as u32
}

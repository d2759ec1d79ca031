// The text that program netlist prints of a flat file: the limit, each net, each node. Document 01, "Checked examples".
// What stands in the file is printed as it stands: whether the file is accepted is asked before.
#![tactic(auto)]

ghost use Rattle.std.specs.Prelude.{◌+◌, ◌≡◌, [], map, get_or};
ghost use Rattle.net_file.specs.Lists.{refuse};
ghost use Rattle.definitions.specs.Text.{decimal};
ghost use Rattle.definitions.specs.Listing.{node_line, net_lines, listing, printed};
ghost use Rattle.stored.specs.Stored.{list_at, path_at, node_at, flat_net_at, flat_net_end};
ghost use Rattle.stored.specs.Body.{paths_at, body_at};
ghost use Rattle.put.specs.Written.{Written};
ghost use Rattle.text_writers.specs.Wrote.{Wrote};
ghost use Rattle.listing.specs.Lines.{spaced, name_text, children_text, principal_text, ports_text, net_text, free_text, nodes_text, nets_text, limit_text};

use kinds::PathId;

// Each number of a list with a space before it.
fn list(out: &mut [u8], from: usize, s: &[u8], at: usize) -> usize
    ensures { Wrote (spaced (map decimal (list_at s.now at))) from out.old out.new result }
{
    let mut p = from;
    let k = reader::list_count(s, at);
    for j in 0..k {
        let v = readers::be16_on(s, at, 1 + 2 * (j as usize));
        p = text_writers::number(out, p, v as u64);
    }
    p
}

// The path at its place.
fn path_at(out: &mut [u8], from: usize, s: &[u8], at: usize) -> usize
    ensures { Wrote (path_at s.now at) from out.old out.new result }
{
    let mut p = from;
    let k = fields::byte(s, at);
    for j in 0..k {
        let b = readers::path_byte(s, at, j as u32);
        p = text_writers::byte(out, p, b);
    }
    p
}

// The k-th path; none where there are not so many.
fn path(out: &mut [u8], from: usize, s: &[u8], k: PathId) -> usize
    ensures { Wrote (get_or (paths_at s.now) k.0 []) from out.old out.new result }
{
    if readers::path_count(s) as u32 <= k.0 {
        return from;
    }
    path_at(out, from, s, readers::path_place(s, k))
}

// A node's path and payload.
fn node_name(out: &mut [u8], from: usize, s: &[u8], at: usize) -> usize
    ensures { Wrote (name_text s.now at) from out.old out.new result }
{
    let p = path(out, from, s, readers::name_path(s, at));
    text_writers::number(out, p, readers::name_payload(s, at))
}

// `children` and their numbers.
fn node_children(out: &mut [u8], from: usize, s: &[u8], at: usize) -> usize
    ensures { Wrote (children_text s.now at) from out.old out.new result }
{
    let p = text_writers::word(out, from, b" children");
    list(out, p, s, ends::on(s, at, 10))
}

// `ports` and the principal wire.
fn node_principal(out: &mut [u8], from: usize, s: &[u8], at: usize) -> usize
    ensures { Wrote (principal_text s.now at) from out.old out.new result }
{
    let e = ends::name_end(s, at);
    let p = text_writers::word(out, from, b" ports");
    text_writers::number(out, p, fields::be16(s, e) as u64)
}

// The wires, principal first; the line's end.
fn node_ports(out: &mut [u8], from: usize, s: &[u8], at: usize) -> usize
    ensures { Wrote (ports_text s.now at) from out.old out.new result }
{
    let p = node_principal(out, from, s, at);
    let e = ends::name_end(s, at);
    let q = list(out, p, s, ends::on(s, e, 2));
    text_writers::byte(out, q, 10)
}

// A node's line.
fn node(out: &mut [u8], from: usize, s: &[u8], at: usize) -> usize
    ensures { Wrote (node_line (paths_at s.now) (node_at s.now at)) from out.old out.new result }
{
    let p = node_name(out, from, s, at);
    let q = node_children(out, p, s, at);
    node_ports(out, q, s, at)
}

// The lines of n nodes from a place on.
fn nodes(out: &mut [u8], from: usize, s: &[u8], first: usize, n: u16) -> usize
    ensures { Wrote (nodes_text s.now first n) from out.old out.new result }
{
    let mut p = from;
    let mut at = first;
    for _ in 0..n {
        p = node(out, p, s, at);
        at = ends::node_end(s, at);
    }
    p
}

// `net`, its name number, `wires`, the counter.
fn net_head(out: &mut [u8], from: usize, s: &[u8], at: usize) -> usize
    ensures { Wrote (net_text s.now at) from out.old out.new result }
{
    let p = text_writers::word(out, from, b"net");
    let q = text_writers::number(out, p, reader::net_name(s, at) as u64);
    let t = text_writers::word(out, q, b" wires");
    text_writers::number(out, t, reader::net_wires(s, at) as u64)
}

// `free` and the free wires; the line's end.
fn net_free(out: &mut [u8], from: usize, s: &[u8], at: usize) -> usize
    ensures { Wrote (free_text s.now at) from out.old out.new result }
{
    let p = text_writers::word(out, from, b" free");
    let q = list(out, p, s, ends::on(s, at, 7));
    text_writers::byte(out, q, 10)
}

// A net's line and those of its nodes.
fn net(out: &mut [u8], from: usize, s: &[u8], at: usize) -> usize
    ensures { Wrote (net_lines (paths_at s.now) (flat_net_at s.now at)) from out.old out.new result }
{
    let p = net_head(out, from, s, at);
    let q = net_free(out, p, s, at);
    let m = ends::node_count_at(s, at);
    nodes(out, q, s, ends::on(s, m, 2), fields::be16(s, m))
}

// The lines of n nets from a place on.
fn nets(out: &mut [u8], from: usize, s: &[u8], first: usize, n: u16) -> usize
    ensures { Wrote (nets_text s.now first n) from out.old out.new result }
{
    let mut p = from;
    let mut at = first;
    for _ in 0..n {
        p = net(out, p, s, at);
        at = ends::flat_net_end(s, at);
    }
    p
}

// The steps left or `none`.
fn limit(out: &mut [u8], from: usize, s: &[u8]) -> usize
    ensures { Wrote (limit_text s.now) from out.old out.new result }
{
    let p = text_writers::word(out, from, b"limit");
    let n = readers::limit(s);
    if n == 4294967295 {
        return text_writers::word(out, p, b" none\n");
    }
    let q = text_writers::number(out, p, n as u64);
    text_writers::byte(out, q, 10)
}

// The whole text, as far as there is room, and its length.
fn whole(out: &mut [u8], s: &[u8]) -> usize
    ensures { Wrote (listing (body_at flat_net_at flat_net_end s.now)) 0 out.old out.new result }
{
    let p = limit(out, 0, s);
    let m = readers::net_count_at(s);
    nets(out, p, s, ends::on(s, m, 2), fields::be16(s, m))
}

// The text at the start of a lent slice, all of it or none. Its length is found out first, by writing it where there is no room.
pub fn listing(file: &[u8], out: &mut [u8]) -> Option<usize>
    ensures { Written (listing (body_at flat_net_at flat_net_end file.now)) 0 out.old out.new result }
{
    let mut none = [0u8; 1];
    let n = whole(&mut none, file);
    if out.len() < n {
        return None;
    }
    whole(out, file);
    Some(n)
}

// What is printed of a refusal, as far as there is room, and its length.
fn refusal(out: &mut [u8], number: u32) -> usize
    ensures { Wrote (printed (refuse number)) 0 out.old out.new result }
{
    let p = text_writers::word(out, 0, b"refused");
    let q = text_writers::number(out, p, number as u64);
    text_writers::byte(out, q, 10)
}

// The same at the start of a lent slice, all of it or none.
pub fn refused(number: u32, out: &mut [u8]) -> Option<usize>
    ensures { Written (printed (refuse number)) 0 out.old out.new result }
{
    let mut none = [0u8; 1];
    let n = refusal(&mut none, number);
    if out.len() < n {
        return None;
    }
    refusal(out, number);
    Some(n)
}

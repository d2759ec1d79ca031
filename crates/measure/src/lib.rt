// The result's length, before anything is written: document 01, 15.
#![tactic(auto)]

ghost use Rattle.std.specs.Prelude.{◌≡◌, ◌+◌, ◌-◌, Bool};
ghost use Rattle.stored.specs.Stored.{flat_net_end};
ghost use Rattle.ends.specs.Ends.{within};
ghost use Rattle.measure.specs.Measure.{plus, node_size, with_slot, slots_size, with_net, nets_size, path_joins, with_path, measure};

use kinds::NodeId;

// How many nodes there are, and in how many bytes.
#[derive(Clone, Copy)]
pub struct Size {
    pub nodes: u64,
    pub bytes: u64,
}

// So many nodes and bytes more.
fn plus(size: Size, nodes: u64, bytes: u64) -> Size
    ensures { result ≡ plus size nodes bytes }
{
    Size {
        nodes: std::num::wrapping_add_u64(size.nodes, nodes),
        bytes: std::num::wrapping_add_u64(size.bytes, bytes),
    }
}

// A node of this name with so many ports, in a file.
fn node_size(file: &[u8], name: u32, arity: u32) -> u64
    ensures { result ≡ node_size file.now name arity }
{
    12 + 2 * node_names::child_count(file, name) as u64 + 2 * arity as u64
}

// One slot more: a node counts unless it is a free node.
fn with_slot(ws: &[u32], file: &[u8], n: NodeId, size: Size) -> Size
    ensures { result ≡ with_slot ws.now file.now n.0 size }
{
    let name = tried::name(ws, n);
    if layout::node_word(ws, n, 0) == 0 {
        return size;
    }
    if name == 0 {
        return size;
    }
    plus(size, 1, node_size(file, name, tried::arity(ws, n)))
}

// The slots that were ever used.
fn slots_size(ws: &[u32], file: &[u8]) -> Size
    ensures { result ≡ slots_size ws.now file.now }
{
    let mut size = Size { nodes: 0, bytes: 0 };
    let used = words::get(ws, layout::FRESH_SLOT);
    for n in 0..used {
        size = with_slot(ws, file, NodeId(n), size);
    }
    size
}

// The bytes from a place up to another.
pub fn span(from: usize, to: usize) -> usize
    ensures { result ≡ to - from }
{
    if from <= to {
        return to - from;
    }
    0
}

// One net more, at a place: an included one without its nodes, another as it stands.
fn with_net(file: &[u8], at: usize, size: Size) -> Size
    ensures { result ≡ with_net file.now at (within file.now (flat_net_end file.now at)) size }
{
    if net_readers::net_included(file, at) {
        return plus(size, 0, 12 + 2 * net_readers::free_count(file, at) as u64);
    }
    plus(
        size,
        net_readers::node_count(file, at) as u64,
        span(at, ends::flat_net_end(file, at)) as u64,
    )
}

// So many nets from a place on.
fn nets_size(file: &[u8], from: usize, count: u32, start: Size) -> Size
    ensures { result ≡ nets_size file.now from count start }
{
    let mut at = from;
    let mut size = start;
    for i in 0..count {
        size = with_net(file, at, size);
        at = ends::next_net(file, at, count - i);
    }
    size
}

// Whether the free path joins the path table.
pub fn path_joins(ws: &[u32], file: &[u8]) -> bool
    ensures { result ≡ path_joins ws.now file.now }
{
    if words::get(ws, layout::NETS) == 0 {
        return false;
    }
    let k = readers::path_count(file) as u32;
    free_path::free_number(file, 11, k) == k
}

// The free path takes sixteen bytes.
fn with_path(ws: &[u32], file: &[u8], size: Size) -> Size
    ensures { result ≡ with_path ws.now file.now size }
{
    if path_joins(ws, file) {
        return plus(size, 0, 16);
    }
    size
}

// The whole result.
pub fn measure(ws: &[u32], file: &[u8]) -> Size
    ensures { result ≡ measure ws.now file.now }
{
    let nets = readers::net_count_at(file);
    let from = ends::on(file, nets, 2);
    let tables = plus(slots_size(ws, file), 0, from as u64);
    let size = nets_size(file, from, fields::be16(file, nets) as u32, tables);
    with_path(ws, file, size)
}

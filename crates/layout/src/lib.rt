// The lent words by name: what stands where in an image, as docs/IMAGE.md lists it. Every access is total: past the end a read
// is 0 and a write does nothing.
#![tactic(auto)]

ghost use Rattle.std.specs.Prelude.{◌≡◌, ◌/◌, ◌%◌};
ghost use Rattle.layout.specs.Layout.{next, less, net_by_name, net_at_words, net_word_words, set_net_word, node_at, node_word, set_node_word, across, set_across, principal, node_of, is_principal_words, dirty_at, entry_at, entry_word, set_entry_word, wait_at, wait_word, set_wait_word};

use kinds::{NetId, NodeId};

// A port: the place of its word, 32 * node + 8 + index. Its word is the port across; a hole names itself.
#[derive(Clone, Copy, PartialEq, Eq)]
pub struct Port(pub u32);

// Words of the header.
pub const MARK: usize = 0;

pub const NODE_POOL: usize = 1;

pub const ENTRY_POOL: usize = 2;

pub const WAIT_POOL: usize = 3;

pub const FILE_LENGTH: usize = 4;

pub const LIMIT: usize = 5;

pub const STEPS: usize = 6;

pub const NETS: usize = 7;

pub const FREE_SLOT: usize = 8;

pub const FRESH_SLOT: usize = 9;

pub const FREE_ENTRY: usize = 10;

pub const FRESH_ENTRY: usize = 11;

pub const FREE_WAIT: usize = 12;

pub const FRESH_WAIT: usize = 13;

pub const DIRTY_LENGTH: usize = 14;

pub const DIRTY_CAPACITY: usize = 15;

pub const DIRTY_STALE: usize = 16;

pub const DEAD: usize = 17;

// One more and one less, as a word holds them.
pub fn next(x: u32) -> u32
    ensures { result ≡ next x }
{
    std::num::wrapping_add_u32(x, 1)
}

pub fn less(x: u32) -> u32
    ensures { result ≡ less x }
{
    std::num::wrapping_sub_u32(x, 1)
}

// The net of a name, 0 where none is included.
pub fn net_by_name(ws: &[u32], name: u32) -> NetId
    ensures { result.0 ≡ net_by_name ws.now name }
{
    if name < 1024 {
        NetId(words::get(ws, 64 + name as usize))
    } else {
        NetId(0)
    }
}

pub fn net_at(t: NetId, f: u32) -> usize
    ensures { result ≡ net_at_words t.0 f }
{
    1072 + 16 * t.0 as usize + f as usize
}

pub fn net_word(ws: &[u32], t: NetId, f: u32) -> u32
    ensures { result ≡ net_word_words ws.now t.0 f }
{
    words::get(ws, net_at(t, f))
}

pub fn set_net_word(ws: &mut [u32], t: NetId, f: u32, v: u32)
    ensures { ws.new ≡ set_net_word ws.old t.0 f v }
{
    words::put(ws, net_at(t, f), v)
}

pub fn node_at(n: NodeId, f: u32) -> usize
    ensures { result ≡ node_at n.0 f }
{
    5184 + 32 * n.0 as usize + f as usize
}

pub fn node_word(ws: &[u32], n: NodeId, f: u32) -> u32
    ensures { result ≡ node_word ws.now n.0 f }
{
    words::get(ws, node_at(n, f))
}

pub fn set_node_word(ws: &mut [u32], n: NodeId, f: u32, v: u32)
    ensures { ws.new ≡ set_node_word ws.old n.0 f v }
{
    words::put(ws, node_at(n, f), v)
}

pub fn across(ws: &[u32], p: Port) -> Port
    ensures { result.0 ≡ across ws.now p.0 }
{
    Port(words::get(ws, 5184 + p.0 as usize))
}

pub fn set_across(ws: &mut [u32], p: Port, q: Port)
    ensures { ws.new ≡ set_across ws.old p.0 q.0 }
{
    words::put(ws, 5184 + p.0 as usize, q.0)
}

pub fn principal(n: NodeId) -> Port
    ensures { result.0 ≡ principal n.0 }
{
    Port(((32 * n.0 as u64 + 8) % 4294967296) as u32)
}

pub fn next_port(p: Port) -> Port
    ensures { result.0 ≡ next p.0 }
{
    Port(next(p.0))
}

pub fn node_of(p: Port) -> NodeId
    ensures { result.0 ≡ node_of p.0 }
{
    NodeId(p.0 / 32)
}

pub fn is_principal(p: Port) -> bool
    ensures { result ≡ is_principal_words p.0 }
{
    p.0 % 32 == 8
}

// The dirty list's entry k: four stand in each node's record.
pub fn dirty_at(k: u32) -> usize
    ensures { result ≡ dirty_at k }
{
    5208 + 32 * (k / 4) as usize + (k % 4) as usize
}

pub fn entry_at(ws: &[u32], c: u32, f: u32) -> usize
    ensures { result ≡ entry_at ws.now c f }
{
    5214 + 32 * words::get(ws, NODE_POOL) as usize + 2 * c as usize + f as usize
}

pub fn entry_word(ws: &[u32], c: u32, f: u32) -> u32
    ensures { result ≡ entry_word ws.now c f }
{
    words::get(ws, entry_at(ws, c, f))
}

pub fn set_entry_word(ws: &mut [u32], c: u32, f: u32, v: u32)
    ensures { ws.new ≡ set_entry_word ws.old c f v }
{
    let i = entry_at(ws, c, f);
    words::put(ws, i, v)
}

pub fn wait_at(ws: &[u32], c: u32, f: u32) -> usize
    ensures { result ≡ wait_at ws.now c f }
{
    5213 + 32 * words::get(ws, NODE_POOL) as usize
        + 2 * words::get(ws, ENTRY_POOL) as usize
        + 3 * c as usize
        + f as usize
}

pub fn wait_word(ws: &[u32], c: u32, f: u32) -> u32
    ensures { result ≡ wait_word ws.now c f }
{
    words::get(ws, wait_at(ws, c, f))
}

pub fn set_wait_word(ws: &mut [u32], c: u32, f: u32, v: u32)
    ensures { ws.new ≡ set_wait_word ws.old c f v }
{
    let i = wait_at(ws, c, f);
    words::put(ws, i, v)
}

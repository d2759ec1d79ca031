// What stands in a flat net at its place, and in a node at its place. A node's name stands at the node's own place.
// Every function has an answer everywhere: past the end a number is 0 and a place is the end.
#![tactic(auto)]

ghost use Rattle.std.specs.Prelude.{◌+◌, ◌*◌, ◌≡◌, eqb};
ghost use Rattle.fields.specs.Fields.{byte, be16, be32};
ghost use Rattle.stored.specs.Stored.{table_end, name_end, node_end, pair_count_at, node_count_at};
ghost use Rattle.ends.specs.Ends.{within};

use kinds::{NameId, Wire};
use readers::Part;

// ---- a net at its place

pub fn net_name(s: &[u8], at: usize) -> NameId
    ensures { result.0 ≡ be16 s.now at }
{
    NameId(fields::be16(s, at) as u32)
}

pub fn net_included(s: &[u8], at: usize) -> bool
    ensures { result ≡ eqb (byte s.now (at + 2)) 1 }
{
    readers::byte_on(s, at, 2) == 1
}

// The wire counter: every wire is below it.
pub fn net_wires(s: &[u8], at: usize) -> u32
    ensures { result ≡ be32 s.now (at + 3) }
{
    readers::be32_on(s, at, 3)
}

pub fn free_count(s: &[u8], at: usize) -> u8
    ensures { result ≡ byte s.now (at + 7) }
{
    readers::byte_on(s, at, 7)
}

pub fn free_wire(s: &[u8], at: usize, j: u32) -> Wire
    ensures { result.0 ≡ be16 s.now (at + (8 + 2 * j)) }
{
    Wire(readers::be16_on(s, at, 8 + 2 * (j as usize)) as u32)
}

pub fn pair_count(s: &[u8], at: usize) -> u16
    ensures { result ≡ be16 s.now (pair_count_at s.now at) }
{
    fields::be16(s, ends::pair_count_at(s, at))
}

pub fn pair_place(s: &[u8], at: usize, j: u32) -> usize
    ensures { result ≡ within s.now (pair_count_at s.now at + (2 + 4 * j)) }
{
    ends::on(s, ends::pair_count_at(s, at), 2 + 4 * (j as usize))
}

pub fn node_count(s: &[u8], at: usize) -> u16
    ensures { result ≡ be16 s.now (node_count_at s.now at) }
{
    fields::be16(s, ends::node_count_at(s, at))
}

// The place of the k-th node of a net.
pub fn node_place(s: &[u8], at: usize, k: u32) -> usize
    ensures { result ≡ within s.now (table_end (node_end s.now) (node_count_at s.now at + 2) k) }
{
    readers::counted_end(s, Part::Node, ends::node_count_at(s, at), k)
}

// ---- a pair at its place

// The smaller wire.
pub fn pair_first(s: &[u8], at: usize) -> Wire
    ensures { result.0 ≡ be16 s.now at }
{
    Wire(fields::be16(s, at) as u32)
}

pub fn pair_second(s: &[u8], at: usize) -> Wire
    ensures { result.0 ≡ be16 s.now (at + 2) }
{
    Wire(readers::be16_on(s, at, 2) as u32)
}

// ---- a node at its place

pub fn node_principal(s: &[u8], at: usize) -> Wire
    ensures { result.0 ≡ be16 s.now (name_end s.now at) }
{
    Wire(fields::be16(s, ends::name_end(s, at)) as u32)
}

pub fn aux_count(s: &[u8], at: usize) -> u8
    ensures { result ≡ byte s.now (name_end s.now at + 2) }
{
    readers::byte_on(s, ends::name_end(s, at), 2)
}

pub fn aux_wire(s: &[u8], at: usize, j: u32) -> Wire
    ensures { result.0 ≡ be16 s.now (name_end s.now at + (3 + 2 * j)) }
{
    Wire(readers::be16_on(s, ends::name_end(s, at), 3 + 2 * (j as usize)) as u32)
}

// What stands in the tables of a flat file: the limit, the counts, the place of each path, name, rule and net, and the parts at a place.
// Every function has an answer everywhere: past the end a number is 0 and a place is the end.
#![tactic(auto)]

ghost use Rattle.std.specs.Prelude.{◌+◌, ◌*◌, ◌≡◌, eqb};
ghost use Rattle.fields.specs.Fields.{byte, be16, be32, be64};
ghost use Rattle.stored.specs.Stored.{table_end, list_end, path_end, name_end, rule_end, flat_net_end, name_count_at, rule_count_at, net_count_at};
ghost use Rattle.ends.specs.Ends.{within};
ghost use Rattle.readers.specs.Readers.{part_end};

use kinds::{NameId, PathId};

// ---- numbers k bytes after a place

pub fn byte_on(s: &[u8], at: usize, k: usize) -> u8
    ensures { result ≡ byte s.now (at + k) }
{
    fields::byte(s, ends::on(s, at, k))
}

pub fn be16_on(s: &[u8], at: usize, k: usize) -> u16
    ensures { result ≡ be16 s.now (at + k) }
{
    fields::be16(s, ends::on(s, at, k))
}

pub fn be32_on(s: &[u8], at: usize, k: usize) -> u32
    ensures { result ≡ be32 s.now (at + k) }
{
    fields::be32(s, ends::on(s, at, k))
}

pub fn be64_on(s: &[u8], at: usize, k: usize) -> u64
    ensures { result ≡ be64 s.now (at + k) }
{
    fields::be64(s, ends::on(s, at, k))
}

// ---- tables

// By its tag: nothing, a path and a mark, one list, two, two, three.
pub fn rule_end(s: &[u8], at: usize) -> usize
    ensures { result ≡ within s.now (rule_end s.now at) }
{
    let tag = fields::byte(s, at);
    if tag == 0 {
        return ends::on(s, at, 1);
    }
    if tag == 1 {
        return ends::on(s, at, 4);
    }
    let a = ends::list_end(s, ends::on(s, at, 1));
    if tag == 2 {
        return a;
    }
    let b = ends::list_end(s, a);
    if tag < 5 {
        return b;
    }
    ends::list_end(s, b)
}

// What a table holds.
#[derive(Clone, Copy)]
pub enum Part {
    Path,
    Name,
    Rule,
    Net,
    Node,
    PathList,
}

pub fn part_end(s: &[u8], part: Part, at: usize) -> usize
    ensures { result ≡ within s.now (part_end s.now part at) }
{
    match part {
        Part::Path => ends::path_end(s, at),
        Part::Name => ends::name_end(s, at),
        Part::Rule => rule_end(s, at),
        Part::Net => ends::flat_net_end(s, at),
        Part::Node => ends::node_end(s, at),
        Part::PathList => ends::list_end(s, at),
    }
}

// n parts on, where each begins where the last ended.
pub fn table_end(s: &[u8], part: Part, from: usize, n: u32) -> usize
    ensures { result ≡ within s.now (table_end (part_end s.now part) from n) }
{
    let mut at = from;
    for _ in 0..n {
        at = part_end(s, part, at);
    }
    ends::on(s, at, 0)
}

// The same from a count's two bytes on.
pub fn counted_end(s: &[u8], part: Part, at: usize, n: u32) -> usize
    ensures { result ≡ within s.now (table_end (part_end s.now part) (at + 2) n) }
{
    table_end(s, part, ends::on(s, at, 2), n)
}

// ---- the limit and the counts

// 4,294,967,295 is none.
pub fn limit(s: &[u8]) -> u32
    ensures { result ≡ be32 s.now 5 }
{
    fields::be32(s, 5)
}

pub fn path_count(s: &[u8]) -> u16
    ensures { result ≡ be16 s.now 9 }
{
    fields::be16(s, 9)
}

pub fn name_count_at(s: &[u8]) -> usize
    ensures { result ≡ within s.now (name_count_at s.now) }
{
    table_end(s, Part::Path, 11, path_count(s) as u32)
}

pub fn name_count(s: &[u8]) -> u16
    ensures { result ≡ be16 s.now (name_count_at s.now) }
{
    fields::be16(s, name_count_at(s))
}

pub fn rule_count_at(s: &[u8]) -> usize
    ensures { result ≡ within s.now (rule_count_at s.now) }
{
    let m = name_count_at(s);
    counted_end(s, Part::Name, m, fields::be16(s, m) as u32)
}

pub fn rule_count(s: &[u8]) -> u16
    ensures { result ≡ be16 s.now (rule_count_at s.now) }
{
    fields::be16(s, rule_count_at(s))
}

pub fn net_count_at(s: &[u8]) -> usize
    ensures { result ≡ within s.now (net_count_at s.now) }
{
    let m = rule_count_at(s);
    counted_end(s, Part::Rule, m, fields::be16(s, m) as u32)
}

pub fn net_count(s: &[u8]) -> u16
    ensures { result ≡ be16 s.now (net_count_at s.now) }
{
    fields::be16(s, net_count_at(s))
}

// ---- the place of the k-th

pub fn path_place(s: &[u8], k: PathId) -> usize
    ensures { result ≡ within s.now (table_end (path_end s.now) 11 k.0) }
{
    table_end(s, Part::Path, 11, k.0)
}

pub fn name_place(s: &[u8], k: NameId) -> usize
    ensures { result ≡ within s.now (table_end (name_end s.now) (name_count_at s.now + 2) k.0) }
{
    counted_end(s, Part::Name, name_count_at(s), k.0)
}

pub fn rule_place(s: &[u8], k: u32) -> usize
    ensures { result ≡ within s.now (table_end (rule_end s.now) (rule_count_at s.now + 2) k) }
{
    counted_end(s, Part::Rule, rule_count_at(s), k)
}

pub fn net_place(s: &[u8], k: u32) -> usize
    ensures { result ≡ within s.now (table_end (flat_net_end s.now) (net_count_at s.now + 2) k) }
{
    counted_end(s, Part::Net, net_count_at(s), k)
}

// ---- a path at its place

pub fn path_length(s: &[u8], at: usize) -> u8
    ensures { result ≡ byte s.now at }
{
    fields::byte(s, at)
}

pub fn path_byte(s: &[u8], at: usize, j: u32) -> u8
    ensures { result ≡ byte s.now (at + (1 + j)) }
{
    byte_on(s, at, 1 + j as usize)
}

// ---- a name at its place

pub fn name_path(s: &[u8], at: usize) -> PathId
    ensures { result.0 ≡ be16 s.now at }
{
    PathId(fields::be16(s, at) as u32)
}

pub fn name_payload(s: &[u8], at: usize) -> u64
    ensures { result ≡ be64 s.now (at + 2) }
{
    be64_on(s, at, 2)
}

pub fn name_child_count(s: &[u8], at: usize) -> u8
    ensures { result ≡ byte s.now (at + 10) }
{
    byte_on(s, at, 10)
}

pub fn name_child(s: &[u8], at: usize, j: u32) -> NameId
    ensures { result.0 ≡ be16 s.now (at + (11 + 2 * j)) }
{
    NameId(be16_on(s, at, 11 + 2 * (j as usize)) as u32)
}

// ---- a rule at its place

// 1 graft, 2 annihilate, 3 erase, 4 commute, 5 eta.
pub fn rule_tag(s: &[u8], at: usize) -> u8
    ensures { result ≡ byte s.now at }
{
    fields::byte(s, at)
}

pub fn graft_path(s: &[u8], at: usize) -> PathId
    ensures { result.0 ≡ be16 s.now (at + 1) }
{
    PathId(be16_on(s, at, 1) as u32)
}

pub fn graft_lazy(s: &[u8], at: usize) -> bool
    ensures { result ≡ eqb (byte s.now (at + 3)) 1 }
{
    byte_on(s, at, 3) == 1
}

// The place of the i-th list of a rule that is not a graft.
pub fn rule_list_place(s: &[u8], at: usize, i: u32) -> usize
    ensures { result ≡ within s.now (table_end (list_end s.now) (at + 1) i) }
{
    table_end(s, Part::PathList, ends::on(s, at, 1), i)
}

pub fn list_length(s: &[u8], at: usize) -> u8
    ensures { result ≡ byte s.now at }
{
    fields::byte(s, at)
}

pub fn list_path(s: &[u8], at: usize, j: u32) -> PathId
    ensures { result.0 ≡ be16 s.now (at + (1 + 2 * j)) }
{
    PathId(be16_on(s, at, 1 + 2 * (j as usize)) as u32)
}

// The rules by path, made once a call: for each path the sets of the rules that name it, a bit for each of 64 rules.
//
// Sets of path p stand at 8 * p and on: 0 first lists (annihilate, erasers, a), 1 second lists (annihilate, nodes, b), 2 any of
// these, 3 rewrites (graft, combinators), 4 values and nils, 5 nils. The places of the rules stand at 2,048 and on.
#![tactic(auto)]

ghost use Rattle.std.specs.Prelude.{◌≡◌, ◌+◌, ◌*◌, set};
ghost use Rattle.stored.specs.Stored.{list_at, list_end};
ghost use Rattle.rule_sets.specs.Sets.{set_of, has, rule_at_words, add, add_list, add_interaction, add_pair, add_eta, add_rule, rule_here, add_rules, rule_sets, value, nil};

// As many words as the sets and the places need.
pub const LENGTH: usize = 2112;

pub fn set_of(sets: &[u64], path: u32, k: u32) -> u64
    ensures { result ≡ set_of sets.now path k }
{
    let i = 8 * path as usize + k as usize;
    if i < sets.len() { sets[i] } else { 0 }
}

fn put(sets: &mut [u64], i: usize, v: u64)
    ensures { sets.new ≡ set sets.old i v }
{
    if i < sets.len() {
        sets[i] = v;
    }
}

// Whether rule r is in a set.
pub fn has(set: u64, r: u32) -> bool
    ensures { result ≡ has set r }
{
    if r < 64 {
        return (set >> r) % 2 == 1;
    }
    false
}

// The place of rule r in the file.
pub fn rule_at(sets: &[u64], r: u32) -> usize
    ensures { result ≡ rule_at_words sets.now r }
{
    let i = 2048 + r as usize;
    if i < sets.len() { sets[i] as usize } else { 0 }
}

// Rule r, whose bit is given, in set k of a path.
fn add(sets: &mut [u64], path: u32, k: u32, r: u32, bit: u64)
    ensures { sets.new ≡ add sets.old path k r bit }
{
    let set = set_of(sets, path, k);
    if has(set, r) {
        return;
    }
    let more = std::num::wrapping_add_u64(set, bit);
    put(sets, 8 * path as usize + k as usize, more)
}

// Rule r in set k of each path of the list at a place.
fn add_list(file: &[u8], at: usize, sets: &mut [u64], k: u32, r: u32, bit: u64)
    ensures { sets.new ≡ add_list sets.old k r bit (list_at file.now at) }
{
    let count = fields::byte(file, at);
    let mut p = ends::on(file, at, 1);
    for _ in 0..count {
        add(sets, fields::be16(file, p) as u32, k, r, bit);
        p = ends::on(file, p, 2);
    }
}

fn add_interaction(file: &[u8], at: usize, sets: &mut [u64], k: u32, r: u32, bit: u64)
    ensures { sets.new ≡ add_interaction sets.old k r bit (list_at file.now at) }
{
    add_list(file, at, sets, k, r, bit);
    add_list(file, at, sets, 2, r, bit)
}

// Erase and commute have two lists.
fn add_pair(file: &[u8], at: usize, sets: &mut [u64], r: u32, bit: u64)
    ensures { sets.new ≡ add_pair sets.old r bit (list_at file.now at) (list_at file.now (list_end file.now at)) }
{
    let second = ends::list_end(file, at);
    add_interaction(file, at, sets, 0, r, bit);
    add_interaction(file, second, sets, 1, r, bit)
}

fn add_eta(file: &[u8], at: usize, sets: &mut [u64], r: u32, bit: u64)
    ensures { sets.new ≡ add_eta sets.old r bit (list_at file.now at) (list_at file.now (list_end file.now at))
        (list_at file.now (list_end file.now (list_end file.now at))) }
{
    let values = ends::list_end(file, at);
    let nils = ends::list_end(file, values);
    add_list(file, at, sets, 3, r, bit);
    add_list(file, values, sets, 4, r, bit);
    add_list(file, nils, sets, 4, r, bit);
    add_list(file, nils, sets, 5, r, bit)
}

// The rule at a place, by its tag.
fn add_rule(file: &[u8], at: usize, sets: &mut [u64], r: u32, bit: u64)
    ensures { sets.new ≡ add_rule sets.old r bit (rule_here file.now at) }
{
    let tag = fields::byte(file, at);
    let lists = ends::on(file, at, 1);
    match tag {
        1 => add(sets, fields::be16(file, lists) as u32, 3, r, bit),
        2 => {
            add_interaction(file, lists, sets, 0, r, bit);
            add_interaction(file, lists, sets, 1, r, bit)
        }
        3 => add_pair(file, lists, sets, r, bit),
        4 => add_pair(file, lists, sets, r, bit),
        _ => add_eta(file, lists, sets, r, bit),
    }
}

// The rules from the first place on, at most 64.
fn add_rules(file: &[u8], first: usize, count: u32, sets: &mut [u64])
    ensures { sets.new ≡ add_rules file.now first 0 count sets.old }
{
    let mut at = first;
    let mut bit: u64 = 1;
    for r in 0..count {
        put(sets, 2048 + r as usize, at as u64);
        add_rule(file, at, sets, r, bit);
        at = readers::rule_end(file, at);
        bit = std::num::wrapping_add_u64(bit, bit);
    }
}

pub fn build(file: &[u8], sets: &mut [u64])
    ensures { sets.new ≡ rule_sets file.now sets.old }
{
    let at = readers::rule_count_at(file);
    add_rules(
        file,
        ends::on(file, at, 2),
        fields::be16(file, at) as u32,
        sets,
    )
}

// Rule r names the path of this name as a value or a nil, or as a nil.
pub fn value(file: &[u8], sets: &[u64], r: u32, name: u32) -> bool
    ensures { result ≡ value file.now sets.now r name }
{
    has(set_of(sets, node_names::path(file, name), 4), r)
}

pub fn nil(file: &[u8], sets: &[u64], r: u32, name: u32) -> bool
    ensures { result ≡ nil file.now sets.now r name }
{
    has(set_of(sets, node_names::path(file, name), 5), r)
}

// Whether a rule names a path, by that path's number: check 8 asks it of the free path's.
#![tactic(auto)]

ghost use Rattle.std.specs.Prelude.{◌≡◌, eqb};
ghost use Rattle.net_file.specs.Lists.{any};
ghost use Rattle.ends.specs.Runs.{run};
ghost use Rattle.rule_names.specs.RuleNames.{list_has, lists_have, lists_after, lists_of, tagged_names, tagged_after, rule_names, rule_after, rules_name};

// Whether x is one of n numbers that stand one after another, where all are there.
fn has(s: &[u8], from: usize, n: u32, x: u32) -> bool
    ensures { result ≡ any (eqb x) (run s.now from n) }
{
    if s.len() < from {
        return false;
    }
    if (s.len() - from) / 2 < n as usize {
        return false;
    }
    let mut at = from;
    for _ in 0..n {
        let p = fields::be16(s, at);
        if x == p as u32 {
            return true;
        }
        at += 2;
    }
    false
}

// A list: a count of one byte, then as many numbers.
fn list_has(s: &[u8], at: usize, x: u32) -> bool
    ensures { result ≡ list_has s.now at x }
{
    let n = fields::byte(s, at);
    let from = ends::on(s, at, 1);
    has(s, from, n as u32, x)
}

// n lists, one after another.
fn lists_have(s: &[u8], from: usize, n: u32, x: u32) -> bool
    ensures { result ≡ lists_have s.now from n x }
{
    let mut at = from;
    for _ in 0..n {
        if list_has(s, at, x) {
            return true;
        }
        at = ends::list_end(s, at);
    }
    false
}

fn lists_after(s: &[u8], from: usize, n: u32) -> usize
    ensures { result ≡ lists_after s.now from n }
{
    let mut at = from;
    for _ in 0..n {
        at = ends::list_end(s, at);
    }
    at
}

// How many lists follow the tag.
fn lists_of(tag: u8) -> u32
    ensures { result ≡ lists_of tag }
{
    if tag < 2 {
        return 0;
    }
    if tag == 2 {
        return 1;
    }
    if tag < 5 {
        return 2;
    }
    if tag == 5 {
        return 3;
    }
    0
}

// What follows a rule's tag: a graft's path and whether it is lazy, or lists.
fn tagged_names(s: &[u8], tag: u8, at: usize, x: u32) -> bool
    ensures { result ≡ tagged_names s.now tag at x }
{
    if tag == 1 {
        return has(s, at, 1, x);
    }
    let n = lists_of(tag);
    lists_have(s, at, n, x)
}

fn tagged_after(s: &[u8], tag: u8, at: usize) -> usize
    ensures { result ≡ tagged_after s.now tag at }
{
    if tag == 1 {
        return ends::on(s, at, 3);
    }
    let n = lists_of(tag);
    lists_after(s, at, n)
}

pub fn rule_names(s: &[u8], at: usize, x: u32) -> bool
    ensures { result ≡ rule_names s.now at x }
{
    let tag = fields::byte(s, at);
    let from = ends::on(s, at, 1);
    tagged_names(s, tag, from, x)
}

pub fn rule_after(s: &[u8], at: usize) -> usize
    ensures { result ≡ rule_after s.now at }
{
    let tag = fields::byte(s, at);
    let from = ends::on(s, at, 1);
    tagged_after(s, tag, from)
}

// Whether one of n rules from `from` on names the path of number x.
pub fn rules_name(s: &[u8], from: usize, n: u32, x: u32) -> bool
    ensures { result ≡ rules_name s.now from n x }
{
    let mut at = from;
    for _ in 0..n {
        if rule_names(s, at, x) {
            return true;
        }
        at = rule_after(s, at);
    }
    false
}

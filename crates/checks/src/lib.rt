// The checks of a file's tables that come after its bytes are read: whether paths and names differ (6), and whether a rule names
// the free path (8). The same for both versions.
#![tactic(auto)]

ghost use Rattle.std.specs.Prelude.{◌≡◌};
ghost use Rattle.checks.specs.Checks.{tables_differ, free_named};

use repeats::Item;

pub fn tables_differ(s: &[u8]) -> bool
    ensures { result ≡ tables_differ s.now }
{
    let np = fields::be16(s, 9);
    if repeats::differ(s, 11, np as u32, Item::Path) {
        let m = readers::name_count_at(s);
        let nm = fields::be16(s, m);
        let from = ends::on(s, m, 2);
        return repeats::differ(s, from, nm as u32, Item::Name);
    }
    false
}

pub fn free_named(s: &[u8]) -> bool
    ensures { result ≡ free_named s.now }
{
    let np = fields::be16(s, 9);
    let x = free_path::free_number(s, 11, np as u32);
    let m = readers::rule_count_at(s);
    let nr = fields::be16(s, m);
    let from = ends::on(s, m, 2);
    rule_names::rules_name(s, from, nr as u32, x)
}

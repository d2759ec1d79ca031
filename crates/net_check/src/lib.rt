// Whether a net file is accepted, or by what it is refused: the checks 2 to 8 in their order, each over the whole
// file before the next. Nothing is written, whatever the bytes are.
#![tactic(auto)]

ghost use Rattle.std.specs.Prelude.{◌≡◌};
ghost use Rattle.net_file.specs.Checks.{flat, tree, read};
ghost use Rattle.net_check.specs.Verdict.{number_of, refused_by, verdict};
ghost use Rattle.net_check.specs.Later.{flat_later, tree_later};

use refusals::Refusal;

// Checks 6, 7 and 8 of a flat file whose bytes were read.
fn flat_later(s: &[u8]) -> Result<(), Refusal>
    ensures { result ≡ flat_later s.now }
{
    if checks::tables_differ(s) {
        let q = readers::net_count_at(s);
        let n = fields::be16(s, q);
        let from = ends::on(s, q, 2);
        if orders::nets_ordered(s, from, n) {
            if wiring_nets::nets_wired(s, from, n) {
                if checks::free_named(s) {
                    return Err(Refusal::FreePathNamed);
                }
                return Ok(());
            }
            return Err(Refusal::BadWiring);
        }
    }
    Err(Refusal::BadOrder)
}

// A flat file: version 1.
pub fn check_flat(s: &[u8]) -> Result<(), Refusal>
    ensures is { result ≡ verdict (read flat s.now) }
    ensures number { number_of result ≡ refused_by (read flat s.now) }
{
    head::head(s, 1)?;
    match body_flat::flat_body(s) {
        Some(_) => flat_later(s),
        None => Err(Refusal::BadBody),
    }
}

// Checks 6, 7 and 8 of a tree file whose bytes were read.
fn tree_later(s: &[u8]) -> Result<(), Refusal>
    ensures { result ≡ tree_later s.now }
{
    if checks::tables_differ(s) {
        let q = readers::net_count_at(s);
        let n = fields::be16(s, q);
        let from = ends::on(s, q, 2);
        if orders_tree::names_ascend(s, from, n) {
            if wiring_tree_nets::nets_wired(s, from, n) {
                if checks::free_named(s) {
                    return Err(Refusal::FreePathNamed);
                }
                return Ok(());
            }
            return Err(Refusal::BadWiring);
        }
    }
    Err(Refusal::BadOrder)
}

// A tree file: version 65.
pub fn check_tree(s: &[u8]) -> Result<(), Refusal>
    ensures is { result ≡ verdict (read tree s.now) }
    ensures number { number_of result ≡ refused_by (read tree s.now) }
{
    head::head(s, 65)?;
    match body_tree::tree_body(s) {
        Some(_) => tree_later(s),
        None => Err(Refusal::BadBody),
    }
}

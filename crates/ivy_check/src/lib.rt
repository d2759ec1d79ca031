// The checkers for C and Rust, as plain numbers: 0 where a file is accepted, else the number by which it is refused. The static
// library defines both under these names; include/ivy_check.h declares them.
#![tactic(auto)]

ghost use Rattle.std.specs.Prelude.{◌≡◌};
ghost use Rattle.net_file.specs.Checks.{flat, tree, read};
ghost use Rattle.net_check.specs.Verdict.{number_of, refused_by};

use refusals::Refusal;

// The number of an answer.
#[tactic(auto, unfolding(net_check::specs::Verdict::number_of))]
fn number(answer: Result<(), Refusal>) -> u32
    ensures { result ≡ number_of answer }
{
    match answer {
        Ok(()) => 0,
        Err(r) => r.number(),
    }
}

// A flat file: version 1.
#[unsafe(no_mangle)]
pub extern "C" fn ivy_check_flat(file: &[u8]) -> u32
    ensures { result ≡ refused_by (read flat file.now) }
{
    number(net_check::check_flat(file))
}

// A tree file: version 65.
#[unsafe(no_mangle)]
pub extern "C" fn ivy_check_tree(file: &[u8]) -> u32
    ensures { result ≡ refused_by (read tree file.now) }
{
    number(net_check::check_tree(file))
}

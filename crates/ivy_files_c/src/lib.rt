// The conversions and pruning for C and Rust, as plain numbers. The static library defines them under these names;
// include/ivy_files.h declares them.
#![tactic(auto)]

ghost use Rattle.std.specs.Prelude.{◌≡◌, length};
ghost use Rattle.conversions.specs.Calls.{pruned, to_flat_call, to_tree_call, resolve_flat_call, resolve_tree_call};
ghost use Rattle.convert_frame.specs.Called.{long};
ghost use Rattle.refusals.specs.Told.{told};
ghost use Rattle.ivy_files_c.specs.Plain.{plain, Pruned, Called};

use refusals::Refusal;

// The number of a refusal, or 0 and the length of the result.
#[repr(C)]
#[derive(Clone, Copy)]
pub struct IvyConverted {
    pub refusal: u32,
    pub length: u64,
}

#[tactic(auto, unfolding(crate::specs::Plain::plain))]
fn plain(answer: Result<usize, Refusal>) -> IvyConverted
    ensures { result ≡ plain (told answer) }
{
    match answer {
        Ok(n) => IvyConverted {
            refusal: 0,
            length: n as u64,
        },
        Err(r) => IvyConverted {
            refusal: r.number(),
            length: 0,
        },
    }
}

#[unsafe(no_mangle)]
pub extern "C" fn ivy_prune(file: &[u8], entries: &[u32], out: &mut [u8]) -> IvyConverted
    ensures { Pruned (pruned entries.now (length out.old) file.now) out.old result out.new }
{
    plain(pruning::prune(file, entries, out))
}

#[unsafe(no_mangle)]
pub extern "C" fn ivy_flat_from_tree(
    file: &[u8],
    scratch: &mut [u32],
    out: &mut [u8],
) -> IvyConverted
    ensures { Called (to_flat_call (long scratch.old) (length out.old) file.now) scratch.old out.old result scratch.new out.new }
{
    plain(flat_from_tree::flat_from_tree(file, scratch, out))
}

#[unsafe(no_mangle)]
pub extern "C" fn ivy_tree_from_flat(
    file: &[u8],
    scratch: &mut [u32],
    out: &mut [u8],
) -> IvyConverted
    ensures { Called (to_tree_call (long scratch.old) (length out.old) file.now) scratch.old out.old result scratch.new out.new }
{
    plain(tree_from_flat::tree_from_flat(file, scratch, out))
}

#[unsafe(no_mangle)]
pub extern "C" fn ivy_resolve_flat(file: &[u8], scratch: &mut [u32], out: &mut [u8]) -> IvyConverted
    ensures { Called (resolve_flat_call (long scratch.old) (length out.old) file.now) scratch.old out.old result scratch.new out.new }
{
    plain(resolve_flat::resolve_flat(file, scratch, out))
}

#[unsafe(no_mangle)]
pub extern "C" fn ivy_resolve_tree(file: &[u8], scratch: &mut [u32], out: &mut [u8]) -> IvyConverted
    ensures { Called (resolve_tree_call (long scratch.old) (length out.old) file.now) scratch.old out.old result scratch.new out.new }
{
    plain(resolve_tree::resolve_tree(file, scratch, out))
}

// A tree file from a flat one: `to_tree` of net.rs, as a call on files.
#![tactic(auto)]

ghost use Rattle.std.specs.Prelude.{length};
ghost use Rattle.conversions.specs.Calls.{to_tree_call};
ghost use Rattle.convert_frame.specs.Called.{long, Called};
ghost use Rattle.tree_from_flat.specs.Nets.{tree_kind};

use flat_frame::Conversion;
use refusals::Refusal;

// Each net to one of trees: its pairs are marked in a word for each wire.
struct ToTree;

impl Conversion for ToTree {
    ghost VERSION = { 65 };

    ghost TABLE = { 65536 };

    ghost kind = { tree_kind };

    const VERSION: u8 = 65;

    const TABLE: usize = 65536;

    // The net at a place: its pairs marked by its stamp, then written.
    fn net(out: &mut [u8], at: usize, ws: &mut [u32], stamp: u16, s: &[u8], from: usize) -> usize {
        let p = ends::pair_count_at(s, from);
        wire_marks::mark_pairs(ws, stamp, s, p);
        tree_writers::tree_net(out, at, ws, stamp, s, from)
    }
}

pub fn tree_from_flat(file: &[u8], scratch: &mut [u32], out: &mut [u8]) -> Result<usize, Refusal>
    ensures { Called (to_tree_call (long scratch.old) (length out.old) file.now) scratch.old out.old result scratch.new out.new }
{
    if scratch.len() < convert_frame::SCRATCH {
        return Err(Refusal::TooLittleLent);
    }
    net_check::check_flat(file)?;
    flat_frame::accepted::<ToTree>(file, scratch, out)
}

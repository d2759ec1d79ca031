// A flat file with its links resolved: the flat `resolve_links` of net.rs, as a call on files.
#![tactic(auto)]

ghost use Rattle.std.specs.Prelude.{length};
ghost use Rattle.conversions.specs.Calls.{resolve_flat_call};
ghost use Rattle.convert_frame.specs.Called.{long, Called};
ghost use Rattle.resolve_flat.specs.Nets.{flat_kind};

use flat_frame::Conversion;
use refusals::Refusal;

// The links of each net resolved: its pairs are marked in a word for each wire, its places in another.
struct Resolve;

impl Conversion for Resolve {
    ghost VERSION = { 1 };

    ghost TABLE = { 131072 };

    ghost kind = { flat_kind };

    const VERSION: u8 = 1;

    const TABLE: usize = 131072;

    // The net at a place: its pairs and its places marked by its stamp, then written.
    fn net(out: &mut [u8], at: usize, ws: &mut [u32], stamp: u16, s: &[u8], from: usize) -> usize {
        let p = ends::pair_count_at(s, from);
        wire_marks::mark_pairs(ws, stamp, s, p);
        wire_places::mark_places(ws, stamp, s, from);
        pair_writers::flat_net(out, at, ws, stamp, s, from)
    }
}

pub fn resolve_flat(file: &[u8], scratch: &mut [u32], out: &mut [u8]) -> Result<usize, Refusal>
    ensures { Called (resolve_flat_call (long scratch.old) (length out.old) file.now) scratch.old out.old result scratch.new out.new }
{
    if scratch.len() < convert_frame::SCRATCH {
        return Err(Refusal::TooLittleLent);
    }
    net_check::check_flat(file)?;
    flat_frame::accepted::<Resolve>(file, scratch, out)
}

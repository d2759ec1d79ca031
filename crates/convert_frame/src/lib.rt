// What the conversion calls share: their scratch, and what a result begins with.
// A call writes its result twice: first into a slice of one byte, which tells its length, then into the output, if there is room.
#![tactic(auto)]

ghost use Rattle.std.specs.Prelude.{◌-◌, ◌%◌, ◌≡◌};
ghost use Rattle.text_writers.specs.Wrote.{Wrote};
ghost use Rattle.convert_frame.specs.Head.{head_bytes};

// The scratch that each of the four calls is lent, in words: the tables by wire, at most four.
pub const SCRATCH: usize = 262144;

// What the length field of a result of so many bytes says.
fn following(length: usize) -> u32
    ensures { result ≡ (length - 4) % 4294967296 }
{
    (length.saturating_sub(4) % 4294967296) as u32
}

// What a result of so many bytes begins with: its length, its version, what stands in the file from the limit up to the place of
// the nets' count, and the count of its own nets.
pub fn head(
    out: &mut [u8],
    file: &[u8],
    place: usize,
    version: u8,
    count: u16,
    length: usize,
) -> usize
    ensures { Wrote (head_bytes file.now place version count length) 0 out.old out.new result }
{
    let p = field_writers::four(out, 0, following(length));
    let q = field_writers::one(out, p, version);
    let t = field_writers::bytes(out, q, file, 5, place);
    field_writers::two(out, t, count)
}

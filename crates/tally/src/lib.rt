// How often a wire occurs in a net, counted in a lent array that has a word for each wire. A word says nothing below a base and
// 1, 2 or 3 (three times or more) by how much it is above it. The next net counts above a base that is 4 higher, so that
// nothing has to be cleared between nets.
#![tactic(auto)]

ghost use Rattle.std.specs.Prelude.{◌≡◌};
ghost use Rattle.tally.specs.Tally.{more, bump};

// The word for once more.
pub fn more(base: u16, c: u32) -> u32
    ensures { result ≡ more base c }
{
    let b = base as u32;
    if c <= b {
        return b + 1;
    }
    if c == b + 1 {
        return b + 2;
    }
    b + 3
}

// A wire that occurs once more.
pub fn bump(counts: &mut [u32], base: u16, w: u16)
    ensures { counts.new ≡ bump counts.old base w }
{
    let c = words::get(counts, w as usize);
    words::put(counts, w as usize, more(base, c))
}

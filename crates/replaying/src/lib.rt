// What the replays of lists of files share: how far a list is read, what is counted of it, and the reads of its parts.
#![tactic(auto)]

ghost use Rattle.std.specs.Prelude.{◌+◌, ◌≤◌, ◌<◌, ◌≡◌, ◌↔◌, ℕ, length, take, IsTrue, IsFalse, IfOk};
ghost use Rattle.std.specs.Io.KnownBytes.{Consumes, IsAtEnd};
ghost use Rattle.replaying.specs.Tallied.{after};

use std::io::{self, Read};

// A list is read no further than this.
pub const MOST_FILES: u64 = 100000;

// So many differences are shown; all are counted.
pub const MOST_SHOWN: u64 = 10;

#[derive(Clone, Copy)]
pub struct Tally {
    pub files: u64,
    pub different: u64,
}

impl Tally {
    pub fn new() -> Tally
        ensures { result ≡ record { files = 0; different = 0 } }
    {
        Tally {
            files: 0,
            different: 0,
        }
    }

    // Whether a difference of the next file is shown.
    pub fn shows(self) -> bool
        ensures { IsTrue result ↔ self.different < MOST_SHOWN }
    {
        self.different < MOST_SHOWN
    }

    // The tally after one file more. At the end of the numbers it counts no further.
    pub fn counted(self, same: bool) -> Tally
        ensures value { self.files < 18446744073709551615 → self.different < 18446744073709551615 → result ≡ after self same }
        ensures at_most_one_more { result.files ≤ self.files + 1 }
        ensures still_different_le_files { self.different ≤ self.files → result.different ≤ result.files }
    {
        Tally {
            files: self.files.saturating_add(1),
            different: if same {
                self.different
            } else {
                self.different.saturating_add(1)
            },
        }
    }
}

// The end of a list whose last file is not whole, or is longer than the room for it.
pub fn broken_off<T>(rt: &impl Print) -> io::Result<Option<T>>
    ensures { IfOk result (λ r. r ≡ None) }
{
    println!(rt; "the list breaks off")?;
    Ok(None)
}

// Reads as many bytes as `part` has room for: whether the list has so many. After an `Err` some bytes may have been taken.
pub fn read_part<R: Read>(from: &mut R, part: &mut [u8]) -> io::Result<bool>
    ensures whole { IfOk result (λ w. IsTrue w → Consumes (R.remaining from.old) (R.remaining from.new) part.new) }
    ensures end { IfOk result (λ w. IsFalse w → IsAtEnd (R.remaining from.new)) }
    ensures short { IfOk result (λ w. IsFalse w → (n : ℕ) × ((n < length part.new) × Consumes (R.remaining from.old) (R.remaining from.new) (take n part.new))) }
{
    let got = input::read_full(from, part)?;
    Ok(got == part.len())
}

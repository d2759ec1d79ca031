// Marks in a lent slice of bytes, all clear at first: what was met on a walk.
#![tactic(auto)]

ghost use Rattle.std.specs.Prelude.{◌≡◌};
ghost use Rattle.marks.specs.Marks.{clear, met, mark, all_met};

// Place i has no mark.
pub fn clear(marks: &[u8], i: usize) -> bool
    ensures { result ≡ clear marks.now i }
{
    fields::byte(marks, i) == 0
}

// Place i has a mark.
pub fn met(marks: &[u8], i: u32) -> bool
    ensures { result ≡ met marks.now i }
{
    fields::byte(marks, i as usize) == 1
}

pub fn mark(marks: &mut [u8], i: usize)
    ensures { marks.new ≡ mark marks.old i }
{
    if i < marks.len() {
        marks[i] = 1;
    }
}

// The same, where the place is a number in a chain.
pub fn see(marks: &mut [u8], c: u32)
    ensures { marks.new ≡ mark marks.old c }
{
    mark(marks, c as usize)
}

// All of k places from a place on are marked.
pub fn all_met(marks: &[u8], from: u32, k: u32) -> bool
    ensures { result ≡ all_met marks.now from k }
{
    (0..k).all(|i| met(marks, from.wrapping_add(i)))
}

// Text written into a lent slice from a place on, as far as there is room; the place goes on past the end, so the text's length can be told.
#![tactic(auto)]

ghost use Rattle.std.specs.Prelude.{◌≡◌, [], ◌∷◌, ◌+◌, ◌%◌, min};
ghost use Rattle.definitions.specs.Text.{digits, decimal};
ghost use Rattle.text_writers.specs.Wrote.{far, Wrote};

// The place after this one; the last that a number can say stays.
fn past(at: usize) -> usize
    ensures { result ≡ min far (at + 1) }
{
    at.saturating_add(1)
}

// One byte.
pub fn byte(out: &mut [u8], at: usize, b: u8) -> usize
    ensures { Wrote (b ∷ []) at out.old out.new result }
{
    if at < out.len() {
        out[at] = b;
        return at + 1;
    }
    past(at)
}

// The bytes of s. One by one: a copy of a length that is not known needs a function of the C library, which the archives for C do without.
pub fn word(out: &mut [u8], at: usize, s: &[u8]) -> usize
    ensures { Wrote s.now at out.old out.new result }
{
    let mut p = at;
    for i in 0..s.len() {
        p = byte(out, p, s[i]);
    }
    p
}

// A digit, 0 to 9.
fn digit(out: &mut [u8], at: usize, n: u64) -> usize
    ensures { Wrote ((48 + n % 10) ∷ []) at out.old out.new result }
{
    byte(out, at, 48 + (n % 10) as u8)
}

// At most k digits.
fn digits(out: &mut [u8], at: usize, n: u64, k: u32) -> usize
    ensures { Wrote (digits k n) at out.old out.new result }
{
    if k == 0 {
        return at;
    }
    if n < 10 {
        return digit(out, at, n);
    }
    let p = digits(out, at, n / 10, k - 1);
    digit(out, p, n)
}

// A number in decimal without leading zeros.
pub fn decimal(out: &mut [u8], at: usize, n: u64) -> usize
    ensures { Wrote (decimal n) at out.old out.new result }
{
    digits(out, at, n, 20)
}

// A space, then the number.
pub fn number(out: &mut [u8], at: usize, n: u64) -> usize
    ensures { Wrote (32 ∷ decimal n) at out.old out.new result }
{
    let p = byte(out, at, 32);
    decimal(out, p, n)
}

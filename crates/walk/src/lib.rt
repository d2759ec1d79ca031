// Check 5 on the parts that both versions share: each function walks over one part of a net file, and answers the place after
// it, or `None` where a field is out of range or the bytes run out. What is right is what the reader of that part says (`after`).
#![tactic(auto, using(crate::specs::Walk::ways))]

ghost use Rattle.std.specs.Prelude.{◌+◌, ◌<◌, ◌≤◌, ◌≡◌, length};
ghost use Rattle.fields.specs.Fields.{be16};
ghost use Rattle.net_file.specs.Read.{below, times, many, read_name};
ghost use Rattle.walk.specs.After.{after};

// A number that is there: no byte of it is tested for.
fn number(s: &[u8], at: usize) -> u16
    requires { at + 2 ≤ length s.now }
    ensures { result ≡ be16 s.now at }
{
    u16::from_be_bytes([s[at], s[at + 1]])
}

// n numbers of two bytes, each below a bound.
pub fn numbers(s: &[u8], from: usize, n: u32, bound: u32) -> Option<usize>
    ensures { result ≡ after from (times n (below 2 bound)) s.now }
{
    if s.len() < from {
        return None;
    }
    if (s.len() - from) / 2 < n as usize {
        return None;
    }
    let mut at = from;
    for _ in 0..n {
        let x = number(s, at);
        if bound <= x as u32 {
            return None;
        }
        at += 2;
    }
    Some(at)
}

// A count of one byte, then as many numbers.
pub fn counted(s: &[u8], at: usize, most: u8, bound: u32) -> Option<usize>
    ensures { result ≡ after at (many 1 most (below 2 bound)) s.now }
{
    if s.len() <= at {
        return None;
    }
    let k = fields::byte(s, at);
    if most < k {
        return None;
    }
    numbers(s, at + 1, k as u32, bound)
}

// A name over so many paths, with children below a bound.
pub fn name(s: &[u8], at: usize, paths: u32, bound: u32) -> Option<usize>
    ensures { result ≡ after at (read_name paths bound) s.now }
{
    // Eleven bytes: path, payload, child count. Two tests: `s.len().checked_sub(11)? < at` was tried, and runs slower.
    if s.len() < 11 {
        return None;
    }
    if s.len() - 11 < at {
        return None;
    }
    let p = fields::be16(s, at);
    if paths <= p as u32 {
        return None;
    }
    counted(s, at + 10, 8, bound)
}

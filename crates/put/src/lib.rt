// The fields of a net file, written into a lent slice. Document 01, "The net file": numbers are big-endian.
// A writer finds out first whether there is room, so it writes all of its bytes or none: it answers
// the place after what it wrote, or None where there is no room.
#![tactic(auto)]

ghost use Rattle.std.specs.Prelude.{◌+◌, ◌-◌, ◌≤◌, ◌≡◌, length};
ghost use Rattle.net_file.specs.Lists.{bit};
ghost use Rattle.net_file.specs.Write.{be, counted};
ghost use Rattle.put.specs.Written.{Written, WrittenIf, Short, part, numbers};

// How many bytes there are from a place on.
pub fn space(out: &[u8], at: usize) -> usize
    ensures { result ≡ length out.now - at }
{
    out.len().saturating_sub(at)
}

// All of the bytes of s.
pub fn put_all(out: &mut [u8], at: usize, s: &[u8]) -> Option<usize>
    ensures { Written s.now at out.old out.new result }
{
    if out.len() < at {
        return None;
    }
    if out.len() - at < s.len() {
        return None;
    }
    out[at..at + s.len()].copy_from_slice(s);
    Some(at + s.len())
}

// A number in one byte; below it in two, in four and in eight.
pub fn put8(out: &mut [u8], at: usize, v: u8) -> Option<usize>
    ensures { Written (be 1 v) at out.old out.new result }
{
    if space(out, at) < 1 {
        return None;
    }
    out[at] = v;
    Some(at + 1)
}

pub fn put16(out: &mut [u8], at: usize, v: u16) -> Option<usize>
    ensures { Written (be 2 v) at out.old out.new result }
{
    put_all(out, at, &u16::to_be_bytes(v))
}

pub fn put32(out: &mut [u8], at: usize, v: u32) -> Option<usize>
    ensures { Written (be 4 v) at out.old out.new result }
{
    put_all(out, at, &u32::to_be_bytes(v))
}

pub fn put64(out: &mut [u8], at: usize, v: u64) -> Option<usize>
    ensures { Written (be 8 v) at out.old out.new result }
{
    put_all(out, at, &u64::to_be_bytes(v))
}

// One byte, 0 or 1.
pub fn put_bit(out: &mut [u8], at: usize, b: bool) -> Option<usize>
    ensures { Written (be 1 (bit b)) at out.old out.new result }
{
    put8(out, at, b as u8)
}

// The n bytes of s from a place on. None too where it has not so many.
// Byte by byte: a copy of a length that is not known needs a function of the C library, which the archives for C do without.
pub fn put_bytes(out: &mut [u8], at: usize, s: &[u8], from: usize, n: usize) -> Option<usize>
    ensures { WrittenIf (from + n ≤ length s.now) (part s.now from n) at out.old out.new result }
{
    if s.len() < from {
        return None;
    }
    if s.len() - from < n {
        return None;
    }
    if out.len() < at {
        return None;
    }
    if out.len() - at < n {
        return None;
    }
    for i in 0..n {
        out[at + i] = s[from + i];
    }
    Some(at + n)
}

// Each number in two bytes.
pub fn put_numbers(out: &mut [u8], at: usize, ns: &[u16]) -> Option<usize>
    ensures { Written (numbers ns.now) at out.old out.new result }
{
    let n = ns.len();
    if out.len() / 2 < n {
        return None;
    }
    if out.len() - 2 * n < at {
        return None;
    }
    for i in 0..n {
        put16(out, at + 2 * i, ns[i]);
    }
    Some(at + 2 * n)
}

// The count in one byte, then each number. None too where a byte cannot say the count.
pub fn put_counted(out: &mut [u8], at: usize, ns: &[u16]) -> Option<usize>
    ensures { WrittenIf (Short ns.now) (counted 1 (be 2) ns.now) at out.old out.new result }
{
    let n = ns.len();
    if 255 < n {
        return None;
    }
    if space(out, at) < 1 + 2 * n {
        return None;
    }
    put8(out, at, n as u8);
    put_numbers(out, at + 1, ns)
}

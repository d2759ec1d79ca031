// The fields of a net file written into a lent slice from a place on, as far as there is room; the place goes on past the end, so
// the length of what is written can be told. Document 01, "The net file": numbers are big-endian.
#![tactic(auto)]

ghost use Rattle.std.specs.Prelude.{◌+◌, ◌-◌, ◌≡◌, eqb};
ghost use Rattle.net_file.specs.Lists.{bit};
ghost use Rattle.net_file.specs.Write.{be, counted, write_name, write_head};
ghost use Rattle.fields.specs.Fields.{byte, be16, be32};
ghost use Rattle.stored.specs.Stored.{list_at, name_at};
ghost use Rattle.put.specs.Written.{part};
ghost use Rattle.text_writers.specs.Wrote.{Wrote};
ghost use Rattle.field_writers.specs.Fields.{numbers_from};

// ---- numbers

// A number in one byte, below it in two, in four and in eight.
pub fn one(out: &mut [u8], at: usize, v: u8) -> usize
    ensures { Wrote (be 1 v) at out.old out.new result }
{
    text_writers::byte(out, at, v)
}

// A wire is written by this: byte for byte it is quicker than as a word.
pub fn two(out: &mut [u8], at: usize, v: u16) -> usize
    ensures { Wrote (be 2 v) at out.old out.new result }
{
    let b = u16::to_be_bytes(v);
    let p = text_writers::byte(out, at, b[0]);
    text_writers::byte(out, p, b[1])
}

pub fn four(out: &mut [u8], at: usize, v: u32) -> usize
    ensures { Wrote (be 4 v) at out.old out.new result }
{
    text_writers::word(out, at, &u32::to_be_bytes(v))
}

pub fn eight(out: &mut [u8], at: usize, v: u64) -> usize
    ensures { Wrote (be 8 v) at out.old out.new result }
{
    text_writers::word(out, at, &u64::to_be_bytes(v))
}

// ---- what stands in a file

// The bytes of s from a place up to another, as far as s goes.
pub fn bytes(out: &mut [u8], at: usize, s: &[u8], from: usize, to: usize) -> usize
    ensures { Wrote (part s.now from (to - from)) at out.old out.new result }
{
    let end = ends::on(s, to, 0);
    if end <= from {
        return at;
    }
    text_writers::word(out, at, &s[from..end])
}

// As many numbers of two bytes as are said, after a count of one byte.
fn numbers(out: &mut [u8], at: usize, s: &[u8], from: usize, n: u8) -> usize
    ensures { Wrote (numbers_from s.now from 0 n) at out.old out.new result }
{
    let mut p = at;
    for j in 0..n {
        let v = readers::be16_on(s, from, 1 + 2 * (j as usize));
        p = two(out, p, v);
    }
    p
}

// A count of one byte, then as many numbers of two.
pub fn list(out: &mut [u8], at: usize, s: &[u8], from: usize) -> usize
    ensures { Wrote (counted 1 (be 2) (list_at s.now from)) at out.old out.new result }
{
    let k = fields::byte(s, from);
    let p = one(out, at, k);
    numbers(out, p, s, from, k)
}

pub fn name(out: &mut [u8], at: usize, s: &[u8], from: usize) -> usize
    ensures { Wrote (write_name (name_at s.now from)) at out.old out.new result }
{
    let p = two(out, at, fields::be16(s, from));
    let q = eight(out, p, readers::be64_on(s, from, 2));
    list(out, q, s, ends::on(s, from, 10))
}

// One byte, 1 if what stands there is 1, else 0.
fn mark(out: &mut [u8], at: usize, s: &[u8], from: usize) -> usize
    ensures { Wrote (be 1 (bit (eqb (byte s.now from) 1))) at out.old out.new result }
{
    one(out, at, (fields::byte(s, from) == 1) as u8)
}

// What a net of either kind begins with: name number, included, wire counter.
pub fn net_head(out: &mut [u8], at: usize, s: &[u8], from: usize) -> usize
    ensures { Wrote (write_head (be16 s.now from) (eqb (byte s.now (from + 2)) 1) (be32 s.now (from + 3))) at out.old out.new result }
{
    let p = two(out, at, fields::be16(s, from));
    let q = mark(out, p, s, ends::on(s, from, 2));
    four(out, q, readers::be32_on(s, from, 3))
}

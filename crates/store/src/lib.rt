// Bytes stored in a lent slice: all of them where there is room, else none.
#![tactic(auto)]

ghost use Rattle.std.specs.Prelude.{◌≡◌};
ghost use Rattle.net_file.specs.Write.{be};
ghost use Rattle.store.specs.Store.{store, between};

pub fn store8(out: &mut [u8], at: usize, v: u8)
    ensures { out.new ≡ store at (be 1 v) out.old }
{
    put::put8(out, at, v);
}

pub fn store16(out: &mut [u8], at: usize, v: u16)
    ensures { out.new ≡ store at (be 2 v) out.old }
{
    put::put16(out, at, v);
}

pub fn store32(out: &mut [u8], at: usize, v: u32)
    ensures { out.new ≡ store at (be 4 v) out.old }
{
    put::put32(out, at, v);
}

// The bytes of s from `from` up to `to`.
pub fn copy(out: &mut [u8], at: usize, s: &[u8], from: usize, to: usize)
    ensures { out.new ≡ store at (between s.now from to) out.old }
{
    if s.len() < to {
        return;
    }
    if to <= from {
        return;
    }
    put::put_bytes(out, at, s, from, to - from);
}

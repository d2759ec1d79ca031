// The start of a lent slice made 0.
#![tactic(auto)]

ghost use Rattle.std.specs.Prelude.{◌≡◌};
ghost use Rattle.clear.specs.Zeroed.{zeroed};

// The first k words, or all where there are fewer.
pub fn clear_words(ws: &mut [u32], k: usize)
    ensures { ws.new ≡ zeroed k ws.old }
{
    let n = k.min(ws.len());
    ws[0..n].fill(0);
}

// The first k bytes, or all where there are fewer.
pub fn clear_bytes(bs: &mut [u8], k: usize)
    ensures { bs.new ≡ zeroed k bs.old }
{
    let n = k.min(bs.len());
    bs[0..n].fill(0);
}

// Checks 2, 3 and 4: the length field, the version, and the limit where its four bytes are there.
#![tactic(auto)]

ghost use Rattle.std.specs.Prelude.{◌≡◌};
ghost use Rattle.head.specs.Head.{limit_head, head_of};

use refusals::Refusal;

// Whether a file's head is accepted.
pub fn head(s: &[u8], version: u8) -> Result<(), Refusal>
    ensures { result ≡ head_of version s.now }
{
    let n = s.len();
    if n < 5 {
        return Err(Refusal::BadLength);
    }
    if fields::be32(s, 0) as u64 != (n - 4) as u64 {
        return Err(Refusal::BadLength);
    }
    if fields::byte(s, 4) != version {
        return Err(Refusal::BadVersion);
    }
    if n < 9 {
        return Ok(());
    }
    limit(fields::be32(s, 5))
}

// None, or at most 16,777,216.
fn limit(l: u32) -> Result<(), Refusal>
    ensures { result ≡ limit_head l }
{
    if l == 4294967295 {
        return Ok(());
    }
    if 16777216 < l {
        return Err(Refusal::BadLimit);
    }
    Ok(())
}

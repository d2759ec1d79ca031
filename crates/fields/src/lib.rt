// The fields of a file: big-endian numbers at a place of a slice. Past the end a byte is 0, so every place has an answer.
#![tactic(auto)]

ghost use Rattle.std.specs.Prelude.{◌≡◌, ◌<◌};
ghost use Rattle.fields.specs.Fields.{byte, be16, be32, be64};

pub fn byte(s: &[u8], at: usize) -> u8
    ensures { result ≡ byte s.now at }
{
    if at < s.len() { s[at] } else { 0 }
}

pub fn be16(s: &[u8], at: usize) -> u16
    ensures { result ≡ be16 s.now at }
{
    let n = s.len();
    if n <= at {
        return 0;
    }
    if n - at < 2 {
        return 256 * (byte(s, at) as u16);
    }
    u16::from_be_bytes([s[at], s[at + 1]])
}

pub fn be32(s: &[u8], at: usize) -> u32
    ensures { result ≡ be32 s.now at }
{
    let n = s.len();
    if n <= at {
        return 0;
    }
    if n - at < 4 {
        return be32_short(s, at);
    }
    u32::from_be_bytes([s[at], s[at + 1], s[at + 2], s[at + 3]])
}

// Where the slice ends within the number.
fn be32_short(s: &[u8], at: usize) -> u32
    ensures { result ≡ be32 s.now at }
{
    let n = s.len();
    if n <= at {
        return 0;
    }
    if n - at < 3 {
        return 65536 * (be16(s, at) as u32);
    }
    65536 * (be16(s, at) as u32) + be16(s, at + 2) as u32
}

// Two numbers of 32 bits: one load each.
pub fn be64(s: &[u8], at: usize) -> u64
    ensures { result ≡ be64 s.now at }
{
    let n = s.len();
    if n <= at {
        return 0;
    }
    if n - at < 5 {
        return 4294967296 * (be32(s, at) as u64);
    }
    4294967296 * (be32(s, at) as u64) + be32(s, at + 4) as u64
}

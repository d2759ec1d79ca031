// Check 5 on the path table: 1 to 64 bytes a path, each 33 to 126, and at most 255 paths besides `ivy:engine:free`.
#![tactic(auto, using(crate::specs::Paths::ways))]

ghost use Rattle.std.specs.Prelude.{◌≡◌, not, length};
ghost use Rattle.net_file.specs.Lists.{eqs, count};
ghost use Rattle.net_file.specs.Values.{free_path};
ghost use Rattle.net_file.specs.Read.{times, read_char, read_path};
ghost use Rattle.stored.specs.Stored.{table_at, bytes_at, path_at, path_end};
ghost use Rattle.walk.specs.After.{after};

// n bytes, each 33 to 126.
pub fn text(s: &[u8], from: usize, n: u32) -> Option<usize>
    ensures { result ≡ after from (times n read_char) s.now }
{
    if s.len() < from {
        return None;
    }
    let end = from + n as usize;
    for at in from..end {
        if s.len() <= at {
            return None;
        }
        let b = fields::byte(s, at);
        if b < 33 {
            return None;
        }
        if 126 < b {
            return None;
        }
    }
    Some(end)
}

pub fn path(s: &[u8], at: usize) -> Option<usize>
    ensures { result ≡ after at read_path s.now }
{
    if s.len() <= at {
        return None;
    }
    let k = fields::byte(s, at);
    if k < 1 {
        return None;
    }
    if 64 < k {
        return None;
    }
    text(s, at + 1, k as u32)
}

pub fn paths(s: &[u8], from: usize, n: u32) -> Option<usize>
    ensures { result ≡ after from (times n read_path) s.now }
{
    if s.len() < from {
        return None;
    }
    let mut at = from;
    for _ in 0..n {
        at = path(s, at)?;
    }
    Some(at)
}

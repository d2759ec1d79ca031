// The path `ivy:engine:free` in the table of paths. Check 5 does not count it, and check 8 refuses a rule that names it.
#![tactic(auto)]

ghost use Rattle.std.specs.Prelude.{◌≡◌, length};
ghost use Rattle.net_file.specs.Lists.{eqs};
ghost use Rattle.net_file.specs.Values.{free_path};
ghost use Rattle.stored.specs.Stored.{bytes_at, path_at};
ghost use Rattle.free_path.specs.FreePath.{other, others, free_number};

// Whether the bytes of t stand from `from` on.
fn same(s: &[u8], from: usize, t: &[u8]) -> bool
    ensures { result ≡ eqs t.now (bytes_at s.now from (length t.now)) }
{
    let mut at = from;
    for b in t {
        if fields::byte(s, at) != *b {
            return false;
        }
        at = ends::on(s, at, 1);
    }
    true
}

pub fn is_free(s: &[u8], at: usize) -> bool
    ensures { result ≡ eqs free_path (path_at s.now at) }
{
    let n = fields::byte(s, at);
    if n != 15 {
        return false;
    }
    let from = ends::on(s, at, 1);
    same(s, from, b"ivy:engine:free")
}

// 1 for a path that is not the free one.
fn other(s: &[u8], at: usize) -> u32
    ensures { result ≡ other s.now at }
{
    if is_free(s, at) {
        return 0;
    }
    1
}

// How many of n paths from `from` on are not the free one.
pub fn others(s: &[u8], from: usize, n: u32) -> u32
    ensures { result ≡ others s.now from n }
{
    let mut at = from;
    let mut found: u32 = 0;
    for _ in 0..n {
        let one = other(s, at);
        found += one;
        at = ends::path_end(s, at);
    }
    found
}

// The number of the first free path among n from `from` on; n, which is no path's number, where none is.
pub fn free_number(s: &[u8], from: usize, n: u32) -> u32
    ensures { result ≡ free_number s.now from n }
{
    let mut at = from;
    for i in 0..n {
        if is_free(s, at) {
            return i;
        }
        at = ends::path_end(s, at);
    }
    n
}

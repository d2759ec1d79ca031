// Check 5 on the rules: a tag 1 to 5, then what that rule names.
#![tactic(auto, using(crate::specs::Rules::ways))]

ghost use Rattle.std.specs.Prelude.{◌≡◌};
ghost use Rattle.net_file.specs.Read.{times, read_list, read_tagged, read_rule};
ghost use Rattle.walk.specs.After.{after};

// n lists of paths.
pub fn lists(s: &[u8], from: usize, n: u32, paths: u32) -> Option<usize>
    ensures { result ≡ after from (times n (read_list paths)) s.now }
{
    if s.len() < from {
        return None;
    }
    let mut at = from;
    for _ in 0..n {
        at = walk::counted(s, at, 255, paths)?;
    }
    Some(at)
}

// A graft's path, and whether it is lazy.
pub fn graft(s: &[u8], at: usize, paths: u32) -> Option<usize>
    ensures { result ≡ after at (read_tagged paths 1) s.now }
{
    if s.len().checked_sub(3)? < at {
        return None;
    }
    let p = fields::be16(s, at);
    if paths <= p as u32 {
        return None;
    }
    let lazy = fields::byte(s, at + 2);
    if 1 < lazy {
        return None;
    }
    Some(at + 3)
}

pub fn rule(s: &[u8], at: usize, paths: u32) -> Option<usize>
    ensures { result ≡ after at (read_rule paths) s.now }
{
    if s.len() <= at {
        return None;
    }
    let tag = fields::byte(s, at);
    match tag {
        1 => graft(s, at + 1, paths),
        2 => lists(s, at + 1, 1, paths),
        3 => lists(s, at + 1, 2, paths),
        4 => lists(s, at + 1, 2, paths),
        5 => lists(s, at + 1, 3, paths),
        0 | 6..=255 => None,
    }
}

pub fn rules(s: &[u8], from: usize, n: u32, paths: u32) -> Option<usize>
    ensures { result ≡ after from (times n (read_rule paths)) s.now }
{
    if s.len() < from {
        return None;
    }
    let mut at = from;
    for _ in 0..n {
        at = rule(s, at, paths)?;
    }
    Some(at)
}

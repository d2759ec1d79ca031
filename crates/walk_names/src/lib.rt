// Check 5 on the name table: a child is lower than its owner.
#![tactic(auto, using(crate::specs::Names::ways))]

ghost use Rattle.std.specs.Prelude.{◌≡◌};
ghost use Rattle.net_file.specs.Read.{times_from, read_name};
ghost use Rattle.walk.specs.After.{after};

pub fn names(s: &[u8], from: usize, n: u32, paths: u32) -> Option<usize>
    ensures { result ≡ after from (times_from (read_name paths) 0 n) s.now }
{
    if s.len() < from {
        return None;
    }
    let mut at = from;
    for i in 0..n {
        at = walk::name(s, at, paths, i)?;
    }
    Some(at)
}

// Check 5 on what nets of both versions begin with: name number, included, wire counter.
#![tactic(auto, using(crate::specs::Head::ways))]

ghost use Rattle.std.specs.Prelude.{◌≡◌};
ghost use Rattle.walk.specs.After.{after};
ghost use Rattle.walk_head.specs.Head.{read_head};

// Seven bytes: one test for the room, then each field's range.
pub fn net_head(s: &[u8], at: usize, names: u32) -> Option<usize>
    ensures { result ≡ after at (read_head names) s.now }
{
    if s.len().checked_sub(7)? < at {
        return None;
    }
    let m = fields::be16(s, at);
    if names <= m as u32 {
        return None;
    }
    let i = fields::byte(s, at + 2);
    if 1 < i {
        return None;
    }
    let w = fields::be32(s, at + 3);
    if 65536 < w {
        return None;
    }
    Some(at + 7)
}

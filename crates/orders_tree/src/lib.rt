// The order of check 6 on tree nets: nets ascend by their names. A tree net has no pairs.
#![tactic(auto)]

ghost use Rattle.std.specs.Prelude.{◌≡◌};
ghost use Rattle.orders_tree.specs.Names.{names_from};

// n nets, one after another.
pub fn names_ascend(s: &[u8], from: usize, n: u16) -> bool
    ensures { result ≡ names_from 0 s.now from n }
{
    let mut at = from;
    let mut last: u32 = 0;
    for _ in 0..n {
        if !orders::name_fits(s, at, last) {
            return false;
        }
        last = fields::be16(s, at) as u32 + 1;
        at = scan_tree::count_net(s, at).end;
    }
    true
}

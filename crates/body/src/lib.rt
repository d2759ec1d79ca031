// The body of a file of either version, from its fifth byte to its last.
#![tactic(auto, using(crate::specs::Nets::ways, crate::specs::Body::ways))]

ghost use Rattle.std.specs.Prelude.{◌≡◌, min};
ghost use Rattle.net_file.specs.Read.{times, read_body};
ghost use Rattle.walk.specs.After.{after};
ghost use Rattle.body.specs.Nets.{NetsOf, nets_part};

// The nets of a version: the walk over n of them, and the count of their nodes, up to 4,097.
pub trait Nets {
    ghost Net: { Type 0 };

    // how a net is read, where it stands, how many nodes it has
    ghost kind: { NetsOf Net };

    fn walk(s: &[u8], from: usize, n: u32, paths: u32, names: u32) -> Option<usize>
        ensures { result ≡ after from (times n (kind.read_net paths names)) s.now };

    fn nodes(s: &[u8], from: usize, n: u32) -> u32
        ensures { result ≡ min 4097 (kind.nets_nodes s.now from n) };
}

// The nets, over so many paths and names.
fn part<N: Nets>(s: &[u8], at: usize, paths: u32, names: u32) -> Option<usize>
    ensures { result ≡ after at (nets_part (N.kind.read_net paths names) N.kind.nodes) s.now }
{
    if s.len().checked_sub(2)? < at {
        return None;
    }
    let k = fields::be16(s, at);
    if 256 < k {
        return None;
    }
    let end = N::walk(s, at + 2, k as u32, paths, names)?;
    if 4096 < N::nodes(s, at + 2, k as u32) {
        return None;
    }
    if end == s.len() { Some(end) } else { None }
}

// The tables, then the nets to the last byte.
pub fn body<N: Nets>(s: &[u8]) -> Option<usize>
    ensures { result ≡ after 5 (read_body N.kind.read_net N.kind.nodes) s.now }
{
    let (m, q) = tables::tables(s)?;
    let paths = fields::be16(s, 9);
    let names = fields::be16(s, m);
    part::<N>(s, q, paths as u32, names as u32)
}

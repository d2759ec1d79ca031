// Check 7 on all nets of a file, flat or of trees. Each net counts above a base of its own, so that the counts are cleared once and not
// for each net. To clear 65,536 words takes longer than to check a usual file: that is done only from a net on that may have over
// 1,024 wires.
#![tactic(auto)]

ghost use Rattle.std.specs.Prelude.{◌≤◌, ◌≡◌, replicate};
ghost use Rattle.wiring_nets.specs.Told.{Net, Next, told, nets_wide, nets_well};
ghost use Rattle.wiring_nets.specs.Nets.{flat, nets_wired};

use wiring::Told;

// The nets that are left: so many, from a place on.
#[derive(Clone, Copy)]
pub struct Rest {
    pub at: usize,
    pub left: u16,
}

// How a net is told by its wires: one for flat nets, one for nets of trees.
pub trait Wires {
    ghost net: { Net };

    // All wires of the net at a place are tallied. The answer is the place where the next may stand, or none if the net is not well wired.
    fn next(counts: &mut [u32], base: u16, s: &[u8], at: usize, left: u16) -> Option<usize>
        ensures { Next net counts.old base s.now at left counts.new result };
}

// Flat nets.
struct Flat;

impl Wires for Flat {
    ghost net = { flat };

    fn next(counts: &mut [u32], base: u16, s: &[u8], at: usize, left: u16) -> Option<usize> {
        wiring::tally_net(counts, base, s, at);
        if wiring::net_wired(counts, base, s, at) {
            Some(ends::next_net(s, at, left as u32))
        } else {
            None
        }
    }
}

// n nets, one after another, each above a base of its own.
fn nets_told<W: Wires>(counts: &mut [u32], s: &[u8], from: usize, n: u16) -> Told<Rest>
    requires { n ≤ 256 }
    ensures { (result ≡ (told W.net counts.old 0 s.now from n).is) × (counts.new ≡ (told W.net counts.old 0 s.now from n).ws) }
{
    let mut at = from;
    let mut base: u16 = 0;
    for i in 0..n {
        if !wiring::fits(counts, s, at) {
            return Told::Wide(Rest { at, left: n - i });
        }
        let Some(next) = W::next(counts, base, s, at, n - i) else {
            return Told::Not;
        };
        at = next;
        base += 4;
    }
    Told::Well
}

// With words for so many wires.
fn nets_told_by<W: Wires, const WORDS: usize>(s: &[u8], from: usize, n: u16) -> Told<Rest>
    requires few { n ≤ 256 }
    requires words { WORDS ≤ 65536 }
    ensures { result ≡ (told W.net (replicate WORDS 0) 0 s.now from n).is }
{
    let mut counts = [0u32; WORDS];
    nets_told::<W>(&mut counts, s, from, n)
}

// With a word for each wire that a net may have.
fn nets_wide<W: Wires>(s: &[u8], from: usize, n: u16) -> bool
    ensures { result ≡ nets_wide W.net s.now from n }
{
    if 256 < n {
        return false;
    }
    matches!(nets_told_by::<W, 65536>(s, from, n), Told::Well)
}

// With words for 1,024 wires, up to a net that may have more.
pub fn nets_well<W: Wires>(s: &[u8], from: usize, n: u16) -> bool
    ensures { result ≡ nets_well W.net s.now from n }
{
    if 256 < n {
        return false;
    }
    match nets_told_by::<W, 1024>(s, from, n) {
        Told::Well => true,
        Told::Not => false,
        Told::Wide(rest) => nets_wide::<W>(s, rest.at, rest.left),
    }
}

// Whether each of n flat nets is well wired.
pub fn nets_wired(s: &[u8], from: usize, n: u16) -> bool
    ensures { result ≡ nets_wired s.now from n }
{
    nets_well::<Flat>(s, from, n)
}

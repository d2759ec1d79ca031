// A slice: a resumable image runs on.
#![tactic(auto)]

ghost use Rattle.std.specs.Prelude.{Bool, ◌≡◌};
ghost use Rattle.slicing.specs.Slicing.{steps_fit, run_held, slice_image, slice};

use lent::{Answer, Pools};
use run_slice::Ran;

// None, or at most 16,777,216.
fn steps_fit(n: u32) -> bool
    ensures { result ≡ steps_fit n }
{
    if n == 4294967295 {
        return true;
    }
    n <= 16777216
}

// An image runs: 9 to 14 leave zeros.
fn run_held(p: Pools, n: u32, ws: &mut [u32], bs: &mut [u8]) -> Answer
    ensures { (result ≡ (run_held p n ws.old bs.old).is) × (ws.new ≡ (run_held p n ws.old bs.old).ws) × (bs.new ≡ (run_held p n ws.old bs.old).bs) }
{
    let k = lent::held_length(ws, bs);
    let ran = run_slice::slice(ws, &bs[..k], n);
    match ran {
        Ran::Rested(steps) => Answer::Done(steps),
        Ran::Refused { steps: _, number } => {
            lent::zero(p, ws, bs, k);
            Answer::Refused(number)
        }
    }
}

// Words that are long enough: 16, then 4.
fn slice_image(p: Pools, n: u32, ws: &mut [u32], bs: &mut [u8]) -> Answer
    ensures { (result ≡ (slice_image p n ws.old bs.old).is) × (ws.new ≡ (slice_image p n ws.old bs.old).ws) × (bs.new ≡ (slice_image p n ws.old bs.old).bs) }
{
    if image::resumable(p.nodes, p.entries, p.waits, ws, bs) {
        if steps_fit(n) {
            return run_held(p, n, ws, bs);
        }
        return Answer::Refused(4);
    }
    Answer::Refused(16)
}

pub fn slice(p: Pools, n: u32, ws: &mut [u32], bs: &mut [u8]) -> Answer
    ensures { (result ≡ (slice p n ws.old bs.old).is) × (ws.new ≡ (slice p n ws.old bs.old).ws) × (bs.new ≡ (slice p n ws.old bs.old).bs) }
{
    if lent::room(p, ws) {
        return slice_image(p, n, ws, bs);
    }
    Answer::Refused(1)
}

// The one-call form: begin, one slice of none, finish.
#![tactic(auto)]

ghost use Rattle.std.specs.Prelude.{◌≡◌};
ghost use Rattle.optimising.specs.Optimising.{optimize_run, optimize_loaded, optimize_file, optimize_checked, optimize};

use lent::{Answer, Pools};
use run_slice::Ran;

// A loaded file: one slice of none, then the result.
fn optimize_run(ws: &mut [u32], file: &[u8], out: &mut [u8]) -> Answer
    ensures { (result ≡ (optimize_run ws.old file.now out.old).is) × (ws.new ≡ (optimize_run ws.old file.now out.old).ws) × (out.new ≡ (optimize_run ws.old file.now out.old).out) }
{
    let ran = run_slice::slice(ws, file, 4294967295);
    match ran {
        Ran::Rested(_) => finishing::result(ws, file, out),
        Ran::Refused { steps: _, number } => Answer::Refused(number),
    }
}

// An accepted file.
fn optimize_loaded(p: Pools, ws: &mut [u32], file: &[u8], out: &mut [u8]) -> Answer
    ensures { (result ≡ (optimize_loaded p ws.old file.now out.old).is) × (ws.new ≡ (optimize_loaded p ws.old file.now out.old).ws) × (out.new ≡ (optimize_loaded p ws.old file.now out.old).out) }
{
    let r = begin::loaded(p, ws, file);
    if r == 0 {
        return optimize_run(ws, file, out);
    }
    Answer::Refused(r)
}

// Whatever comes of an accepted file, zeros are left.
fn optimize_file(p: Pools, ws: &mut [u32], bs: &mut [u8], file: &[u8], out: &mut [u8]) -> Answer
    ensures { (result ≡ (optimize_file p ws.old bs.old file.now out.old).is) × (ws.new ≡ (optimize_file p ws.old bs.old file.now out.old).ws) × (bs.new ≡ (optimize_file p ws.old bs.old file.now out.old).bs) × (out.new ≡ (optimize_file p ws.old bs.old file.now out.old).out) }
{
    let answer = optimize_loaded(p, ws, file, out);
    lent::zero(p, ws, bs, file.len());
    answer
}

// A file for which there is room.
fn optimize_checked(p: Pools, ws: &mut [u32], bs: &mut [u8], file: &[u8], out: &mut [u8]) -> Answer
    ensures { (result ≡ (optimize_checked p ws.old bs.old file.now out.old).is) × (ws.new ≡ (optimize_checked p ws.old bs.old file.now out.old).ws) × (bs.new ≡ (optimize_checked p ws.old bs.old file.now out.old).bs) × (out.new ≡ (optimize_checked p ws.old bs.old file.now out.old).out) }
{
    let checked = net_check::check_flat(file);
    match checked {
        Ok(()) => optimize_file(p, ws, bs, file, out),
        Err(r) => Answer::Refused(r.number()),
    }
}

pub fn optimize(p: Pools, ws: &mut [u32], bs: &mut [u8], file: &[u8], out: &mut [u8]) -> Answer
    ensures { (result ≡ (optimize p ws.old bs.old file.now out.old).is) × (ws.new ≡ (optimize p ws.old bs.old file.now out.old).ws) × (bs.new ≡ (optimize p ws.old bs.old file.now out.old).bs) × (out.new ≡ (optimize p ws.old bs.old file.now out.old).out) }
{
    if lent::room(p, ws) {
        if bs.len() < file.len() {
            return Answer::Refused(1);
        }
        return optimize_checked(p, ws, bs, file, out);
    }
    Answer::Refused(1)
}

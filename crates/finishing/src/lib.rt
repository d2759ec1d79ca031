// Finish: the result of a run, written.
#![tactic(auto)]

ghost use Rattle.std.specs.Prelude.{◌%◌, Bool, ◌≡◌};
ghost use Rattle.measure.specs.declared.Size.{Size};
ghost use Rattle.finishing.specs.Finishing.{fits, run_result, delivered, finish_image, finish};

use lent::{Answer, Pools};
use measure::Size;

// 15: "output shorter than the result, or over 4,096 nodes in it".
fn fits(size: Size, room: usize) -> bool
    ensures { result ≡ fits size room }
{
    if size.nodes <= 4096 {
        return size.bytes <= room as u64;
    }
    false
}

// The result of the run that these words hold.
pub fn result(ws: &mut [u32], file: &[u8], out: &mut [u8]) -> Answer
    ensures { (result ≡ (run_result ws.old file.now out.old).is) × (ws.new ≡ (run_result ws.old file.now out.old).ws) × (out.new ≡ (run_result ws.old file.now out.old).out) }
{
    let size = measure::measure(ws, file);
    let n = size.bytes;
    if fits(size, out.len()) {
        finish::write(ws, file, out, n as usize);
        return Answer::Done((n % 4294967296) as u32);
    }
    Answer::Refused(15)
}

// An image: a result leaves zeros, 15 leaves it as it is.
fn delivered(p: Pools, ws: &mut [u32], bs: &mut [u8], out: &mut [u8]) -> Answer
    ensures { (result ≡ (delivered p ws.old bs.old out.old).is) × (ws.new ≡ (delivered p ws.old bs.old out.old).ws) × (bs.new ≡ (delivered p ws.old bs.old out.old).bs) × (out.new ≡ (delivered p ws.old bs.old out.old).out) }
{
    let k = lent::held_length(ws, bs);
    let answer = result(ws, &bs[..k], out);
    match answer {
        Answer::Done(n) => {
            lent::zero(p, ws, bs, k);
            Answer::Done(n)
        }
        Answer::Refused(r) => Answer::Refused(r),
    }
}

// Words that are long enough.
fn finish_image(p: Pools, ws: &mut [u32], bs: &mut [u8], out: &mut [u8]) -> Answer
    ensures { (result ≡ (finish_image p ws.old bs.old out.old).is) × (ws.new ≡ (finish_image p ws.old bs.old out.old).ws) × (bs.new ≡ (finish_image p ws.old bs.old out.old).bs) × (out.new ≡ (finish_image p ws.old bs.old out.old).out) }
{
    if image::resumable(p.nodes, p.entries, p.waits, ws, bs) {
        return delivered(p, ws, bs, out);
    }
    Answer::Refused(16)
}

pub fn finish(p: Pools, ws: &mut [u32], bs: &mut [u8], out: &mut [u8]) -> Answer
    ensures { (result ≡ (finish p ws.old bs.old out.old).is) × (ws.new ≡ (finish p ws.old bs.old out.old).ws) × (bs.new ≡ (finish p ws.old bs.old out.old).bs) × (out.new ≡ (finish p ws.old bs.old out.old).out) }
{
    if lent::room(p, ws) {
        return finish_image(p, ws, bs, out);
    }
    Answer::Refused(1)
}

// The calls for C and Rust, as plain numbers. The static library defines them under these names; include/ivy.h declares them.
#![tactic(auto)]

ghost use Rattle.std.specs.Prelude.{◌≡◌};
ghost use Rattle.begin.specs.Begin.{begin};
ghost use Rattle.finishing.specs.Finishing.{finish};
ghost use Rattle.ivy.specs.Calls.{pools};
ghost use Rattle.ivy_c.specs.Plain.{plain};
ghost use Rattle.lent.specs.Lent.{words_of};
ghost use Rattle.optimising.specs.Optimising.{optimize};
ghost use Rattle.slicing.specs.Slicing.{slice};

use lent::Answer;

// The number of a refusal, or 0 and the answer's number.
#[repr(C)]
#[derive(Clone, Copy)]
pub struct IvyAnswer {
    pub refusal: u32,
    pub value: u32,
}

#[tactic(auto, unfolding(crate::specs::Plain::plain))]
fn plain(answer: Answer) -> IvyAnswer
    ensures { result ≡ plain answer }
{
    match answer {
        Answer::Done(n) => IvyAnswer {
            refusal: 0,
            value: n,
        },
        Answer::Refused(r) => IvyAnswer {
            refusal: r,
            value: 0,
        },
    }
}

#[unsafe(no_mangle)]
pub extern "C" fn ivy_words(nodes: u32, entries: u32, waits: u32) -> u64
    ensures { result ≡ words_of (pools nodes entries waits) }
{
    ivy::words(nodes, entries, waits) as u64
}

#[unsafe(no_mangle)]
pub extern "C" fn ivy_begin(
    nodes: u32,
    entries: u32,
    waits: u32,
    words: &mut [u32],
    bytes: &mut [u8],
    file: &[u8],
) -> IvyAnswer
    ensures { (result ≡ plain (begin (pools nodes entries waits) words.old bytes.old file.now).is) × (words.new ≡ (begin (pools nodes entries waits) words.old bytes.old file.now).ws) × (bytes.new ≡ (begin (pools nodes entries waits) words.old bytes.old file.now).bs) }
{
    plain(ivy::begin(nodes, entries, waits, words, bytes, file))
}

#[unsafe(no_mangle)]
pub extern "C" fn ivy_slice(
    nodes: u32,
    entries: u32,
    waits: u32,
    steps: u32,
    words: &mut [u32],
    bytes: &mut [u8],
) -> IvyAnswer
    ensures { (result ≡ plain (slice (pools nodes entries waits) steps words.old bytes.old).is) × (words.new ≡ (slice (pools nodes entries waits) steps words.old bytes.old).ws) × (bytes.new ≡ (slice (pools nodes entries waits) steps words.old bytes.old).bs) }
{
    plain(ivy::slice(nodes, entries, waits, steps, words, bytes))
}

#[unsafe(no_mangle)]
pub extern "C" fn ivy_finish(
    nodes: u32,
    entries: u32,
    waits: u32,
    words: &mut [u32],
    bytes: &mut [u8],
    out: &mut [u8],
) -> IvyAnswer
    ensures { (result ≡ plain (finish (pools nodes entries waits) words.old bytes.old out.old).is) × (words.new ≡ (finish (pools nodes entries waits) words.old bytes.old out.old).ws) × (bytes.new ≡ (finish (pools nodes entries waits) words.old bytes.old out.old).bs) × (out.new ≡ (finish (pools nodes entries waits) words.old bytes.old out.old).out) }
{
    plain(ivy::finish(nodes, entries, waits, words, bytes, out))
}

#[unsafe(no_mangle)]
pub extern "C" fn ivy_optimize(
    nodes: u32,
    entries: u32,
    waits: u32,
    words: &mut [u32],
    bytes: &mut [u8],
    file: &[u8],
    out: &mut [u8],
) -> IvyAnswer
    ensures { (result ≡ plain (optimize (pools nodes entries waits) words.old bytes.old file.now out.old).is) × (words.new ≡ (optimize (pools nodes entries waits) words.old bytes.old file.now out.old).ws) × (bytes.new ≡ (optimize (pools nodes entries waits) words.old bytes.old file.now out.old).bs) × (out.new ≡ (optimize (pools nodes entries waits) words.old bytes.old file.now out.old).out) }
{
    plain(ivy::optimize(nodes, entries, waits, words, bytes, file, out))
}

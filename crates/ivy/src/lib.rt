// The optimiser's calls: begin, a slice, finish, and the three in one. docs/IMAGE.md has the workspace that they are lent: words for
// the pools and the engine, bytes for the file. Each answers `Done` with its number, or `Refused` with document 01's number.
#![tactic(auto)]

ghost use Rattle.std.specs.Prelude.{◌≡◌};
ghost use Rattle.begin.specs.Begin.{begin};
ghost use Rattle.finishing.specs.Finishing.{finish};
ghost use Rattle.lent.specs.Lent.{words_of};
ghost use Rattle.optimising.specs.Optimising.{optimize};
ghost use Rattle.slicing.specs.Slicing.{slice};
ghost use Rattle.ivy.specs.Calls.{pools};

use lent::{Answer, Pools};

// The documented length in words.
pub fn words(nodes: u32, entries: u32, waits: u32) -> usize
    ensures { result ≡ words_of (pools nodes entries waits) }
{
    let p = Pools {
        nodes,
        entries,
        waits,
    };
    lent::words_of(p)
}

// A file is checked, held, and its included nets are loaded.
pub fn begin(
    nodes: u32,
    entries: u32,
    waits: u32,
    ws: &mut [u32],
    bs: &mut [u8],
    file: &[u8],
) -> Answer
    ensures { (result ≡ (begin (pools nodes entries waits) ws.old bs.old file.now).is) × (ws.new ≡ (begin (pools nodes entries waits) ws.old bs.old file.now).ws) × (bs.new ≡ (begin (pools nodes entries waits) ws.old bs.old file.now).bs) }
{
    let p = Pools {
        nodes,
        entries,
        waits,
    };
    begin::begin(p, ws, bs, file)
}

// The run goes on by so many steps; 4,294,967,295 is none. Answers the number deducted.
pub fn slice(
    nodes: u32,
    entries: u32,
    waits: u32,
    steps: u32,
    ws: &mut [u32],
    bs: &mut [u8],
) -> Answer
    ensures { (result ≡ (slice (pools nodes entries waits) steps ws.old bs.old).is) × (ws.new ≡ (slice (pools nodes entries waits) steps ws.old bs.old).ws) × (bs.new ≡ (slice (pools nodes entries waits) steps ws.old bs.old).bs) }
{
    let p = Pools {
        nodes,
        entries,
        waits,
    };
    slicing::slice(p, steps, ws, bs)
}

// The result is written. Answers its length.
pub fn finish(
    nodes: u32,
    entries: u32,
    waits: u32,
    ws: &mut [u32],
    bs: &mut [u8],
    out: &mut [u8],
) -> Answer
    ensures { (result ≡ (finish (pools nodes entries waits) ws.old bs.old out.old).is) × (ws.new ≡ (finish (pools nodes entries waits) ws.old bs.old out.old).ws) × (bs.new ≡ (finish (pools nodes entries waits) ws.old bs.old out.old).bs) × (out.new ≡ (finish (pools nodes entries waits) ws.old bs.old out.old).out) }
{
    let p = Pools {
        nodes,
        entries,
        waits,
    };
    finishing::finish(p, ws, bs, out)
}

// Begin, one slice of none, finish.
pub fn optimize(
    nodes: u32,
    entries: u32,
    waits: u32,
    ws: &mut [u32],
    bs: &mut [u8],
    file: &[u8],
    out: &mut [u8],
) -> Answer
    ensures { (result ≡ (optimize (pools nodes entries waits) ws.old bs.old file.now out.old).is) × (ws.new ≡ (optimize (pools nodes entries waits) ws.old bs.old file.now out.old).ws) × (bs.new ≡ (optimize (pools nodes entries waits) ws.old bs.old file.now out.old).bs) × (out.new ≡ (optimize (pools nodes entries waits) ws.old bs.old file.now out.old).out) }
{
    let p = Pools {
        nodes,
        entries,
        waits,
    };
    optimising::optimize(p, ws, bs, file, out)
}

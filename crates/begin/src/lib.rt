// Begin: a file is checked and copied, its included nets are loaded.
#![tactic(auto)]

ghost use Rattle.std.specs.Prelude.{◌≡◌};
ghost use Rattle.begin.specs.Begin.{start, loaded, load_file, checked_file, begin};

use lent::{Answer, Pools};

// The words of a run that holds no nets yet.
fn start(p: Pools, ws: &mut [u32], file: &[u8])
    ensures { ws.new ≡ start p ws.old file.now }
{
    clear::clear_words(ws, lent::words_of(p));
    words::put(ws, layout::MARK, 1);
    words::put(ws, layout::NODE_POOL, p.nodes);
    words::put(ws, layout::ENTRY_POOL, p.entries);
    words::put(ws, layout::WAIT_POOL, p.waits);
    words::put(ws, layout::FILE_LENGTH, (file.len() % 4294967296) as u32);
    words::put(ws, layout::LIMIT, fields::be32(file, 5))
}

// The included nets are loaded: 0, or by what that is refused.
pub fn loaded(p: Pools, ws: &mut [u32], file: &[u8]) -> u32
    ensures { (result ≡ (loaded p ws.old file.now).is) × (ws.new ≡ (loaded p ws.old file.now).ws) }
{
    start(p, ws, file);
    load::load(ws, file)
}

// A file that is accepted.
fn load_file(p: Pools, ws: &mut [u32], bs: &mut [u8], file: &[u8]) -> Answer
    ensures { (result ≡ (load_file p ws.old bs.old file.now).is) × (ws.new ≡ (load_file p ws.old bs.old file.now).ws) × (bs.new ≡ (load_file p ws.old bs.old file.now).bs) }
{
    let n = file.len();
    let r = loaded(p, ws, file);
    if r == 0 {
        store::copy(bs, 0, file, 0, n);
        return Answer::Done(0);
    }
    lent::zero(p, ws, bs, n);
    Answer::Refused(r)
}

// A file for which there is room.
fn checked_file(p: Pools, ws: &mut [u32], bs: &mut [u8], file: &[u8]) -> Answer
    ensures { (result ≡ (checked_file p ws.old bs.old file.now).is) × (ws.new ≡ (checked_file p ws.old bs.old file.now).ws) × (bs.new ≡ (checked_file p ws.old bs.old file.now).bs) }
{
    let checked = net_check::check_flat(file);
    match checked {
        Ok(()) => load_file(p, ws, bs, file),
        Err(r) => Answer::Refused(r.number()),
    }
}

pub fn begin(p: Pools, ws: &mut [u32], bs: &mut [u8], file: &[u8]) -> Answer
    ensures { (result ≡ (begin p ws.old bs.old file.now).is) × (ws.new ≡ (begin p ws.old bs.old file.now).ws) × (bs.new ≡ (begin p ws.old bs.old file.now).bs) }
{
    if lent::room(p, ws) {
        if bs.len() < file.len() {
            return Answer::Refused(1);
        }
        return checked_file(p, ws, bs, file);
    }
    Answer::Refused(1)
}

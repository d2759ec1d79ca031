// Pruning a flat file: `prune` of prune.rs as a call on bytes. What is kept stays byte for byte; a refusal writes nothing.
#![tactic(auto)]

ghost use Rattle.std.specs.Prelude.{◌≤◌, false, ◌++◌, ◌≡◌, length, get_or, replicate};
ghost use Rattle.net_file.specs.Lists.{bit};
ghost use Rattle.conversions.specs.Calls.{pruned, fitted};
ghost use Rattle.text_writers.specs.Wrote.{Wrote};
ghost use Rattle.reach_names.specs.Reach.{reached};
ghost use Rattle.convert_frame.specs.Head.{head_bytes};
ghost use Rattle.ends.specs.Ends.{on};
ghost use Rattle.pruning.specs.Kept.{entries_below, kept_count, kept_net, kept_bytes, kept_file, accepted, Gives};

use refusals::Refusal;

// Whether every entry is below the name count.
fn below(entries: &[u32], n: u32) -> bool
    ensures { result ≡ entries_below entries.now n }
{
    entries.iter().all(|e| *e < n)
}

fn marked(marks: &[bool], i: usize) -> bool
    ensures { result ≡ get_or marks.now i false }
{
    marks.get(i).copied().unwrap_or(false)
}

// ---- what is kept

// One where the name is marked.
fn count_net(marks: &[bool], i: usize) -> u16
    ensures { (result ≡ bit (get_or marks.now i false)) × (result ≤ 1) }
{
    marked(marks, i) as u16
}

// How many of n nets from `from` on are kept.
fn count_kept(s: &[u8], marks: &[bool], from: usize, n: u16) -> u16
    ensures { result ≡ kept_count s.now marks.now from n }
{
    let mut at = from;
    let mut c: u16 = 0;
    for _ in 0..n {
        c += count_net(marks, fields::be16(s, at) as usize);
        at = ends::flat_net_end(s, at);
    }
    c
}

// One net, from `at` to e, where it is kept.
fn write_net(s: &[u8], marks: &[bool], at: usize, e: usize, out: &mut [u8], p: usize) -> usize
    ensures { Wrote (kept_net s.now marks.now at e) p out.old out.new result }
{
    if marked(marks, fields::be16(s, at) as usize) {
        return field_writers::bytes(out, p, s, at, e);
    }
    p
}

// Those of n nets from `from` on that are kept.
fn write_kept(s: &[u8], marks: &[bool], from: usize, n: u16, out: &mut [u8], place: usize) -> usize
    ensures { Wrote (kept_bytes s.now marks.now from n) place out.old out.new result }
{
    let mut at = from;
    let mut p = place;
    for _ in 0..n {
        let e = ends::flat_net_end(s, at);
        p = write_net(s, marks, at, e, out, p);
        at = e;
    }
    p
}

// A result of so many bytes: the file up to its nets' count, which stands at q, the count of those that are kept, and these.
fn write_result(
    s: &[u8],
    marks: &[bool],
    q: usize,
    n: u16,
    count: u16,
    length: usize,
    out: &mut [u8],
) -> usize
    ensures { Wrote (head_bytes s.now q 1 count length ++ kept_bytes s.now marks.now (on s.now q 2) n) 0 out.old out.new result }
{
    let p = convert_frame::head(out, s, q, 1, count, length);
    write_kept(s, marks, ends::on(s, q, 2), n, out, p)
}

// ---- the calls

// The nets whose names are marked. Written first into a slice of one byte, which tells the length.
fn prune_marked(s: &[u8], marks: &[bool], out: &mut [u8]) -> Result<usize, Refusal>
    ensures { Gives (fitted (length out.old) (kept_file s.now marks.now)) out.old result out.new }
{
    let q = readers::net_count_at(s);
    let n = fields::be16(s, q);
    let c = count_kept(s, marks, ends::on(s, q, 2), n);
    let mut tail = [0u8; 1];
    let length = write_result(s, marks, q, n, c, 0, &mut tail);
    if out.len() < length {
        return Err(Refusal::OutputTooShort);
    }
    write_result(s, marks, q, n, c, length, out);
    Ok(length)
}

// The file as it is: without entries nothing is removed.
fn prune_nothing(s: &[u8], out: &mut [u8]) -> Result<usize, Refusal>
    ensures { Gives (fitted (length out.old) s.now) out.old result out.new }
{
    let n = s.len();
    if out.len() < n {
        return Err(Refusal::OutputTooShort);
    }
    text_writers::word(out, 0, s);
    Ok(n)
}

// A mark for each of 1,024 names, all clear at first.
fn prune_reached(s: &[u8], entries: &[u32], out: &mut [u8]) -> Result<usize, Refusal>
    ensures { Gives (fitted (length out.old) (kept_file s.now (reached s.now entries.now (replicate 1024 false)))) out.old result out.new }
{
    let mut marks = [false; 1024];
    reach_names::reached(s, entries, &mut marks);
    prune_marked(s, &marks, out)
}

// An accepted file: 5 where an entry is not below the name count, then 15.
fn prune_accepted(s: &[u8], entries: &[u32], out: &mut [u8]) -> Result<usize, Refusal>
    ensures { Gives (accepted s.now entries.now (length out.old)) out.old result out.new }
{
    let n = readers::name_count(s);
    if below(entries, n as u32) {
        if entries.len() == 0 {
            return prune_nothing(s, out);
        }
        return prune_reached(s, entries, out);
    }
    Err(Refusal::BadBody)
}

// Keeps exactly what is reached from the entries. Refused by 2 to 8 as the file is, then by 5 and 15.
pub fn prune(file: &[u8], entries: &[u32], out: &mut [u8]) -> Result<usize, Refusal>
    ensures { Gives (pruned entries.now (length out.old) file.now) out.old result out.new }
{
    net_check::check_flat(file)?;
    prune_accepted(file, entries, out)
}

// A flat file from a tree one: `to_flat` of net.rs, as a call on files.
#![tactic(auto)]

ghost use Rattle.std.specs.Prelude.{◌≡◌, length};
ghost use Rattle.conversions.specs.Calls.{to_flat_call};
ghost use Rattle.convert_frame.specs.Called.{long, Called};
ghost use Rattle.flat_from_tree.specs.Words.{total, total_left, whole_out, whole_left, flat_answer, flat_left, flat_out};

use flat_nets::{Spot, Total};
use refusals::Refusal;

// The nets measured, with a table without links at first, as it is then too: the greatest wire counter among them, and how long the result is.
fn measure(s: &[u8], ws: &mut [u32]) -> Total
    ensures { (result ≡ total s.now ws.old) × (ws.new ≡ total_left s.now ws.old) }
{
    clear::clear_words(ws, 67649);
    let q = readers::net_count_at(s);
    let from = ends::on(s, q, 2);
    let n = fields::be16(s, q);
    flat_nets::measure_nets(s, ws, from, n as u32, from)
}

// The result of this length: it has its nets at the place that they have in the file.
fn write(s: &[u8], ws: &mut [u32], out: &mut [u8], length: usize)
    ensures { (ws.new ≡ whole_left s.now ws.old) × (out.new ≡ whole_out s.now ws.old length out.old) }
{
    let q = readers::net_count_at(s);
    let from = ends::on(s, q, 2);
    let n = fields::be16(s, q);
    convert_frame::head(out, s, q, 1, n, length);
    flat_nets::write_nets(s, ws, out, Spot { at: from, to: from }, n as u32);
}

// An accepted file: 18, then 15, then the result.
fn accepted(s: &[u8], ws: &mut [u32], out: &mut [u8]) -> Result<usize, Refusal>
    ensures { (result ≡ flat_answer s.now ws.old (length out.old)) × (ws.new ≡ flat_left s.now ws.old (length out.old)) × (out.new ≡ flat_out s.now ws.old out.old) }
{
    let t = measure(s, ws);
    if 65536 < t.wires {
        clear::clear_words(ws, convert_frame::SCRATCH);
        return Err(Refusal::TooManyWires);
    }
    if out.len() < t.to {
        clear::clear_words(ws, convert_frame::SCRATCH);
        return Err(Refusal::OutputTooShort);
    }
    write(s, ws, out, t.to);
    clear::clear_words(ws, convert_frame::SCRATCH);
    Ok(t.to)
}

pub fn flat_from_tree(file: &[u8], scratch: &mut [u32], out: &mut [u8]) -> Result<usize, Refusal>
    ensures { Called (to_flat_call (long scratch.old) (length out.old) file.now) scratch.old out.old result scratch.new out.new }
{
    if scratch.len() < convert_frame::SCRATCH {
        return Err(Refusal::TooLittleLent);
    }
    net_check::check_tree(file)?;
    accepted(file, scratch, out)
}

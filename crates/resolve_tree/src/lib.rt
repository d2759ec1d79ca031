// Links resolved in a tree file: the trees' `resolve_links` of net.rs, as a call on files.
#![tactic(auto)]

ghost use Rattle.std.specs.Prelude.{◌≤◌, ◌≡◌, length, take};
ghost use Rattle.conversions.specs.Calls.{resolve_tree_call};
ghost use Rattle.clear.specs.Zeroed.{zeroed};
ghost use Rattle.convert_frame.specs.Called.{long, Called};
ghost use Rattle.resolve_tree.specs.Words.{whole, delivered, resolved};

use refusals::Refusal;
use resolve_walk::Pen;

// What a result of this length begins with, and its nets.
fn whole(s: &[u8], ws: &mut [u32], out: &mut [u8], length: usize) -> Option<Pen>
    ensures { (result ≡ (whole s.now ws.old out.old length).is) × (ws.new ≡ (whole s.now ws.old out.old length).ws) × (out.new ≡ (whole s.now ws.old out.old length).out) }
{
    let q = readers::net_count_at(s);
    let from = ends::on(s, q, 2);
    let n = fields::be16(s, q);
    convert_frame::head(out, s, q, 65, n, length);
    resolve_nets::nets(ws, s, out, from, n as u32, from)
}

// 15, or the result of this length.
fn deliver(s: &[u8], ws: &mut [u32], out: &mut [u8], length: usize) -> Result<usize, Refusal>
    ensures { (result ≡ (delivered s.now ws.old out.old length).is) × (ws.new ≡ (delivered s.now ws.old out.old length).ws) × (out.new ≡ (delivered s.now ws.old out.old length).out) }
{
    if out.len() < length {
        return Err(Refusal::OutputTooShort);
    }
    whole(s, ws, out, length);
    Ok(length)
}

// An accepted file: its length is found out first, by writing it where there is no room. 17, then 15, then the result.
fn resolved(s: &[u8], ws: &mut [u32], out: &mut [u8]) -> Result<usize, Refusal>
    ensures { (result ≡ (resolved s.now ws.old out.old).is) × (ws.new ≡ (resolved s.now ws.old out.old).ws) × (out.new ≡ (resolved s.now ws.old out.old).out) }
{
    clear::clear_words(ws, 131072);
    let mut none = [0u8; 1];
    match whole(s, ws, &mut none, 0) {
        Some(pen) => deliver(s, ws, out, pen.to),
        None => Err(Refusal::TooDeep),
    }
}

// The same in the first n words, which are left as zeros.
fn accepted(s: &[u8], ws: &mut [u32], out: &mut [u8], n: usize) -> Result<usize, Refusal>
    requires { n ≤ length ws.old }
    ensures { (result ≡ (resolved s.now (take n ws.old) out.old).is) × (ws.new ≡ zeroed n ws.old) × (out.new ≡ (resolved s.now (take n ws.old) out.old).out) }
{
    let r = resolved(s, &mut ws[..n], out);
    clear::clear_words(ws, n);
    r
}

pub fn resolve_tree(file: &[u8], scratch: &mut [u32], out: &mut [u8]) -> Result<usize, Refusal>
    ensures { Called (resolve_tree_call (long scratch.old) (length out.old) file.now) scratch.old out.old result scratch.new out.new }
{
    if scratch.len() < convert_frame::SCRATCH {
        return Err(Refusal::TooLittleLent);
    }
    net_check::check_tree(file)?;
    accepted(file, scratch, out, convert_frame::SCRATCH)
}

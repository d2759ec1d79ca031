// What the calls that take a flat file share: the nets of a result, one after another, and the result, written twice. What is marked
// of a net in the scratch, and what is then written of it, is each call's own.
#![tactic(auto)]

ghost use Rattle.std.specs.Prelude.{ℕ, ◌≡◌, length};
ghost use Rattle.conversions.specs.Calls.{fitted};
ghost use Rattle.text_writers.specs.Wrote.{Wrote};
ghost use Rattle.convert_frame.specs.Called.{Given};
ghost use Rattle.flat_frame.specs.Nets.{Kind, parts_of, words_of, whole_of, left_of, result_of};

use refusals::Refusal;

// How a call takes a net from a flat file.
pub trait Conversion {
    ghost VERSION: { ℕ };

    ghost TABLE: { ℕ };

    // what a net marks, what is written of it, and that marks stay in the table
    ghost kind: { Kind TABLE };

    // The version of the result.
    const VERSION: u8;

    // How many words of the scratch are the table: what is marked is marked there.
    const TABLE: usize;

    // The net at a place: marked by its stamp, then written.
    fn net(out: &mut [u8], at: usize, ws: &mut [u32], stamp: u16, s: &[u8], from: usize) -> usize
        ensures { Wrote (kind.part s.now (kind.mark s.now ws.old stamp from) stamp from) at out.old out.new result × (ws.new ≡ kind.mark s.now ws.old stamp from) };
}

// So many nets, from a place on.
fn nets<C: Conversion>(
    out: &mut [u8],
    at: usize,
    ws: &mut [u32],
    s: &[u8],
    from: usize,
    n: u16,
) -> usize
    ensures { Wrote (parts_of C.kind s.now ws.old 0 from n) at out.old out.new result × (ws.new ≡ words_of C.kind s.now ws.old 0 from n) }
{
    let mut p = at;
    let mut place = from;
    for i in 0..n {
        p = C::net(out, p, ws, i + 1, s, place);
        place = ends::flat_net_end(s, place);
    }
    p
}

// The whole result, with this length in its length field, of a table without marks.
fn whole<C: Conversion>(out: &mut [u8], ws: &mut [u32], s: &[u8], length: usize) -> usize
    ensures { Wrote (whole_of C.kind C.VERSION s.now ws.old length) 0 out.old out.new result × (ws.new ≡ left_of C.kind s.now ws.old) }
{
    clear::clear_words(ws, C::TABLE);
    let q = readers::net_count_at(s);
    let n = fields::be16(s, q);
    let p = convert_frame::head(out, s, q, C::VERSION, n, length);
    nets::<C>(out, p, ws, s, ends::on(s, q, 2), n)
}

// An accepted file: its length is found out first, by writing it where there is no room.
pub fn accepted<C: Conversion>(s: &[u8], ws: &mut [u32], out: &mut [u8]) -> Result<usize, Refusal>
    ensures { Given (fitted (length out.old) (result_of C.kind C.VERSION s.now ws.old)) ws.old out.old result ws.new out.new }
{
    let mut none = [0u8; 1];
    let n = whole::<C>(&mut none, ws, s, 0);
    if out.len() < n {
        clear::clear_words(ws, convert_frame::SCRATCH);
        return Err(Refusal::OutputTooShort);
    }
    whole::<C>(out, ws, s, n);
    clear::clear_words(ws, convert_frame::SCRATCH);
    Ok(n)
}

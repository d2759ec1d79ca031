// What the calls are lent: pools, words and bytes; and what they answer.
#![tactic(auto, unfolding(crate::specs::Lent::between, crate::specs::Lent::pools_fit_words, crate::specs::Lent::words_of, crate::specs::Lent::room, crate::specs::Lent::held_length, crate::specs::Lent::zero_words, crate::specs::Lent::zero_bytes, words::specs::Choose::pick, words::specs::Choose::if_lt))]

ghost use Rattle.std.specs.Prelude.{Bool, ◌≡◌};
ghost use Rattle.lent.specs.Lent.{pools_fit_words, room, words_of, held_length, zero_words, zero_bytes};

// What a call answers: its number where it is done (the steps deducted, the result's length, else 0), or by what it is refused.
#[derive(Clone, Copy)]
pub enum Answer {
    Done(u32),
    Refused(u32),
}

// N nodes, E node-list entries and W waits.
#[derive(Clone, Copy)]
pub struct Pools {
    pub nodes: u32,
    pub entries: u32,
    pub waits: u32,
}

// ---- what is lent

fn pools_fit(p: Pools) -> bool
    ensures { result ≡ pools_fit_words p }
{
    (1..=4096).contains(&p.nodes) && (1..=16384).contains(&p.entries) && p.waits <= 4096
}

// The documented length in words.
pub fn words_of(p: Pools) -> usize
    ensures { result ≡ words_of p }
{
    5216 + 32 * p.nodes as usize + 2 * p.entries as usize + 3 * p.waits as usize
}

// 1, measured as for no file.
pub fn room(p: Pools, ws: &[u32]) -> bool
    ensures { result ≡ room p ws.now }
{
    pools_fit(p) && words_of(p) <= ws.len()
}

// The length of the held file.
pub fn held_length(ws: &[u32], bs: &[u8]) -> usize
    ensures { result ≡ held_length ws.now bs.now }
{
    let n = words::get(ws, layout::FILE_LENGTH) as usize;
    n.min(bs.len())
}

// Words and bytes are zeros up to the documented length, for a file of so many bytes.
pub fn zero(p: Pools, ws: &mut [u32], bs: &mut [u8], n: usize)
    ensures { (ws.new ≡ zero_words p ws.old) × (bs.new ≡ zero_bytes n bs.old) }
{
    clear::clear_words(ws, words_of(p));
    clear::clear_bytes(bs, n)
}

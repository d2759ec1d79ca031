// Which wires may have something in a table by wire, so that the others need not be looked at: a mark for each row of 1,024 wires, and
// behind these one for each block of 32. The few wires of a small net are found so in some hundred looks, however great they are.
#![tactic(auto)]

ghost use Rattle.std.specs.Prelude.{◌≤◌, ◌<◌, ◌≡◌};
ghost use Rattle.wire_blocks.specs.Blocks.{marked, row_stride, stride};

// How many words the marks take, from their base on.
pub const MARKS: usize = 2112;

// Wire w may have something: its row and its block are marked.
pub fn mark(ws: &mut [u32], base: u32, w: u16)
    ensures { ws.new ≡ marked base ws.old w }
{
    let at = base as usize;
    words::put(ws, at + w as usize / 1024, 1);
    words::put(ws, at + 64 + w as usize / 32, 1)
}

// How far it is to the next wire that is to be looked at, from one at which a block begins that has no mark.
fn row_stride(ws: &[u32], base: u32, w: u32) -> u32
    ensures { (result ≡ row_stride base ws.now w) × (0 < result) × (result ≤ 1024) }
{
    if w % 1024 == 0 {
        if words::get(ws, base as usize + w as usize / 1024) == 0 {
            return 1024;
        }
    }
    32
}

// The same from any wire: a row or a block that begins at w and has no mark is passed over.
pub fn stride(ws: &[u32], base: u32, w: u32) -> u32
    ensures { (result ≡ stride base ws.now w) × (0 < result) × (result ≤ 1024) }
{
    if w % 32 == 0 {
        if words::get(ws, base as usize + 64 + w as usize / 32) == 0 {
            return row_stride(ws, base, w);
        }
    }
    1
}

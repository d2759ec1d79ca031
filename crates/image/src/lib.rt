// Whether a lent workspace is a resumable image, as docs/IMAGE.md lists its conditions. Nothing is written.
#![tactic(auto, unfolding(crate::specs::Image::books_hold, crate::specs::Image::words_hold, crate::specs::Image::held, crate::specs::Image::resumable, words::specs::Choose::pick, words::specs::Choose::if_lt))]

ghost use Rattle.std.specs.Prelude.{◌≡◌};
ghost use Rattle.image.specs.Image.{file_holds, books_hold, words_hold, held, resumable};

// The held file is accepted.
fn file_holds(file: &[u8]) -> bool
    ensures { result ≡ file_holds file.now }
{
    net_check::check_flat(file).is_ok()
}

// Slots, lists, the dirty list, the waits.
fn books_hold(ws: &[u32], file: &[u8]) -> bool
    ensures { result ≡ books_hold ws.now file.now }
{
    image_slots::slots_hold(ws, file)
        && image_pools::pools_hold(ws)
        && image_dirty::dirty_holds(ws)
        && image_pending::waits_hold(ws)
}

// The words, for a file that is accepted.
fn words_hold(ws: &[u32], file: &[u8]) -> bool
    ensures { result ≡ words_hold ws.now file.now }
{
    image_head::steps_hold(ws, file) && image_nets::nets_hold(ws, file) && books_hold(ws, file)
}

// The words and this file are a run.
fn held(ws: &[u32], file: &[u8]) -> bool
    ensures { result ≡ held ws.now file.now }
{
    file_holds(file) && words_hold(ws, file)
}

pub fn resumable(nodes: u32, entries: u32, waits: u32, ws: &[u32], bytes: &[u8]) -> bool
    ensures { result ≡ resumable nodes entries waits ws.now bytes.now }
{
    let n = words::get(ws, layout::FILE_LENGTH) as usize;
    image_head::header_holds(ws, nodes, entries, waits) && n <= bytes.len() && held(ws, &bytes[..n])
}

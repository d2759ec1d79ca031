// Gives every file of a list to the conversions and to pruning, and says how many answers differ from the expected ones.
//
// The list comes on standard input. For each file, numbers big-endian: u8 call (1 to_flat, 2 to_tree, 3 resolve_links of flat nets,
// 4 of tree nets, 5 prune); u8 refusal expected, 0 for a result; u32 length of the file; u32 room for the output; u32 length of
// the expected result; u16 count of entries; the entries, u16 each; the file; the result. tests/README.md says how it is made.
#![tactic(auto)]

mod item;

use item::{Item, entries_of, said};
use refusals::Refusal;
use replaying::{MOST_FILES, Tally, broken_off, read_part};
use std::array;
use std::io::{self, Read};

fn converted(
    item: Item,
    file: &[u8],
    entries: &[u32],
    scratch: &mut [u32],
    out: &mut [u8],
) -> Result<usize, Refusal> {
    let call = item.call;
    match call {
        1 => flat_from_tree::flat_from_tree(file, scratch, out),
        2 => tree_from_flat::tree_from_flat(file, scratch, out),
        3 => resolve_flat::resolve_flat(file, scratch, out),
        4 => resolve_tree::resolve_tree(file, scratch, out),
        _ => pruning::prune(file, entries, out),
    }
}

// Whether the answer is the expected result's length, and the output begins with it.
fn same_result(length: usize, expected: &[u8], out: &[u8]) -> bool {
    if out.len() < length {
        return false;
    }
    &out[..length] == expected
}

fn as_expected(answer: Result<usize, Refusal>, refusal: u32, expected: &[u8], out: &[u8]) -> bool {
    match answer {
        Ok(length) => refusal == 0 && same_result(length, expected, out),
        Err(by) => by.number() == refusal,
    }
}

// Whether an item's answer is as expected, with each part of what is lent as long as the item has it.
fn replay_item(
    item: Item,
    file: &[u8],
    entries: &[u32],
    expected: &[u8],
    scratch: &mut [u32],
    out: &mut [u8],
) -> bool {
    let answer = converted(item, file, entries, scratch, out);
    as_expected(answer, item.refusal, expected, out)
}

// Reads the entries, the file and the expected result into the room that they fill, then replays.
fn replay_read(
    rt: &impl Print,
    from: &mut impl Read,
    item: Item,
    listed: &mut [u8],
    entries: &mut [u32],
    file: &mut [u8],
    expected: &mut [u8],
    scratch: &mut [u32],
    out: &mut [u8],
) -> io::Result<Option<bool>> {
    if !read_part(from, listed)? || !read_part(from, file)? || !read_part(from, expected)? {
        return broken_off(rt);
    }
    entries_of(listed, entries);
    Ok(Some(replay_item(item, file, entries, expected, scratch, out)))
}

// Replays the next item of the list: whether its answer is as expected; none at the list's end.
fn replay_next(
    rt: &impl Print,
    from: &mut impl Read,
    file: &mut [u8],
    expected: &mut [u8],
    scratch: &mut [u32],
    out: &mut [u8],
) -> io::Result<Option<bool>> {
    let mut head = [0u8; 16];
    let mut listed = [0u8; 64];
    let mut entries = [0u32; 32];
    let got = input::read_full(from, &mut head)?;
    if got == 0 {
        return Ok(None);
    }
    let item = said(&head);
    let count = item.count;
    if count > 32 {
        return broken_off(rt);
    }
    if got < 16
        || item.length > file.len()
        || item.result > expected.len()
        || item.room > out.len()
    {
        return broken_off(rt);
    }
    replay_read(
        rt,
        from,
        item,
        &mut listed[..2 * count],
        &mut entries[..count],
        &mut file[..item.length],
        &mut expected[..item.result],
        scratch,
        &mut out[..item.room],
    )
}

fn show(rt: &impl Print, file: u64) -> io::Result<()> {
    println!(rt; "file {file} differs")
}

fn replay_all(
    rt: &impl Print,
    from: &mut impl Read,
    file: &mut [u8],
    expected: &mut [u8],
    scratch: &mut [u32],
    out: &mut [u8],
) -> io::Result<Tally> {
    let mut tally = Tally::new();
    for _ in 0..MOST_FILES {
        let Some(same) = replay_next(rt, from, file, expected, scratch, out)? else {
            break;
        };
        if !same && tally.shows() {
            show(rt, tally.files)?;
        }
        tally = tally.counted(same);
    }
    Ok(tally)
}

fn main(rt: HostRuntime) -> io::Result<()> {
    let mut file: [u8; 65536] = array::repeat(0);
    let mut expected: [u8; 65536] = array::repeat(0);
    let mut scratch: [u32; 262144] = array::repeat(0);
    let mut out: [u8; 65536] = array::repeat(0);
    let tally = replay_all(
        &rt,
        &mut rt.stdin(),
        &mut file,
        &mut expected,
        &mut scratch,
        &mut out,
    )?;
    println!(rt; "{} files, {} different", tally.files, tally.different)
}

// Gives every file of a list to the optimiser, in one call and in slices, and says how many answers differ from the expected ones.
//
// The list comes on standard input. For each file, numbers big-endian: u32 length of the file; u16 nodes, u16 entries, u16 waits,
// the pools; u8 1 where the run is cut into slices too; u8 refusal expected, 0 for a result; u32 steps that the run deducts; u32
// room for the output; u32 length of the expected result; the file; the result. tests/README.md says how it is made.
#![tactic(auto)]

mod item;
mod run;

use item::{Item, said};
use replaying::{MOST_FILES, Tally, broken_off, read_part};
use run::{Place, replay_item};
use std::array;
use std::io::{self, Read};

// One item, in the part of the room that it needs.
fn replay_in(
    item: Item,
    words: &mut [u32],
    other: &mut [u32],
    bytes: &mut [u8],
    held: &mut [u8],
    file: &[u8],
    expected: &[u8],
    out: &mut [u8],
) -> Result<(), Place> {
    let used = ivy::words(item.nodes, item.entries, item.waits).min(words.len());
    let length = item.length;
    let room = item.room;
    if used > other.len() || length > bytes.len() || length > held.len() || room > out.len() {
        return Err(Place::Room);
    }
    replay_item(
        item,
        &mut words[..used],
        &mut other[..used],
        &mut bytes[..length],
        &mut held[..length],
        file,
        expected,
        &mut out[..room],
    )
}

// Reads the file and the expected result into the room that they fill, then replays.
fn replay_read(
    rt: &impl Print,
    from: &mut impl Read,
    item: Item,
    words: &mut [u32],
    other: &mut [u32],
    bytes: &mut [u8],
    held: &mut [u8],
    file: &mut [u8],
    expected: &mut [u8],
    out: &mut [u8],
) -> io::Result<Option<Result<(), Place>>> {
    if !read_part(from, file)? || !read_part(from, expected)? {
        return broken_off(rt);
    }
    let replayed = replay_in(item, words, other, bytes, held, file, expected, out);
    Ok(Some(replayed))
}

// Replays the next item of the list; none at the list's end.
fn replay_next(
    rt: &impl Print,
    from: &mut impl Read,
    words: &mut [u32],
    other: &mut [u32],
    bytes: &mut [u8],
    held: &mut [u8],
    file: &mut [u8],
    expected: &mut [u8],
    out: &mut [u8],
) -> io::Result<Option<Result<(), Place>>> {
    let mut head = [0u8; 24];
    let got = input::read_full(from, &mut head)?;
    if got == 0 {
        return Ok(None);
    }
    let item = said(&head);
    let length = item.length;
    let result = item.result;
    if got < 24 || length > file.len() || result > expected.len() {
        return broken_off(rt);
    }
    replay_read(
        rt,
        from,
        item,
        words,
        other,
        bytes,
        held,
        &mut file[..length],
        &mut expected[..result],
        out,
    )
}

fn show(rt: &impl Print, file: u64, place: Place) -> io::Result<()> {
    println!(rt; "file {file}: differs at place {}", place as u8)
}

fn replay_all(
    rt: &impl Print,
    from: &mut impl Read,
    words: &mut [u32],
    other: &mut [u32],
    bytes: &mut [u8],
    held: &mut [u8],
    file: &mut [u8],
    expected: &mut [u8],
    out: &mut [u8],
) -> io::Result<Tally> {
    let mut tally = Tally::new();
    for _ in 0..MOST_FILES {
        let Some(replayed) = replay_next(rt, from, words, other, bytes, held, file, expected, out)?
        else {
            break;
        };
        if let Err(place) = replayed {
            if tally.shows() {
                show(rt, tally.files, place)?;
            }
        }
        tally = tally.counted(replayed.is_ok());
    }
    Ok(tally)
}

fn main(rt: HostRuntime) -> io::Result<()> {
    let mut words: [u32; 262144] = array::repeat(0);
    let mut other: [u32; 262144] = array::repeat(0);
    let mut bytes: [u8; 65536] = array::repeat(0);
    let mut held: [u8; 65536] = array::repeat(0);
    let mut file: [u8; 65536] = array::repeat(0);
    let mut expected: [u8; 131072] = array::repeat(0);
    let mut out: [u8; 131072] = array::repeat(0);
    let tally = replay_all(
        &rt,
        &mut rt.stdin(),
        &mut words,
        &mut other,
        &mut bytes,
        &mut held,
        &mut file,
        &mut expected,
        &mut out,
    )?;
    println!(rt; "{} files, {} different", tally.files, tally.different)
}

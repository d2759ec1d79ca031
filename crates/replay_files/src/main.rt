// Gives every file of a list to its checker, and says how many answers differ from the expected ones.
//
// The list comes on standard input. For each file: u8 call (1 check_flat, 65 check_tree), u8 expected answer
// (0 accepted, else the number it is refused by), u32 big-endian length, the bytes. tests/README.md says how it is made.
#![tactic(auto)]

ghost use Rattle.std.specs.Prelude.{◌≡◌};
ghost use Rattle.replay_files.specs.Stream.{file_length};
ghost use Rattle.replay_files.specs.Compared.{compared as Compared·compared};

use refusals::Refusal;
use replaying::{MOST_FILES, Tally, broken_off};
use std::array;
use std::io::{self, Read};

const TREE_CALL: u8 = 65;

// The expected answer and another that came.
#[derive(Clone, Copy)]
struct Difference {
    expected: u32,
    got: u32,
}

// The length field of a file's head.
fn file_length(head: &[u8; 6]) -> usize
    ensures { result ≡ file_length head.now }
{
    u32::from_be_bytes([head[2], head[3], head[4], head[5]]) as usize
}

// 0 for accepted, else the number it is refused by.
fn number(answer: Result<(), Refusal>) -> u32 {
    match answer {
        Ok(()) => 0,
        Err(refusal) => refusal.number(),
    }
}

fn answer(call: u8, file: &[u8]) -> u32 {
    if call == TREE_CALL {
        number(net_check::check_tree(file))
    } else {
        number(net_check::check_flat(file))
    }
}

fn compared(expected: u32, got: u32) -> Result<(), Difference>
    ensures { result ≡ Compared·compared expected got }
{
    if expected == got {
        Ok(())
    } else {
        Err(Difference { expected, got })
    }
}

// Reads as many bytes as `file` has room for, and gives them to the checker.
fn replay_file(
    rt: &impl Print,
    from: &mut impl Read,
    call: u8,
    expected: u32,
    file: &mut [u8],
) -> io::Result<Option<Result<(), Difference>>> {
    if !replaying::read_part(from, file)? {
        return broken_off(rt);
    }
    Ok(Some(compared(expected, answer(call, file))))
}

// Replays the next file of the list, in the room of `buf`; none at the list's end.
fn replay_next(
    rt: &impl Print,
    from: &mut impl Read,
    buf: &mut [u8],
) -> io::Result<Option<Result<(), Difference>>> {
    let mut head = [0u8; 6];
    let got = input::read_full(from, &mut head)?;
    if got == 0 {
        return Ok(None);
    }
    let n = file_length(&head);
    if got < 6 || n > buf.len() {
        return broken_off(rt);
    }
    replay_file(rt, from, head[0], head[1] as u32, &mut buf[..n])
}

fn show(rt: &impl Print, file: u64, difference: Difference) -> io::Result<()> {
    println!(rt;
        "file {file}: expected {}, got {}",
        difference.expected, difference.got
    )
}

fn replay_all(rt: &impl Print, from: &mut impl Read, buf: &mut [u8]) -> io::Result<Tally> {
    let mut tally = Tally::new();
    for _ in 0..MOST_FILES {
        let Some(replayed) = replay_next(rt, from, buf)? else {
            break;
        };
        if let Err(difference) = replayed {
            if tally.shows() {
                show(rt, tally.files, difference)?;
            }
        }
        tally = tally.counted(replayed.is_ok());
    }
    Ok(tally)
}

fn main(rt: HostRuntime) -> io::Result<()> {
    let mut buf: [u8; 524288] = array::repeat(0);
    let tally = replay_all(&rt, &mut rt.stdin(), &mut buf)?;
    println!(rt; "{} files, {} different", tally.files, tally.different)
}

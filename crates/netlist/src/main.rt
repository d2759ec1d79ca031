// Optimises the flat net file on standard input and prints what came of it, or by which number it is refused.
#![tactic(auto)]

ghost use Rattle.put.specs.Written.{Written};
ghost use Rattle.netlist.specs.Said.{listed, said};

use lent::Answer;
use std::array;
use std::io::{self, Read};

const NODES: u32 = 256;

const ENTRIES: u32 = 1024;

const WAITS: u32 = 64;

// What ivy::words answers for these pools.
const WORKSPACE: usize = 15648;

const LARGEST_FILE: usize = 8192;

// No result of such a file in these pools is longer, and no text of it: docs/DECISIONS.md.
const LARGEST_RESULT: usize = 24576;

const LARGEST_TEXT: usize = 131072;

// The text of the result, the first n bytes.
#[tactic(auto, unfolding(crate::specs::Said::listed))]
fn listed(res: &[u8], n: usize, text: &mut [u8]) -> Option<usize>
    ensures { Written (listed res.now n) 0 text.old text.new result }
{
    if n < res.len() {
        return listing::listing(&res[..n], text);
    }
    listing::listing(res, text)
}

// What is printed of an answer.
#[tactic(auto, unfolding(crate::specs::Said::said))]
fn say(answer: Answer, res: &[u8], text: &mut [u8]) -> Option<usize>
    ensures { Written (said answer res.now) 0 text.old text.new result }
{
    match answer {
        Answer::Done(n) => listed(res, n as usize, text),
        Answer::Refused(number) => listing::refused(number, text),
    }
}

fn optimized(file: &[u8], text: &mut [u8]) -> Option<usize> {
    let mut words: [u32; WORKSPACE] = array::repeat(0);
    let mut copy: [u8; LARGEST_FILE] = array::repeat(0);
    let mut result: [u8; LARGEST_RESULT] = array::repeat(0);
    let answer = ivy::optimize(
        NODES,
        ENTRIES,
        WAITS,
        &mut words,
        &mut copy,
        file,
        &mut result,
    );
    say(answer, &result, text)
}

fn print_front(rt: &impl Print, text: &[u8], n: usize) -> io::Result<()> {
    if n <= text.len() {
        rt.write_all(&text[..n])?;
    }
    Ok(())
}

// Where there is no room for a text, which cannot be, nothing is printed but 15.
fn print(rt: &impl Print, text: &[u8], length: Option<usize>) -> io::Result<()> {
    match length {
        Some(n) => print_front(rt, text, n),
        None => println!(rt; "refused 15"),
    }
}

// Whether a byte of the input is left; it is taken.
fn has_more(from: &mut impl Read) -> io::Result<bool> {
    let mut byte = [0u8; 1];
    let n = input::read_full(from, &mut byte)?;
    Ok(n > 0)
}

fn main(rt: HostRuntime) -> io::Result<()> {
    let mut stdin = rt.stdin();
    let mut file: [u8; LARGEST_FILE] = array::repeat(0);
    let mut text: [u8; LARGEST_TEXT] = array::repeat(0);
    let n = input::read_full(&mut stdin, &mut file)?;
    if n == LARGEST_FILE && has_more(&mut stdin)? {
        let length = listing::refused(2, &mut text);
        return print(&rt, &text, length);
    }
    let length = optimized(&file[..n], &mut text);
    print(&rt, &text, length)
}

// Says of the net file on standard input whether it is accepted, or by which number it is refused.
//
// A file whose fifth byte is 65 goes to check_tree, any other to check_flat. One of over 524,288 bytes is `refused 2`.
#![tactic(auto)]

use refusals::Refusal;
use std::array;
use std::io::{self, Read};

const LARGEST_FILE: usize = 524288;

const TREE_VERSION: u8 = 65;

fn checked(file: &[u8]) -> Result<(), Refusal> {
    if file.len() > 4 && file[4] == TREE_VERSION {
        net_check::check_tree(file)
    } else {
        net_check::check_flat(file)
    }
}

fn print_refused(rt: &impl Print, refusal: Refusal) -> io::Result<()> {
    let number = refusal.number();
    println!(rt; "refused {number}")
}

fn print(rt: &impl Print, answer: Result<(), Refusal>) -> io::Result<()> {
    match answer {
        Ok(()) => println!(rt; "accepted"),
        Err(refusal) => print_refused(rt, refusal),
    }
}

// Whether a byte of the input is left; it is taken.
fn has_more(from: &mut impl Read) -> io::Result<bool> {
    let mut byte = [0u8; 1];
    let n = input::read_full(from, &mut byte)?;
    Ok(n > 0)
}

fn main(rt: HostRuntime) -> io::Result<()> {
    let mut stdin = rt.stdin();
    let mut file: [u8; LARGEST_FILE] = array::repeat(0);
    let n = input::read_full(&mut stdin, &mut file)?;
    if n == LARGEST_FILE && has_more(&mut stdin)? {
        return print_refused(&rt, Refusal::BadLength);
    }
    print(&rt, checked(&file[..n]))
}

#[cfg(test)]
mod tests {
    use refusals::Refusal;
    use std::test::Fail;

    #[test]
    fn a_refusal_says_its_sentence(rt: HostRuntime) -> Result<(), Fail> {
        let slot = format!(in rt.alloc(); "{}", Refusal::NoSlot)?;
        assert_eq!(rt; slot.as_str(), "no slot is left for a node");
        let wires = format!(in rt.alloc(); "{}", Refusal::TooManyWires)?;
        assert_eq!(rt; wires.as_str(), "a new wire would have number 65,536");
        Ok(())
    }
}

// One item: in one call, in one slice of none, and cut into slices in three ways.
use crate::item::Item;
use lent::Answer;

const NONE: u32 = 4294967295;

// No run that is cut has so many slices.
const MOST_SLICES: u32 = 1000;

// The places at which the answers of an item may differ.
#[derive(Clone, Copy)]
pub enum Place {
    OneCall = 1,
    Begin = 2,
    UncutSlice = 3,
    SlicesOfOne = 4,
    SlicesOfThree = 5,
    SlicesOfManySizes = 6,
    Finish = 7,
    // The item needs more room than there is.
    Room = 8,
}

// How a run is cut: into slices of one size, or of many.
#[derive(Clone, Copy)]
enum Sizes {
    All(u32),
    Many,
}

// How a slice of a run went: so many steps are expected still, or the run is over, as expected or not.
#[derive(Clone, Copy)]
enum Went {
    On(u32),
    Over(bool),
}

// The place, where the answers there differ.
fn expect(same: bool, place: Place) -> Result<(), Place> {
    if same { Ok(()) } else { Err(place) }
}

// Whether the answer is the expected result's length, and the output begins with it.
fn same_result(length: u32, expected: &[u8], out: &[u8]) -> bool {
    let length = length as usize;
    length == expected.len() && length <= out.len() && &out[..length] == expected
}

// An answer with an output, beside the refusal that is expected of it.
fn as_expected(answer: Answer, refusal: u32, expected: &[u8], out: &[u8]) -> bool {
    match answer {
        Answer::Done(length) => refusal == 0 && same_result(length, expected, out),
        Answer::Refused(number) => number == refusal,
    }
}

// The run's own refusal: 15 comes from finish alone.
fn of_run(refusal: u32) -> u32 {
    if refusal == 15 {
        return 0;
    }
    refusal
}

// What finish is refused by after the run: pools out of range are refused by 1 again, and a run that is refused leaves no image.
fn of_finish(refusal: u32) -> u32 {
    if refusal == 0 || refusal == 15 {
        return refusal;
    }
    if refusal == 1 {
        return 1;
    }
    16
}

// 0 where begin succeeds, else the number it is refused by.
fn begun(item: Item, words: &mut [u32], bytes: &mut [u8], file: &[u8]) -> u32 {
    let answer = ivy::begin(item.nodes, item.entries, item.waits, words, bytes, file);
    match answer {
        Answer::Done(_) => 0,
        Answer::Refused(number) => number,
    }
}

// One slice of none: the expected steps, or the expected refusal.
fn uncut(item: Item, words: &mut [u32], bytes: &mut [u8]) -> bool {
    let answer = ivy::slice(item.nodes, item.entries, item.waits, NONE, words, bytes);
    match answer {
        Answer::Done(steps) => of_run(item.refusal) == 0 && steps == item.steps,
        Answer::Refused(number) => number == item.refusal,
    }
}

fn next(seed: u32) -> u32 {
    (seed % 65537) * 75 + 74
}

// The size of a slice: the one size, or by the seed 0 to 5.
fn size(sizes: Sizes, seed: u32) -> u32 {
    match sizes {
        Sizes::All(n) => n,
        Sizes::Many => seed / 16 % 6,
    }
}

// After a slice of n that deducted so many steps, with so many expected still.
fn deducted(steps: u32, n: u32, left: u32, refusal: u32) -> Went {
    if steps > left {
        return Went::Over(false);
    }
    if steps < n {
        return Went::Over(steps == left && refusal == 0);
    }
    Went::On(left - steps)
}

// A refusal has to come in the slice that has steps over when the expected ones are taken.
fn answered(answer: Answer, n: u32, left: u32, refusal: u32) -> Went {
    match answer {
        Answer::Done(steps) => deducted(steps, n, left, refusal),
        Answer::Refused(number) => Went::Over(number == refusal && left < n),
    }
}

// One slice of a run.
fn one_slice(item: Item, n: u32, left: u32, words: &mut [u32], bytes: &mut [u8]) -> Went {
    let answer = ivy::slice(item.nodes, item.entries, item.waits, n, words, bytes);
    answered(answer, n, left, of_run(item.refusal))
}

// The run in slices, to its end or refusal.
fn cut(item: Item, sizes: Sizes, words: &mut [u32], bytes: &mut [u8]) -> bool {
    let mut left = item.steps;
    let mut seed = item.steps;
    for _ in 0..MOST_SLICES {
        seed = next(seed);
        let gone = one_slice(item, size(sizes, seed), left, words, bytes);
        match gone {
            Went::On(more) => {
                left = more;
            }
            Went::Over(well) => {
                return well;
            }
        }
    }
    false
}

// The run cut this way, from its begin: the same steps, and the same words and bytes at the end.
fn same_cut(
    item: Item,
    sizes: Sizes,
    words: &[u32],
    other: &mut [u32],
    bytes: &[u8],
    held: &mut [u8],
    file: &[u8],
) -> bool {
    begun(item, other, held, file) == 0
        && cut(item, sizes, other, held)
        && words == &other[..]
        && bytes == &held[..]
}

// Cut in each way.
fn replay_cuts(
    item: Item,
    words: &[u32],
    other: &mut [u32],
    bytes: &[u8],
    held: &mut [u8],
    file: &[u8],
) -> Result<(), Place> {
    let ones = same_cut(item, Sizes::All(1), words, other, bytes, held, file);
    expect(ones, Place::SlicesOfOne)?;
    let threes = same_cut(item, Sizes::All(3), words, other, bytes, held, file);
    expect(threes, Place::SlicesOfThree)?;
    let many = same_cut(item, Sizes::Many, words, other, bytes, held, file);
    expect(many, Place::SlicesOfManySizes)
}

// The run in slices, from begin on.
fn replay_slices(
    item: Item,
    words: &mut [u32],
    other: &mut [u32],
    bytes: &mut [u8],
    held: &mut [u8],
    file: &[u8],
) -> Result<(), Place> {
    let number = begun(item, words, bytes, file);
    if number != 0 {
        return expect(number == item.refusal, Place::Begin);
    }
    expect(uncut(item, words, bytes), Place::UncutSlice)?;
    replay_cuts(item, words, other, bytes, held, file)
}

// Whether finish answers as it should after the run.
fn finishes(
    item: Item,
    words: &mut [u32],
    bytes: &mut [u8],
    expected: &[u8],
    out: &mut [u8],
) -> bool {
    let answer = ivy::finish(item.nodes, item.entries, item.waits, words, bytes, out);
    as_expected(answer, of_finish(item.refusal), expected, out)
}

// Whether the one-call form answers as it should.
fn optimizes(
    item: Item,
    words: &mut [u32],
    bytes: &mut [u8],
    file: &[u8],
    expected: &[u8],
    out: &mut [u8],
) -> bool {
    let answer = ivy::optimize(
        item.nodes,
        item.entries,
        item.waits,
        words,
        bytes,
        file,
        out,
    );
    as_expected(answer, item.refusal, expected, out)
}

// One item, with each part of what is lent as long as the item has it. It fails by the first place that differs.
pub fn replay_item(
    item: Item,
    words: &mut [u32],
    other: &mut [u32],
    bytes: &mut [u8],
    held: &mut [u8],
    file: &[u8],
    expected: &[u8],
    out: &mut [u8],
) -> Result<(), Place> {
    expect(
        optimizes(item, words, bytes, file, expected, out),
        Place::OneCall,
    )?;
    if !item.cut {
        return Ok(());
    }
    replay_slices(item, words, other, bytes, held, file)?;
    expect(finishes(item, words, bytes, expected, out), Place::Finish)
}

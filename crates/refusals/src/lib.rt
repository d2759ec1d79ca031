// Why a call refuses. docs/REFUSALS.md says what each number means, and what it leaves behind.
#![tactic(auto)]

ghost use Rattle.std.specs.Prelude.{◌≡◌};
ghost use Rattle.refusals.specs.Numbers.{number};

use std::fmt;

#[derive(Clone, Copy, PartialEq, Eq)]
pub enum Refusal {
    // a pool number out of range, or a workspace or scratch that is shorter than documented
    TooLittleLent = 1,
    // under 5 bytes, or a length field that is not the number of bytes after it
    BadLength = 2,
    // a version that is not known, or belongs to another call
    BadVersion = 3,
    // neither none nor at most 16,777,216
    BadLimit = 4,
    // a field out of range, or bytes that run out or are left over
    BadBody = 5,
    // a path or a name twice, nets or pairs out of order, or a wire in two pairs
    BadOrder = 6,
    // a net that is not well wired
    BadWiring = 7,
    // a rule that names the path `ivy:engine:free`
    FreePathNamed = 8,
    // a node is needed while all slots hold nodes
    NoSlot = 9,
    // a node list grows while all lists together hold all entries
    NoEntry = 10,
    // a graft has to wait while all waits stand already
    NoWait = 11,
    // a graft reaches for its first child and has none
    NoChild = 12,
    // a graft node has another number of ports than the named net has free ports
    PortsDiffer = 13,
    // a rule would act after 16,777,216 steps since begin
    TooManySteps = 14,
    // the output is shorter than the result, or the result has over 4,096 nodes
    OutputTooShort = 15,
    // the workspace is not an image that can be gone on with, or the pools named are not its own
    NoImage = 16,
    // a resolved tree is deeper than 64
    TooDeep = 17,
    // a new wire would have number 65,536
    TooManyWires = 18,
}

impl Refusal {
    // The number that the documents and the calls for C give.
    pub fn number(self) -> u32
        ensures { result ≡ number self }
    {
        self as u32
    }
}

impl fmt::Display for Refusal {
    fn fmt<W: fmt::Write>(&self, f: &mut fmt::Formatter<W>) -> fmt::Result {
        match self {
            Refusal::TooLittleLent => write!(
                f,
                "a pool number is out of range, or the workspace is too short"
            ),
            Refusal::BadLength => write!(f, "the file's length is not what it says"),
            Refusal::BadVersion => write!(f, "the file's version is not known here"),
            Refusal::BadLimit => write!(f, "the limit is neither none nor at most 16,777,216"),
            Refusal::BadBody => write!(
                f,
                "a field is out of range, or the bytes run out or are left over"
            ),
            Refusal::BadOrder => write!(
                f,
                "a path, name or wire stands twice, or nets or pairs are out of order"
            ),
            Refusal::BadWiring => write!(f, "a net is not well wired"),
            Refusal::FreePathNamed => write!(f, "a rule names the path ivy:engine:free"),
            Refusal::NoSlot => write!(f, "no slot is left for a node"),
            Refusal::NoEntry => write!(f, "no entry is left for a node list"),
            Refusal::NoWait => write!(f, "no place is left for a graft to wait"),
            Refusal::NoChild => write!(f, "a graft has no first child"),
            Refusal::PortsDiffer => write!(
                f,
                "a graft node has another number of ports than its net has free ports"
            ),
            Refusal::TooManySteps => write!(f, "16,777,216 steps were done since begin"),
            Refusal::OutputTooShort => write!(
                f,
                "the output is shorter than the result, or the result has over 4,096 nodes"
            ),
            Refusal::NoImage => write!(
                f,
                "the workspace is not an image that can be gone on with in these pools"
            ),
            Refusal::TooDeep => write!(f, "a resolved tree is deeper than 64"),
            Refusal::TooManyWires => write!(f, "a new wire would have number 65,536"),
        }
    }
}

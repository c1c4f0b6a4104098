// The refusals of documents 01 and 02, each with its trade word. Which of several is told, and the laws of that, are in specs/ and proofs/.
#![tactic(auto)]

ghost use Rattle.std.specs.Prelude.{◌≡◌, Some, decimal};
ghost use Rattle.refusals.specs.Refusals.{number};

use std::fmt;

// Why a call refuses. The papers tell it by its number, from 1 on: 0 says that nothing is refused.
#[derive(Clone, Copy, Debug, PartialEq, Eq)]
pub enum Refusal {
    // short
    Truncated = 1,
    // range
    OutOfRange,
    // idle
    Redundant,
    // tableless
    TableMissing,
    // long
    TrailingBytes,
    // wide
    ConstantTooWide,
    // broken ring
    NotSingleCycle,
    // even constant
    EvenConstant,
    // powers
    PowerParity,
    // word count
    WordCount,
    // high bits
    WordTooWide,
    // uneven
    LengthMismatch,
    // no shovel
    NoShovel,
    // crowd
    TooManyShovels,
    // twice
    DuplicateShovel,
    // small page
    BufferTooSmall,
    // span
    SpanOutOfBounds,
    // too many equals
    TooManyTies,
    // firm
    NoSuchChange,
    // torn
    MalformedRecord,
    // other truck
    TruckMismatch,
    // strip too long
    StripTooLong,
    // strip bits
    StripWordTooWide,
    // bit page
    BitPageTooSmall,
    // off map
    OffMap,
    // sound ring
    SingleCycle,
}

impl Refusal {
    // Its number in the papers.
    pub fn number(self) -> u8
        ensures { result ≡ number self }
    {
        self as u8
    }
}

// Printed as its number, in decimal.
impl fmt::Display for Refusal {
    ghost output = { λ r. Some (decimal (number r)) };

    fn fmt<W: fmt::Write>(&self, f: &mut fmt::Formatter<W>) -> fmt::Result {
        let number = self.number();
        write!(f, "{number}")
    }
}

//! Why no source is made.

use cps_claims::UnreadReason;
use thiserror::Error;

/// Why no source is made of an octal text. Rows of the text count from 1.
#[derive(Clone, Copy, Debug, PartialEq, Eq, Error)]
pub enum DisassemblyFault {
    /// No row of the octal text is read: each is blank or has other text.
    #[error("no row of OCTAL has an address and octal digits")]
    NoRow,
    /// No row of the octal text is read, and this is the first that has digits.
    #[error("no row of OCTAL is read, the first is row {0}: {1}")]
    Unread(usize, UnreadReason),
    /// No word that is taken has a digit that can be read.
    #[error("no digit of OCTAL is taken")]
    NoDigit,
    /// The last word that is taken stands at this address, where no program of the machine has one.
    #[error("no program has a word at {0:06o}")]
    Past(u32),
    /// A digit of the word at this address has two values. This row is the first that has another one than those before it.
    #[error("row {1}: a digit of the word at {0:06o} has another value in a row before it")]
    Twice(u32, usize),
    /// The source that has each word as a plain number has so many lines, and a source has fewer.
    #[error("too many lines: {0}; --from and --to take a part")]
    TooManyLines(usize),
    /// No source was found that makes these words.
    #[error("the source can't be made")]
    NotMade,
    /// There was no memory.
    #[error("no memory")]
    Memory,
}

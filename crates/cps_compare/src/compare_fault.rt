//! Why nothing is compared.

use cps_claims::UnreadReason;
use thiserror::Error;

/// Why an octal text is not compared with a source. Rows of the text count from 1.
#[derive(Clone, Copy, Debug, PartialEq, Eq, Error)]
pub enum CompareFault {
    /// No row of the octal text is read: each is blank or has other text.
    #[error("no row of OCTAL has an address and octal digits")]
    NoRow,
    /// No row of the octal text is read, and this is the first that has digits.
    #[error("no row of OCTAL is read, the first is row {0}: {1}")]
    Unread(usize, UnreadReason),
    /// Rows are read, and no digit of them can be.
    #[error("each digit of OCTAL is unknown")]
    NoDigit,
    /// From the first of these addresses to the second one the octal text has no digit that can be read.
    #[error("no digit of OCTAL is compared between {0:06o} and {1:06o}")]
    Nothing(u32, u32),
    /// There was no memory. Nothing is told.
    #[error("no memory")]
    Memory,
}

//! Why a source that is read whole is not assembled, or its texts not written.
ghost use Rattle.std.specs.Prelude.{◌≡◌};
ghost use Rattle.cps_batch.specs.Batch as batch;

use cps_input::InputFault;
use thiserror::Error;

/// Why batch assembly ends without its texts. A line's number counts from 1.
#[derive(Clone, Copy, Debug, PartialEq, Eq, Error)]
pub enum BatchFault {
    /// A read failed, or the input had not ended after 16,777,216 reads.
    #[error("read fault")]
    ReadFault,
    /// That line has more than 90 bytes.
    #[error("line {0}: line too long")]
    LineTooLong(u32),
    /// That line has at most 90 bytes, and one that no line may have. The first of these stands in that column, in bytes from 1. The text tells the line alone.
    #[error("line {line}: bad character")]
    BadCharacter { line: u32, column: usize },
    /// There is a 100,000th line.
    #[error("too many lines")]
    TooManyLines,
    /// Nothing is wrong with the source, and there was no memory.
    #[error("no memory")]
    Memory,
    /// A write failed, or took none of the bytes it was given.
    #[error("write fault")]
    WriteFault,
}

impl BatchFault {
    /// A fault of the input, as batch assembly answers it.
    pub fn of_input(fault: InputFault) -> BatchFault
        ensures { result ≡ batch.of_input fault }
    {
        match fault {
            InputFault::ReadFault => BatchFault::ReadFault,
            InputFault::LineTooLong(number) => BatchFault::LineTooLong(number),
            InputFault::BadCharacter { line, column } => BatchFault::BadCharacter { line, column },
            InputFault::TooManyLines => BatchFault::TooManyLines,
            InputFault::Memory => BatchFault::Memory,
        }
    }
}

//! Why an input is not read, or its lines are no source.

use thiserror::Error;

/// Why an input does not give its bytes, or the lines of a source. A line's number counts from 1.
#[derive(Clone, Copy, Debug, PartialEq, Eq, Error)]
pub enum InputFault {
    /// A read failed, or the input had not ended after 16,777,216 reads.
    #[error("read fault")]
    ReadFault,
    /// That line has more than 90 bytes.
    #[error("line {0}: line too long")]
    LineTooLong(u32),
    /// That line has at most 90 bytes, and one that no line may have. The first of these stands in that column, in bytes from 1.
    #[error("line {line}, column {column}: bad character")]
    BadCharacter { line: u32, column: usize },
    /// There is a 100,000th line.
    #[error("too many lines")]
    TooManyLines,
    /// Nothing is wrong with the input, and there was no memory.
    #[error("no memory")]
    Memory,
}

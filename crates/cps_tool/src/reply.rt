//! Replies to the lines of a script.

/// Why a line of a script is refused.
#[derive(Clone, Copy, PartialEq, Eq)]
pub enum Refusal {
    /// The source has no line of that number.
    NoSuchLine,
    /// The text has more than 90 bytes.
    LineTooLong,
    /// The text has a byte that no line may have.
    BadCharacter,
    /// The source has 99,999 lines already.
    TooManyLines,
    /// The line is no command.
    BadCommand,
    /// Nothing else is wrong, and there was no memory.
    NoMemory,
}

/// What is said to a line that doesn't end the script.
#[derive(Drop)]
pub enum Reply {
    /// An edit was made. The source has that many lines now.
    Accepted(u32),
    /// Nothing was done.
    Refused(Refusal),
    /// The text that was asked for.
    Shown(Vec<u8>),
    /// The steps of pass one and of pass two that the latest edit took.
    Worked(u64, u64),
}

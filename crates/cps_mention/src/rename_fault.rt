//! Why a rename is refused.

use cps_list::push_decimal;
use cps_text::Name;
use std::alloc::AllocError;

/// Why a rename is refused. Lines count from 1.
#[derive(Clone, Copy)]
pub enum RenameFault {
    NothingHere,
    /// The columns mean two things, here or in another line where the name stands.
    TwoMeanings { line: u32 },
    /// The name is written in parts.
    Joined { name: Name, line: u32 },
    /// The name is a part of another, which a line joins.
    PartOfJoined { part: Name, joined: Name, line: u32 },
    ProgramName,
    /// What it would be called is no name of its kind.
    NoName,
    /// A macro would be called as an operation.
    Operation(Name),
    SameName,
    /// The name has a meaning already where it would stand.
    Taken { name: Name, line: u32 },
    NoRoom { line: u32 },
    /// The source would mean something else.
    WouldChange { line: u32 },
}

impl RenameFault {
    /// Says it in words.
    pub fn push_words(self, text: &mut Vec<u8>) -> Result<(), AllocError> {
        match self {
            RenameFault::NothingHere => text.extend_from_slice(b"no name stands here"),
            RenameFault::TwoMeanings { line } => {
                push_parts(text, b"the columns mean two things in line ", line, b"")
            }
            RenameFault::Joined { name, line } => {
                text.extend_from_slice(name.text())?;
                push_parts(text, b" is joined of parts in line ", line, b"")
            }
            RenameFault::PartOfJoined { part, joined, line } => {
                text.extend_from_slice(part.text())?;
                text.extend_from_slice(b" is a part of ")?;
                text.extend_from_slice(joined.text())?;
                push_parts(text, b", which line ", line, b" joins")
            }
            RenameFault::ProgramName => text.extend_from_slice(b"it is the program's name"),
            RenameFault::NoName => text.extend_from_slice(b"no name of this kind"),
            RenameFault::Operation(name) => {
                text.extend_from_slice(name.text())?;
                text.extend_from_slice(b" is an operation")
            }
            RenameFault::SameName => text.extend_from_slice(b"it has this name"),
            RenameFault::Taken { name, line } => {
                text.extend_from_slice(name.text())?;
                push_parts(text, b" is taken in line ", line, b"")
            }
            RenameFault::NoRoom { line } => push_parts(text, b"line ", line, b" has no room"),
            RenameFault::WouldChange { line } => push_parts(text, b"line ", line, b" would change"),
        }
    }
}

/// A number between two texts.
fn push_parts(
    text: &mut Vec<u8>,
    before: &[u8],
    number: u32,
    behind: &[u8],
) -> Result<(), AllocError> {
    text.extend_from_slice(before)?;
    push_decimal(text, u64::from(number))?;
    text.extend_from_slice(behind)
}

//! Why a statement passes a limit.

use crate::quotation::Quotation;
use crate::wording::{Wording, push_number, push_quoted, push_value};
use cps_expr::Operation;
use cps_text::limits::{
    DEEPEST, MOST_BLOCKS, MOST_BODY_LINES, MOST_CHARACTERS, MOST_GENERATED, MOST_RANGES,
    MOST_STATEMENTS, MOST_TIMES,
};
use std::alloc::AllocError;

/// The limit that a statement passes.
#[derive(Clone, Copy, PartialEq, Eq)]
pub enum LimitFault {
    /// ORG goes past the machine's words, which are so many.
    Origin(u32),
    /// The statement's words would pass the machine's, which are so many.
    Words(u32),
    /// The statement stands past the machine's words when all blocks are placed.
    Address(FarAddress),
    /// A literal does.
    Literal(FarAddress),
    /// It would begin a named block too many.
    Blocks,
    /// It would open a range too many.
    Ranges,
    /// It would repeat lines too often.
    Times(i64),
    /// The line isn't kept, since so many are kept already.
    Line,
    /// A body is dropped, since it has more lines than it may have.
    Body,
    /// A statement of an expansion has so many characters.
    Characters(usize),
    /// A statement of an expansion would stand too deep.
    Depth,
    /// The line would open too many statements.
    Statements,
    /// There are no more names for local names.
    Names,
}

/// A final address, in words, and how many the machine has.
#[derive(Clone, Copy, PartialEq, Eq)]
pub struct FarAddress {
    pub address: u64,
    pub words: u32,
}

impl LimitFault {
    /// Appends the words.
    pub(crate) fn push_words(
        self,
        text: &mut Wording,
        quotation: Quotation<'_>,
    ) -> Result<(), AllocError> {
        match self {
            LimitFault::Origin(words) => push_origin(text, quotation.shown, words),
            LimitFault::Words(words) => {
                let words = i64::from(words);
                push_value(text, b"this would pass the machine's ", words, b" words")
            }
            LimitFault::Address(place) => place.push_words(text, b"this stands at word "),
            LimitFault::Literal(place) => place.push_words(text, b"the literal stands at word "),
            LimitFault::Blocks => push_blocks(text, quotation.shown),
            LimitFault::Times(times) => push_times(text, times),
            LimitFault::Body => push_body(text, quotation.operation),
            LimitFault::Characters(count) => push_characters(text, count),
            _ => push_number(text, self.front(), self.most(), self.rest()),
        }
    }

    /// What is told before the most that there may be.
    fn front(self) -> &'static [u8] {
        match self {
            LimitFault::Depth => b"this would open statements more than ",
            LimitFault::Statements => b"this would open more than ",
            _ => b"",
        }
    }

    /// The most that there may be.
    fn most(self) -> i64 {
        match self {
            LimitFault::Ranges => MOST_RANGES as i64,
            LimitFault::Depth => i64::from(DEEPEST),
            LimitFault::Statements => MOST_STATEMENTS as i64,
            LimitFault::Names => i64::from(MOST_GENERATED),
            _ => i64::from(MOST_BODY_LINES),
        }
    }

    /// What is told behind it.
    fn rest(self) -> &'static [u8] {
        match self {
            LimitFault::Ranges => b" ranges are open already, so this one does nothing",
            LimitFault::Line => {
                b" lines are kept already, the most that a body has; this one isn't"
            }
            LimitFault::Depth => b" deep; does a macro call itself?",
            LimitFault::Statements => b" statements",
            LimitFault::Names => b" local names have names of their own, and there are no more",
            _ => b"",
        }
    }
}

/// Appends that an address is past so many words.
fn push_origin(text: &mut Wording, shown: &[u8], words: u32) -> Result<(), AllocError> {
    push_value(text, b"the machine has ", i64::from(words), b" words, and ")?;
    push_quoted(text, b"", shown, b" is past them")
}

/// Appends that a named block would be one too many.
fn push_blocks(text: &mut Wording, shown: &[u8]) -> Result<(), AllocError> {
    push_quoted(text, b"", shown, b" would be a named block more than ")?;
    push_number(text, b"", i64::from(MOST_BLOCKS), b", the most")
}

/// Appends that lines would be repeated too often.
fn push_times(text: &mut Wording, times: i64) -> Result<(), AllocError> {
    push_number(
        text,
        b"lines are repeated ",
        MOST_TIMES as i64,
        b" times at most, ",
    )?;
    push_value(text, b"and not ", times, b"")
}

/// Appends that a statement has too many characters.
fn push_characters(text: &mut Wording, count: usize) -> Result<(), AllocError> {
    let count = i64::try_from(count).unwrap_or(0);
    push_number(
        text,
        b"with its arguments this has ",
        count,
        b" characters, ",
    )?;
    push_number(text, b"and ", MOST_CHARACTERS as i64, b" are the most")
}

/// Appends that a body with too many lines is dropped.
fn push_body(text: &mut Wording, operation: &[u8]) -> Result<(), AllocError> {
    push_number(
        text,
        b"more than ",
        i64::from(MOST_BODY_LINES),
        b" lines came, so ",
    )?;
    match Operation::named(operation) {
        Some(Operation::Endm) => text.push(b"the macro isn't defined"),
        _ => text.push(b"nothing is repeated"),
    }
}

impl FarAddress {
    fn push_words(self, text: &mut Wording, before: &[u8]) -> Result<(), AllocError> {
        let address = i64::try_from(self.address).unwrap_or(0);
        push_value(
            text,
            before,
            address,
            b" when all blocks are placed, and the machine has ",
        )?;
        push_value(text, b"", i64::from(self.words), b" words")
    }
}

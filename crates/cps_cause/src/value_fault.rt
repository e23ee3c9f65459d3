//! Why a value has flag A.
use crate::quotation::Quotation;
use crate::wording::{Wording, push_quoted, push_value};
use cps_text::Name;
use std::alloc::AllocError;

/// A value that a statement doesn't take.
#[derive(Clone, Copy, PartialEq, Eq)]
pub enum ValueFault {
    /// The expression has none, and the statement makes nothing of it.
    None,
    /// The expression has none, and counts as 0.
    NoneLater,
    Negative(i64),
    /// It is an address in a block.
    InBlock(Name),
    /// It is not from one number to another.
    OutOfRange(Bounds),
    /// Two values aren't in one block.
    NotComparable,
    /// A count in an instruction is below 0.
    NegativeCount(i64),
    /// A target is so many words away.
    TooFar(i64),
}

/// Numbers from one to another, with the number that isn't one of them.
#[derive(Clone, Copy, PartialEq, Eq)]
pub struct Bounds {
    pub value: i64,
    pub least: u32,
    pub most: u32,
}

impl ValueFault {
    /// Appends the words.
    pub(crate) fn push_words(
        self,
        text: &mut Wording,
        quotation: Quotation<'_>,
    ) -> Result<(), AllocError> {
        let shown = quotation.shown;
        match self {
            ValueFault::None => push_quoted(text, b"", shown, NO_VALUE),
            ValueFault::NoneLater => push_quoted(text, shown, NO_VALUE, b"; it counts as 0"),
            ValueFault::Negative(value) => {
                push_value(
                    text,
                    b"a number below 0 can't stand here, and this is ",
                    value,
                    b"",
                )
            }
            ValueFault::InBlock(name) => {
                push_quoted(text, b"", shown, b" is an address in block ")?;
                push_quoted(text, b"", name.text(), b", and a number must stand here")
            }
            ValueFault::OutOfRange(bounds) => bounds.push_words(text),
            ValueFault::NotComparable => {
                text.push(b"values that aren't in one block don't compare")
            }
            ValueFault::NegativeCount(value) => push_count(text, quotation.operation, value),
            ValueFault::TooFar(distance) => push_distance(text, distance),
        }
    }
}

/// Why an expression may have no value.
const NO_VALUE: &[u8] =
    b" has no value: it is past 2^59 - 1, or what it makes of addresses in blocks is no address";

/// Appends that a count is below 0; of a left shift with what shifts to the right as far.
fn push_count(text: &mut Wording, operation: &[u8], value: i64) -> Result<(), AllocError> {
    push_value(
        text,
        b"a count is 0 or more, and not ",
        value,
        b"; it counts as 0",
    )?;
    match operation {
        [b'L' | b'l', b'X' | b'x', ..] if (-59..0).contains(&value) => {
            let left = value.saturating_add(60);
            push_value(
                text,
                b"; a left shift by ",
                left,
                b" is one to the right as far",
            )
        }
        _ => Ok(()),
    }
}

/// The words over which a jump goes.
const FARTHEST: i64 = 31;

/// Appends that a target is too far away.
fn push_distance(text: &mut Wording, distance: i64) -> Result<(), AllocError> {
    push_value(
        text,
        b"the target is ",
        distance.saturating_abs(),
        b" words away",
    )?;
    push_value(text, b", and a jump goes ", FARTHEST, b" at most")
}

impl Bounds {
    fn push_words(self, text: &mut Wording) -> Result<(), AllocError> {
        push_value(text, b"", self.value, b" is not from ")?;
        push_value(text, b"", i64::from(self.least), b" to ")?;
        push_value(text, b"", i64::from(self.most), b"")
    }
}

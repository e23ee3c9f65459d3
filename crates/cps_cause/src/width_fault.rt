//! Why a field of VFD has flag V.
use crate::quotation::Quotation;
use crate::wording::{Wording, push_quoted, push_value};
use cps_text::Name;
use std::alloc::AllocError;

/// A value that is no width of a field.
#[derive(Clone, Copy, PartialEq, Eq)]
pub enum WidthFault {
    /// It is not from 1 to 60.
    OutOfRange(i64),
    /// It is an address in a block.
    InBlock(Name),
}

impl WidthFault {
    /// Appends the words.
    pub(crate) fn push_words(
        self,
        text: &mut Wording,
        quotation: Quotation<'_>,
    ) -> Result<(), AllocError> {
        match self {
            WidthFault::OutOfRange(value) => {
                push_value(text, b"a field has 1 to 60 bits, and not ", value, b"")
            }
            WidthFault::InBlock(name) => {
                push_quoted(
                    text,
                    b"a field has 1 to 60 bits, and ",
                    quotation.shown,
                    b" is an address in block ",
                )?;
                text.push(name.text())
            }
        }
    }
}

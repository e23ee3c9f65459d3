//! Why a location field has flag L.

use crate::hints::push_line_number;
use crate::no_symbol::push_no_symbol;
use crate::quotation::Quotation;
use crate::wording::{Wording, push_quoted};
use std::alloc::AllocError;

/// What is wrong with a location field.
#[derive(Clone, Copy, PartialEq, Eq)]
pub enum LocationFault {
    /// The statement takes none.
    NotTaken,
    /// A statement that places something takes a symbol, `+` or `-`.
    NoSymbol,
    /// EQU, `=` and SET need a symbol there.
    NeedsSymbol,
    /// MACRO needs its name there.
    NeedsMacroName,
    /// It is an operation, which no macro may be named after.
    NameTaken,
    /// A call takes a symbol, or nothing.
    OfCall,
}

impl LocationFault {
    /// Appends the words.
    pub(crate) fn push_words(
        self,
        text: &mut Wording,
        quotation: Quotation<'_>,
    ) -> Result<(), AllocError> {
        let operation = quotation.operation;
        match self {
            LocationFault::NotTaken => {
                push_quoted(
                    text,
                    b"",
                    operation,
                    b" takes nothing in the location field",
                )?;
                push_line_number(text, quotation.location)
            }
            LocationFault::NoSymbol => {
                push_no_symbol(text, quotation.location)?;
                push_line_number(text, quotation.location)
            }
            LocationFault::NeedsSymbol => {
                push_quoted(
                    text,
                    b"",
                    operation,
                    b" needs a symbol in the location field",
                )?;
                push_instead(text, quotation.location)
            }
            LocationFault::NeedsMacroName => {
                text.push(b"MACRO needs its name, a symbol, in the location field")?;
                push_instead(text, quotation.location)
            }
            LocationFault::NameTaken => push_quoted(
                text,
                b"",
                quotation.location,
                b" is an operation, and no macro can have its name",
            ),
            LocationFault::OfCall => {
                text.push(b"a call takes a symbol or nothing in the location field")?;
                push_instead(text, quotation.location)
            }
        }
    }
}

/// Appends what stands in the place of a symbol, if something does.
fn push_instead(text: &mut Wording, location: &[u8]) -> Result<(), AllocError> {
    match location {
        [] => Ok(()),
        [b'+' | b'-'] => push_quoted(text, b", and not ", location, b""),
        _ => {
            text.push(b"; ")?;
            push_no_symbol(text, location)
        }
    }
}

//! Why a symbol has flag U.
use crate::hints::push_register;
use crate::places::Places;
use crate::wording::{Wording, push_line, push_perhaps, push_quoted};
use cps_text::Name;
use std::alloc::AllocError;

/// A symbol without a value.
#[derive(Clone, Copy, PartialEq, Eq)]
pub enum SymbolFault {
    /// No line gives it one, and it is needed as the line is read. A symbol that has one may be near to it.
    UndefinedNow(Name, Option<Name>),
    /// A line below gives it one, and it is needed as the line is read.
    DefinedBelow(Name),
    /// No line gives it one. A symbol that has one may be near to it.
    Undefined(Name, Option<Name>),
    /// SET gives it one, and not before.
    SetBelow(Name),
}

impl SymbolFault {
    /// Appends the words.
    pub(crate) fn push_words<P: Places>(
        self,
        text: &mut Wording,
        places: &P,
    ) -> Result<(), AllocError> {
        match self {
            SymbolFault::UndefinedNow(name, near) => {
                push_undefined(text, b"no line gives ", name, NEEDED)?;
                push_meant(text, name, near)
            }
            SymbolFault::DefinedBelow(name) => {
                push_undefined(text, b"no line above gives ", name, NEEDED)?;
                push_line(
                    text,
                    b"; it has one from line ",
                    places.line_of_symbol(name),
                )
            }
            SymbolFault::Undefined(name, near) => {
                push_undefined(text, b"no line gives ", name, COUNTED)?;
                push_meant(text, name, near)
            }
            SymbolFault::SetBelow(name) => push_quoted(
                text,
                b"",
                name.text(),
                b" has values by SET alone, and none above; it counts as 0",
            ),
        }
    }
}

/// What is told of a symbol that must have a value.
const NEEDED: &[u8] = b" a value, and it must have one here";

/// What is told of one that needn't.
const COUNTED: &[u8] = b" a value; it counts as 0";

/// Appends a symbol or a register that may be meant, if there is one.
fn push_meant(text: &mut Wording, name: Name, near: Option<Name>) -> Result<(), AllocError> {
    if near.is_none() && push_register(text, name.text())? {
        return Ok(());
    }
    push_perhaps(text, near)
}

fn push_undefined(
    text: &mut Wording,
    front: &[u8],
    name: Name,
    rest: &[u8],
) -> Result<(), AllocError> {
    push_quoted(text, front, name.text(), rest)
}

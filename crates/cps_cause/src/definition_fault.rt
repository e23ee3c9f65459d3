//! Why a symbol has flag D.
use crate::places::Places;
use crate::wording::{Wording, push_line, push_quoted};
use cps_text::Name;
use std::alloc::AllocError;

/// The value that a symbol has already, and keeps.
#[derive(Clone, Copy, PartialEq, Eq)]
pub enum DefinitionFault {
    /// It is a label, or has a value by EQU.
    HasValue(Name),
    /// It has a value by SET.
    HasSetting(Name),
    /// SET would change a value that isn't from SET.
    NotFromSet(Name),
}

impl DefinitionFault {
    /// Appends the words.
    pub(crate) fn push_words<P: Places>(
        self,
        text: &mut Wording,
        places: &P,
    ) -> Result<(), AllocError> {
        match self {
            DefinitionFault::HasValue(name) => {
                push_kept(text, name, b" has a value already", places)
            }
            DefinitionFault::HasSetting(name) => {
                push_kept(text, name, b" has a value by SET already", places)
            }
            DefinitionFault::NotFromSet(name) => {
                push_kept(
                    text,
                    name,
                    b" has a value already that isn't by SET",
                    places,
                )
            }
        }
    }
}

/// Appends that a symbol keeps its value, and from which line it has it.
fn push_kept<P: Places>(
    text: &mut Wording,
    name: Name,
    value: &[u8],
    places: &P,
) -> Result<(), AllocError> {
    push_quoted(text, b"", name.text(), value)?;
    push_line(text, b", from line ", places.line_of_symbol(name))?;
    text.push(b", and keeps it")
}

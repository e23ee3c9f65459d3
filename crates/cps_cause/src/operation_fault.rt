//! Why an operation field has flag O.

use crate::hints::push_operation_place;
use crate::left_out::LeftOut;
use crate::quotation::Quotation;
use crate::wording::{Wording, push_perhaps, push_quoted};
use cps_text::Name;
use std::alloc::AllocError;

/// What is wrong with an operation field.
#[derive(Clone, Copy, PartialEq, Eq)]
pub enum OperationFault {
    /// It is empty, and something stands in the location field.
    Missing,
    /// It is a symbol, no operation, and no macro's name. An operation may be near to it.
    Unknown(Option<Name>),
    /// COMPASS has it, and this assembler leaves it out.
    LeftOut(LeftOut),
    /// It is the name of a macro that is defined below.
    DefinedBelow,
    /// It is an instruction of a peripheral processor, and the program is for the central one. An operation of that may be near to it.
    Peripheral(Option<Name>),
    /// It is an instruction of the central processor, and the program is for a peripheral one.
    Central,
    /// It is no operation, and no symbol that a macro could have for its name.
    NoName,
}

impl OperationFault {
    /// Appends the words.
    pub(crate) fn push_words(
        self,
        text: &mut Wording,
        quotation: Quotation<'_>,
    ) -> Result<(), AllocError> {
        push_quoted(text, self.front(), quotation.shown, self.rest())?;
        match self {
            OperationFault::LeftOut(left_out) => text.push(left_out.words()),
            OperationFault::Unknown(near) | OperationFault::Peripheral(near) => {
                push_perhaps(text, near)?;
                push_operation_place(text, quotation)
            }
            _ => Ok(()),
        }
    }

    /// What is told before the text that is quoted.
    fn front(self) -> &'static [u8] {
        match self {
            OperationFault::Missing => b"no operation stands behind ",
            _ => b"",
        }
    }

    /// What is told behind it.
    fn rest(self) -> &'static [u8] {
        match self {
            OperationFault::Missing => b"",
            OperationFault::Unknown(_) => b" is no operation, and no macro above has this name",
            OperationFault::LeftOut(_) => b" is an operation of COMPASS that is left out here: ",
            OperationFault::DefinedBelow => {
                b" is no operation, and the macro of this name is defined below"
            }
            OperationFault::Peripheral(_) => {
                b" is an instruction of a peripheral processor, and no PERIPH stands above"
            }
            OperationFault::Central => {
                b" is an instruction of the central processor, and PERIPH stands above"
            }
            OperationFault::NoName => {
                b" is no operation, and no symbol that a macro could have for its name"
            }
        }
    }
}

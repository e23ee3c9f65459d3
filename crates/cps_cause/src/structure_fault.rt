//! Why a statement may not stand where it stands.

use crate::places::Places;
use crate::quotation::Quotation;
use crate::wording::{Wording, push_line, push_quoted};
use std::alloc::AllocError;

/// What is wrong with where a statement stands.
#[derive(Clone, Copy, PartialEq, Eq)]
pub enum StructureFault {
    /// IDENT stands after another.
    SecondIdent,
    /// IDENT stands after the head.
    LateIdent,
    /// ABS or PERIPH stands after another.
    SecondMachine,
    /// ABS or PERIPH stands after the head.
    LateMachine,
    /// The program has ended.
    AfterEnd,
    /// No line goes on in the next one.
    Continued,
    /// No range is open for ELSE or ENDIF.
    NoRange,
    /// No range without an ELSE is open for ELSE, in an expansion.
    NoRangeForElse,
    /// The range has an ELSE already.
    SecondElse,
    /// END stands in this.
    EndOpen(OpenSpan),
    /// The source ends in this.
    SourceOpen(OpenSpan),
    /// No lines are kept that ENDD or ENDM could end.
    NoLinesKept,
    /// MACRO stands in the lines of another.
    MacroInBody,
    /// The statement can't stand in an expansion.
    InExpansion,
    /// A DUP of an expansion has no ENDD in it.
    ExpansionKeeps,
    /// LOCAL stands elsewhere than at the front of a macro's body.
    LateLocal,
}

/// What is open where a source or a program ends.
#[derive(Clone, Copy, PartialEq, Eq)]
pub enum OpenSpan {
    /// A range whose lines are assembled.
    Range,
    /// A range whose lines are skipped.
    SkippedRange,
    /// Lines of a number are skipped.
    SkippedLines,
    /// The lines of a macro are kept.
    Macro,
    /// The lines of a DUP are kept.
    Dup,
}

impl StructureFault {
    /// Appends the words.
    pub(crate) fn push_words<P: Places>(
        self,
        text: &mut Wording,
        quotation: Quotation<'_>,
        places: &P,
    ) -> Result<(), AllocError> {
        let operation = quotation.operation;
        match self {
            StructureFault::LateIdent | StructureFault::LateMachine => {
                push_quoted(
                    text,
                    b"",
                    operation,
                    b" stands in the head alone, which has ended",
                )?;
                push_line(text, b" at line ", places.line_of_body())
            }
            StructureFault::AfterEnd => {
                text.push(b"the program has ended")?;
                push_line(text, b" in line ", places.line_of_end())?;
                text.push(b"; only comments may follow")
            }
            StructureFault::NoRange => push_quoted(text, b"no range is open for ", operation, b""),
            StructureFault::EndOpen(open) => {
                push_quoted(text, b"the program ends in ", open.words(), b"")?;
                push_line(text, b" from line ", places.line_of_opening())
            }
            StructureFault::SourceOpen(open) => {
                push_quoted(text, b"the source ends in ", open.words(), b"")?;
                push_line(text, b" from line ", places.line_of_opening())
            }
            StructureFault::NoLinesKept => push_quoted(
                text,
                b"no lines are kept for ",
                operation,
                b"",
            ),
            StructureFault::InExpansion => {
                push_quoted(text, b"", operation, b" can't stand in an expansion")
            }
            _ => text.push(self.sentence()),
        }
    }

    /// The words that nothing is filled into.
    fn sentence(self) -> &'static [u8] {
        match self {
            StructureFault::SecondIdent => b"this is a second IDENT",
            StructureFault::SecondMachine => b"the machine is told above already",
            StructureFault::Continued => {
                b"no line goes on in the next one, so no comma may stand in column 1"
            }
            StructureFault::NoRangeForElse => b"no range without an ELSE is open here",
            StructureFault::SecondElse => b"this range has an ELSE already",
            StructureFault::MacroInBody => {
                b"MACRO can't stand in the lines of another one; is an ENDM missing above?"
            }
            StructureFault::ExpansionKeeps => b"the DUP of this expansion has no ENDD in it",
            StructureFault::LateLocal => b"LOCAL stands at the front of a macro's body alone",
            _ => b"",
        }
    }
}

impl OpenSpan {
    fn words(self) -> &'static [u8] {
        match self {
            OpenSpan::Range => b"a range that is open",
            OpenSpan::SkippedRange => b"a range that is skipped",
            OpenSpan::SkippedLines => b"lines that are skipped",
            OpenSpan::Macro => b"the lines of a macro",
            OpenSpan::Dup => b"the lines of a DUP",
        }
    }
}

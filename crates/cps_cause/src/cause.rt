//! Why a line is flagged.
ghost use Rattle.std.specs.Prelude.{◌≡◌, IfOk};
ghost use Rattle.cps_cause.specs.Letters.{letter_of};
ghost use Rattle.cps_cause.specs.Sentence.{IsSentence};

use crate::cut_fault::CutFault;
use crate::definition_fault::DefinitionFault;
use crate::letter::Letter;
use crate::limit_fault::LimitFault;
use crate::location_fault::LocationFault;
use crate::operand_fault::OperandFault;
use crate::operation_fault::OperationFault;
use crate::places::Places;
use crate::quotation::Quotation;
use crate::structure_fault::StructureFault;
use crate::symbol_fault::SymbolFault;
use crate::value_fault::ValueFault;
use crate::width_fault::WidthFault;
use crate::wording::Wording;
use std::alloc::{AllocError, Global};

/// Why a statement has a flag. No cause names another line, so that an edit far above doesn't change it.
#[derive(Clone, Copy, PartialEq, Eq)]
pub enum Cause {
    /// O.
    Operation(OperationFault),
    /// L.
    Location(LocationFault),
    /// D.
    Definition(DefinitionFault),
    /// V.
    Width(WidthFault),
    /// T.
    Cut(CutFault),
    /// U.
    Symbol(SymbolFault),
    /// A: operands that can't be read.
    Operand(OperandFault),
    /// A: a value that the statement doesn't take.
    Value(ValueFault),
    /// E: where the statement stands.
    Structure(StructureFault),
    /// E: a limit that it passes.
    Limit(LimitFault),
    /// A flag of whose cause no more is known.
    General(Letter),
}

impl Cause {
    /// The letter of the flag.
    pub fn letter(&self) -> Letter
        ensures { result ≡ letter_of self.now }
    {
        match self {
            Cause::Operation(_) => Letter::O,
            Cause::Location(_) => Letter::L,
            Cause::Definition(_) => Letter::D,
            Cause::Width(_) => Letter::V,
            Cause::Cut(_) => Letter::T,
            Cause::Symbol(_) => Letter::U,
            Cause::Operand(_) | Cause::Value(_) => Letter::A,
            Cause::Structure(_) | Cause::Limit(_) => Letter::E,
            Cause::General(letter) => *letter,
        }
    }

    /// Why there is such a flag, as a sentence without its point. What is quoted is of the statement where it shows. Where a cause had nothing to say, the
    /// meaning of its letter would stand.
    pub fn words<P: Places>(
        &self,
        alloc: Global,
        quotation: Quotation<'_>,
        places: &P,
    ) -> Result<Wording, AllocError>
        ensures { IfOk result (λ words. IsSentence words) }
    {
        let mut words = Wording::new(alloc);
        words.count_in(quotation.base);
        self.push_words(&mut words, quotation, places)?;
        if words.as_slice().is_empty() {
            words.push(self.letter().meaning())?;
        }
        Ok(words)
    }

    fn push_words<P: Places>(
        &self,
        text: &mut Wording,
        quotation: Quotation<'_>,
        places: &P,
    ) -> Result<(), AllocError> {
        match self {
            Cause::Operation(fault) => fault.push_words(text, quotation),
            Cause::Location(fault) => fault.push_words(text, quotation),
            Cause::Definition(fault) => fault.push_words(text, places),
            Cause::Width(fault) => fault.push_words(text, quotation),
            Cause::Cut(fault) => fault.push_words(text),
            Cause::Symbol(fault) => fault.push_words(text, places),
            Cause::Operand(fault) => fault.push_words(text, quotation),
            Cause::Value(fault) => fault.push_words(text, quotation),
            Cause::Structure(fault) => fault.push_words(text, quotation, places),
            Cause::Limit(fault) => fault.push_words(text, quotation),
            Cause::General(letter) => text.push(letter.meaning()),
        }
    }
}

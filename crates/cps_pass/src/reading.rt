//! What a statement says.
ghost use Rattle.std.specs.Prelude.{◌≡◌, IfOk};
ghost use Rattle.cps_expr.specs.Statement.{row_with};
ghost use Rattle.cps_text.specs.Name.{name_of};
ghost use Rattle.cps_pass.specs.Code.Readings.{IsReading};
ghost use Rattle.cps_pass.specs.Reading.{symbol_or_none, location_in, row_or_none, instruction_in, reading_in};

use cps_code::{CpForm, FormFault, PpForm, cp_form, pp_form};
use cps_expr::{ExprFault, Machine, Operation, Radix, Stated};
use cps_text::Name;
use std::alloc::{AllocError, Global};

/// A location field.
#[derive(Clone, Copy, PartialEq, Eq)]
pub enum Location {
    Absent,
    /// `+`
    Plus,
    /// `-`
    Minus,
    Symbol(Name),
    /// None of these.
    NoSymbol,
}

/// An operation with its operands.
#[derive(Drop)]
pub enum Reading {
    /// The operation field is empty.
    Missing,
    /// The language doesn't have the operation: the macro of this name, None where it is no symbol.
    Unknown(Option<Name>),
    /// A statement of the statement table.
    Stated(Stated),
    /// An operation of the statement table with operands that don't fit.
    Unreadable(Operation),
    /// An instruction of the central processor; None where its operands are unreadable.
    Instruction(Option<CpForm>),
    /// An instruction of a peripheral processor; None where its operands are unreadable.
    Peripheral(Option<PpForm>),
}

/// What a location field says.
pub fn read_location(field: &[u8]) -> Location
    ensures { result ≡ location_in field.now }
{
    match field {
        [] => Location::Absent,
        [b'+'] => Location::Plus,
        [b'-'] => Location::Minus,
        _ => symbol_or_none(field),
    }
}

fn symbol_or_none(field: &[u8]) -> Location
    ensures { result ≡ symbol_or_none (name_of field.now) }
{
    match Name::read(field) {
        Some(name) => Location::Symbol(name),
        None => Location::NoSymbol,
    }
}

/// What an operation says with the operands of its tail, in a program for a machine, under a base of numbers.
pub fn read_operation(
    alloc: Global,
    operation: &[u8],
    tail: &[u8],
    machine: Machine,
    radix: Radix,
) -> Result<Reading, AllocError>
    ensures reading { IfOk result (λ reading. reading ≡ reading_in machine radix operation.now tail.now) }
    ensures bounded { IfOk result (IsReading machine) }
{
    if operation.is_empty() {
        return Ok(Reading::Missing);
    }
    if let Some(named) = Operation::named(operation) {
        return read_statement(alloc, named, tail, machine, radix);
    }
    match machine {
        Machine::Cp => read_instruction(alloc, operation, tail, radix),
        Machine::Pp => read_peripheral(alloc, operation, tail, radix),
    }
}

/// An instruction of the central processor.
fn read_instruction(
    alloc: Global,
    operation: &[u8],
    tail: &[u8],
    radix: Radix,
) -> Result<Reading, AllocError>
    ensures reading { IfOk result (λ reading. reading ≡ instruction_in Machine.Cp radix operation.now tail.now) }
    ensures bounded { IfOk result (IsReading Machine.Cp) }
{
    match cp_form(alloc, operation, tail, radix) {
        Ok(form) => Ok(Reading::Instruction(Some(form))),
        Err(FormFault::Unreadable) => Ok(Reading::Instruction(None)),
        Err(FormFault::NoOperation) => Ok(Reading::Unknown(Name::read(operation))),
        Err(FormFault::Memory) => Err(AllocError),
    }
}

/// An instruction of a peripheral processor.
#[inline(never)]
fn read_peripheral(
    alloc: Global,
    operation: &[u8],
    tail: &[u8],
    radix: Radix,
) -> Result<Reading, AllocError>
    ensures reading { IfOk result (λ reading. reading ≡ instruction_in Machine.Pp radix operation.now tail.now) }
    ensures bounded { IfOk result (IsReading Machine.Pp) }
{
    match pp_form(alloc, operation, tail, radix) {
        Ok(form) => Ok(Reading::Peripheral(Some(form))),
        Err(FormFault::Unreadable) => Ok(Reading::Peripheral(None)),
        Err(FormFault::NoOperation) => Ok(Reading::Unknown(Name::read(operation))),
        Err(FormFault::Memory) => Err(AllocError),
    }
}

fn read_statement(
    alloc: Global,
    named: Operation,
    tail: &[u8],
    machine: Machine,
    radix: Radix,
) -> Result<Reading, AllocError>
    ensures reading { IfOk result (λ reading. reading ≡ row_or_none named (row_with named tail.now machine radix)) }
    ensures bounded { IfOk result (IsReading machine) }
{
    match Stated::read(alloc, named, tail, machine, radix) {
        Ok(stated) => Ok(Reading::Stated(stated)),
        Err(ExprFault::Unreadable) => Ok(Reading::Unreadable(named)),
        Err(ExprFault::Memory) => Err(AllocError),
    }
}

//! Location fields and operation fields: L, D, O.

use crate::asks::Asks;
use crate::cause::Cause;
use crate::definition_fault::DefinitionFault;
use crate::findings::Findings;
use crate::left_out::LeftOut;
use crate::letter::Letter;
use crate::location_fault::LocationFault;
use crate::near::near_operation;
use crate::operation_fault::OperationFault;
use crate::statement::FlaggedStatement;
use cps_code::is_builtin;
use cps_expr::{Machine, Operation};
use cps_pass::{Location, Reading};
use cps_state::{Key, Lookup, Recorder, value_of};
use cps_text::Name;
use std::alloc::{AllocError, Global};

/// What is wrong with the location field of a statement that is assembled.
pub fn find_location(
    findings: &mut Findings,
    statement: &FlaggedStatement<'_>,
    reading: &Reading,
) -> Result<(), AllocError> {
    let fault = match reading {
        Reading::Missing => return Ok(()),
        Reading::Unknown(_) => LocationFault::OfCall,
        Reading::Instruction(_) | Reading::Peripheral(_) => LocationFault::NoSymbol,
        Reading::Stated(_) | Reading::Unreadable(_) => {
            fault_of(Operation::named(statement.card.operation_text()), statement)
        }
    };
    findings.add(
        Cause::Location(fault),
        statement.card.location_or_operation(),
    )
}

/// What is wrong with the location field of an operation of the statement table, if something is.
fn fault_of(operation: Option<Operation>, statement: &FlaggedStatement<'_>) -> LocationFault {
    match operation {
        Some(Operation::Equate | Operation::Set) => LocationFault::NeedsSymbol,
        Some(Operation::Macro) => match statement.location() {
            Location::Symbol(_) => LocationFault::NameTaken,
            _ => LocationFault::NeedsMacroName,
        },
        Some(
            Operation::Bss
            | Operation::Bssz
            | Operation::Con
            | Operation::Data
            | Operation::Vfd
            | Operation::Dis,
        ) => LocationFault::NoSymbol,
        _ => LocationFault::NotTaken,
    }
}

/// The symbol of a location field that has a value already.
pub fn find_definition(
    recorder: &Recorder<'_, Asks>,
    findings: &mut Findings,
    statement: &FlaggedStatement<'_>,
) -> Result<(), AllocError> {
    let Location::Symbol(name) = statement.location() else {
        return Ok(());
    };
    if !findings.wants(Letter::D) {
        return Ok(());
    }
    let label = value_of(recorder.peek(&Key::Label(name)));
    let fault = match Operation::named(statement.card.operation_text()) {
        Some(Operation::Set) => DefinitionFault::NotFromSet(name),
        _ if label.is_some() => DefinitionFault::HasValue(name),
        _ => DefinitionFault::HasSetting(name),
    };
    findings.add(
        Cause::Definition(fault),
        statement.card.location_or_operation(),
    )
}

/// What is wrong with an operation field.
pub fn find_operation(
    findings: &mut Findings,
    statement: &FlaggedStatement<'_>,
    reading: &Reading,
) -> Result<(), AllocError> {
    match reading {
        Reading::Missing => findings.add(
            Cause::Operation(OperationFault::Missing),
            statement.card.location_or_operation(),
        ),
        Reading::Unknown(name) => findings.add(
            Cause::Operation(unknown_operation(findings.alloc(), statement, *name)?),
            statement.card.operation_or_all(),
        ),
        _ => Ok(()),
    }
}

fn unknown_operation(
    alloc: Global,
    statement: &FlaggedStatement<'_>,
    name: Option<Name>,
) -> Result<OperationFault, AllocError> {
    let written = statement.card.operation_text();
    if is_builtin(written) {
        return Ok(match statement.control.machine {
            Machine::Cp => OperationFault::Peripheral(near_operation(alloc, statement)?),
            Machine::Pp => OperationFault::Central,
        });
    }
    let Some(name) = name else {
        return Ok(OperationFault::NoName);
    };
    if statement.finals.state().ask(&Key::Macro(name)).is_some() {
        return Ok(OperationFault::DefinedBelow);
    }
    match LeftOut::named(written) {
        Some(left_out) => Ok(OperationFault::LeftOut(left_out)),
        None => Ok(OperationFault::Unknown(near_operation(alloc, statement)?)),
    }
}

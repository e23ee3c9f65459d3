//! The causes of a statement's flags.

use crate::asks::Asks;
use crate::calls::find_call;
use crate::findings::Findings;
use crate::forms::{find_central, find_peripheral};
use crate::locations::{find_definition, find_location, find_operation};
use crate::statement::FlaggedStatement;
use crate::structure::{
    find_after_end, find_continued, find_end, find_structure, find_unassembled,
};
use crate::unreadable::find_unreadable;
use crate::values_later::find_later;
use crate::values_now::find_now;
use cps_expr::Operation;
use cps_pass::{Reading, read_operation};
use cps_state::{Mode, Phase, Recorder};
use cps_text::{Fields, StatementFields};
use std::alloc::AllocError;

/// The causes of a statement's flags, before it is stepped.
pub fn find_causes(
    recorder: &Recorder<'_, Asks>,
    findings: &mut Findings,
    statement: &FlaggedStatement<'_>,
) -> Result<(), AllocError> {
    match statement.control.phase {
        Phase::AfterEnd => find_after_end(findings),
        _ => find_before_end(recorder, findings, statement),
    }
}

fn find_before_end(
    recorder: &Recorder<'_, Asks>,
    findings: &mut Findings,
    statement: &FlaggedStatement<'_>,
) -> Result<(), AllocError> {
    if statement.is_source && is_end(statement) {
        return find_end(findings, statement);
    }
    match statement.mode {
        Mode::Normal => match statement.card.fields {
            Fields::Comment => Ok(()),
            Fields::Continued => find_continued(findings, statement),
            Fields::Statement(fields) => find_assembled(recorder, findings, statement, fields),
        },
        _ => find_unassembled(findings, statement),
    }
}

fn is_end(statement: &FlaggedStatement<'_>) -> bool {
    match Operation::named(statement.card.operation_text()) {
        Some(Operation::End) => true,
        _ => false,
    }
}

/// The causes of the flags of a statement that is assembled. What it says is dropped by a call, whose proof stands once.
fn find_assembled(
    recorder: &Recorder<'_, Asks>,
    findings: &mut Findings,
    statement: &FlaggedStatement<'_>,
    fields: StatementFields<'_>,
) -> Result<(), AllocError> {
    let control = statement.control;
    let reading = read_operation(
        recorder.alloc(),
        fields.operation,
        fields.tail,
        control.machine,
        control.radix,
    )?;
    let found = find_stated(recorder, findings, statement, &reading);
    drop(reading);
    found
}

/// The causes of the flags of a statement that says this.
fn find_stated(
    recorder: &Recorder<'_, Asks>,
    findings: &mut Findings,
    statement: &FlaggedStatement<'_>,
    reading: &Reading,
) -> Result<(), AllocError> {
    find_operation(findings, statement, reading)?;
    find_location(findings, statement, reading)?;
    find_definition(recorder, findings, statement)?;
    find_structure(recorder, findings, statement, reading)?;
    find_in_operands(recorder, findings, statement, reading)?;
    find_later(recorder.alloc(), findings, statement)
}

fn find_in_operands(
    recorder: &Recorder<'_, Asks>,
    findings: &mut Findings,
    statement: &FlaggedStatement<'_>,
    reading: &Reading,
) -> Result<(), AllocError> {
    let alloc = recorder.alloc();
    match reading {
        Reading::Missing | Reading::Unknown(None) => Ok(()),
        Reading::Unknown(Some(name)) => find_call(recorder, findings, statement, *name),
        Reading::Stated(stated) => find_now(recorder, findings, statement, stated.row()),
        Reading::Unreadable(operation) => {
            find_unreadable(alloc, findings, statement, *operation)
        }
        Reading::Instruction(None) => find_central(alloc, findings, statement),
        Reading::Peripheral(None) => find_peripheral(alloc, findings, statement),
        Reading::Instruction(Some(_)) | Reading::Peripheral(Some(_)) => Ok(()),
    }
}

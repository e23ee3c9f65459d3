//! Where statements stand, and limits of what is open: E.

use crate::asks::Asks;
use crate::cause::Cause;
use crate::findings::Findings;
use crate::letter::Letter;
use crate::limit_fault::LimitFault;
use crate::location_fault::LocationFault;
use crate::statement::FlaggedStatement;
use crate::structure_fault::{OpenSpan, StructureFault};
use cps_expr::{Operation, Pseudo};
use cps_pass::Reading;
use cps_state::{DupBody, Extent, KeptLines, Key, Mode, OpenRange, Phase, Recorder, ranges_of};
use cps_text::limits::{MOST_BODY_LINES, MOST_CHARACTERS};
use std::alloc::AllocError;

/// What is wrong with where a statement stands that is assembled.
pub fn find_structure(
    recorder: &Recorder<'_, Asks>,
    findings: &mut Findings,
    statement: &FlaggedStatement<'_>,
    reading: &Reading,
) -> Result<(), AllocError> {
    if !findings.wants(Letter::E) {
        return Ok(());
    }
    let operation = match reading {
        Reading::Stated(_) | Reading::Unreadable(_) => {
            Operation::named(statement.card.operation_text())
        }
        _ => None,
    };
    let cause = match operation {
        Some(Operation::Ident) => late_ident(statement.control.phase),
        Some(Operation::Abs | Operation::Periph) => late_machine(statement.control.phase),
        Some(Operation::Compare(_) | Operation::If) => Some(Cause::Limit(LimitFault::Ranges)),
        Some(Operation::Else) => else_fault(recorder, statement)?,
        Some(Operation::Endif) => Some(Cause::Structure(StructureFault::NoRange)),
        Some(Operation::Local) => Some(Cause::Structure(StructureFault::LateLocal)),
        Some(Operation::Endd) => Some(Cause::Structure(StructureFault::NoLinesKept)),
        Some(Operation::Endm) if statement.is_source => {
            Some(Cause::Structure(StructureFault::NoLinesKept))
        }
        Some(Operation::Endm | Operation::Macro | Operation::End) => {
            Some(Cause::Structure(StructureFault::InExpansion))
        }
        Some(Operation::Use) => return find_new_block(findings, statement, reading),
        _ => None,
    };
    match cause {
        Some(cause) => findings.add(cause, statement.card.operation_or_all()),
        None => Ok(()),
    }
}

/// A named block too many.
fn find_new_block(
    findings: &mut Findings,
    statement: &FlaggedStatement<'_>,
    reading: &Reading,
) -> Result<(), AllocError> {
    match reading {
        Reading::Stated(stated) => match stated.row() {
            Pseudo::Use(_) => findings.add(
                Cause::Limit(LimitFault::Blocks),
                statement.card.variable(),
            ),
            _ => Ok(()),
        },
        _ => Ok(()),
    }
}

fn late_ident(phase: Phase) -> Option<Cause> {
    let fault = match phase {
        Phase::Head(head) if head.is_named => StructureFault::SecondIdent,
        Phase::Head(_) => return None,
        _ => StructureFault::LateIdent,
    };
    Some(Cause::Structure(fault))
}

fn late_machine(phase: Phase) -> Option<Cause> {
    let fault = match phase {
        Phase::Head(head) if head.is_declared => StructureFault::SecondMachine,
        Phase::Head(_) => return None,
        _ => StructureFault::LateMachine,
    };
    Some(Cause::Structure(fault))
}

/// Why ELSE may not stand where lines are assembled. What ranges an expansion has of its own isn't told.
fn else_fault(
    recorder: &Recorder<'_, Asks>,
    statement: &FlaggedStatement<'_>,
) -> Result<Option<Cause>, AllocError> {
    if !statement.is_source {
        return Ok(Some(Cause::Structure(StructureFault::NoRangeForElse)));
    }
    let ranges = ranges_of(recorder.peek(&Key::Ifs))?;
    let fault = match ranges.as_slice() {
        [OpenRange::BehindElse, ..] => StructureFault::SecondElse,
        _ => StructureFault::NoRange,
    };
    Ok(Some(Cause::Structure(fault)))
}

/// What is open in a mode, where something is.
pub fn open_in(mode: &Mode) -> OpenSpan {
    match mode {
        Mode::Normal => OpenSpan::Range,
        Mode::SkipLines(_) => OpenSpan::SkippedLines,
        Mode::SkipRange(_) => OpenSpan::SkippedRange,
        Mode::KeepMacro(_) => OpenSpan::Macro,
        Mode::KeepDup(_) => OpenSpan::Dup,
    }
}

/// What is wrong with END on a source line.
pub fn find_end(
    findings: &mut Findings,
    statement: &FlaggedStatement<'_>,
) -> Result<(), AllocError> {
    findings.add(
        Cause::Location(LocationFault::NotTaken),
        statement.card.location_or_operation(),
    )?;
    findings.add(
        Cause::Structure(StructureFault::EndOpen(open_in(statement.mode))),
        statement.card.operation_or_all(),
    )
}

/// What is wrong with a statement after END.
pub fn find_after_end(findings: &mut Findings) -> Result<(), AllocError> {
    findings.add_to_all(Cause::Structure(StructureFault::AfterEnd))
}

/// What is wrong with a line that would go on in the next one, or with a statement that is too long.
pub fn find_continued(
    findings: &mut Findings,
    statement: &FlaggedStatement<'_>,
) -> Result<(), AllocError> {
    let len = statement.card.text.len();
    let cause = if len > MOST_CHARACTERS {
        Cause::Limit(LimitFault::Characters(len))
    } else {
        Cause::Structure(StructureFault::Continued)
    };
    findings.add_to_all(cause)
}

/// What is wrong with a line that is skipped or kept.
pub fn find_unassembled(
    findings: &mut Findings,
    statement: &FlaggedStatement<'_>,
) -> Result<(), AllocError> {
    findings.add(
        Cause::Location(LocationFault::NotTaken),
        statement.card.location_or_operation(),
    )?;
    if !findings.wants(Letter::E) {
        return Ok(());
    }
    match statement.mode {
        Mode::Normal | Mode::SkipLines(_) => Ok(()),
        Mode::SkipRange(_) => findings.add(
            Cause::Structure(StructureFault::SecondElse),
            statement.card.operation_or_all(),
        ),
        Mode::KeepMacro(body) => find_kept_for_macro(findings, statement, body.kept),
        Mode::KeepDup(body) => find_kept_for_dup(findings, statement, *body),
    }
}

/// A line of a macro's body with E: it is the ENDM of one that is too long, or a MACRO, or a line too many.
fn find_kept_for_macro(
    findings: &mut Findings,
    statement: &FlaggedStatement<'_>,
    kept: KeptLines,
) -> Result<(), AllocError> {
    let cause = match Operation::named(statement.card.operation_text()) {
        Some(Operation::Endm) => Cause::Limit(LimitFault::Body),
        Some(Operation::Macro) => Cause::Structure(StructureFault::MacroInBody),
        _ => return find_line_not_kept(findings, kept),
    };
    findings.add(cause, statement.card.operation_or_all())
}

/// A line of a DUP with E: it is the last one where there are too many, or one too many.
fn find_kept_for_dup(
    findings: &mut Findings,
    statement: &FlaggedStatement<'_>,
    body: DupBody,
) -> Result<(), AllocError> {
    if !closes(statement, body.extent) {
        return find_line_not_kept(findings, body.kept);
    }
    if !body.kept.is_over {
        return Ok(());
    }
    findings.add(
        Cause::Limit(LimitFault::Body),
        statement.card.operation_or_all(),
    )
}

/// Whether a statement ends the lines of a DUP.
fn closes(statement: &FlaggedStatement<'_>, extent: Extent) -> bool {
    match extent {
        Extent::Counted(left) => left <= 1,
        Extent::ToEndd(0) => match Operation::named(statement.card.operation_text()) {
            Some(Operation::Endd) => true,
            _ => false,
        },
        Extent::ToEndd(_) => false,
    }
}

fn find_line_not_kept(findings: &mut Findings, kept: KeptLines) -> Result<(), AllocError> {
    if kept.lines < MOST_BODY_LINES {
        return Ok(());
    }
    findings.add_to_all(Cause::Limit(LimitFault::Line))
}

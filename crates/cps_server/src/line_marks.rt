//! The marks of a line.
ghost use Rattle.std.specs.Prelude.{◌≡◌, ◌<◌, [], ◌∷◌, length, map, IfOk, OnOk};
ghost use Rattle.cps_server.specs.Document.{source_of_text};
ghost use Rattle.cps_server.specs.Code.Keeping.{KeepsLine, Shows, ShowsFlags, ShowsMarks, fault_shown, flag_shown};

use crate::changed_names::ChangedNames;
use crate::document::Document;
use crate::lead::{FlaggedLine, Lead};
use crate::line_mark::LineMark;
use crate::mark_kind::MarkKind;
use cps_cause::{Columns, Diagnostic, Letter, LinesAbove, explain};
use cps_input::{CharacterFault, faults_of};
use cps_list::View;
use cps_text::Name;
use std::alloc::{AllocError, Global};

/// What a change may have changed of what words of marks tell of other lines.
#[derive(Drop)]
pub struct ChangedWords {
    /// Which names stand for something.
    pub names: ChangedNames,
    /// The numbers of lines, and which of them open what is open.
    pub numbers: bool,
}

impl ChangedWords {
    /// Whether there is nothing that words may tell otherwise.
    pub fn are_none(&self) -> bool {
        self.names.is_empty() && !self.numbers
    }
}

/// The marks of a line.
pub struct LineMarks {
    pub marks: Vec<LineMark>,
}

// Written out, as that of a mark.
impl Drop for LineMarks {
    fn drop(self) {
        let LineMarks { marks } = self;
        drop(marks);
    }
}

impl LineMarks {
    /// The marks of the line at a place of a document, from 0. Those of a line that a source may have take no memory where it has no flag.
    pub fn of(alloc: Global, document: &Document, place: usize) -> Result<LineMarks, AllocError>
        requires { place < length (source_of_text document.now) }
        ensures { IfOk result (KeepsLine document.now place) }
    {
        let number = place as u32;
        let mut marks = Vec::new(alloc);
        push_marks(alloc, document, number, &mut marks)?;
        Ok(LineMarks { marks })
    }

    /// Whether words of these marks may be other ones behind a change elsewhere. Those of a symbol or an operation that is none may tell a name that is near
    /// to it; those of flag E the number of a line; and those of a character that no line has whether the line is the first.
    pub fn rest_on(&self, changed: &ChangedWords) -> bool {
        for mark in &self.marks {
            let rests = match mark.kind {
                MarkKind::Flag(Letter::U) => changed.names.may_be_meant_by(mark.lacks),
                MarkKind::Flag(Letter::O) => !changed.names.is_empty(),
                MarkKind::Flag(Letter::E) | MarkKind::Wrong => changed.numbers,
                MarkKind::Flag(_) => false,
            };
            if rests {
                return true;
            }
        }
        false
    }
}

/// Appends the marks of a line of a document, whose number counts from 0.
fn push_marks(
    alloc: Global,
    document: &Document,
    number: u32,
    marks: &mut Vec<LineMark>,
) -> Result<(), AllocError>
    requires { number < length (source_of_text document.now) }
    ensures { OnOk result (ShowsMarks document.now number marks.old.items marks.new.items) }
{
    let line = document.source_line(number as usize);
    let faults = faults_of(alloc, line, number + 1)?;
    let found = faults.as_slice();
    if found.is_empty() {
        push_flags(alloc, document, number, marks)?;
        return Ok(());
    }
    push_faults(alloc, line, found, marks)?;
    Ok(())
}

/// Appends the marks of what is wrong in a line that no source may have.
fn push_faults(
    alloc: Global,
    line: &[u8],
    faults: &[CharacterFault],
    marks: &mut Vec<LineMark>,
) -> Result<(), AllocError>
    ensures { OnOk result (Shows (map fault_shown faults.now) marks.old.items marks.new.items) }
{
    for fault in faults {
        push_fault(alloc, line, fault, marks)?;
    }
    Ok(())
}

fn push_fault(
    alloc: Global,
    line: &[u8],
    fault: &CharacterFault,
    marks: &mut Vec<LineMark>,
) -> Result<(), AllocError>
    ensures { OnOk result (Shows (fault_shown fault.now ∷ []) marks.old.items marks.new.items) }
{
    let message = fault_message(alloc, line, fault)?;
    marks.push(LineMark {
        columns: Columns {
            first: fault.first,
            last: fault.last,
        },
        kind: MarkKind::Wrong,
        lead: Lead::Nowhere,
        lacks: None,
        message,
    })?;
    Ok(())
}

/// What is wrong in a line that no source may have.
fn fault_message(alloc: Global, line: &[u8], fault: &CharacterFault) -> Result<Vec<u8>, AllocError>
    ensures { IfOk result (λ message. 0 < length message.items) }
{
    let mut message = Vec::new(alloc);
    fault.push_words(line, &mut message)?;
    Ok(message)
}

/// Appends the marks of the flags of a line of a document. Where it has none, no memory is taken, and no cause is looked for.
fn push_flags(
    alloc: Global,
    document: &Document,
    number: u32,
    marks: &mut Vec<LineMark>,
) -> Result<(), AllocError>
    requires { number < length (source_of_text document.now) }
    ensures { OnOk result (ShowsFlags document.now number marks.old.items marks.new.items) }
{
    let session = document.session();
    let Some(card) = session.line(number + 1) else {
        unreachable!();
    };
    let Some(outcome) = session.outcome(number + 1) else {
        unreachable!();
    };
    if !outcome.flags().has_flag() {
        return Ok(());
    }
    let traces = session.traces();
    let trace = &traces[number as usize];
    let told = explain(alloc, card, trace, session.finals())?;
    let flagged = FlaggedLine {
        line: card.bytes(),
        number,
        trace,
        above: LinesAbove {
            traces: &traces[..number as usize],
        },
    };
    push_causes(alloc, &flagged, &told, marks)?;
    Ok(())
}

/// Appends the marks of causes of flags.
fn push_causes(
    alloc: Global,
    flagged: &FlaggedLine<'_>,
    told: &[Diagnostic],
    marks: &mut Vec<LineMark>,
) -> Result<(), AllocError>
    ensures { OnOk result (Shows (map flag_shown told.now) marks.old.items marks.new.items) }
{
    for diagnostic in told {
        push_cause(alloc, flagged, diagnostic, marks)?;
    }
    Ok(())
}

fn push_cause(
    alloc: Global,
    flagged: &FlaggedLine<'_>,
    told: &Diagnostic,
    marks: &mut Vec<LineMark>,
) -> Result<(), AllocError>
    ensures { OnOk result (Shows (flag_shown told.now ∷ []) marks.old.items marks.new.items) }
{
    let message = message_of(alloc, flagged, told)?;
    let lead = flagged.lead_of(told)?;
    let letter = told.cause.letter();
    let lacks = name_lacked(flagged.line, told);
    marks.push(LineMark {
        columns: told.columns,
        kind: MarkKind::Flag(letter),
        lead,
        lacks,
        message,
    })?;
    Ok(())
}

/// The symbol that has no value, where that is why a line has a flag, and if its columns write it.
fn name_lacked(line: &[u8], told: &Diagnostic) -> Option<Name> {
    if told.cause.letter() != Letter::U {
        return None;
    }
    let statement = told.statement.as_slice();
    let written = if statement.is_empty() {
        line
    } else {
        statement
    };
    Name::read(told.within.of(written))
}

/// Why a line has a flag; and in a second row the statement of its expansion that has it, where it isn't the line's own.
fn message_of(
    alloc: Global,
    flagged: &FlaggedLine<'_>,
    told: &Diagnostic,
) -> Result<Vec<u8>, AllocError>
    ensures { IfOk result (λ message. 0 < length message.items) }
{
    let words = told.words(alloc, flagged.line, &flagged.above)?;
    let mut message = words.into_bytes();
    let statement = told.statement.as_slice();
    if !statement.is_empty() {
        message.extend_from_slice(b"\nin its expansion: ")?;
        message.extend_from_slice(unindented(statement))?;
    }
    Ok(message)
}

/// A text from its first character on that is no blank.
pub fn unindented(text: &[u8]) -> &[u8] {
    match text {
        [b' ', rest @ ..] => unindented(rest),
        _ => text,
    }
}

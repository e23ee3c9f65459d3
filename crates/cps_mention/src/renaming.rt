//! What a rename asks for, and the edits that make it.
//!
//! Which edits are made is a guess. Whoever makes them assembles the source that they leave, and compares it by `is_same_but` and `line_named_otherwise`.
ghost use Rattle.std.specs.Prelude.{IfOk};
ghost use Rattle.cps_mention.specs.LineEdits.{AreLineEdits};

use crate::calling::Calling;
use crate::changed_line::change_line;
use crate::line_edit::{LineEdit, keep_fitting};
use crate::meaning::Meaning;
use crate::mention::Mention;
use crate::new_name::{fault_of_taken, read_new_name};
use crate::rename_fault::RenameFault;
use crate::stretch::Stretch;
use crate::written_names::WrittenNames;
use cps_list::View;
use std::alloc::{AllocError, Global};

/// What is renamed, and how.
#[derive(Clone, Copy)]
pub struct Renaming<'a> {
    pub meaning: Meaning,
    /// What it will be called, as it will be written.
    pub new_name: &'a [u8],
    /// Whether all that stands behind a name moves along. Else the next field stays in its column where there is room.
    pub keeps_gaps: bool,
}

impl<'a> Renaming<'a> {
    /// What it will be; None: it can't be called so.
    pub fn new_meaning(self) -> Option<Meaning> {
        match read_new_name(self.meaning, self.new_name) {
            Ok(meaning) => Some(meaning),
            Err(_) => None,
        }
    }

    /// What symbols will be called.
    pub fn calling(self) -> Calling {
        match (self.meaning, self.new_meaning()) {
            (Meaning::Symbol(from), Some(Meaning::Symbol(to))) => Calling::Renamed { from, to },
            _ => Calling::Same,
        }
    }
}

/// The edits that make a rename, from the last line to the first, or why it is refused. What is renamed is what `name_at` tells.
pub fn rename_edits<V: View>(
    alloc: Global,
    view: &V,
    names: &WrittenNames,
    renaming: Renaming<'_>,
) -> Result<Result<Vec<LineEdit>, RenameFault>, AllocError>
    ensures { IfOk result (λ made. IfOk made (λ edits. AreLineEdits (V.assembly view.now).lines edits.items)) }
{
    match plan_edits(alloc, view, names, renaming)? {
        Ok(planned) => {
            let edits = keep_fitting(alloc, view, planned)?;
            Ok(Ok(edits))
        }
        Err(fault) => Ok(Err(fault)),
    }
}

fn plan_edits<V: View>(
    alloc: Global,
    view: &V,
    names: &WrittenNames,
    renaming: Renaming<'_>,
) -> Result<Result<Vec<LineEdit>, RenameFault>, AllocError> {
    let meaning = match read_new_name(renaming.meaning, renaming.new_name) {
        Ok(meaning) => meaning,
        Err(fault) => return Ok(Err(fault)),
    };
    if let Some(fault) = fault_of_taken(alloc, view, names, renaming.meaning, meaning)? {
        return Ok(Err(fault));
    }
    let columns = columns_of(alloc, &names.mentions, renaming.meaning)?;
    edit_lines(alloc, view, &columns, renaming)
}

/// The columns that write a name, each once, in order.
fn columns_of(
    alloc: Global,
    mentions: &[Mention],
    meaning: Meaning,
) -> Result<Vec<Stretch>, AllocError> {
    let mut columns = Vec::new(alloc);
    for mention in mentions {
        if mention.meaning == meaning {
            for stretch in mention.written.as_slice() {
                if columns.last().copied() != Some(*stretch) {
                    columns.push(*stretch)?;
                }
            }
        }
    }
    Ok(columns)
}

/// An edit of each line, from the last to the first.
fn edit_lines<V: View>(
    alloc: Global,
    view: &V,
    columns: &[Stretch],
    renaming: Renaming<'_>,
) -> Result<Result<Vec<LineEdit>, RenameFault>, AllocError> {
    let mut edits = Vec::new(alloc);
    let mut end = columns.len();
    for passed in 0..columns.len() {
        let start = columns.len() - 1 - passed;
        if begins_line(columns, start) {
            let last = end.min(columns.len());
            match edit_line(alloc, view, &columns[start.min(last)..last], renaming)? {
                Ok(edit) => edits.push(edit)?,
                Err(fault) => return Ok(Err(fault)),
            }
            end = start;
        }
    }
    Ok(Ok(edits))
}

/// Whether columns are the first of their line.
fn begins_line(columns: &[Stretch], at: usize) -> bool {
    match (columns.get(at.wrapping_sub(1)), columns.get(at)) {
        (Some(before), Some(stretch)) => before.line != stretch.line,
        _ => true,
    }
}

/// The edit of a line that has these columns.
fn edit_line<V: View>(
    alloc: Global,
    view: &V,
    columns: &[Stretch],
    renaming: Renaming<'_>,
) -> Result<Result<LineEdit, RenameFault>, AllocError> {
    let number = match columns.first() {
        Some(stretch) => stretch.line,
        None => 0,
    };
    if let Some(line) = view.line(number) {
        let was = line.bytes();
        let changed = change_line(alloc, was, columns, renaming.new_name, renaming.keeps_gaps)?;
        if let Some(is) = changed {
            let edit = LineEdit::between(alloc, number, was, &is)?;
            return Ok(Ok(edit));
        }
    }
    Ok(Err(RenameFault::NoRoom { line: number }))
}

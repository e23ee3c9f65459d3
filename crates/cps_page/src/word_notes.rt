//! What is told beside a word: its label, and the statements that made it.

use crate::code_rows::{CodeRow, CodeRows};
use crate::statement_fields::code_fields;
use cps_list::{View, fill_columns};
use cps_markup::DigitLines;
use std::alloc::AllocError;

/// The columns of a label.
const LABEL_COLUMNS: usize = 9;

/// What the words of a source are told from, beside itself.
#[derive(Clone, Copy)]
pub struct WordMakers<'a> {
    pub rows: &'a CodeRows,
    pub makers: &'a DigitLines,
}

/// Writes over a note the label of the word at an address and the statements that made it; nothing where no line made it.
pub fn fill_note<V: View>(
    note: &mut Vec<u8>,
    view: &V,
    made: &WordMakers<'_>,
    address: u32,
) -> Result<(), AllocError> {
    note.clear();
    let lines = made.makers.of_word(address);
    let mut passed = None;
    for _ in 0..made.rows.count() {
        let Some(next) = made.rows.next_at(address as usize, passed) else {
            break;
        };
        let row = made.rows.row(next);
        if lines.contains(&row.line) {
            push_statement(note, statement_of(view, row), row.is_later)?;
        }
        passed = Some(next);
    }
    if !note.is_empty() {
        return Ok(());
    }
    push_whole(note, view, lines)
}

/// The text of the statement of a row.
fn statement_of<V: View>(view: &V, row: CodeRow) -> &[u8] {
    let Some(outcome) = view.outcome(row.line) else {
        return b"";
    };
    match outcome.rows().get(row.statement as usize) {
        Some(statement) if statement.depth > 0 => statement.text.as_slice(),
        _ => line_text(view, row.line),
    }
}

fn line_text<V: View>(view: &V, number: u32) -> &[u8] {
    match view.line(number) {
        Some(line) => line.bytes(),
        None => b"",
    }
}

/// Appends the statement of the line that made a word of zeros, which has no row of its own.
fn push_whole<V: View>(note: &mut Vec<u8>, view: &V, lines: &[u32]) -> Result<(), AllocError> {
    match lines.first() {
        Some(line) if *line > 0 => push_statement(note, line_text(view, *line), true),
        _ => Ok(()),
    }
}

/// Appends a statement, behind what others are told. The first has its label before it, unless the word isn't its first.
fn push_statement(note: &mut Vec<u8>, text: &[u8], is_later: bool) -> Result<(), AllocError> {
    let fields = code_fields(text);
    if note.is_empty() {
        if !is_later {
            note.extend_from_slice(between(text, 0, fields.location_end))?;
        }
        fill_columns(note, 0, LABEL_COLUMNS)?;
    } else {
        note.extend_from_slice(b" | ")?;
    }
    note.extend_from_slice(between(text, fields.operation, fields.operation_end))?;
    if fields.operands < fields.operands_end.min(text.len()) {
        note.push(b' ')?;
        note.extend_from_slice(between(text, fields.operands, fields.operands_end))?;
    }
    Ok(())
}

/// The characters behind so many, up to so many.
fn between(text: &[u8], before: usize, behind: usize) -> &[u8] {
    let (front, _) = text.split_at(behind.min(text.len()));
    front.split_at(before.min(front.len())).1
}

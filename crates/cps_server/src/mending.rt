//! Characters in lines that no line has, and how they are mended.

use crate::action::{Action, LineEdit};
use crate::document::Document;
use crate::mentions::line_of;
use cps_rpc::Range;
use std::alloc::{AllocError, Global};

/// How many columns a line has.
const MOST_COLUMNS: usize = 90;

/// Appends what mends characters of the lines of a range: blanks for tabs, line ends for lone carriage returns, and no column behind 90.
pub fn push_mended(
    alloc: Global,
    actions: &mut Vec<Action>,
    document: &Document,
    range: Range,
) -> Result<(), AllocError> {
    let mut tabs = Vec::new(alloc);
    let mut returns = Vec::new(alloc);
    let mut excess = Vec::new(alloc);
    for number in range.start.line..end_of(document, range) {
        let line = line_of(document, number);
        push_tabs(alloc, &mut tabs, number, line)?;
        push_returns(alloc, &mut returns, number, line)?;
        push_excess(alloc, &mut excess, number, line)?;
    }
    push_some(alloc, actions, b"Put blanks in the place of tabs", tabs)?;
    push_some(alloc, actions, b"End lines at carriage returns", returns)?;
    push_some(alloc, actions, b"Cut lines behind column 90", excess)
}

/// Where the lines of a range end in a document.
pub fn end_of(document: &Document, range: Range) -> u32 {
    let count = u32::try_from(document.source_len()).unwrap_or(u32::MAX);
    count.min(range.end.line.saturating_add(1))
}

/// Appends edits as an action, if there are some.
fn push_some(
    alloc: Global,
    actions: &mut Vec<Action>,
    title: &[u8],
    edits: Vec<LineEdit>,
) -> Result<(), AllocError> {
    if !edits.is_empty() {
        actions.push(Action::with(alloc, title, &[], edits)?)?;
    }
    Ok(())
}

/// Appends blanks in the place of each tab of a line.
fn push_tabs(
    alloc: Global,
    edits: &mut Vec<LineEdit>,
    number: u32,
    line: &[u8],
) -> Result<(), AllocError> {
    let mut column: usize = 1;
    for (at, byte) in line.iter().enumerate() {
        if *byte == b'\t' {
            let next = next_stop(column);
            edits.push(LineEdit {
                line: number,
                start: at,
                end: at.saturating_add(1),
                text: blanks(alloc, next.saturating_sub(column))?,
            })?;
            column = next;
        } else if begins_character(*byte) {
            column = column.saturating_add(1);
        }
    }
    Ok(())
}

/// The column to which a tab in a column goes: the next of 11, 18 and 30, and behind that of each eighth.
fn next_stop(column: usize) -> usize {
    if column < 11 {
        11
    } else if column < 18 {
        18
    } else if column < 30 {
        30
    } else {
        let behind = column.saturating_sub(30) % 8;
        column.saturating_add(8).saturating_sub(behind)
    }
}

/// So many blanks, up to a line of them.
fn blanks(alloc: Global, count: usize) -> Result<Vec<u8>, AllocError> {
    let mut text = Vec::new(alloc);
    for _blank in 0..count.min(MOST_COLUMNS) {
        text.push(b' ')?;
    }
    Ok(text)
}

/// Whether a byte is the first of a character.
fn begins_character(byte: u8) -> bool {
    byte < 0x80 || byte >= 0xc0
}

/// Appends a line end in the place of each carriage return of a line.
fn push_returns(
    alloc: Global,
    edits: &mut Vec<LineEdit>,
    number: u32,
    line: &[u8],
) -> Result<(), AllocError> {
    for (at, byte) in line.iter().enumerate() {
        if *byte == b'\r' {
            edits.push(LineEdit {
                line: number,
                start: at,
                end: at.saturating_add(1),
                text: b"\n".to_vec(alloc)?,
            })?;
        }
    }
    Ok(())
}

/// Appends that all behind column 90 of a line goes.
fn push_excess(
    alloc: Global,
    edits: &mut Vec<LineEdit>,
    number: u32,
    line: &[u8],
) -> Result<(), AllocError> {
    if let Some(start) = excess_in(line) {
        edits.push(LineEdit {
            line: number,
            start,
            end: line.len(),
            text: Vec::new(alloc),
        })?;
    }
    Ok(())
}

/// Where the character behind column 90 begins.
fn excess_in(line: &[u8]) -> Option<usize> {
    let mut columns: usize = 0;
    for (at, byte) in line.iter().enumerate() {
        if begins_character(*byte) {
            if columns >= MOST_COLUMNS {
                return Some(at);
            }
            columns = columns.saturating_add(1);
        }
    }
    None
}

//! What closes lines that are open where a program ends.

use crate::action::{Action, LineEdit};
use crate::document::Document;
use crate::line_state::{Handling, LineState};
use crate::mentions::line_of;
use cps_cause::opener_of;
use cps_rpc::Range;
use std::alloc::{AllocError, Global};

/// Where a program ends: so many lines stand above, whether END is the next one, and what is done with it.
#[derive(Clone, Copy)]
struct ProgramEnd {
    above: usize,
    is_written: bool,
    state: LineState,
}

/// Appends what closes the lines that are open where the program ends, if the end or the line that opened them is in a range.
pub fn push_closing(
    alloc: Global,
    actions: &mut Vec<Action>,
    document: &Document,
    range: Range,
) -> Result<(), AllocError> {
    let end = end_in(document)?;
    let Some(operation) = closing(end.state) else {
        return Ok(());
    };
    let traces = document.session().traces();
    let opener = opener_of(&traces[..end.above.min(traces.len())]);
    if !has_line(range, Some(last_line(end))) && !has_line(range, opener) {
        return Ok(());
    }
    let edit = closing_edit(alloc, document, end, operation)?;
    let title = if end.is_written {
        b"Close the open lines in front of END by ".as_slice()
    } else {
        b"Close the open lines behind the last one by ".as_slice()
    };
    actions.push(Action::of(alloc, title, operation, edit)?)?;
    Ok(())
}

/// Where the program ends.
fn end_in(document: &Document) -> Result<ProgramEnd, AllocError> {
    let mut end = ProgramEnd {
        above: 0,
        is_written: false,
        state: LineState::new(),
    };
    for trace in document.session().traces() {
        let behind = end.state.behind(trace.puts())?;
        if behind.has_ended {
            end.is_written = true;
            return Ok(end);
        }
        end.state = behind;
        end.above = end.above.saturating_add(1);
    }
    Ok(end)
}

/// The line of END, or the last line where there is none, from 0.
fn last_line(end: ProgramEnd) -> usize {
    if end.is_written {
        end.above
    } else {
        end.above.saturating_sub(1)
    }
}

/// The operation that closes what is open.
fn closing(state: LineState) -> Option<&'static [u8]> {
    match state.handling {
        Handling::KeptForMacro => Some(b"ENDM"),
        Handling::KeptForDup => Some(b"ENDD"),
        Handling::SkippedInRange(_) => Some(b"ENDIF"),
        Handling::Assembled if state.depth() > 0 => Some(b"ENDIF"),
        Handling::Assembled | Handling::Skipped(_) | Handling::KeptByCount => None,
    }
}

/// Whether a range has a line.
fn has_line(range: Range, line: Option<usize>) -> bool {
    match line {
        Some(line) => { range.start.line as usize <= line && line <= range.end.line as usize }
        None => false,
    }
}

/// An operation in a line of its own.
fn closing_edit(
    alloc: Global,
    document: &Document,
    end: ProgramEnd,
    operation: &[u8],
) -> Result<LineEdit, AllocError> {
    let line = u32::try_from(last_line(end)).unwrap_or(u32::MAX);
    let mut text = Vec::new(alloc);
    if end.is_written {
        text.extend_from_slice(b"          ")?;
        text.extend_from_slice(operation)?;
        text.push(b'\n')?;
    } else {
        text.extend_from_slice(b"\n          ")?;
        text.extend_from_slice(operation)?;
    }
    let at = if end.is_written {
        0
    } else {
        line_of(document, line).len()
    };
    Ok(LineEdit {
        line,
        start: at,
        end: at,
        text,
    })
}

//! The edits that put the fields of lines into columns.
//!
//! That nothing else changes by them is a guess. Whoever makes them assembles the source that they leave, and compares it by `is_same_but`.
ghost use Rattle.std.specs.Prelude.{IfOk};
ghost use Rattle.cps_mention.specs.LineEdits.{AreLineEdits};

use crate::field_columns::FieldColumns;
use crate::formatted_line::format_line;
use crate::line_edit::{LineEdit, keep_fitting};
use cps_list::View;
use std::alloc::{AllocError, Global};

/// Lines of a source, from one, which is counted from 1, through another.
#[derive(Clone, Copy)]
pub struct LineRange {
    pub first: u32,
    pub last: u32,
}

/// The edits that put the fields of lines into the columns where the source has them, from the last line to the first.
pub fn format_edits<V: View>(
    alloc: Global,
    view: &V,
    lines: LineRange,
) -> Result<Vec<LineEdit>, AllocError>
    ensures { IfOk result (λ edits. AreLineEdits (V.assembly view.now).lines edits.items) }
{
    let planned = plan_formats(alloc, view, lines)?;
    keep_fitting(alloc, view, planned)
}

fn plan_formats<V: View>(
    alloc: Global,
    view: &V,
    lines: LineRange,
) -> Result<Vec<LineEdit>, AllocError> {
    let columns = FieldColumns::of(alloc, view)?;
    let last = lines.last.min(view.count());
    let mut edits = Vec::new(alloc);
    for passed in 0..last {
        let number = last - passed;
        if number < lines.first {
            return Ok(edits);
        }
        if let Some(edit) = plan_format(alloc, view, number, columns)? {
            edits.push(edit)?;
        }
    }
    Ok(edits)
}

/// The edit of a line; None: it stays.
fn plan_format<V: View>(
    alloc: Global,
    view: &V,
    number: u32,
    columns: FieldColumns,
) -> Result<Option<LineEdit>, AllocError> {
    let Some(line) = view.line(number) else {
        return Ok(None);
    };
    let was = line.bytes();
    let Some(is) = format_line(alloc, was, columns)? else {
        return Ok(None);
    };
    let edit = LineEdit::between(alloc, number, was, &is)?;
    Ok(Some(edit))
}

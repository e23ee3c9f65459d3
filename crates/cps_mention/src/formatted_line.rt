//! A line with its fields in columns.
ghost use Rattle.std.specs.Prelude.{◌≡◌, IfOk, IfSome};
ghost use Rattle.cps_mention.specs.Spacing.{unblanked};

use crate::field_columns::FieldColumns;
use crate::line_fields::LineFields;
use crate::line_gaps::LAST_COLUMN;
use crate::spacing::is_same_unblanked;
use cps_text::limits::MOST_CHARACTERS;
use std::alloc::{AllocError, Global};

/// Before the last column in which operands begin stand so many.
const MOST_BEFORE_OPERANDS: usize = 28;

/// Before a comment without operands stand so many columns at least.
const LEAST_BEFORE_COMMENT: usize = 29;

/// A line with its fields in columns. None: it stays, since it is no statement, has its fields there, or has no room.
pub fn format_line(
    alloc: Global,
    text: &[u8],
    columns: FieldColumns,
) -> Result<Option<Vec<u8>>, AllocError>
    ensures { IfOk result (λ made. IfSome made (λ line. unblanked line.items ≡ unblanked text.now)) }
{
    let Some(fields) = LineFields::of(text) else {
        return Ok(None);
    };
    let Some(line) = place_fields(alloc, fields, columns)? else {
        return Ok(None);
    };
    if line.as_slice() != text && is_same_unblanked(alloc, text, &line)? {
        Ok(Some(line))
    } else {
        Ok(None)
    }
}

/// Fields in columns. None: there is no room.
fn place_fields(
    alloc: Global,
    fields: LineFields<'_>,
    columns: FieldColumns,
) -> Result<Option<Vec<u8>>, AllocError> {
    let mut line = Vec::with_capacity(alloc, MOST_CHARACTERS)?;
    line.extend_from_slice(fields.location)?;
    put_behind(&mut line, columns.operation, fields.operation.text)?;
    if !fields.operands.text.is_empty() {
        if line.len() >= MOST_BEFORE_OPERANDS {
            return Ok(None);
        }
        put_behind(&mut line, columns.operands, fields.operands.text)?;
    }
    if !fields.comment.text.is_empty() {
        let before = before_comment(line.len(), fields, columns.comment);
        fill_to(&mut line, before)?;
        line.extend_from_slice(fields.comment.text)?;
    }
    if line.len() > LAST_COLUMN {
        return Ok(None);
    }
    if !fields.rest.is_empty() {
        fill_to(&mut line, LAST_COLUMN)?;
        line.extend_from_slice(fields.rest)?;
    }
    Ok(Some(line))
}

/// How many columns stand before a comment behind so many others. One that stands one blank behind operands stays there; others move to the left so that they
/// end in column 72, but not to one blank.
fn before_comment(len: usize, fields: LineFields<'_>, column: usize) -> usize {
    let end = LAST_COLUMN.saturating_sub(fields.comment.text.len());
    let wanted = column.min(end);
    if fields.operands.text.is_empty() {
        wanted.max(len.saturating_add(1)).max(LEAST_BEFORE_COMMENT)
    } else if fields.gap < 2 {
        len.saturating_add(fields.gap)
    } else {
        wanted.max(len.saturating_add(2))
    }
}

/// Puts a field behind so many columns; where these are taken, one blank behind them.
fn put_behind(line: &mut Vec<u8>, before: usize, field: &[u8]) -> Result<(), AllocError> {
    if line.len() < before {
        fill_to(line, before)?;
    } else {
        line.push(b' ')?;
    }
    line.extend_from_slice(field)
}

/// Blanks up to a place.
fn fill_to(line: &mut Vec<u8>, place: usize) -> Result<(), AllocError> {
    for _blank in line.len()..place {
        line.push(b' ')?;
    }
    Ok(())
}

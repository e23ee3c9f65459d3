//! The fields of a statement as they move.

use crate::line_gaps::{LAST_COLUMN, operands_end};
use crate::placed_text::PlacedText;
use cps_cause::{Card, filled_len};

/// The fields of a statement as they move: each whole, and without blanks at its ends.
#[derive(Clone, Copy)]
pub struct LineFields<'a> {
    /// The location field with the blanks before it; nothing where there is none.
    pub location: &'a [u8],
    pub operation: PlacedText<'a>,
    /// Nothing where there are none.
    pub operands: PlacedText<'a>,
    /// How many blanks stand before the comment.
    pub gap: usize,
    /// Nothing where there is none.
    pub comment: PlacedText<'a>,
    /// Columns 73 on; nothing where they are blank.
    pub rest: &'a [u8],
}

impl<'a> LineFields<'a> {
    /// Of a line. None: it has no operation.
    pub fn of(text: &'a [u8]) -> Option<LineFields<'a>> {
        let card = Card::of(text);
        let operation = card.operation?;
        let read = PlacedText {
            text: &text[..text.len().min(LAST_COLUMN)],
            before: 0,
        };
        let location_end = match card.location {
            Some(columns) => columns.last,
            None => 0,
        };
        let (start, end) = if card.tail().is_empty() {
            (operation.last, operation.last)
        } else {
            (card.before_tail, operands_end(&card))
        };
        let gap = blanks_from(read.text, end);
        Some(LineFields {
            location: read.cut(0, location_end).text,
            operation: read.cut(operation.first.saturating_sub(1), operation.last),
            operands: filled(read.cut(start, end)),
            gap,
            comment: filled(read.cut(end.saturating_add(gap), LAST_COLUMN)),
            rest: rest_of(text),
        })
    }
}

/// How many blanks stand from a place of a text on.
fn blanks_from(text: &[u8], place: usize) -> usize {
    let start = place.min(text.len());
    match text[start..].iter().position(|byte| *byte != b' ') {
        Some(blanks) => blanks,
        None => 0,
    }
}

/// The same without the blanks at its end.
fn filled(text: PlacedText<'_>) -> PlacedText<'_> {
    text.cut(0, filled_len(text.text))
}

/// Columns 73 on.
fn rest_of(text: &[u8]) -> &[u8] {
    let rest = &text[text.len().min(LAST_COLUMN)..];
    if filled_len(rest) == 0 { &[] } else { rest }
}

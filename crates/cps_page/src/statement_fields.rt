//! The fields of a statement that has a code.

use cps_markup::LineFields;

/// An operation begins behind so many columns, and operands behind no more than so many; behind the last column nothing is read.
const BEFORE_OPERATION: usize = 2;

const BEFORE_COMMENT: usize = 29;

const LAST_COLUMN: usize = 72;

/// The fields of a statement that has a code. Blanks are no part of operands, but in characters of DATA and DIS.
pub fn code_fields(text: &[u8]) -> LineFields {
    let begin = blanks_end(text, 0);
    let mut location_end = 0;
    let mut operation = begin;
    if begin < BEFORE_OPERATION {
        location_end = word_end(text, begin);
        operation = blanks_end(text, location_end);
    }
    let operation_end = word_end(text, operation);
    if matches!(text.get(operation), Some(b'D' | b'd')) {
        return LineFields::of(text);
    }
    let operands = blanks_end(text, operation_end);
    LineFields {
        location_end,
        operation,
        operation_end,
        operands,
        operands_end: if operands > BEFORE_COMMENT {
            operands
        } else {
            word_end(text, operands).min(LAST_COLUMN)
        },
    }
}

/// How many characters stand before the first behind so many that is not blank.
fn blanks_end(text: &[u8], from: usize) -> usize {
    let mut at = from;
    for character in text.split_at(from.min(text.len())).1 {
        if *character != b' ' {
            return at;
        }
        at = at.saturating_add(1);
    }
    at
}

/// How many characters stand before the first blank behind so many.
fn word_end(text: &[u8], from: usize) -> usize {
    let mut at = from;
    for character in text.split_at(from.min(text.len())).1 {
        if *character == b' ' {
            return at;
        }
        at = at.saturating_add(1);
    }
    at
}

//! The fields of a line, as they are painted.

/// The columns of a line that are read.
const LAST_COLUMN: usize = 72;

/// The columns before the operands, where a line without a word there has a comment.
const BEFORE_COMMENT: usize = 29;

/// How many columns of a line stand before the ends of its fields, before its operation and before its operands.
#[derive(Clone, Copy)]
pub struct LineFields {
    pub location_end: usize,
    pub operation: usize,
    pub operation_end: usize,
    pub operands: usize,
    /// The comment begins here.
    pub operands_end: usize,
}

impl LineFields {
    /// Of no line.
    pub fn none() -> LineFields {
        LineFields {
            location_end: 0,
            operation: 0,
            operation_end: 0,
            operands: 0,
            operands_end: 0,
        }
    }

    /// Of a line. What it says of one whose operands hold characters with blanks is a guess.
    pub fn of(line: &[u8]) -> LineFields {
        let begin = blanks_end(line, 0);
        let location_end = if begin < 2 { word_end(line, begin) } else { 0 };
        let operation = if location_end == 0 {
            begin
        } else {
            blanks_end(line, location_end)
        };
        let operation_end = word_end(line, operation);
        let operands = blanks_end(line, operation_end);
        LineFields {
            location_end,
            operation,
            operation_end,
            operands,
            operands_end: operands_end(line, operation, operands).min(LAST_COLUMN),
        }
    }
}

/// Where operands end that begin at a column.
fn operands_end(line: &[u8], operation: usize, operands: usize) -> usize {
    if operands > BEFORE_COMMENT {
        return operands;
    }
    if begins_at(line, operation, b"DIS ") {
        return line.len();
    }
    let mut at = operands;
    let mut count: Option<usize> = Some(0);
    for character in behind(line, operands) {
        match character {
            b' ' => return at,
            b'0'..=b'9' => count = counted(count, *character),
            b'C' | b'H' | b'A' | b'R' | b'L' | b'Z' => {
                if let Some(width) = count {
                    if width > 0 {
                        return characters_end(line, at.saturating_add(width));
                    }
                }
                count = None;
            }
            _ => count = if character.is_ascii_alphabetic() {
                None
            } else {
                Some(0)
            },
        }
        at = at.saturating_add(1);
    }
    at
}

/// A number with one more digit; None in a word that is no number.
fn counted(count: Option<usize>, digit: u8) -> Option<usize> {
    match count {
        Some(count) => Some(
            count
                .saturating_mul(10)
                .saturating_add(usize::from(digit.saturating_sub(b'0'))),
        ),
        None => None,
    }
}

/// Where operands end that have characters up to a column.
fn characters_end(line: &[u8], last: usize) -> usize {
    word_end(line, last.saturating_add(1))
}

fn begins_at(line: &[u8], at: usize, word: &[u8]) -> bool {
    behind(line, at).starts_with(word)
}

/// The next column that is not blank.
fn blanks_end(line: &[u8], from: usize) -> usize {
    let mut at = from;
    for character in behind(line, from) {
        if *character != b' ' {
            return at;
        }
        at = at.saturating_add(1);
    }
    at
}

/// The next column that is blank.
fn word_end(line: &[u8], from: usize) -> usize {
    let mut at = from;
    for character in behind(line, from) {
        if *character == b' ' {
            return at;
        }
        at = at.saturating_add(1);
    }
    at
}

/// What stands behind so many characters.
pub fn behind(text: &[u8], before: usize) -> &[u8] {
    text.split_at(before.min(text.len())).1
}

//! The words of a line that its fields make: operations, registers, numbers, texts and comments.

use crate::line_word::LineWord;
use crate::operand_words::{LAST_COLUMN, push_operands};
use crate::token::TokenKind;
use cps_cause::{Card, Columns};
use cps_code::is_builtin;
use cps_text::Fields;
use std::alloc::AllocError;

/// Appends the words that the fields of a line make. The card is what is assembled of it.
pub fn push_field_words(
    words: &mut Vec<LineWord>,
    card: &[u8],
    line: &[u8],
) -> Result<(), AllocError> {
    let read = push_read_words(words, card)?;
    push_comment(words, line, read)
}

/// Appends the words of the columns that are read. What stands behind the place that it gives is a comment.
fn push_read_words(words: &mut Vec<LineWord>, card: &[u8]) -> Result<usize, AllocError> {
    let card = Card::of(card);
    match card.fields {
        Fields::Comment => Ok(0),
        Fields::Continued => Ok(LAST_COLUMN),
        Fields::Statement(_) => {
            push_operation(words, &card)?;
            let end = push_operands(words, &card, field_end(&card))?;
            Ok(end)
        }
    }
}

/// Where the operation field ends, or the location field where there is no operation.
fn field_end(card: &Card<'_>) -> usize {
    match (card.operation, card.location) {
        (Some(columns), _) => columns.last,
        (None, Some(columns)) => columns.last,
        (None, None) => 0,
    }
}

fn push_operation(words: &mut Vec<LineWord>, card: &Card<'_>) -> Result<(), AllocError> {
    match card.operation {
        Some(columns) if is_builtin(card.operation_text()) => push_keyword(words, columns),
        _ => Ok(()),
    }
}

fn push_keyword(words: &mut Vec<LineWord>, columns: Columns) -> Result<(), AllocError> {
    let first = columns.first.saturating_sub(1);
    words.push(LineWord::of(first, columns.last, TokenKind::Keyword))?;
    Ok(())
}

/// Appends what stands in a line from a place on, if something does.
fn push_comment(words: &mut Vec<LineWord>, line: &[u8], from: usize) -> Result<(), AllocError> {
    let start = from.min(line.len());
    let rest = &line[start..];
    let first = rest.iter().position(|byte| !is_blank(*byte));
    let last = line.iter().rposition(|byte| !is_blank(*byte));
    if let (Some(first), Some(last)) = (first, last) {
        words.push(LineWord::of(
            start.saturating_add(first),
            last.saturating_add(1),
            TokenKind::Comment,
        ))?;
    }
    Ok(())
}

fn is_blank(byte: u8) -> bool {
    byte == b' ' || byte == b'\t'
}

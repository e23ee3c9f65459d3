//! The words of operands, where no name makes them.

use crate::line_word::LineWord;
use crate::token::TokenKind;
use crate::word_part::WordPart;
use cps_cause::{Card, filled_len};
use cps_code::is_builtin;
use cps_expr::Operation;
use cps_text::{CP_CHARACTERS, TextItem, capital, operands};
use std::alloc::AllocError;

/// The columns of a card that are read.
pub const LAST_COLUMN: usize = 72;

/// What the operands of an operation are.
#[derive(Clone, Copy)]
enum OperandSort {
    /// They aren't read.
    Unread,
    /// One text, as it stands.
    Title,
    /// The characters of DIS.
    Characters,
    Items,
    /// What expressions and names are made of.
    Expressions,
    /// The same, registers and literals.
    OfInstruction,
    /// Those of a call.
    Arguments,
}

/// Appends the words of a statement's operands. Its operation ends at a place. What stands behind the place that it gives is a comment.
pub fn push_operands(
    words: &mut Vec<LineWord>,
    card: &Card<'_>,
    end: usize,
) -> Result<usize, AllocError> {
    let tail = WordPart {
        text: card.tail(),
        before: card.before_tail,
    };
    match sort_of(card.operation_text()) {
        OperandSort::Unread => Ok(end),
        OperandSort::Title => push_title(words, card.text, end),
        _ if tail.text.is_empty() => Ok(end),
        OperandSort::Characters => push_characters(words, tail),
        OperandSort::Items => push_items(words, tail),
        OperandSort::Expressions => push_listed(words, tail, false),
        OperandSort::OfInstruction => push_listed(words, tail, true),
        OperandSort::Arguments => push_arguments(words, tail),
    }
}

fn sort_of(operation: &[u8]) -> OperandSort {
    match Operation::named(operation) {
        Some(named) => sort_of_statement(named, operation),
        None if !is_builtin(operation) => OperandSort::Arguments,
        None if is_any(operation, &[b"PS", b"NO", b"PSN"]) => OperandSort::Unread,
        None => OperandSort::OfInstruction,
    }
}

fn sort_of_statement(named: Operation, operation: &[u8]) -> OperandSort {
    match named {
        Operation::Abs | Operation::Periph | Operation::Else => OperandSort::Unread,
        Operation::Endif | Operation::Endd | Operation::Endm => OperandSort::Unread,
        Operation::Listing if is_any(operation, &[b"TITLE"]) => OperandSort::Title,
        Operation::Listing | Operation::End => OperandSort::Unread,
        Operation::Dis => OperandSort::Characters,
        Operation::Data => OperandSort::Items,
        _ => OperandSort::Expressions,
    }
}

/// Whether a text is one of some words, in capitals or not.
fn is_any(text: &[u8], list: &[&[u8]]) -> bool {
    list.iter().any(|word| {
        text.len() == word.len()
            && text
                .iter()
                .zip(word.iter())
                .all(|(byte, letter)| capital(*byte) == *letter)
    })
}

/// All that is read behind the operation.
fn push_title(words: &mut Vec<LineWord>, card: &[u8], end: usize) -> Result<usize, AllocError> {
    let whole = WordPart {
        text: card,
        before: 0,
    };
    let read = whole.cut(0, LAST_COLUMN).text;
    let title = whole.cut(end, filled_len(read));
    if let Some(first) = title.text.iter().position(|byte| *byte != b' ') {
        title
            .cut(first, title.text.len())
            .push(words, TokenKind::Text)?;
    }
    Ok(read.len())
}

/// `n,text`, or `,dtextd` with a delimiter.
fn push_characters(words: &mut Vec<LineWord>, tail: WordPart<'_>) -> Result<usize, AllocError> {
    match tail.text {
        [b',', delimiter, rest @ ..] => {
            let end = match rest.iter().position(|byte| *byte == *delimiter) {
                Some(at) => at.saturating_add(3),
                None => filled_len(tail.text),
            };
            push_text(words, tail, 1, end)
        }
        text => match text.iter().position(|byte| *byte == b',') {
            Some(comma) => {
                tail.cut(0, comma).push_runs(words, false)?;
                push_text(words, tail, comma.saturating_add(1), filled_len(text))?;
                Ok(tail.place(text.len()))
            }
            None => push_listed(words, tail, false),
        },
    }
}

/// The characters from one place of a part up to another, as a text.
fn push_text(
    words: &mut Vec<LineWord>,
    part: WordPart<'_>,
    from: usize,
    end: usize,
) -> Result<usize, AllocError> {
    part.cut(from, end).push(words, TokenKind::Text)?;
    Ok(part.place(end))
}

/// The data items of DATA.
fn push_items(words: &mut Vec<LineWord>, tail: WordPart<'_>) -> Result<usize, AllocError> {
    let mut at: usize = 0;
    for _item in 0..tail.text.len() {
        let end = push_item(words, tail, at)?;
        if tail.text.get(end).copied() != Some(b',') {
            return Ok(tail.place(end));
        }
        at = end.saturating_add(1);
    }
    Ok(tail.place(at))
}

/// The data item that begins at a place; gives where it ends.
fn push_item(
    words: &mut Vec<LineWord>,
    tail: WordPart<'_>,
    at: usize,
) -> Result<usize, AllocError> {
    let rest = tail.cut(at, tail.text.len()).text;
    if let Some(item) = TextItem::read(rest, CP_CHARACTERS) {
        let len = rest.len().saturating_sub(item.rest.len());
        let end = at.saturating_add(len);
        tail.cut(at, end).push(words, TokenKind::Text)?;
        return Ok(end);
    }
    let len = match rest.iter().position(|byte| *byte == b',' || *byte == b' ') {
        Some(len) => len,
        None => rest.len(),
    };
    let end = at.saturating_add(len);
    tail.cut(at, end).push_runs(words, false)?;
    Ok(end)
}

/// Operands between commas, each a literal, where there may be one, or what expressions are made of.
fn push_listed(
    words: &mut Vec<LineWord>,
    tail: WordPart<'_>,
    of_instruction: bool,
) -> Result<usize, AllocError> {
    let mut at: usize = 0;
    let mut end: usize = 0;
    for text in operands(tail.text) {
        end = at.saturating_add(text.len());
        let part = tail.cut(at, end);
        if of_instruction && text.first().copied() == Some(b'=') {
            part.push(words, TokenKind::Text)?;
        } else {
            part.push_runs(words, of_instruction)?;
        }
        at = end.saturating_add(1);
    }
    Ok(tail.place(end))
}

/// The arguments of a call, up to the first blank outside parentheses.
fn push_arguments(words: &mut Vec<LineWord>, tail: WordPart<'_>) -> Result<usize, AllocError> {
    let end = arguments_end(tail.text);
    tail.cut(0, end).push_runs(words, true)?;
    Ok(tail.place(end))
}

fn arguments_end(tail: &[u8]) -> usize {
    let mut depth: usize = 0;
    for (at, byte) in tail.iter().enumerate() {
        match *byte {
            b'(' => depth = depth.saturating_add(1),
            b')' => depth = depth.saturating_sub(1),
            b' ' if depth == 0 => return at,
            _ => {}
        }
    }
    tail.len()
}

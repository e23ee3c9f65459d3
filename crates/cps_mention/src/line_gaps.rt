//! The blanks between the fields of a line.

use crate::operands::tail_of;
use cps_cause::Card;
use cps_code::is_builtin;
use cps_expr::Operation;
use cps_text::{CP_CHARACTERS, TextItem, operands};
use std::alloc::{AllocError, Global};

/// The last column, from 1, that is read.
pub const LAST_COLUMN: usize = 72;

/// Blanks from one place up to another.
#[derive(Clone, Copy)]
pub struct LineGap {
    pub first: usize,
    pub end: usize,
}

/// The blanks behind the fields of a line, each before another field or a comment.
pub fn list_gaps(alloc: Global, text: &[u8]) -> Result<Vec<LineGap>, AllocError> {
    let mut gaps = Vec::new(alloc);
    let card = Card::of(text);
    let read = &text[..text.len().min(LAST_COLUMN)];
    if let Some(columns) = card.location {
        push_gap(&mut gaps, read, columns.last)?;
    }
    if let Some(columns) = card.operation {
        push_gap(&mut gaps, read, columns.last)?;
    }
    if !card.tail().is_empty() {
        push_gap(&mut gaps, read, operands_end(&card))?;
    }
    Ok(gaps)
}

/// The blanks from a place on, if something stands behind them.
fn push_gap(gaps: &mut Vec<LineGap>, card: &[u8], first: usize) -> Result<(), AllocError> {
    let start = first.min(card.len());
    if let Some(blanks) = card[start..].iter().position(|byte| *byte != b' ') {
        if blanks > 0 {
            gaps.push(LineGap {
                first: start,
                end: start.saturating_add(blanks),
            })?;
        }
    }
    Ok(())
}

/// Where the operands of a statement end and a comment may begin.
pub fn operands_end(card: &Card<'_>) -> usize {
    let tail = tail_of(card);
    let operation = card.operation_text();
    let len = match Operation::named(operation) {
        Some(Operation::Dis | Operation::Listing) => tail.text.len(),
        Some(Operation::Data) => data_len(tail.text),
        Some(_) => operands_len(tail.text),
        None if is_builtin(operation) => operands_len(tail.text),
        None => arguments_len(tail.text),
    };
    tail.before.saturating_add(len)
}

/// How many characters operands take, with the commas between them.
fn operands_len(tail: &[u8]) -> usize {
    let mut len: usize = 0;
    for text in operands(tail) {
        len = len.saturating_add(text.len()).saturating_add(1);
    }
    len.saturating_sub(1)
}

/// How many characters data items take, with the commas between them.
fn data_len(tail: &[u8]) -> usize {
    let mut end: usize = 0;
    for at in 0..tail.len() {
        if at == end {
            end = at.saturating_add(data_item_len(&tail[at..]));
            if tail.get(end).copied() != Some(b',') {
                return end;
            }
            end = end.saturating_add(1);
        }
    }
    end
}

/// How many characters the first data item takes. Blanks and commas of characters don't end it.
fn data_item_len(text: &[u8]) -> usize {
    let item = match TextItem::read(text, CP_CHARACTERS) {
        Some(item) => text.len().saturating_sub(item.rest.len()),
        None => 0,
    };
    let start = item.min(text.len());
    match text[start..]
        .iter()
        .position(|byte| matches!(*byte, b',' | b' '))
    {
        Some(len) => start.saturating_add(len),
        None => text.len(),
    }
}

/// How many characters the arguments of a call take: up to the first blank outside parentheses.
fn arguments_len(tail: &[u8]) -> usize {
    let mut depth: usize = 0;
    for (at, byte) in tail.iter().enumerate() {
        match *byte {
            b'(' => depth = depth.saturating_add(1),
            b')' => depth = depth.saturating_sub(1),
            b' ' if depth == 0 => return at,
            _ => {}
        }
    }
    tail.len()
}

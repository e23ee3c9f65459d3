//! The card that a line stands for.
ghost use Rattle.std.specs.Prelude.{◌≡◌, map, take, IfOk};
ghost use Rattle.cps_text.specs.Line.{is_accepted_byte};
ghost use Rattle.cps_input.specs.Card.{card_of, cards_of, column_of};

use cps_text::limits::{MOST_CHARACTERS, MOST_LINES};
use cps_text::{Line, LineFault};
use std::alloc::{AllocError, Global};

/// The cards of the first 99,999 lines.
pub fn make_cards(alloc: Global, lines: &[&[u8]]) -> Result<Vec<Line>, AllocError>
    ensures { IfOk result (λ cards. cards.items ≡ cards_of (map (λ line. line.now) lines.now)) }
{
    let mut cards = Vec::new(alloc);
    for line in first_lines(lines) {
        cards.push(card_of(alloc, line)?)?;
    }
    Ok(cards)
}

/// As many lines as a source may have.
fn first_lines<'a, 'b>(lines: &'a [&'b [u8]]) -> &'a [&'b [u8]]
    ensures { result.now ≡ take MOST_LINES lines.now }
{
    if lines.len() < MOST_LINES {
        return lines;
    }
    let (front, _) = lines.split_at(MOST_LINES);
    front
}

/// The card of a line: its first 90 bytes, with a blank for each that no line may have. A text that is a line is its own card.
pub fn card_of(alloc: Global, line: &[u8]) -> Result<Line, AllocError>
    ensures { IfOk result (λ card. card ≡ card_of line.now) }
{
    match Line::new(alloc, line) {
        Ok(card) => Ok(card),
        Err(LineFault::Memory) => Err(AllocError),
        Err(_) => punch(alloc, line),
    }
}

/// The same, byte by byte.
fn punch(alloc: Global, line: &[u8]) -> Result<Line, AllocError>
    ensures { IfOk result (λ card. card ≡ card_of line.now) }
{
    let columns = columns_of(alloc, first_columns(line))?;
    match Line::new(alloc, columns.as_slice()) {
        Ok(card) => Ok(card),
        Err(_) => Err(AllocError),
    }
}

/// As many bytes as a line may have.
fn first_columns(line: &[u8]) -> &[u8]
    ensures { result.now ≡ take MOST_CHARACTERS line.now }
{
    if line.len() < MOST_CHARACTERS {
        return line;
    }
    let (front, _) = line.split_at(MOST_CHARACTERS);
    front
}

/// Bytes, with a blank for each that no line may have.
fn columns_of(alloc: Global, line: &[u8]) -> Result<Vec<u8>, AllocError>
    ensures { IfOk result (λ columns. columns.items ≡ map column_of line.now) }
{
    line.iter().map(|byte| column_of(*byte)).collect(alloc)
}

/// A blank for a byte that no line may have.
fn column_of(byte: u8) -> u8
    ensures { result ≡ column_of byte }
{
    if is_accepted(byte) { byte } else { b' ' }
}

/// Whether a line may have a byte.
pub fn is_accepted(byte: u8) -> bool
    ensures { result ≡ is_accepted_byte byte }
{
    (b' '..=b'z').contains(&byte) && byte != b'`'
}

//! The field of a line in which a word stands.
ghost use Rattle.std.specs.Prelude.{◌≡◌, ◌≤◌, length, IfOk};
ghost use Rattle.cps_text.specs.CardFields.{fields_value, statement_value};
ghost use Rattle.cps_server.specs.Fields as fields;

use crate::mentions::line_of;
use crate::queried_text::QueriedText;
use crate::words::word_start;
use cps_input::card_of;
use cps_rpc::{Position, place_in};
use cps_text::{Fields, StatementFields, read_fields};
use std::alloc::{AllocError, Global};

/// How many columns of a card are read.
const LAST_COLUMN: usize = 72;

/// A field of a line.
#[derive(Clone, Copy, PartialEq, Eq)]
pub enum Field {
    /// It names what stands in the line.
    Location,
    Operation,
    Operand,
    /// None that is assembled: a comment, or what stands behind the operands.
    Remark,
}

/// The field of the word around a position of a deck. Where none stands there, that of a letter in its place.
pub fn field_at(
    alloc: Global,
    deck: QueriedText<'_>,
    position: Position,
) -> Result<Field, AllocError>
    ensures { IfOk result (λ field. field ≡ fields.field_at deck.entry.encoding deck.entry.document.now position) }
{
    let line = line_of(deck.document, position.line);
    word_field(
        alloc,
        line,
        place_in(deck.encoding, line, position.character),
    )
}

/// The field of the word around a place in a line.
fn word_field(alloc: Global, line: &[u8], at: usize) -> Result<Field, AllocError>
    requires { at ≤ length line.now }
    ensures { IfOk result (λ field. field ≡ fields.word_field line.now at) }
{
    let card = card_of(alloc, line)?;
    letter_field(alloc, card.bytes(), word_start(line, at))
}

/// The field of a letter in a place of a card, from 0.
fn letter_field(alloc: Global, card: &[u8], at: usize) -> Result<Field, AllocError>
    ensures { IfOk result (λ field. field ≡ fields.letter_field card.now at) }
{
    if at >= LAST_COLUMN {
        return Ok(Field::Remark);
    }
    let mut text = Vec::new(alloc);
    text.extend_from_slice(&card[..at.min(card.len())])?;
    text.push(b'A')?;
    Ok(last_of(read_fields(&text)))
}

/// The last field that a line has.
fn last_of(line: Fields<'_>) -> Field
    ensures { result ≡ fields.last_of (fields_value line.entry) }
{
    match line {
        Fields::Comment => Field::Remark,
        Fields::Continued => Field::Remark,
        Fields::Statement(statement) => last_field(statement),
    }
}

/// The last field of a statement that has something.
fn last_field(statement: StatementFields<'_>) -> Field
    ensures { result ≡ fields.last_field (statement_value statement.entry) }
{
    if !statement.comment.is_empty() {
        Field::Remark
    } else if !statement.variable.is_empty() {
        Field::Operand
    } else if !statement.operation.is_empty() {
        Field::Operation
    } else {
        Field::Location
    }
}

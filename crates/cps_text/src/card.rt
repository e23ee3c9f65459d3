//! The fields of a line.
ghost use Rattle.std.specs.Prelude.{◌≡◌, ◌^◌, ◌<◌};
ghost use Rattle.cps_text.specs.Card.{card, is_comment, is_continued, location_of, operation_at, fields_of, statement_of};
ghost use Rattle.cps_text.specs.CardFields.{statement_value, fields_value};
ghost use Rattle.cps_text.specs.CardIn.{card_in};
ghost use Rattle.cps_text.specs.Code.MaskedCard.{IsMasked};
ghost use Rattle.cps_text.specs.Columns.{IsCard};

use crate::limits::MOST_CHARACTERS;
use crate::masked_card::MaskedCard;
use crate::places::from;

/// The last column, from 1, that is read.
const LAST_COLUMN: usize = 72;

/// The last column, from 1, in which the location field begins.
const LAST_LOCATION_COLUMN: usize = 2;

/// The last column, from 1, in which the variable field begins.
const LAST_VARIABLE_COLUMN: usize = 29;

/// The fields of a statement.
#[derive(Clone, Copy)]
pub struct StatementFields<'a> {
    pub location: &'a [u8],
    pub operation: &'a [u8],
    pub variable: &'a [u8],
    /// The text behind the variable field, or behind the operation field where there is no variable field.
    pub comment: &'a [u8],
    /// The text from the variable field's first column through column 72.
    pub tail: &'a [u8],
}

/// What a line is.
#[derive(Clone, Copy)]
pub enum Fields<'a> {
    /// `*` stands in column 1, or columns 1 to 72 are blank.
    Comment,
    /// `,` stands in column 1.
    Continued,
    Statement(StatementFields<'a>),
}

/// The fields of a line.
pub fn read_fields(line: &[u8]) -> Fields<'_>
    ensures fields { fields_value result ≡ fields_of line.now }
    ensures rule { IsCard line.now (fields_value result) }
{
    let card = MaskedCard::of(read_columns(line));
    if is_comment(card) {
        Fields::Comment
    } else if is_continued(card.text) {
        Fields::Continued
    } else {
        Fields::Statement(statement_fields(card))
    }
}

/// The columns of a statement; one that is too long is treated as a line that continues another.
pub fn card_in(text: &[u8]) -> Fields<'_>
    ensures { fields_value result ≡ card_in text.now }
{
    if text.len() > MOST_CHARACTERS {
        return Fields::Continued;
    }
    read_fields(text)
}

/// The columns of a line that are read.
pub fn read_columns(line: &[u8]) -> &[u8]
    ensures { result.now ≡ card line.now }
{
    if line.len() <= LAST_COLUMN {
        return line;
    }
    let (card, _) = line.split_at(LAST_COLUMN);
    card
}

/// Whether the columns of a line are a comment.
pub(crate) fn is_comment(card: MaskedCard<'_>) -> bool
    requires { IsMasked card }
    ensures { result ≡ is_comment card.entry.text.now }
{
    (!card.text.is_empty() && card.text[0] == b'*') || card.is_blank()
}

fn is_continued(card: &[u8]) -> bool
    ensures { result ≡ is_continued card.now }
{
    !card.is_empty() && card[0] == b','
}

fn statement_fields(card: MaskedCard<'_>) -> StatementFields<'_>
    requires { IsMasked card }
    ensures { statement_value result ≡ statement_of card.entry.text.now }
{
    let (location, operation_at) = location(card);
    let (operation, operation_end) = card.field_from(operation_at);
    let next_at = card.filled_from(operation_end);
    if next_at < LAST_VARIABLE_COLUMN {
        let (variable, variable_end) = card.field_from(next_at);
        StatementFields {
            location,
            operation,
            variable,
            comment: from(card.text, card.filled_from(variable_end)),
            tail: from(card.text, next_at),
        }
    } else {
        StatementFields {
            location,
            operation,
            variable: &[],
            comment: from(card.text, next_at),
            tail: &[],
        }
    }
}

/// The location field, nothing where there is none, and where the operation field begins.
fn location(card: MaskedCard<'_>) -> (&[u8], usize)
    requires { IsMasked card }
    ensures field { result.0.now ≡ location_of card.entry.text.now }
    ensures operation { result.1 ≡ operation_at card.entry.text.now }
    ensures near { result.1 < 2 ^ 63 }
{
    let first = card.filled_from(0);
    if first >= LAST_LOCATION_COLUMN {
        return (&[], first);
    }
    let (location, end) = card.field_from(first);
    (location, card.filled_from(end.max(LAST_LOCATION_COLUMN)))
}

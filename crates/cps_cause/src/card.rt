//! The fields of a statement, and where they stand.

use crate::columns::Columns;
use cps_text::{Fields, StatementFields, card_in};

/// The last column, from 1, that is read.
const LAST_COLUMN: usize = 72;

/// Where the operation field may begin: behind so many columns.
const BEFORE_OPERATION: usize = 2;

/// The fields of a statement, and where they stand.
#[derive(Clone, Copy)]
pub struct Card<'a> {
    pub text: &'a [u8],
    pub fields: Fields<'a>,
    /// None: the field is empty.
    pub location: Option<Columns>,
    /// None: the field is empty.
    pub operation: Option<Columns>,
    /// The columns before the text that has the operands.
    pub before_tail: usize,
}

impl<'a> Card<'a> {
    /// Of a statement's text.
    pub fn of(text: &'a [u8]) -> Card<'a> {
        let fields = card_in(text);
        match fields {
            Fields::Statement(statement) => Card {
                text,
                fields,
                location: location_columns(text, statement),
                operation: operation_columns(text, statement),
                before_tail: text
                    .len()
                    .min(LAST_COLUMN)
                    .saturating_sub(statement.tail.len()),
            },
            _ => Card {
                text,
                fields,
                location: None,
                operation: None,
                before_tail: text.len(),
            },
        }
    }

    /// The location field; where it is empty the operation field.
    pub fn location_or_operation(&self) -> Columns {
        match self.location {
            Some(columns) => columns,
            None => self.operation_or_all(),
        }
    }

    /// The operation field; where it is empty the whole text without the blanks at its ends.
    pub fn operation_or_all(&self) -> Columns {
        match self.operation {
            Some(columns) => columns,
            None => filled_columns(self.text),
        }
    }

    /// From the operation field to the end of the variable field.
    pub fn statement(&self) -> Columns {
        match self.fields {
            Fields::Statement(fields) if !fields.variable.is_empty() => self
                .operation_or_all()
                .through(Columns::behind(self.before_tail, fields.variable.len())),
            Fields::Continued => Columns::behind(0, 1),
            _ => self.operation_or_all(),
        }
    }

    /// All operands, from the first column of the variable field on.
    pub fn variable(&self) -> Columns {
        match self.fields {
            Fields::Statement(fields) if !fields.variable.is_empty() => {
                Columns::behind(self.before_tail, fields.variable.len())
            }
            _ => self.operation_or_all(),
        }
    }

    /// The operation field, nothing where there is none.
    pub fn operation_text(&self) -> &'a [u8] {
        match self.fields {
            Fields::Statement(fields) => fields.operation,
            _ => &[],
        }
    }

    /// The text that has the operands.
    pub fn tail(&self) -> &'a [u8] {
        match self.fields {
            Fields::Statement(fields) => fields.tail,
            _ => &[],
        }
    }
}

/// The columns of a text without the blanks at its ends; of a blank one the first.
pub fn filled_columns(text: &[u8]) -> Columns {
    let first = filled_from(text, 0);
    if first >= text.len() {
        return Columns::behind(0, 1);
    }
    Columns::behind(first, 1).through(Columns::behind(filled_len(text).saturating_sub(1), 1))
}

/// How many characters a text has without the blanks at its end.
pub fn filled_len(text: &[u8]) -> usize {
    match text.iter().rposition(|byte| *byte != b' ') {
        Some(last) => last.saturating_add(1),
        None => 0,
    }
}

/// Where the first character stands, from a place on, that is no blank; past the text where there is none.
fn filled_from(text: &[u8], from: usize) -> usize {
    let start = from.min(text.len());
    match text[start..].iter().position(|byte| *byte != b' ') {
        Some(at) => start.saturating_add(at),
        None => text.len(),
    }
}

fn location_columns(text: &[u8], fields: StatementFields<'_>) -> Option<Columns> {
    if fields.location.is_empty() {
        return None;
    }
    Some(Columns::behind(filled_from(text, 0), fields.location.len()))
}

fn operation_columns(text: &[u8], fields: StatementFields<'_>) -> Option<Columns> {
    if fields.operation.is_empty() {
        return None;
    }
    let behind_location = if fields.location.is_empty() {
        0
    } else {
        filled_from(text, 0).saturating_add(fields.location.len())
    };
    let before = filled_from(text, behind_location.max(BEFORE_OPERATION));
    Some(Columns::behind(before, fields.operation.len()))
}

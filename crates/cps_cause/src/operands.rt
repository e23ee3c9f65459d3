//! The operands of a statement, and where they stand.

use crate::card::Card;
use crate::columns::Columns;
use cps_expr::is_same_name;
use cps_text::{Name, operands};
use std::alloc::{AllocError, Global};

/// A part of a statement's operands, and the columns before it.
#[derive(Clone, Copy)]
pub struct PlacedText<'a> {
    pub text: &'a [u8],
    pub before: usize,
    /// Whether a comma stands behind it.
    pub has_comma: bool,
}

impl<'a> PlacedText<'a> {
    /// The columns. Of an empty part it is the comma behind it, else that before it.
    pub fn columns(&self) -> Columns {
        if self.text.is_empty() && !self.has_comma {
            return Columns::behind(self.before.saturating_sub(1), 1);
        }
        Columns::behind(self.before, self.text.len())
    }

    /// From a place on, so many characters.
    pub fn cut(&self, from: usize, len: usize) -> PlacedText<'a> {
        let start = from.min(self.text.len());
        let end = start.saturating_add(len).min(self.text.len());
        PlacedText {
            text: &self.text[start..end],
            before: self.before.saturating_add(start),
            has_comma: self.has_comma || end < self.text.len(),
        }
    }

    /// What stands before and behind the first of such a character, if there is one.
    pub fn parted(&self, at: u8) -> Option<(PlacedText<'a>, PlacedText<'a>)> {
        let place = self.text.iter().position(|byte| *byte == at)?;
        Some((
            self.cut(0, place),
            self.cut(place.saturating_add(1), self.text.len()),
        ))
    }

    /// The columns in which a symbol stands in it; all of its columns where it doesn't.
    pub fn columns_of(&self, name: Name) -> Columns {
        let mut from: usize = 0;
        for _turn in 0..self.text.len() {
            let at = element(self, from);
            if writes(at.text, name) {
                return at.columns();
            }
            from = from.saturating_add(at.text.len()).saturating_add(1);
        }
        self.columns()
    }
}

/// Whether a text writes a symbol.
fn writes(text: &[u8], name: Name) -> bool {
    match Name::read(text) {
        Some(read) => is_same_name(read, name),
        None => false,
    }
}

/// The characters from a place on up to the next operator.
pub fn element<'a>(part: &PlacedText<'a>, from: usize) -> PlacedText<'a> {
    let start = from.min(part.text.len());
    let len = match part.text[start..]
        .iter()
        .position(|byte| is_operator(*byte))
    {
        Some(at) => at,
        None => part.text.len(),
    };
    part.cut(start, len)
}

fn is_operator(byte: u8) -> bool {
    matches!(byte, b'+' | b'-' | b'*' | b'/')
}

/// The operands of a statement.
pub fn list_operands<'a>(
    alloc: Global,
    card: &Card<'a>,
) -> Result<Vec<PlacedText<'a>>, AllocError> {
    let tail = card.tail();
    let mut list = Vec::new(alloc);
    let mut at: usize = 0;
    for text in operands(tail) {
        let end = at.saturating_add(text.len());
        list.push(PlacedText {
            text,
            before: card.before_tail.saturating_add(at),
            has_comma: tail.get(end).copied() == Some(b','),
        })?;
        at = end.saturating_add(1);
    }
    Ok(list)
}

/// From one operand through the last, if there are so many.
pub fn columns_from(list: &[PlacedText<'_>], first: usize) -> Option<Columns> {
    let from = list.get(first)?;
    let last = list.last()?;
    Some(from.columns().through(last.columns()))
}

//! Where in a line shows what is found in the statements that it opens.

use crate::calls::arguments_end;
use crate::card::Card;
use crate::cause::Cause;
use crate::columns::Columns;
use crate::diagnostic::Diagnostic;
use crate::limit_fault::LimitFault;
use crate::structure_fault::StructureFault;
use cps_code::is_builtin;

/// A line, and its arguments where it calls a macro.
#[derive(Clone, Copy)]
pub struct OpeningLine<'a> {
    text: &'a [u8],
    /// Empty where it calls none.
    arguments: &'a [u8],
    /// The columns before them.
    before: usize,
}

impl<'a> OpeningLine<'a> {
    /// Of a line.
    pub fn of(text: &'a [u8]) -> OpeningLine<'a> {
        let card = Card::of(text);
        let tail = card.tail();
        let len = if is_builtin(card.operation_text()) {
            0
        } else {
            arguments_end(tail)
        };
        OpeningLine {
            text,
            arguments: &tail[..len.min(tail.len())],
            before: card.before_tail,
        }
    }

    /// Where a cause shows that was found: what it quotes of a statement that the line opens in the line's arguments, if it stands there.
    pub fn columns_of(&self, found: &Diagnostic) -> Columns {
        let statement = found.statement.as_slice();
        if statement.is_empty() || statement == self.text || is_of_all(found.cause) {
            return found.columns;
        }
        match place_in(self.arguments, found.within.of(statement)) {
            Some((at, len)) => Columns::behind(self.before.saturating_add(at), len),
            None => found.columns,
        }
    }
}

/// Whether a cause is one of all that a line opens, and not of one of its statements.
fn is_of_all(cause: Cause) -> bool {
    match cause {
        Cause::Limit(
            LimitFault::Depth
            | LimitFault::Statements
            | LimitFault::Names
            | LimitFault::Characters(_),
        )
        | Cause::Structure(StructureFault::ExpansionKeeps) => true,
        _ => false,
    }
}

/// Where a text first stands in arguments, and how long it is: as a whole one, or parted in one by blanks, commas and parentheses.
fn place_in(arguments: &[u8], text: &[u8]) -> Option<(usize, usize)> {
    for at in 0..arguments.len() {
        let (front, rest) = arguments.split_at(at);
        if parts(front.last()) && begins_with(rest, text) {
            return Some((at, text.len()));
        }
    }
    None
}

/// Whether arguments begin with a text, and it is parted from what stands behind it. With no text, a comma and a blank none do.
fn begins_with(arguments: &[u8], text: &[u8]) -> bool {
    match text {
        [] | [b',' | b' '] => false,
        _ => arguments.starts_with(text) && parts(arguments.get(text.len())),
    }
}

/// Whether a character parts what stands on its two sides, as an end of the arguments does.
fn parts(character: Option<&u8>) -> bool {
    match character {
        None => true,
        Some(byte) => matches!(*byte, b',' | b' ' | b'(' | b')'),
    }
}

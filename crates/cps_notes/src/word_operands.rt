//! The operands of a statement of words or fields, each of which makes a row.

use cps_cause::Card;
use cps_expr::{Machine, Radix, read_item};
use cps_page::OperandColumns;
use cps_text::{CP_CHARACTERS, PP_CHARACTERS, operands};

/// The operands of a statement, one after another.
#[derive(Clone, Copy)]
pub struct WordOperands<'a> {
    kind: OperandKind,
    machine: Machine,
    /// What has the operands, the characters of the statement before it, and those of it that are passed.
    tail: &'a [u8],
    before: usize,
    passed: usize,
}

/// What a statement takes for a row.
#[derive(Clone, Copy)]
enum OperandKind {
    /// What stands between commas.
    Fields,
    /// A data item.
    Items,
    /// So many characters as a word has.
    Characters,
    /// Nothing: a statement that has no later rows.
    Others,
}

impl<'a> WordOperands<'a> {
    /// Those of a statement of a machine's source.
    pub fn of(statement: &'a [u8], machine: Machine) -> WordOperands<'a> {
        let card = Card::of(statement);
        let kind = kind_of(card.operation_text());
        let whole = card.tail();
        let (tail, passed) = match kind {
            OperandKind::Characters => characters_in(whole),
            _ => (whole, 0),
        };
        WordOperands {
            kind,
            machine,
            tail,
            before: card.before_tail,
            passed,
        }
    }

    /// Of no statement.
    pub fn none() -> WordOperands<'static> {
        WordOperands {
            kind: OperandKind::Others,
            machine: Machine::Cp,
            tail: b"",
            before: 0,
            passed: 0,
        }
    }

    /// The next one, which is passed then.
    pub fn take(&mut self) -> OperandColumns {
        let rest = self.tail.split_at(self.passed.min(self.tail.len())).1;
        let length = self.length_in(rest);
        let begin = self.before.saturating_add(self.passed);
        let gap = match self.kind {
            OperandKind::Characters => 0,
            _ => 1,
        };
        self.passed = self.passed.saturating_add(length).saturating_add(gap);
        OperandColumns {
            before: column(begin),
            behind: column(begin.saturating_add(length)),
        }
    }

    /// How long the operand is that a text begins with.
    fn length_in(&self, rest: &[u8]) -> usize {
        match self.kind {
            OperandKind::Fields => field_length(rest),
            OperandKind::Items => match read_item(rest, Radix::Decimal, self.machine) {
                Some((_, length)) => length,
                None => field_length(rest),
            },
            OperandKind::Characters => rest.len().min(characters_of(self.machine)),
            OperandKind::Others => 0,
        }
    }
}

fn kind_of(operation: &[u8]) -> OperandKind {
    if operation.eq_ignore_ascii_case(b"VFD") || operation.eq_ignore_ascii_case(b"CON") {
        OperandKind::Fields
    } else if operation.eq_ignore_ascii_case(b"DATA") {
        OperandKind::Items
    } else if operation.eq_ignore_ascii_case(b"DIS") {
        OperandKind::Characters
    } else {
        OperandKind::Others
    }
}

fn field_length(rest: &[u8]) -> usize {
    match operands(rest).next() {
        Some(field) => field.len(),
        None => 0,
    }
}

fn characters_of(machine: Machine) -> usize {
    match machine {
        Machine::Cp => CP_CHARACTERS,
        Machine::Pp => PP_CHARACTERS,
    }
}

/// The operands of DIS up to where its characters end, and how many of theirs stand before these.
fn characters_in(tail: &[u8]) -> (&[u8], usize) {
    let comma = place_of(tail, b',');
    let begin = comma.saturating_add(1);
    if comma > 0 {
        return (tail, begin);
    }
    let inside = tail.split_at(begin.saturating_add(1).min(tail.len())).1;
    let length = match tail.get(begin) {
        Some(delimiter) => place_of(inside, *delimiter),
        None => 0,
    };
    let end = begin.saturating_add(1).saturating_add(length);
    (
        tail.split_at(end.min(tail.len())).0,
        begin.saturating_add(1),
    )
}

/// How many characters stand before the first of one, all where there is none.
fn place_of(text: &[u8], character: u8) -> usize {
    for (at, other) in text.iter().enumerate() {
        if *other == character {
            return at;
        }
    }
    text.len()
}

/// So many columns; no statement has more than a card.
fn column(count: usize) -> u8 {
    u8::try_from(count).unwrap_or(u8::MAX)
}

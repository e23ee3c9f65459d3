//! Where else a mark leads.

use crate::columns::columns_of;
use cps_cause::{Card, Columns, Diagnostic, Letter, LinesAbove, filled_columns, line_of_opener};
use cps_expr::Operation;
use cps_state::{Answer, DupBody, Extent, Item, Key, Mode, Trace};
use cps_text::Name;
use cps_text::limits::DEEPEST;
use std::alloc::AllocError;

/// Where else a mark leads, as far as its own line tells. It has no number of a line, so lines above may come and go.
#[derive(Clone, Copy, PartialEq, Eq)]
pub enum Lead {
    /// To no other line.
    Nowhere,
    /// To the line that opened what is open, so many lines above.
    Opener(u32),
    /// To a line of a DUP that is repeated, so many lines above.
    Repeated(u32),
    /// To the line that first gives a symbol its value.
    Definition(Name),
    /// To a line of the body of a macro, with so many of its lines above.
    Body(Name, u32),
}

impl Lead {
    /// What stands where it leads.
    pub fn words(self) -> &'static str {
        match self {
            Lead::Nowhere => "",
            Lead::Opener(_) => "this opens what is open",
            Lead::Repeated(_) => "this line is repeated",
            Lead::Definition(_) => "this gives the value",
            Lead::Body(_, _) => "this line of the macro",
        }
    }

    /// Where it shows in the line to which it leads.
    pub fn columns_in(self, line: &[u8]) -> Columns {
        match self {
            Lead::Definition(name) => columns_of(line, name),
            _ => filled_columns(line),
        }
    }
}

/// A line that is flagged, from 0, and those above it.
#[derive(Clone, Copy)]
pub struct FlaggedLine<'a> {
    pub line: &'a [u8],
    pub number: u32,
    pub trace: &'a Trace,
    pub above: LinesAbove<'a>,
}

impl FlaggedLine<'_> {
    /// Where a cause of one of its flags leads.
    pub fn lead_of(&self, told: &Diagnostic) -> Result<Lead, AllocError> {
        let statement = told.statement.as_slice();
        let written = if statement.is_empty() {
            self.line
        } else {
            statement
        };
        if told.cause.letter() == Letter::D {
            return Ok(definition_by(written));
        }
        if !statement.is_empty() {
            return self.lead_into(statement);
        }
        if told.cause.letter() == Letter::E && is_end(self.line) {
            return Ok(self.lead_to_opener());
        }
        Ok(Lead::Nowhere)
    }

    /// To the line that opened what is open in front of this one.
    pub fn lead_to_opener(&self) -> Lead {
        match line_of_opener(self.above.traces) {
            Some(opener) => Lead::Opener(self.number.saturating_add(1).saturating_sub(opener)),
            None => Lead::Nowhere,
        }
    }

    /// To the line of a body that has a statement of its expansion. Where it stands in what other statements open, the nearest one that calls a macro has it,
    /// or else the line itself.
    fn lead_into(&self, statement: &[u8]) -> Result<Lead, AllocError> {
        let items = self.trace.items();
        let Some(found) = items
            .iter()
            .position(|item| item.depth > 0 && item.text.as_slice() == statement)
        else {
            return Ok(Lead::Nowhere);
        };
        let mut place = opened_at(items, found);
        for _level in 0..DEEPEST {
            if place.opener == 0 {
                return self.lead_by(place.above);
            }
            if let Some(name) = called_by(items, place.opener) {
                return Ok(Lead::Body(name, place.above));
            }
            place = opened_at(items, place.opener);
        }
        Ok(Lead::Nowhere)
    }

    /// To a line that this one opens, with so many of them above.
    fn lead_by(&self, above: u32) -> Result<Lead, AllocError> {
        if let Some(Mode::KeepDup(body)) = mode_before(self.trace)? {
            return Ok(lead_back(body, above));
        }
        match Name::read(Card::of(self.line).operation_text()) {
            Some(name) => Ok(Lead::Body(name, above)),
            None => Ok(Lead::Nowhere),
        }
    }
}

/// A statement of an expansion: which one opened it, and how many of those that this one opened stand above.
#[derive(Clone, Copy)]
struct OpenedPlace {
    opener: usize,
    above: u32,
}

/// Which statement opened one of an expansion.
fn opened_at(items: &[Item], place: usize) -> OpenedPlace {
    let mut above: u32 = 0;
    let depth = depth_at(items, place);
    for before in 0..place {
        let at = place - 1 - before;
        let other = depth_at(items, at);
        if other < depth {
            return OpenedPlace { opener: at, above };
        }
        if other == depth {
            above = above.saturating_add(1);
        }
    }
    OpenedPlace { opener: 0, above }
}

fn depth_at(items: &[Item], place: usize) -> u8 {
    match items.get(place) {
        Some(item) => item.depth,
        None => 0,
    }
}

/// The name of the macro that a statement calls; None where its operation is the name of a statement.
fn called_by(items: &[Item], place: usize) -> Option<Name> {
    let item = items.get(place)?;
    let operation = Card::of(item.text.as_slice()).operation_text();
    match Operation::named(operation) {
        Some(_) => None,
        None => Name::read(operation),
    }
}

/// To a line of a DUP, with so many of those that it repeated above.
fn lead_back(body: DupBody, above: u32) -> Lead {
    let kept = body.kept.lines;
    let count = match body.extent {
        Extent::Counted(_) => kept.saturating_add(1),
        Extent::ToEndd(_) => kept,
    };
    match above.checked_rem(count) {
        Some(place) => Lead::Repeated(kept.saturating_sub(place)),
        None => Lead::Nowhere,
    }
}

/// What is done with a line that did this; None where it didn't ask, as a comment.
pub fn mode_before(trace: &Trace) -> Result<Option<Mode>, AllocError> {
    for asked in trace.asks() {
        if let Key::Control = asked.key {
            return match &asked.answer {
                Some(Answer::Control(_, mode)) => Ok(Some(mode.to_mode()?)),
                _ => Ok(Some(Mode::Normal)),
            };
        }
    }
    Ok(None)
}

/// To the line that first gives a value to the symbol in a statement's location field.
fn definition_by(statement: &[u8]) -> Lead {
    match symbol_of(statement) {
        Some(name) => Lead::Definition(name),
        None => Lead::Nowhere,
    }
}

/// The symbol in the location field of a statement.
pub fn symbol_of(statement: &[u8]) -> Option<Name> {
    let columns = Card::of(statement).location?;
    Name::read(columns.of(statement))
}

fn is_end(line: &[u8]) -> bool {
    match Operation::named(Card::of(line).operation_text()) {
        Some(Operation::End) => true,
        _ => false,
    }
}

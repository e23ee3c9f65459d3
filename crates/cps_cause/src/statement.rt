//! A flagged statement, as causes are looked for in it.

use crate::card::Card;
use cps_final::{Finals, Row};
use cps_pass::{Location, read_location};
use cps_state::{Control, Item, Mode};
use cps_text::Fields;

/// A flagged statement: its fields, the control and the mode that hold for it, what it made, the rows of that, and the final values.
#[derive(Clone, Copy)]
pub struct FlaggedStatement<'a> {
    pub card: Card<'a>,
    pub control: Control,
    pub mode: &'a Mode,
    /// Whether it is a source line's own.
    pub is_source: bool,
    pub item: &'a Item,
    pub rows: &'a [Row],
    pub finals: &'a Finals,
}

impl<'a> FlaggedStatement<'a> {
    /// What its location field says.
    pub fn location(&self) -> Location {
        match self.card.fields {
            Fields::Statement(fields) => read_location(fields.location),
            _ => Location::Absent,
        }
    }
}

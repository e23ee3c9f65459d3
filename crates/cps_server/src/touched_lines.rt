//! Which lines of a source a change touched.

use cps_live::Redone;

/// Which lines of a source a change touched, from 0.
#[derive(Drop)]
pub struct TouchedLines {
    /// The first of the lines that gave way, where it stood.
    pub first: usize,
    /// The first line behind these, where it stood.
    pub end: usize,
    /// How many lines came in their place.
    pub count: usize,
    /// Which others were made anew.
    pub redone: Redone,
    /// Whether the lines that came put in pass one what those put that gave way, line by line.
    pub puts_stand: bool,
}

impl TouchedLines {
    /// Whether as many lines came as gave way.
    pub fn keeps_numbers(&self) -> bool {
        self.count == self.end.saturating_sub(self.first)
    }
}

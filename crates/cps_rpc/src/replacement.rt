//! Lines in the place of others.

/// Which lines of a text gave way to how many new ones. All others are what they were. The same numbers tell it of the lines of
/// the source that the text stands for, of which only the last may be missing (`source_is_replaced`).
#[derive(Clone, Copy, Debug, PartialEq, Eq)]
pub struct Replacement {
    /// The first of the old lines that gave way, from 0.
    pub first: usize,
    /// The first of the old lines behind them.
    pub end: usize,
    /// How many new lines stand in their place.
    pub count: usize,
}

//! How much is shown.

/// The most bytes of a line that are shown: as many as a printer has columns.
pub const MOST_SHOWN: usize = 132;

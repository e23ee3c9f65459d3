//! The words that a source assembles to.

use cps_code::Words;
use cps_expr::Machine;

/// The words that a source assembles to, for which machine they are, and how many lines are flagged.
#[derive(Drop)]
pub struct SourceWords {
    pub words: Words,
    pub machine: Machine,
    /// How many lines have a flag, and one more if a range is open after the last.
    pub flagged: u32,
}

//! What a mark marks.

use cps_cause::Letter;

/// What a mark marks: a flag, or what no source may have.
#[derive(Clone, Copy, PartialEq, Eq)]
pub enum MarkKind {
    /// The flag of a letter.
    Flag(Letter),
    /// What no source may have.
    Wrong,
}

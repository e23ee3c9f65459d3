//! What a report tells.

use cps_cause::Letter;

/// What a report tells: an error, which is a flag or what no source may have, or a note.
#[derive(Clone, Copy, PartialEq, Eq)]
pub enum ReportKind {
    /// The flag of a letter.
    Flag(Letter),
    /// What no source may have.
    Wrong,
    /// What may stand there and is often not meant so.
    Note,
}

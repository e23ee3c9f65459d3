//! A mark in a line of a text.
ghost use Rattle.std.specs.Prelude.{◌<◌, length};

use crate::lead::Lead;
use crate::mark_kind::MarkKind;
use cps_cause::Columns;

/// A mark in a line of a text: what is wrong there.
pub struct Mark {
    /// The line, from 0.
    pub line: u32,
    /// Where it shows in the line, in bytes.
    pub columns: Columns,
    pub kind: MarkKind,
    /// Where else it leads.
    pub lead: Lead,
    /// Why it is wrong, as a sentence without its point. Where that stands in a statement of the line's expansion, this has a second row.
    pub message: Vec<u8>,
    ghost some: { 0 < length message.items },
}

// Written out, so that it is proved once.
impl Drop for Mark {
    fn drop(self) {
        let Mark {
            line: _,
            columns: _,
            kind: _,
            lead: _,
            message,
        } = self;
        drop(message);
    }
}

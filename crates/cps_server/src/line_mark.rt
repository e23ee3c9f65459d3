//! A mark of a line.
ghost use Rattle.std.specs.Prelude.{◌<◌, length};

use crate::lead::Lead;
use crate::mark_kind::MarkKind;
use cps_cause::Columns;
use cps_text::Name;

/// A mark of a line: what is wrong there. It doesn't know the number of its line, so lines above may come and go.
pub struct LineMark {
    /// Where it shows in the line, in bytes.
    pub columns: Columns,
    pub kind: MarkKind,
    pub lead: Lead,
    /// The symbol that has no value, where that is what is wrong, and if its columns write it.
    pub lacks: Option<Name>,
    /// Why it is wrong, as a sentence without its point. Where that stands in a statement of the line's expansion, this has a second row.
    pub message: Vec<u8>,
    ghost some: { 0 < length message.items },
}

// Written out, so that it is proved once.
impl Drop for LineMark {
    fn drop(self) {
        let LineMark {
            columns: _,
            kind: _,
            lead: _,
            lacks: _,
            message,
        } = self;
        drop(message);
    }
}

//! What rows of a listing show.
ghost use Rattle.std.specs.Prelude.{◌≡◌, IfOk};
ghost use Rattle.cps_final.specs.Rows as shown;

use crate::octal_digits::{Code, ShortCode};
use cps_state::{Flags, Item, Shared};
use std::alloc::AllocError;

/// What a row of the listing shows of a statement.
#[derive(Drop)]
pub struct Row {
    pub flags: Flags,
    /// Whether it is a later row of its statement, which shows neither the line nor its number.
    pub is_later: bool,
    /// How deep in expansions its statement stands, 0 for a source line and on later rows.
    pub depth: u8,
    /// The second word of an instruction, where its words are shown apart.
    pub second: ShortCode,
    pub code: Code,
    /// A final address, in words.
    pub location: Option<u64>,
    /// The statement's text, empty for a source line's own statement and on later rows.
    pub text: Shared<u8>,
}

impl Row {
    /// The same row, as one of this statement. Takes no memory.
    #[inline(always)]
    pub(crate) fn of_item(self, item: &Item) -> Result<Row, AllocError>
        ensures { IfOk result (λ row. row ≡ shown.row_of item.now self) }
    {
        if self.is_later {
            return Ok(self);
        }
        let text = item.text.share()?;
        Ok(Row {
            depth: item.depth,
            text,
            ..self
        })
    }
}

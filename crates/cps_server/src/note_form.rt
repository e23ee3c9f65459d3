//! In which form a note is told.
ghost use Rattle.std.specs.Prelude.{◌≡◌};
ghost use Rattle.cps_server.specs.Code.Writing.{form_for};

use crate::queried_text::QueriedText;
use cps_check::{Note, Remark};

/// In which form a note is told.
#[derive(Clone, Copy)]
pub struct NoteForm {
    /// Whether it is that nothing reads a symbol.
    pub is_unread: bool,
    /// Whether a tag tells that too.
    pub is_tagged: bool,
}

impl NoteForm {
    /// Of a note for the editor of a deck.
    pub fn of(deck: QueriedText<'_>, note: Note) -> NoteForm
        ensures { result ≡ form_for deck.entry result.is_unread }
    {
        let is_unread = matches!(note.remark, Remark::Unread(_));
        NoteForm {
            is_unread,
            is_tagged: is_unread && deck.client.takes_unnecessary,
        }
    }
}

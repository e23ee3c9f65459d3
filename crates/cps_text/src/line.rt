//! Lines of a source.
ghost use Rattle.std.specs.Prelude.{◌≡◌, ◌↔◌, ◌<◌, IsOk, IfOk, IsErrOf, length};
ghost use Rattle.cps_text.specs.Card.{fields_of};
ghost use Rattle.cps_text.specs.CardFields.{fields_value};
ghost use Rattle.cps_text.specs.Columns.{IsCard};
ghost use Rattle.cps_text.specs.Line.{IsLine, HasBadCharacter, all_accepted, is_accepted_byte};

use crate::card::{Fields, read_fields};
use crate::limits::MOST_CHARACTERS;
use std::alloc::Global;
use std::marker::Model;
use thiserror::Error;

/// Why a text is no line.
#[derive(Clone, Copy, Debug, PartialEq, Eq, Error)]
pub enum LineFault {
    /// It has more than 90 bytes.
    #[error("line too long")]
    LineTooLong,
    /// It is short enough, and has a byte that no line may have.
    #[error("bad character")]
    BadCharacter,
    /// It is a line, and there was no memory for it.
    #[error("no memory")]
    Memory,
}

/// A line of a source: 0 to 90 bytes, each from blank to `~` and none of backquote, `{`, `|`, `}` and `~`.
#[derive(Drop)]
pub struct Line {
    bytes: Vec<u8>,
}

impl Model for Line {
    ghost use Rattle.std.specs.Prelude.{List, ℕ};
    ghost use Rattle.cps_text.specs.Line.{IsLine};

    ghost Value = { List ℕ };

    ghost view = { λ line. line.bytes.items };

    ghost invariant = { λ line. IsLine line.bytes.items };
}

impl Line {
    /// Whether a text is a line. Takes no memory, and never answers `Memory`.
    pub fn check(text: &[u8]) -> Result<(), LineFault>
        ensures ok { IsOk result ↔ IsLine text.now }
        ensures long { IsErrOf result LineFault.LineTooLong ↔ (MOST_CHARACTERS < length text.now) }
        ensures bad { IsErrOf result LineFault.BadCharacter ↔ HasBadCharacter text.now }
        ensures memory { IsErrOf result LineFault.Memory → ⊥ }
    {
        if text.len() > MOST_CHARACTERS {
            return Err(LineFault::LineTooLong);
        }
        if !has_accepted_bytes(text) {
            return Err(LineFault::BadCharacter);
        }
        Ok(())
    }

    /// A text as a line.
    pub fn new(alloc: Global, text: &[u8]) -> Result<Line, LineFault>
        ensures ok { IfOk result (λ line. line ≡ text.now) }
        ensures line { IsOk result → IsLine text.now }
        ensures long { IsErrOf result LineFault.LineTooLong ↔ (MOST_CHARACTERS < length text.now) }
        ensures bad { IsErrOf result LineFault.BadCharacter ↔ HasBadCharacter text.now }
        ensures memory { IsErrOf result LineFault.Memory → IsLine text.now }
    {
        Line::check(text)?;
        match text.to_vec(alloc) {
            Ok(bytes) => Ok(Line { bytes }),
            Err(_) => Err(LineFault::Memory),
        }
    }

    /// The line's bytes, as it was given.
    pub fn bytes(&self) -> &[u8]
        ensures value { result.now ≡ self.now }
        ensures line { IsLine self.now }
    {
        self.bytes.as_slice()
    }

    /// What the line is, and its fields.
    pub fn fields(&self) -> Fields<'_>
        ensures fields { fields_value result ≡ fields_of self.now }
        ensures rule { IsCard self.now (fields_value result) }
    {
        read_fields(self.bytes())
    }
}

/// It doesn't stop at the first other byte, so that many bytes are looked at at once.
fn has_accepted_bytes(text: &[u8]) -> bool
    ensures { result ≡ all_accepted text.now }
{
    let mut accepted = true;
    for byte in text {
        accepted &= is_accepted(*byte);
    }
    accepted
}

pub(crate) fn is_accepted(byte: u8) -> bool
    ensures { result ≡ is_accepted_byte byte }
{
    (b' '..=b'z').contains(&byte) && byte != b'`'
}

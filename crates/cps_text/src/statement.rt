//! Statements of expansions.
ghost use Rattle.std.specs.Prelude.{◌≡◌, ◌↔◌, ◌<◌, IsOk, IfOk, IsErrOf, length};
ghost use Rattle.cps_text.specs.Card.{fields_of};
ghost use Rattle.cps_text.specs.CardFields.{fields_value};
ghost use Rattle.cps_text.specs.Columns.{IsCard};
ghost use Rattle.cps_text.specs.Line.{IsStatement, HasBadStatement, all_stated, is_stated_byte};

use crate::card::{Fields, read_fields};
use crate::limits::MOST_CHARACTERS;
use crate::line::{LineFault, is_accepted};
use std::alloc::Global;
use std::marker::Model;

/// A statement as it stands in an expansion: as a line of a source, and `~` may stand in it too, which generated names begin with.
#[derive(Drop)]
pub struct Statement {
    bytes: Vec<u8>,
}

impl Model for Statement {
    ghost use Rattle.std.specs.Prelude.{List, ℕ};
    ghost use Rattle.cps_text.specs.Line.{IsStatement};

    ghost Value = { List ℕ };

    ghost view = { λ statement. statement.bytes.items };

    ghost invariant = { λ statement. IsStatement statement.bytes.items };
}

impl Statement {
    /// A text as a statement.
    pub fn new(alloc: Global, text: &[u8]) -> Result<Statement, LineFault>
        ensures ok { IfOk result (λ statement. statement ≡ text.now) }
        ensures statement { IsOk result → IsStatement text.now }
        ensures long { IsErrOf result LineFault.LineTooLong ↔ (MOST_CHARACTERS < length text.now) }
        ensures bad { IsErrOf result LineFault.BadCharacter ↔ HasBadStatement text.now }
        ensures memory { IsErrOf result LineFault.Memory → IsStatement text.now }
    {
        check(text)?;
        match text.to_vec(alloc) {
            Ok(bytes) => Ok(Statement { bytes }),
            Err(_) => Err(LineFault::Memory),
        }
    }

    /// The statement's bytes, as it was given.
    pub fn bytes(&self) -> &[u8]
        ensures value { result.now ≡ self.now }
        ensures statement { IsStatement self.now }
    {
        self.bytes.as_slice()
    }

    /// What the statement is, and its fields.
    pub fn fields(&self) -> Fields<'_>
        ensures fields { fields_value result ≡ fields_of self.now }
        ensures rule { IsCard self.now (fields_value result) }
    {
        read_fields(self.bytes())
    }
}

/// Whether a text is a statement.
fn check(text: &[u8]) -> Result<(), LineFault>
    ensures ok { IsOk result ↔ IsStatement text.now }
    ensures long { IsErrOf result LineFault.LineTooLong ↔ (MOST_CHARACTERS < length text.now) }
    ensures bad { IsErrOf result LineFault.BadCharacter ↔ HasBadStatement text.now }
    ensures memory { IsErrOf result LineFault.Memory → ⊥ }
{
    if text.len() > MOST_CHARACTERS {
        return Err(LineFault::LineTooLong);
    }
    if !has_stated_bytes(text) {
        return Err(LineFault::BadCharacter);
    }
    Ok(())
}

fn has_stated_bytes(text: &[u8]) -> bool
    ensures { result ≡ all_stated text.now }
{
    text.iter().all(|byte| is_stated(*byte))
}

fn is_stated(byte: u8) -> bool
    ensures { result ≡ is_stated_byte byte }
{
    is_accepted(byte) || byte == b'~'
}

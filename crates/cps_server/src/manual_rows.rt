//! What is told of an operation at a position, as of a word.
ghost use Rattle.std.specs.Prelude.{◌≡◌, IfOk};
ghost use Rattle.cps_server.specs.Hovers.{IsManual, IsManualIn, may_be_operation, word_under};
ghost use Rattle.cps_server.specs.Fields.{field_at};

use crate::field::{Field, field_at};
use crate::mentions::line_of;
use crate::queried_text::QueriedText;
use crate::words::word_around;
use cps_check::manual_text;
use cps_rpc::{Position, place_in};
use std::alloc::{AllocError, Global};

/// What is told of the operation at a position of a deck: the rows of an instruction with what its forms do, or sentences on a statement. Nothing where no
/// operation stands.
pub fn manual_rows(
    alloc: Global,
    deck: QueriedText<'_>,
    position: Position,
) -> Result<Vec<u8>, AllocError>
    ensures { IfOk result (λ rows. IsManualIn (field_at deck.entry.encoding deck.entry.document.now position)
        (word_under deck.entry.encoding deck.entry.document.now position) rows.items) }
{
    let line = line_of(deck.document, position.line);
    let at = place_in(deck.encoding, line, position.character);
    match field_at(alloc, deck, position)? {
        Field::Operation => rows_of(alloc, word_around(line, at)),
        _ => Ok(Vec::new(alloc)),
    }
}

fn rows_of(alloc: Global, word: &[u8]) -> Result<Vec<u8>, AllocError>
    ensures { IfOk result (λ rows. IsManual word.now rows.items) }
{
    if !may_be_operation(word) {
        return Ok(Vec::new(alloc));
    }
    match manual_text(alloc, word)? {
        Some(text) => Ok(text),
        None => Ok(Vec::new(alloc)),
    }
}

/// Whether a word may be an operation: it begins with a letter, and is not a letter alone, which is a flag; or it is an equals sign.
fn may_be_operation(word: &[u8]) -> bool
    ensures { result ≡ may_be_operation word.now }
{
    match word {
        [] => false,
        [sign] => *sign == b'=',
        [first, _, ..] => *first >= b'A',
    }
}

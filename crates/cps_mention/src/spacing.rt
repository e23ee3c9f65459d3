//! What stays of a line while its blanks change.
ghost use Rattle.std.specs.Prelude.{◌≡◌, IsTrue, IfOk};
ghost use Rattle.cps_mention.specs.Spacing as spacing;

use crate::same_but::is_same_text;
use std::alloc::{AllocError, Global};

/// Whether two lines have the same characters beside their blanks.
pub fn is_same_unblanked(alloc: Global, was: &[u8], is: &[u8]) -> Result<bool, AllocError>
    ensures { IfOk result (λ same. IsTrue same → spacing.unblanked is.now ≡ spacing.unblanked was.now) }
{
    let was = unblanked(alloc, was)?;
    let is = unblanked(alloc, is)?;
    Ok(is_same_text(&was, &is))
}

/// The characters of a line beside its blanks.
fn unblanked(alloc: Global, line: &[u8]) -> Result<Vec<u8>, AllocError>
    ensures { IfOk result (λ text. text.items ≡ spacing.unblanked line.now) }
{
    let mut text = line.to_vec(alloc)?;
    text.retain(|byte| *byte != b' ');
    Ok(text)
}

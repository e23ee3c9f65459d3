//! The cards of lines of a text.
ghost use Rattle.std.specs.Prelude.{◌≡◌, drop, map, take, IfOk};
ghost use Rattle.cps_rpc.specs.Lines.{source_lines};
ghost use Rattle.cps_input.specs.Card.{card_of};

use cps_input::card_of;
use cps_rpc::Buffer;
use cps_text::Line;
use std::alloc::{AllocError, Global};

/// The cards of the lines of a text's source from one of them on, of so many at most.
pub fn cards_from(
    alloc: Global,
    buffer: &Buffer,
    first: usize,
    count: usize,
) -> Result<Vec<Line>, AllocError>
    ensures { IfOk result (λ cards. cards.items ≡ map card_of (take count (drop first (source_lines buffer.now)))) }
{
    let left = buffer.source_len().saturating_sub(first);
    let mut cards = Vec::new(alloc);
    for at in first..first + count.min(left) {
        cards.push(card_of(alloc, buffer.source_line(at))?)?;
    }
    Ok(cards)
}

//! The blocks that USE left and may go back to.
ghost use Rattle.std.specs.Prelude.{◌≡◌, ◌∷◌, take, IfOk};
ghost use Rattle.cps_state.specs.Keys.{most_uses};

use crate::shared::Shared;
use cps_text::Name;
use cps_text::limits::MOST_LEFT_BLOCKS;
use std::alloc::{AllocError, Global};

/// A block in front of others, of which the last that there is no room for goes.
pub fn uses_with(
    alloc: Global,
    block: Option<Name>,
    others: &[Option<Name>],
) -> Result<Shared<Option<Name>>, AllocError>
    ensures { IfOk result (λ uses. uses ≡ take most_uses (block ∷ others.now)) }
{
    Shared::with(alloc, block, first_of(others, MOST_LEFT_BLOCKS - 1))
}

/// So many blocks, or all where there are no more.
fn first_of(blocks: &[Option<Name>], count: usize) -> &[Option<Name>]
    ensures { result.now ≡ take count blocks.now }
{
    if blocks.len() <= count {
        blocks
    } else {
        &blocks[..count]
    }
}

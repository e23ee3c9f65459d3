//! What may be mended in lines.
ghost use Rattle.std.specs.Prelude.{IfOk};
ghost use Rattle.serde_json.specs.View.{view};
ghost use Rattle.cps_server.specs.Actions.{TellsActions};

use crate::action::{Action, tell_actions};
use crate::closing::push_closing;
use crate::mending::push_mended;
use crate::nearest::push_nearest;
use crate::queried_text::QueriedText;
use cps_rpc::Range;
use serde_json::Value;
use std::alloc::{AllocError, Global};

/// What may be mended in the lines of a range of a deck, from its first line through its last: characters that no line has, lines that are too long, lines
/// that stay open, and names that stand for nothing.
pub fn actions_in(alloc: Global, deck: QueriedText<'_>, range: Range) -> Result<Value, AllocError>
    ensures { IfOk result (λ json. TellsActions deck.entry.encoding deck.entry.uri.now deck.entry.document.now (view json)) }
{
    let mut found: Vec<Action> = Vec::new(alloc);
    push_mended(alloc, &mut found, deck.document, range)?;
    push_closing(alloc, &mut found, deck.document, range)?;
    push_nearest(alloc, &mut found, deck.document, range)?;
    tell_actions(alloc, deck, found)
}

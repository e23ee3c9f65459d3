//! The changes of a message.
ghost use Rattle.std.specs.Prelude.{◌≡◌, map, option_map, IfOk};
ghost use Rattle.serde_json.specs.View.{view};
ghost use Rattle.cps_rpc.specs.Params as params;
ghost use Rattle.cps_rpc.specs.Params.{value_of};

use crate::change::Change;
use crate::member::list_in;
use serde_json::Value;
use std::alloc::{AllocError, Global};

/// The changes that parameters tell, None where one of them is wrong, or where they tell no list.
pub fn changes_in<'a>(alloc: Global, json: &'a Value) -> Result<Option<Vec<Change<'a>>>, AllocError>
    ensures { IfOk result (λ told. option_map (λ changes. map value_of changes.items) told ≡ params.changes_in (view json.now)) }
{
    match json.get("contentChanges").and_then(list_in) {
        Some(items) => all_changes(alloc, items),
        None => Ok(None),
    }
}

/// The changes that values tell, None where one of them is wrong.
fn all_changes<'a>(alloc: Global, items: &'a [Value]) -> Result<Option<Vec<Change<'a>>>, AllocError>
    ensures { IfOk result (λ told. option_map (λ changes. map value_of changes.items) told ≡ params.all_changes (map view items.now)) }
{
    let mut changes = Vec::new(alloc);
    for item in items {
        match Change::of(item) {
            Some(change) => changes.push(change)?,
            None => return Ok(None),
        }
    }
    Ok(Some(changes))
}

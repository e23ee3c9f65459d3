//! What a request to rename asks.
ghost use Rattle.std.specs.Prelude.{◌≡◌, option_map};
ghost use Rattle.serde_json.specs.View.{view};
ghost use Rattle.cps_server.specs.Renames.{wish_in};
ghost use Rattle.cps_server.specs.Code.Renaming.{wish_of};

use cps_rpc::{Position, new_name_in, position_at};
use serde_json::Value;

/// The name at a position is to be called otherwise.
#[derive(Clone, Copy)]
pub struct RenameWish<'a> {
    pub position: Position,
    pub new_name: &'a str,
}

impl<'a> RenameWish<'a> {
    /// What parameters ask.
    pub fn of(params: &'a Value) -> Option<RenameWish<'a>>
        ensures { option_map wish_of result ≡ wish_in (view params.now) }
    {
        let position = position_at(params)?;
        let new_name = new_name_in(params)?;
        Some(RenameWish { position, new_name })
    }
}

//! A change of a text.
ghost use Rattle.std.specs.Prelude.{◌≡◌, option_map};
ghost use Rattle.serde_json.specs.View.{view};
ghost use Rattle.cps_rpc.specs.Params as params;

use crate::member::text_in;
use crate::position::Range;
use crate::positions::range_in;
use serde_json::Value;

/// A change of a text: new text in the place of a range, or, where no range is told, of all of it.
#[derive(Clone, Copy)]
pub struct Change<'a> {
    /// What gives way.
    pub range: Option<Range>,
    /// The new text.
    pub text: &'a str,
}

impl<'a> Change<'a> {
    /// The change that a value tells.
    pub fn of(json: &'a Value) -> Option<Change<'a>>
        ensures { option_map params.value_of result ≡ params.change_in (view json.now) }
    {
        let text = text_in(json)?;
        let range = told_range(json.get("range"))?;
        Some(Change { range, text })
    }
}

/// The range that a change tells, None where it tells a wrong one. It tells none where the member is missing or null.
fn told_range(json: Option<&Value>) -> Option<Option<Range>>
    ensures { result ≡ params.told_range (option_map (λ value. view value.now) json.entry) }
{
    match json {
        None | Some(Value::Null) => Some(None),
        Some(json) => match range_in(json) {
            Some(range) => Some(Some(range)),
            None => None,
        },
    }
}

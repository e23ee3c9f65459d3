//! Positions and ranges.
ghost use Rattle.std.specs.Prelude.{◌≡◌};
ghost use Rattle.serde_json.specs.View.{view};
ghost use Rattle.cps_rpc.specs.Params as params;

use crate::position::{Position, Range};
use serde_json::Value;

/// The position of which a request asks.
pub fn position_at(json: &Value) -> Option<Position>
    ensures { result ≡ params.position_at (view json.now) }
{
    json.get("position").and_then(position_in)
}

/// The range of which a request asks.
pub fn range_at(json: &Value) -> Option<Range>
    ensures { result ≡ params.range_at (view json.now) }
{
    json.get("range").and_then(range_in)
}

/// The range that a value tells.
pub fn range_in(json: &Value) -> Option<Range>
    ensures { result ≡ params.range_in (view json.now) }
{
    let start = json.get("start").and_then(position_in)?;
    let end = json.get("end").and_then(position_in)?;
    Some(Range { start, end })
}

/// The position that a value tells.
pub fn position_in(json: &Value) -> Option<Position>
    ensures { result ≡ params.position_in (view json.now) }
{
    let line = json.get("line").and_then(number_in)?;
    let character = json.get("character").and_then(number_in)?;
    Some(Position { line, character })
}

/// A whole number below 2^32.
fn number_in(json: &Value) -> Option<u32>
    ensures { result ≡ params.number_in (view json.now) }
{
    match json.as_u64() {
        Some(number) if number <= u64::from(u32::MAX) => Some(number as u32),
        _ => None,
    }
}

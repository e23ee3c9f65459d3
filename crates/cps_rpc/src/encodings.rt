//! The encodings that an editor offers.
ghost use Rattle.std.specs.Prelude.{◌≡◌, map, option_map};
ghost use Rattle.std.specs.List.{list_any};
ghost use Rattle.serde_json.specs.View.{view};
ghost use Rattle.cps_rpc.specs.Params as params;

use crate::encoding::Encoding;
use crate::member::list_in;
use serde_json::Value;

/// The encoding of positions, from the parameters of `initialize`: UTF-8 where the editor offers it, else UTF-16.
pub fn encoding_in(json: &Value) -> Encoding
    ensures { result ≡ params.encoding_in (view json.now) }
{
    match offered(json) {
        Some(names) if offers_utf8(names) => Encoding::Utf8,
        _ => Encoding::Utf16,
    }
}

/// The encodings that parameters offer.
fn offered(json: &Value) -> Option<&[Value]>
    ensures { option_map (λ names. map view names.now) result ≡ params.offered (view json.now) }
{
    let general = json.get("capabilities")?.get("general")?;
    list_in(general.get("positionEncodings")?)
}

fn offers_utf8(names: &[Value]) -> bool
    ensures { result ≡ list_any params.is_utf8 (map view names.now) }
{
    for name in names {
        if is_utf8(name) {
            return true;
        }
    }
    false
}

/// Whether a value is the name of UTF-8.
fn is_utf8(name: &Value) -> bool
    ensures { result ≡ params.is_utf8 (view name.now) }
{
    name.as_str() == Some("utf-8")
}

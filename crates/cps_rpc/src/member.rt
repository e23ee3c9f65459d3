//! Members of parameters.
ghost use Rattle.std.specs.Prelude.{◌≡◌, false, map, option_map, unwrap_or};
ghost use Rattle.serde_json.specs.View.{view};
ghost use Rattle.cps_rpc.specs.Params as params;

use serde_json::Value;

/// The URI of the document that parameters name.
pub fn uri_in(json: &Value) -> Option<&str>
    ensures { option_map (λ uri. uri.now) result ≡ params.uri_in (view json.now) }
{
    json.get("textDocument").and_then(uri_of)
}

/// The version of the document that parameters name, where it is a whole number of 64 bits.
pub fn version_in(json: &Value) -> Option<i64>
    ensures { result ≡ params.version_in (view json.now) }
{
    json.get("textDocument")?.get("version")?.as_i64()
}

/// The new name that parameters tell.
pub fn new_name_in(json: &Value) -> Option<&str>
    ensures { option_map (λ name. name.now) result ≡ params.new_name_in (view json.now) }
{
    json.get("newName").and_then(Value::as_str)
}

/// The URI of a document.
pub fn uri_of(document: &Value) -> Option<&str>
    ensures { option_map (λ uri. uri.now) result ≡ params.text_at params.uri_name (view document.now) }
{
    document.get("uri").and_then(Value::as_str)
}

/// Whether a request for references wants definitions too.
pub fn wants_definitions(json: &Value) -> bool
    ensures { result ≡ params.wants_definitions (view json.now) }
{
    wanted_in(json).unwrap_or(false)
}

fn wanted_in(json: &Value) -> Option<bool>
    ensures { unwrap_or result false ≡ params.wants_definitions (view json.now) }
{
    json.get("context")?.get("includeDeclaration")?.as_bool()
}

/// A text that is a member.
pub fn text_in(json: &Value) -> Option<&str>
    ensures { option_map (λ text. text.now) result ≡ params.text_at params.text_name (view json.now) }
{
    json.get("text").and_then(Value::as_str)
}

/// The items of a list.
pub fn list_in(json: &Value) -> Option<&[Value]>
    ensures { option_map (λ items. map view items.now) result ≡ params.list_of (view json.now) }
{
    match json.as_array() {
        Some(items) => Some(items),
        None => None,
    }
}

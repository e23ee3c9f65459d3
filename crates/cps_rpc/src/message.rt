//! What a message asks.
ghost use Rattle.std.specs.Prelude.{◌≡◌};
ghost use Rattle.serde_json.specs.View.{view};
ghost use Rattle.cps_rpc.specs.Message as messages;

use serde_json::Value;

/// What a message asks.
#[derive(Clone, Copy)]
pub enum Message<'a> {
    /// A request. It is answered under its identifier.
    Request {
        /// The identifier, a whole number of 64 bits or a text.
        id: &'a Value,
        /// The method that is called.
        method: &'a str,
    },
    /// A notification. It isn't answered.
    Notification {
        /// The method that is called.
        method: &'a str,
    },
    /// The answer to a request. It has a `result` or an `error`, and no method.
    Response,
    /// None of these.
    Invalid,
}

impl<'a> Message<'a> {
    /// What a message asks, from its JSON.
    pub fn of(json: &'a Value) -> Message<'a>
        ensures { messages.value_of result ≡ messages.message_in (view json.now) }
    {
        let method = json.get("method").and_then(Value::as_str);
        match (method, json.get("id")) {
            (Some(method), Some(id)) if is_identifier(id) => Message::Request { id, method },
            (Some(method), None) => Message::Notification { method },
            (None, Some(_)) if is_answer(json) => Message::Response,
            _ => Message::Invalid,
        }
    }
}

/// Whether a value can be an identifier.
fn is_identifier(id: &Value) -> bool
    ensures { result ≡ messages.is_identifier (view id.now) }
{
    match id {
        Value::Number(number) => !number.is_f64(),
        Value::String(_) => true,
        _ => false,
    }
}

/// Whether a message has what an answer has.
fn is_answer(json: &Value) -> bool
    ensures { result ≡ messages.is_answer (view json.now) }
{
    json.get("result").is_some() || json.get("error").is_some()
}

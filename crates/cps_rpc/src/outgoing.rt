//! The answers to requests.
ghost use Rattle.std.specs.Prelude.{◌≡◌, IfOk};
ghost use Rattle.serde_json.specs.View.{view};
ghost use Rattle.cps_rpc.specs.Outgoing as outgoing;

use crate::error_code::ErrorCode;
use serde_json::{Value, json};
use std::alloc::{AllocError, Global};

/// The response to a request: what it asked for.
pub fn response(alloc: Global, id: &Value, found: Value) -> Result<Value, AllocError>
    ensures { IfOk result (λ json. view json ≡ outgoing.response (view id.now) (view found)) }
{
    json!(in alloc; {"id": id, "jsonrpc": "2.0", "result": found})
}

/// The refusal of a request. Its identifier is `null` where none could be read.
pub fn refusal(alloc: Global, id: &Value, code: ErrorCode) -> Result<Value, AllocError>
    ensures { IfOk result (λ json. view json ≡ outgoing.refusal (view id.now) code) }
{
    json!(in alloc; {"error": {"code": code.number(), "message": code.text()}, "id": id, "jsonrpc": "2.0"})
}

/// The answer to a request that failed: why, in words.
pub fn failure(alloc: Global, id: &Value, words: &str) -> Result<Value, AllocError>
    ensures { IfOk result (λ json. view json ≡ outgoing.failure (view id.now) words.now) }
{
    let code = ErrorCode::RequestFailed.number();
    json!(in alloc; {"error": {"code": code, "message": words}, "id": id, "jsonrpc": "2.0"})
}

//! The JSON that a message is.
ghost use Rattle.std.specs.Prelude.{IfOk, IsErrOf};
ghost use Rattle.serde_json.specs.View.{view};
ghost use Rattle.cps_rpc.specs.Json.{IsJson, IsNoJson};

use serde_json::Value;
use std::alloc::Global;
use thiserror::Error;

/// Why bytes give no JSON.
#[derive(Clone, Copy, Debug, PartialEq, Eq, Error)]
pub enum JsonFault {
    /// They are no JSON, or no UTF-8, or nest deeper than 127.
    #[error("no JSON")]
    NoJson,
    /// There was no memory.
    #[error("no memory")]
    Memory,
}

/// The JSON that a message is.
pub fn json_of(alloc: Global, message: &[u8]) -> Result<Value, JsonFault>
    ensures json { IfOk result (λ json. IsJson message.now (view json)) }
    ensures no_json { IsErrOf result JsonFault.NoJson → IsNoJson message.now }
{
    match Value::from_slice(alloc, message) {
        Ok(json) => Ok(json),
        Err(error) if error.is_memory() => Err(JsonFault::Memory),
        Err(_) => Err(JsonFault::NoJson),
    }
}

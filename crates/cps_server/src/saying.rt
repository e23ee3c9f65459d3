//! What is said.
ghost use Rattle.std.specs.Prelude.{◌≡◌, ◌++◌, false, OnOk};
ghost use Rattle.serde_json.specs.Data.{null};
ghost use Rattle.serde_json.specs.View.{view};
ghost use Rattle.serde_json.specs.Written.{has_float};
ghost use Rattle.cps_rpc.specs.Outgoing as outgoing;
ghost use Rattle.cps_server.specs.Frames.{frame_of_json};
ghost use Rattle.cps_server.specs.Code.Owing.{has_float_owed, value_of};
ghost use Rattle.cps_server.specs.Requests.{answer_with};

use crate::owed::Owed;
use cps_rpc::{ErrorCode, failure, push_frame, refusal, response};
use serde_json::Value;
use std::alloc::{AllocError, Global};

/// Appends the frame of a value, which has no float.
pub fn push_json(alloc: Global, said: &mut Vec<u8>, json: &Value) -> Result<(), AllocError>
    requires { has_float (view json.now) ≡ false }
    ensures { OnOk result (said.new.items ≡ said.old.items ++ frame_of_json (view json.now)) }
{
    let text = json.to_vec(alloc)?;
    push_frame(said, &text)
}

/// Appends the answer to the request of an identifier.
pub fn push_answer(
    alloc: Global,
    said: &mut Vec<u8>,
    id: &Value,
    owed: Owed,
) -> Result<(), AllocError>
    requires id { has_float (view id.now) ≡ false }
    requires owed { has_float_owed (value_of owed) ≡ false }
    ensures { OnOk result (said.new.items ≡ said.old.items ++ frame_of_json (answer_with (view id.now) (value_of owed))) }
{
    match owed {
        Owed::Refused(code) => push_refusal(alloc, said, id, code),
        Owed::Found(found) => push_response(alloc, said, id, found),
        Owed::Failed(words) => push_failure(alloc, said, id, &words),
    }
}

/// Appends the response to the request of an identifier: what it asked for.
fn push_response(
    alloc: Global,
    said: &mut Vec<u8>,
    id: &Value,
    found: Value,
) -> Result<(), AllocError>
    requires id { has_float (view id.now) ≡ false }
    requires found { has_float (view found) ≡ false }
    ensures { OnOk result (said.new.items ≡ said.old.items ++ frame_of_json (outgoing.response (view id.now) (view found))) }
{
    let json = response(alloc, id, found)?;
    push_json(alloc, said, &json)
}

/// Appends the refusal of a message whose identifier can't be read.
pub fn push_rejection(alloc: Global, said: &mut Vec<u8>, code: ErrorCode) -> Result<(), AllocError>
    ensures { OnOk result (said.new.items ≡ said.old.items ++ frame_of_json (outgoing.refusal null code)) }
{
    let json = refusal(alloc, &Value::Null, code)?;
    push_json(alloc, said, &json)
}

/// Appends the refusal of the request of an identifier.
fn push_refusal(
    alloc: Global,
    said: &mut Vec<u8>,
    id: &Value,
    code: ErrorCode,
) -> Result<(), AllocError>
    requires { has_float (view id.now) ≡ false }
    ensures { OnOk result (said.new.items ≡ said.old.items ++ frame_of_json (outgoing.refusal (view id.now) code)) }
{
    let json = refusal(alloc, id, code)?;
    push_json(alloc, said, &json)
}

/// Appends the answer to the request of an identifier that failed: why, in words.
fn push_failure(
    alloc: Global,
    said: &mut Vec<u8>,
    id: &Value,
    words: &str,
) -> Result<(), AllocError>
    requires { has_float (view id.now) ≡ false }
    ensures { OnOk result (said.new.items ≡ said.old.items ++ frame_of_json (outgoing.failure (view id.now) words.now)) }
{
    let json = failure(alloc, id, words)?;
    push_json(alloc, said, &json)
}

//! Values that stand at keys.
ghost use Rattle.std.specs.Prelude.{◌≡◌, OnOk, IfOk, IfSome};
ghost use Rattle.cps_expr.specs.Value.{IsInRange};
ghost use Rattle.cps_state.specs.Keys.{value_of};
ghost use Rattle.cps_state.specs.Code.Line.{line_answer, line_asked};

use cps_expr::Value;
use cps_state::{Key, Lookup, Recorder, value_of};
use std::alloc::AllocError;

/// The value at a key, which is asked: of a label, or one that SET gave. None where there is none.
pub fn ask_value<L: Lookup>(
    recorder: &mut Recorder<'_, L>,
    key: Key,
) -> Result<Option<Value>, AllocError>
    ensures asks { OnOk result (recorder.new ≡ line_asked L.answer recorder.old key) }
    ensures value { IfOk result (λ value. value ≡ value_of (line_answer L.answer recorder.old key)) }
    ensures range { IfOk result (λ value. IfSome value IsInRange) }
{
    let known = recorder.note(key)?;
    Ok(value_of(recorder.answer(known)))
}

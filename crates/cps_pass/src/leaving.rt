//! Using another block: what ORG and USE share.
ghost use Rattle.std.specs.Prelude.{OnOk};
ghost use Rattle.cps_state.specs.Code.Line.{Does};
ghost use Rattle.cps_pass.specs.Leaving as meaning;

use crate::head::put_control;
use cps_state::{Control, Lookup, Recorder, is_same_block};
use cps_text::Name;
use std::alloc::AllocError;

/// Another block is in use.
pub fn select<L: Lookup>(
    recorder: &mut Recorder<'_, L>,
    control: Control,
    block: Option<Name>,
) -> Result<(), AllocError>
    ensures { OnOk result (Does (meaning.using control block) L.answer recorder.old recorder.new) }
{
    if is_same_block(control.block, block) {
        return Ok(());
    }
    put_control(recorder, Control { block, ..control })
}

//! END on a source line.
ghost use Rattle.std.specs.Prelude.{◌≡◌, OnOk};
ghost use Rattle.cps_state.specs.Code.Line.{Does};
ghost use Rattle.cps_pass.specs.End as meaning;

use crate::context::Context;
use crate::head::put_control;
use crate::located::present_flags;
use crate::places::{go_on, leave_word, stand};
use crate::reading::Location;
use cps_state::{
    Answer, Control, Flags, Key, Lookup, Made, Mode, Phase, Recorder, Shared, Shown, is_no_range,
    is_normal,
};
use std::alloc::AllocError;

/// END: leaves the word that was begun. Ranges that are open, and lines that are skipped or kept, end here.
pub fn end<L: Lookup>(
    recorder: &mut Recorder<'_, L>,
    context: Context,
    mode: &Mode,
) -> Result<(), AllocError>
    ensures { OnOk result (Does (meaning.end context.control mode.now context.location) L.answer recorder.old recorder.new) }
{
    let ranges = recorder.note(Key::Ifs)?;
    let is_closed = is_no_range(recorder.answer(ranges));
    let left = leave_word(stand(recorder, context.control)?);
    go_on(recorder, context.control.block, left.start, false)?;
    recorder.put(Key::Ifs, Answer::Ifs(Shared::empty()))?;
    put_control(recorder, with_end(context.control))?;
    recorder.fill(Made::leaving(
        end_flags(mode, context.location, is_closed),
        context.control.machine,
        left.filling,
        Shown::Nothing,
    ));
    Ok(())
}

/// E where a range is open, or lines are skipped or kept.
fn end_flags(mode: &Mode, location: Location, is_closed: bool) -> Flags
    ensures { result ≡ meaning.end_flags mode.now location is_closed }
{
    let mut flags = present_flags(location);
    flags.structure = !is_normal(mode) || !is_closed;
    flags
}

/// The program has ended.
fn with_end(control: Control) -> Control
    ensures { result ≡ meaning.with_end control }
{
    Control {
        phase: Phase::AfterEnd,
        ..control
    }
}

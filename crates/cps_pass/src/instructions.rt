//! Pass one of an instruction.
ghost use Rattle.std.specs.Prelude.{OnOk};
ghost use Rattle.cps_state.specs.Code.Line.{Does};
ghost use Rattle.cps_pass.specs.Instruction as instructions;

use crate::context::Context;
use crate::placing::{ask_site, place, place_unread, start_for, word_start};
use cps_code::{CpForm, PpForm};
use cps_state::{Content, Contents, InstructionForm, Lookup, Recorder};
use std::alloc::AllocError;

/// An instruction of the central processor; None where its operands are unreadable.
pub fn instruction<L: Lookup>(
    recorder: &mut Recorder<'_, L>,
    context: Context,
    form: Option<CpForm>,
) -> Result<(), AllocError>
    ensures { OnOk result (Does (instructions.instruction context.control context.location form) L.answer recorder.old recorder.new) }
{
    let site = ask_site(recorder, context)?;
    let Some(form) = form else {
        return place_unread(recorder, site, start_for(site, 0));
    };
    let begun = start_for(site, form.bits());
    let is_pending = form.forces_after();
    let content = Content::Instruction(InstructionForm::central(form));
    place(recorder, site, begun, Contents::one(content), is_pending)
}

/// An instruction of a peripheral processor; None where its operands are unreadable.
pub fn peripheral_instruction<L: Lookup>(
    recorder: &mut Recorder<'_, L>,
    context: Context,
    form: Option<PpForm>,
) -> Result<(), AllocError>
    ensures { OnOk result (Does (instructions.peripheral_instruction context.control context.location form) L.answer recorder.old recorder.new) }
{
    let site = ask_site(recorder, context)?;
    let begun = word_start(site);
    match form {
        None => place_unread(recorder, site, begun),
        Some(form) => {
            let content = Content::Instruction(InstructionForm::peripheral(form));
            place(recorder, site, begun, Contents::one(content), false)
        }
    }
}

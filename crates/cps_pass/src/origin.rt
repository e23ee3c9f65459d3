//! ORG: goes on at an address, in the block of its value.
ghost use Rattle.std.specs.Prelude.{◌<◌, ◌^◌, OnOk};
ghost use Rattle.cps_state.specs.Code.Line.{Does};
ghost use Rattle.cps_pass.specs.Origin as meaning;

use crate::context::Context;
use crate::leaving::select;
use crate::located::present_flags;
use crate::making::{flag, unmatched, unread};
use crate::numbers::not_negative;
use crate::places::{go_on, here_at, leave_word, stand};
use crate::value_now::{ValueNow, value_now};
use cps_code::Place;
use cps_expr::{Expr, Value};
use cps_state::{Lookup, Made, Recorder, Shown, WORD, limit_of};
use cps_text::Name;
use std::alloc::AllocError;

/// ORG: leaves the word that was begun, and goes on at an address.
pub fn org<L: Lookup>(
    recorder: &mut Recorder<'_, L>,
    context: Context,
    operand: &Expr,
) -> Result<(), AllocError>
    ensures { OnOk result (Does (meaning.org context.control context.location operand.now) L.answer recorder.old recorder.new) }
{
    let place = stand(recorder, context.control)?;
    let here = here_at(context.control.block, leave_word(place).start);
    let value = value_now(recorder, operand, here)?;
    move_by(recorder, context, place, value)
}

/// ORG with an unreadable operand.
pub fn unread_org<L: Lookup>(
    recorder: &mut Recorder<'_, L>,
    context: Context,
) -> Result<(), AllocError>
    ensures { OnOk result (Does (meaning.unread_org context.control context.location) L.answer recorder.old recorder.new) }
{
    stand(recorder, context.control)?;
    unread(recorder, context.location);
    Ok(())
}

fn move_by<L: Lookup>(
    recorder: &mut Recorder<'_, L>,
    context: Context,
    place: Place,
    value: ValueNow,
) -> Result<(), AllocError>
    requires { place.word < 2 ^ 26 }
    ensures { OnOk result (Does (meaning.moving context.control context.location place value) L.answer recorder.old recorder.new) }
{
    match value {
        ValueNow::Undefined => {
            let mut flags = present_flags(context.location);
            flags.undefined = true;
            flag(recorder, flags);
            Ok(())
        }
        ValueNow::NoValue => {
            unread(recorder, context.location);
            Ok(())
        }
        ValueNow::Known(value) => match not_negative(value.offset) {
            None => {
                unread(recorder, context.location);
                Ok(())
            }
            Some(address) => move_to(recorder, context, place, value.block, address),
        },
    }
}

fn move_to<L: Lookup>(
    recorder: &mut Recorder<'_, L>,
    context: Context,
    place: Place,
    block: Option<Name>,
    address: u64,
) -> Result<(), AllocError>
    requires { place.word < 2 ^ 26 }
    ensures { OnOk result (Does (meaning.moving_to context.control context.location place block address) L.answer recorder.old recorder.new) }
{
    if address > u64::from(limit_of(context.control.machine)) {
        unmatched(recorder, context.location);
        return Ok(());
    }
    let left = leave_word(place);
    go_on(recorder, context.control.block, left.start, false)?;
    go_on(recorder, block, WORD * address as u32, false)?;
    select(recorder, context.control, block)?;
    let shown = Shown::Address(Value {
        block,
        offset: address as i64,
    });
    recorder.fill(Made::leaving(
        present_flags(context.location),
        context.control.machine,
        left.filling,
        shown,
    ));
    Ok(())
}

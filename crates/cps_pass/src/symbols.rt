//! EQU, `=` and SET.
ghost use Rattle.std.specs.Prelude.{◌≡◌, OnOk, IfOk};
ghost use Rattle.cps_state.specs.Code.Line.{Does, Hands, line_filled};
ghost use Rattle.cps_pass.specs.Symbols as symbols;
ghost use Rattle.cps_pass.specs.Located.{symbol_in, defining};

use crate::context::Context;
use crate::located::{
    Definition, ask_definition, define, is_labelled, is_taken, symbol_in, tell_if,
};
use crate::making::flag;
use crate::reading::Location;
use crate::value_now::{ValueNow, value_here};
use cps_expr::{Expr, Value};
use cps_state::{Answer, Flags, Key, Lookup, Made, Recorder, Shown};
use std::alloc::AllocError;

/// The location symbol gets the value of the operand, unless it has one already.
pub fn equate<L: Lookup>(
    recorder: &mut Recorder<'_, L>,
    context: Context,
    operand: &Expr,
) -> Result<(), AllocError>
    ensures { OnOk result (Does (symbols.equate context.control context.location operand.now) L.answer recorder.old recorder.new) }
{
    let is_taken = is_taken(recorder, context.location)?;
    let value = value_here(recorder, context.control, operand)?;
    define_known(recorder, context.location, is_taken, value)?;
    let flags = equate_flags(context.location, is_taken);
    list_value(recorder, flags, value);
    Ok(())
}

/// The same with an unreadable operand.
pub fn unread_equate<L: Lookup>(
    recorder: &mut Recorder<'_, L>,
    location: Location,
) -> Result<(), AllocError>
    ensures { OnOk result (Does (symbols.unread_equate location) L.answer recorder.old recorder.new) }
{
    let is_taken = is_taken(recorder, location)?;
    let mut flags = equate_flags(location, is_taken);
    flags.operand = true;
    flag(recorder, flags);
    Ok(())
}

/// SET gives the location symbol the value of the operand, also in place of another that SET gave it. A label keeps its value.
pub fn set_symbol<L: Lookup>(
    recorder: &mut Recorder<'_, L>,
    context: Context,
    operand: &Expr,
) -> Result<(), AllocError>
    ensures { OnOk result (Does (symbols.set_symbol context.control context.location operand.now) L.answer recorder.old recorder.new) }
{
    let definition = ask_settable(recorder, context.location)?;
    let value = value_here(recorder, context.control, operand)?;
    set_known(recorder, context.location, definition, value)?;
    let flags = equate_flags(context.location, is_labelled(definition));
    list_value(recorder, flags, value);
    Ok(())
}

/// The same with an unreadable operand.
pub fn unread_set<L: Lookup>(
    recorder: &mut Recorder<'_, L>,
    location: Location,
) -> Result<(), AllocError>
    ensures { OnOk result (Does (symbols.unread_set location) L.answer recorder.old recorder.new) }
{
    let definition = ask_settable(recorder, location)?;
    let mut flags = equate_flags(location, is_labelled(definition));
    flags.operand = true;
    flag(recorder, flags);
    Ok(())
}

/// What the symbol of a location field stands for already; a label counts as read.
fn ask_settable<L: Lookup>(
    recorder: &mut Recorder<'_, L>,
    location: Location,
) -> Result<Definition, AllocError>
    ensures { IfOk result (λ definition. Hands (symbols.asking_settable (symbol_in location)) definition L.answer recorder.old recorder.new) }
{
    match symbol_in(location) {
        Some(name) => {
            let definition = ask_definition(recorder, name)?;
            tell_if(recorder, is_labelled(definition), name)?;
            Ok(definition)
        }
        None => Ok(Definition::Free),
    }
}

fn define_known<L: Lookup>(
    recorder: &mut Recorder<'_, L>,
    location: Location,
    is_taken: bool,
    value: ValueNow,
) -> Result<(), AllocError>
    ensures { OnOk result (Does (symbols.with_known value (defining (symbol_in location) is_taken)) L.answer recorder.old recorder.new) }
{
    match value {
        ValueNow::Undefined | ValueNow::NoValue => Ok(()),
        ValueNow::Known(value) => define(recorder, location, is_taken, value),
    }
}

fn set_known<L: Lookup>(
    recorder: &mut Recorder<'_, L>,
    location: Location,
    definition: Definition,
    value: ValueNow,
) -> Result<(), AllocError>
    ensures { OnOk result (Does (symbols.with_known value (symbols.setting (symbol_in location) definition)) L.answer recorder.old recorder.new) }
{
    match value {
        ValueNow::Undefined | ValueNow::NoValue => Ok(()),
        ValueNow::Known(value) => set(recorder, location, definition, value),
    }
}

fn set<L: Lookup>(
    recorder: &mut Recorder<'_, L>,
    location: Location,
    definition: Definition,
    value: Value,
) -> Result<(), AllocError>
    ensures { OnOk result (Does (symbols.setting (symbol_in location) definition value) L.answer recorder.old recorder.new) }
{
    let Some(name) = symbol_in(location) else {
        return Ok(());
    };
    match definition {
        Definition::Free => recorder.put(Key::Setting(name), Answer::Value(value)),
        Definition::Labelled => Ok(()),
        Definition::Set => {
            recorder.tell(name)?;
            recorder.put(Key::Setting(name), Answer::Value(value))
        }
    }
}

fn equate_flags(location: Location, is_taken: bool) -> Flags
    ensures { result ≡ symbols.equate_flags location is_taken }
{
    let mut flags = Flags::none();
    flags.location = symbol_in(location).is_none();
    flags.twice = is_taken;
    flags
}

/// The value is listed also where the symbol doesn't get it.
fn list_value<L: Lookup>(recorder: &mut Recorder<'_, L>, flags: Flags, value: ValueNow)
    ensures { recorder.new ≡ line_filled recorder.old (symbols.listing_value flags value) }
{
    let mut flags = flags;
    match value {
        ValueNow::Undefined => {
            flags.undefined = true;
            flag(recorder, flags);
        }
        ValueNow::NoValue => {
            flags.operand = true;
            flag(recorder, flags);
        }
        ValueNow::Known(value) => {
            recorder.fill(Made::showing(flags, Shown::Value(value)));
        }
    }
}

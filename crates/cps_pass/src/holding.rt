//! The values that SET gave to symbols that contents read.
ghost use Rattle.std.specs.Prelude.{◌≡◌, true, Some, ◌++◌, flat_map, All, OnOk, IfOk, IfSome};
ghost use Rattle.cps_code.specs.Operand.{operand_names};
ghost use Rattle.cps_expr.specs.Value.{IsInRange};
ghost use Rattle.cps_state.specs.Code.Line.{Hands};
ghost use Rattle.cps_state.specs.Made.{IsHeld};
ghost use Rattle.cps_pass.specs.Code.Holding.{HoldsMore, IsUnset, IsHolding};
ghost use Rattle.cps_pass.specs.Placing as placing;

use crate::asking::ask_value;
use cps_code::Hole;
use cps_expr::{Value, is_same_name};
use cps_state::{Content, Key, Lookup, Recorder, SetValue};
use cps_text::Name;
use std::alloc::AllocError;

/// Values that are held, and the symbol that was asked last, if SET has given it none.
#[derive(Drop)]
struct Holding {
    held: Vec<SetValue>,
    unset: Option<Name>,
}

/// The values that SET has given by now to the symbols that contents read.
pub fn hold<L: Lookup>(
    recorder: &mut Recorder<'_, L>,
    contents: &[Content],
) -> Result<Vec<SetValue>, AllocError>
    ensures held { IfOk result (λ held. Hands (placing.holding contents.now) held.items L.answer recorder.old recorder.new) }
    ensures each { IfOk result (λ held. All IsHeld held.items) }
{
    let mut holding = Holding {
        held: Vec::new(recorder.alloc()),
        unset: None,
    };
    for content in contents {
        hold_holes(recorder, &mut holding, content.holes())?;
    }
    Ok(holding.held)
}

/// The same of the symbols that go into holes, after others.
fn hold_holes<L: Lookup>(
    recorder: &mut Recorder<'_, L>,
    holding: &mut Holding,
    holes: &[Hole],
) -> Result<(), AllocError>
    requires { IsHolding L.answer recorder.old holding.old }
    ensures held { OnOk result (HoldsMore (flat_map (λ hole. operand_names hole.operand) holes.now) holding.old holding.new L.answer recorder.old recorder.new) }
    ensures holding { OnOk result (IsHolding L.answer recorder.new holding.new) }
{
    for hole in holes {
        hold_names(recorder, holding, hole.operand.names())?;
    }
    Ok(())
}

/// The same of symbols.
#[inline(always)]
fn hold_names<L: Lookup>(
    recorder: &mut Recorder<'_, L>,
    holding: &mut Holding,
    names: &[Name],
) -> Result<(), AllocError>
    requires { IsHolding L.answer recorder.old holding.old }
    ensures held { OnOk result (HoldsMore names.now holding.old holding.new L.answer recorder.old recorder.new) }
    ensures holding { OnOk result (IsHolding L.answer recorder.new holding.new) }
{
    for name in names {
        let value = setting_now(recorder, &mut holding.unset, name)?;
        push_held(&mut holding.held, name, value)?;
    }
    Ok(())
}

/// The value that SET has given to a symbol by now. One that was asked last, and has none, is not asked again.
#[inline(always)]
fn setting_now<L: Lookup>(
    recorder: &mut Recorder<'_, L>,
    unset: &mut Option<Name>,
    name: &Name,
) -> Result<Option<Value>, AllocError>
    requires { IfSome unset.old (IsUnset L.answer recorder.old) }
    ensures value { IfOk result (λ value. Hands (placing.setting_now name.now) value L.answer recorder.old recorder.new) }
    ensures unset { OnOk result (IfSome unset.new (IsUnset L.answer recorder.new)) }
    ensures range { IfOk result (λ value. IfSome value IsInRange) }
{
    if is_unset(*unset, *name) {
        return Ok(None);
    }
    let value = ask_value(recorder, Key::Setting(*name))?;
    *unset = if value.is_none() { Some(*name) } else { None };
    Ok(value)
}

/// Whether a symbol is the one that was asked last and has no value.
#[inline(always)]
fn is_unset(unset: Option<Name>, name: Name) -> bool
    ensures { result ≡ true → unset ≡ Some name }
{
    match unset {
        Some(last) => is_same_name(last, name),
        None => false,
    }
}

fn push_held(held: &mut Vec<SetValue>, name: &Name, value: Option<Value>) -> Result<(), AllocError>
    requires each { All IsHeld held.old.items }
    requires range { IfSome value IsInRange }
    ensures pushed { OnOk result (held.new.items ≡ held.old.items ++ placing.held_of name.now value) }
    ensures each { OnOk result (All IsHeld held.new.items) }
{
    if let Some(value) = value {
        held.push(SetValue { name: *name, value })?;
    }
    Ok(())
}

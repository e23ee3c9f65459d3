//! Values in pass one, in which a name counts if it was defined before, and the value that SET gave it stands before its label.
ghost use Rattle.std.specs.Prelude.{◌≡◌, IfOk};
ghost use Rattle.cps_state.specs.Code.Line.{Hands};
ghost use Rattle.cps_pass.specs.ValueNow as now;
ghost use Rattle.cps_pass.specs.Code.NamesNow.{values_in, name_now};

use crate::asking::ask_value;
use crate::places::{here_at, stand};
use cps_expr::{Expr, Names, Value, is_same_name};
use cps_state::{Control, Key, Lookup, Recorder, WORD};
use cps_text::Name;
use std::alloc::AllocError;

/// A name and its value, None where it wasn't defined before.
#[derive(Clone, Copy, PartialEq, Eq)]
pub struct NameNow {
    pub name: Name,
    pub value: Option<Value>,
}

/// A value in pass one.
#[derive(Clone, Copy, PartialEq, Eq)]
pub enum ValueNow {
    /// A name wasn't defined before.
    Undefined,
    /// It has no value.
    NoValue,
    Known(Value),
}

/// The names of an expression with their values.
#[derive(Drop)]
struct NamesNow {
    names: Vec<NameNow>,
}

impl Names for NamesNow {
    ghost use Rattle.cps_pass.specs.Code.NamesNow.{values_in};

    ghost value = { λ now. values_in now.names.items };

    fn value_of(&self, name: Name) -> Option<Value> {
        value_among(&self.names, name)
    }
}

fn value_among(names: &[NameNow], name: Name) -> Option<Value>
    ensures { result ≡ values_in names.now name }
{
    for now in names {
        if is_same_name(now.name, name) {
            return now.value;
        }
    }
    None
}

/// What `*` stands for in the present word. The counter is asked only where `*` stands in the expression.
fn here_in<L: Lookup>(
    recorder: &mut Recorder<'_, L>,
    control: Control,
    expression: &Expr,
) -> Result<Value, AllocError>
    ensures { IfOk result (λ here. Hands (now.asking_here control expression.now) here L.answer recorder.old recorder.new) }
{
    if !expression.has_counter() {
        return Ok(Value::plain(0));
    }
    let place = stand(recorder, control)?;
    Ok(here_at(control.block, WORD * place.word + u32::from(place.used)))
}

/// The value of an expression, where `*` is the address of the present word of the block in use.
pub fn value_here<L: Lookup>(
    recorder: &mut Recorder<'_, L>,
    control: Control,
    expression: &Expr,
) -> Result<ValueNow, AllocError>
    ensures { IfOk result (λ value. Hands (now.now_here control expression.now) value L.answer recorder.old recorder.new) }
{
    let here = here_in(recorder, control, expression)?;
    let value = value_now(recorder, expression, here)?;
    Ok(value)
}

/// The value of an expression, where `*` stands for `here`. Most are numbers.
#[inline(always)]
pub fn value_now<L: Lookup>(
    recorder: &mut Recorder<'_, L>,
    expression: &Expr,
    here: Value,
) -> Result<ValueNow, AllocError>
    ensures { IfOk result (λ value. Hands (now.now expression.now here) value L.answer recorder.old recorder.new) }
{
    match expression.constant() {
        Some(value) => Ok(ValueNow::Known(value)),
        None => value_of_names(recorder, expression, here),
    }
}

/// The value of an expression, by those of its names.
#[inline(never)]
fn value_of_names<L: Lookup>(
    recorder: &mut Recorder<'_, L>,
    expression: &Expr,
    here: Value,
) -> Result<ValueNow, AllocError>
    ensures { IfOk result (λ value. Hands (now.now expression.now here) value L.answer recorder.old recorder.new) }
{
    let names = names_now(recorder, expression.names())?;
    Ok(value_under(&NamesNow { names }, expression, here))
}

fn value_under(names: &NamesNow, expression: &Expr, here: Value) -> ValueNow
    ensures { result ≡ now.value_now (values_in names.now.names.items) here expression.now }
{
    let valued = expression.value(names, here);
    if valued.undefined {
        return ValueNow::Undefined;
    }
    match valued.value {
        None => ValueNow::NoValue,
        Some(value) => ValueNow::Known(value),
    }
}

/// The values of names, in their order.
fn names_now<L: Lookup>(
    recorder: &mut Recorder<'_, L>,
    names: &[Name],
) -> Result<Vec<NameNow>, AllocError>
    ensures { IfOk result (λ values. Hands (now.names_now names.now) (values_in values.items) L.answer recorder.old recorder.new) }
{
    let alloc = recorder.alloc();
    let mut now = Vec::new(alloc);
    for name in names {
        now.push(name_now(recorder, name)?)?;
    }
    Ok(now)
}

fn name_now<L: Lookup>(recorder: &mut Recorder<'_, L>, name: &Name) -> Result<NameNow, AllocError>
    ensures { IfOk result (λ value. Hands (name_now name.now) value L.answer recorder.old recorder.new) }
{
    let label = ask_value(recorder, Key::Label(*name))?;
    let setting = ask_value(recorder, Key::Setting(*name))?;
    recorder.tell(*name)?;
    Ok(NameNow {
        name: *name,
        value: setting.or(label),
    })
}

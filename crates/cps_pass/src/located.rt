//! Location fields, and the symbols that they define.
ghost use Rattle.std.specs.Prelude.{◌≡◌, OnOk, IfOk};
ghost use Rattle.cps_state.specs.Course.{telling_if};
ghost use Rattle.cps_state.specs.Code.Line.{Does, Hands};
ghost use Rattle.cps_pass.specs.Located as located;

use crate::asking::ask_value;
use crate::reading::Location;
use cps_expr::Value;
use cps_state::{Answer, Flags, Key, Lookup, Recorder};
use cps_text::Name;
use std::alloc::AllocError;

/// Whether a location field isn't empty.
fn is_present(location: Location) -> bool
    ensures { result ≡ located.is_present location }
{
    match location {
        Location::Absent => false,
        _ => true,
    }
}

/// The flags of a location field of a statement that takes none.
pub fn present_flags(location: Location) -> Flags
    ensures { result ≡ located.present_flags location }
{
    let mut flags = Flags::none();
    flags.location = is_present(location);
    flags
}

/// The symbol of a location field.
pub fn symbol_in(location: Location) -> Option<Name>
    ensures { result ≡ located.symbol_in location }
{
    match location {
        Location::Symbol(name) => Some(name),
        _ => None,
    }
}

/// What a symbol stands for already.
#[derive(Clone, Copy, PartialEq, Eq)]
pub enum Definition {
    Free,
    /// It is a label.
    Labelled,
    /// SET gave it a value.
    Set,
}

pub fn has_value(definition: Definition) -> bool
    ensures { result ≡ located.has_value definition }
{
    match definition {
        Definition::Free => false,
        Definition::Labelled | Definition::Set => true,
    }
}

pub fn is_labelled(definition: Definition) -> bool
    ensures { result ≡ located.is_labelled definition }
{
    match definition {
        Definition::Labelled => true,
        Definition::Free | Definition::Set => false,
    }
}

fn defined_by(label: Option<Value>, setting: Option<Value>) -> Definition
    ensures { result ≡ located.defined_by label setting }
{
    match (label, setting) {
        (Some(_), _) => Definition::Labelled,
        (None, Some(_)) => Definition::Set,
        (None, None) => Definition::Free,
    }
}

/// What a symbol stands for already.
pub fn ask_definition<L: Lookup>(
    recorder: &mut Recorder<'_, L>,
    name: Name,
) -> Result<Definition, AllocError>
    ensures { IfOk result (λ definition. Hands (located.asking_definition name) definition L.answer recorder.old recorder.new) }
{
    let label = ask_value(recorder, Key::Label(name))?;
    let setting = ask_value(recorder, Key::Setting(name))?;
    Ok(defined_by(label, setting))
}

/// Tells a symbol where something holds.
pub fn tell_if<L: Lookup>(
    recorder: &mut Recorder<'_, L>,
    holds: bool,
    name: Name,
) -> Result<(), AllocError>
    ensures { OnOk result (Does (telling_if holds name) L.answer recorder.old recorder.new) }
{
    if holds {
        recorder.tell(name)?;
    }
    Ok(())
}

/// Whether the symbol of a location field has a value already; then it counts as read.
pub fn is_taken<L: Lookup>(
    recorder: &mut Recorder<'_, L>,
    location: Location,
) -> Result<bool, AllocError>
    ensures { IfOk result (λ is_taken. Hands (located.asking_taken (located.symbol_in location)) is_taken L.answer recorder.old recorder.new) }
{
    match symbol_in(location) {
        Some(name) => {
            let definition = ask_definition(recorder, name)?;
            let is_taken = has_value(definition);
            tell_if(recorder, is_taken, name)?;
            Ok(is_taken)
        }
        None => Ok(false),
    }
}

/// The symbol of a location field gets a value; one that has a value keeps it.
pub fn define<L: Lookup>(
    recorder: &mut Recorder<'_, L>,
    location: Location,
    is_taken: bool,
    value: Value,
) -> Result<(), AllocError>
    ensures { OnOk result (Does (located.defining (located.symbol_in location) is_taken value) L.answer recorder.old recorder.new) }
{
    match symbol_in(location) {
        Some(name) if !is_taken => recorder.put(Key::Label(name), Answer::Value(value)),
        _ => Ok(()),
    }
}

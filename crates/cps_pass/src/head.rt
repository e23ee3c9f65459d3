//! Leaving the head of a program, and IDENT, ABS, PERIPH and BASE.
ghost use Rattle.std.specs.Prelude.{◌≡◌, Option, Some, OnOk, IfOk};
ghost use Rattle.cps_state.specs.Code.Line.{Does, Hands, line_put};
ghost use Rattle.cps_pass.specs.Head as head;

use crate::context::Context;
use crate::located::present_flags;
use crate::making::flag;
use crate::reading::Location;
use cps_expr::{Machine, Radix};
use cps_state::{Answer, Control, Flags, Head, Key, Lookup, Made, Phase, Recorder, SharedMode};
use cps_text::Name;
use std::alloc::AllocError;

/// Puts what holds for the lines to come, which are assembled.
pub fn put_control<L: Lookup>(
    recorder: &mut Recorder<'_, L>,
    control: Control,
) -> Result<(), AllocError>
    ensures { OnOk result (recorder.new ≡ line_put recorder.old (head.control_put control)) }
{
    recorder.put(Key::Control, Answer::Control(control, SharedMode::normal()))
}

/// The program is in another part; all else stays.
pub fn enter<L: Lookup>(
    recorder: &mut Recorder<'_, L>,
    control: Control,
    phase: Phase,
) -> Result<(), AllocError>
    ensures { OnOk result (recorder.new ≡ line_put recorder.old (head.control_put (record control { phase = phase }))) }
{
    put_control(recorder, Control { phase, ..control })
}

/// The control after a statement that ends the head.
fn in_body(control: Control) -> Control
    ensures { result ≡ head.in_body control }
{
    let phase = match control.phase {
        Phase::Head(_) => Phase::Body,
        phase => phase,
    };
    Control { phase, ..control }
}

fn is_in_head(phase: Phase) -> bool
    ensures { result ≡ head.is_in_head phase }
{
    match phase {
        Phase::Head(_) => true,
        _ => false,
    }
}

/// The control that holds for a statement: the head ends, unless it stays in it.
pub fn leave_head<L: Lookup>(
    recorder: &mut Recorder<'_, L>,
    control: Control,
    stays: bool,
) -> Result<Control, AllocError>
    ensures control { IfOk result (λ there. Hands (head.leaving_head stays control) there L.answer recorder.old recorder.new) }
    ensures machine { IfOk result (λ there. there.machine ≡ control.machine) }
{
    if stays || !is_in_head(control.phase) {
        return Ok(control);
    }
    let body = in_body(control);
    put_control(recorder, body)?;
    Ok(body)
}

/// IDENT: the first name in the head is the program's; None where the operand is unreadable.
pub fn ident<L: Lookup>(
    recorder: &mut Recorder<'_, L>,
    context: Context,
    name: Option<Name>,
) -> Result<(), AllocError>
    ensures { OnOk result (Does (head.ident context.control context.location name) L.answer recorder.old recorder.new) }
{
    match name {
        Some(name) => name_program(recorder, context, name),
        None => {
            flag(
                recorder,
                ident_flags(context.control.phase, context.location, None),
            );
            Ok(())
        }
    }
}

fn name_program<L: Lookup>(
    recorder: &mut Recorder<'_, L>,
    context: Context,
    name: Name,
) -> Result<(), AllocError>
    ensures { OnOk result (Does (head.ident context.control context.location (Some name)) L.answer recorder.old recorder.new) }
{
    let flags = ident_flags(context.control.phase, context.location, Some(name));
    if is_late_name(context.control.phase) {
        flag(recorder, flags);
        return Ok(());
    }
    enter(recorder, context.control, with_name(context.control.phase))?;
    recorder.fill(Made::naming(flags, name));
    Ok(())
}

fn ident_flags(phase: Phase, location: Location, name: Option<Name>) -> Flags
    ensures { result ≡ head.ident_flags phase location name }
{
    let mut flags = present_flags(location);
    flags.operand = name.is_none();
    flags.structure = is_late_name(phase);
    flags
}

/// A name comes too late: there is one already, or the head has ended.
fn is_late_name(phase: Phase) -> bool
    ensures { result ≡ head.is_late_name phase }
{
    match phase {
        Phase::Head(head) => head.is_named,
        _ => true,
    }
}

fn with_name(phase: Phase) -> Phase
    ensures { result ≡ head.with_name phase }
{
    match phase {
        Phase::Head(head) => Phase::Head(Head {
            is_named: true,
            is_declared: head.is_declared,
        }),
        _ => phase,
    }
}

/// ABS is for the central processor, PERIPH for a peripheral one: the first declaration in the head counts.
pub fn declaration<L: Lookup>(
    recorder: &mut Recorder<'_, L>,
    context: Context,
    machine: Machine,
) -> Result<(), AllocError>
    ensures { OnOk result (Does (head.declaration context.control context.location machine) L.answer recorder.old recorder.new) }
{
    declare(recorder, context.control, machine)?;
    flag(
        recorder,
        declaration_flags(context.control.phase, context.location),
    );
    Ok(())
}

fn declare<L: Lookup>(
    recorder: &mut Recorder<'_, L>,
    control: Control,
    machine: Machine,
) -> Result<(), AllocError>
    ensures { OnOk result (Does (head.declaring control machine) L.answer recorder.old recorder.new) }
{
    if is_late_declaration(control.phase) {
        return Ok(());
    }
    let control = Control {
        phase: with_declaration(control.phase),
        machine,
        ..control
    };
    put_control(recorder, control)
}

fn declaration_flags(phase: Phase, location: Location) -> Flags
    ensures { result ≡ head.declaration_flags phase location }
{
    let mut flags = present_flags(location);
    flags.structure = is_late_declaration(phase);
    flags
}

/// A declaration comes too late: there is one already, or the head has ended.
fn is_late_declaration(phase: Phase) -> bool
    ensures { result ≡ head.is_late_declaration phase }
{
    match phase {
        Phase::Head(head) => head.is_declared,
        _ => true,
    }
}

fn with_declaration(phase: Phase) -> Phase
    ensures { result ≡ head.with_declaration phase }
{
    match phase {
        Phase::Head(head) => Phase::Head(Head {
            is_named: head.is_named,
            is_declared: true,
        }),
        _ => phase,
    }
}

/// BASE: the base of the numbers to come.
pub fn base<L: Lookup>(
    recorder: &mut Recorder<'_, L>,
    context: Context,
    radix: Radix,
) -> Result<(), AllocError>
    ensures { OnOk result (Does (head.base context.control context.location radix) L.answer recorder.old recorder.new) }
{
    put_radix(recorder, context.control, radix)?;
    flag(recorder, present_flags(context.location));
    Ok(())
}

/// Puts the base of numbers where it changes.
fn put_radix<L: Lookup>(
    recorder: &mut Recorder<'_, L>,
    control: Control,
    radix: Radix,
) -> Result<(), AllocError>
    ensures { OnOk result (Does (head.rebasing control radix) L.answer recorder.old recorder.new) }
{
    if is_same_radix(control.radix, radix) {
        return Ok(());
    }
    put_control(recorder, Control { radix, ..control })
}

fn is_same_radix(a: Radix, b: Radix) -> bool
    ensures { result ≡ head.same_radix a b }
{
    match (a, b) {
        (Radix::Octal, Radix::Octal) => true,
        (Radix::Decimal, Radix::Decimal) => true,
        _ => false,
    }
}

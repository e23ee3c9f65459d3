//! A statement in pass one: by what it says, where it stands, and by whether it is assembled, skipped or kept.
ghost use Rattle.std.specs.Prelude.{◌≡◌, true, Some as Just, None as Nothing, OnOk, IfOk};
ghost use Rattle.std.specs.Option.{option_copied as copied};
ghost use Rattle.cps_expr.specs.Bounds.{IsBounded};
ghost use Rattle.cps_expr.specs.Operation.{operation_named};
ghost use Rattle.cps_text.specs.Card.{StatementLine};
ghost use Rattle.cps_text.specs.CardFields.{fields_value, statement_value};
ghost use Rattle.cps_state.specs.Code.Line.{Does};
ghost use Rattle.cps_text.specs.CardIn as cards;
ghost use Rattle.cps_pass.specs.Meaning as meaning;
ghost use Rattle.cps_pass.specs.Meaning.{assembled, macro};
ghost use Rattle.cps_pass.specs.Code.Opened.{opening_of};
ghost use Rattle.cps_pass.specs.Code.Taking as taking;
ghost use Rattle.cps_pass.specs.Code.Taking.{HandsOn, Leads, Opens, unnamed};

use crate::context::Context;
use crate::ends::end;
use crate::head::leave_head;
use crate::instructions::{instruction, peripheral_instruction};
use crate::keeping::{kept_for_dup, kept_for_macro};
use crate::macros::{call, define};
use crate::making::{flag, misplaced, unknown, unmatched};
use crate::opened::Opened;
use crate::places::stand;
use crate::ranges::{close_range, if_compared, if_defined, turn_range};
use crate::reading::{Location, read_location};
use crate::repeating::dup;
use crate::scope::{Scope, mode_in};
use crate::seen::seen_in;
use crate::skipping::{skipped_in_range, skipped_line};
use crate::statements::{obey_plainly, obey_unread_plainly};
use crate::treating::{Passing, treat};
use cps_code::{FormFault, cp_form, pp_form};
use cps_expr::{ExprFault, Machine, Operation, Pseudo, Radix, Stated};
use cps_state::{
    Control, Flags, Key, Lookup, Mode, Phase, Recorder, control_of, macro_of, mode_of,
};
use cps_text::{Fields, Name, StatementFields, card_in};
use std::alloc::AllocError;

/// A statement as it is written, with its columns.
#[derive(Clone, Copy)]
struct WrittenStatement<'a> {
    text: &'a [u8],
    fields: Fields<'a>,
}

/// A statement. It hands on where it stands by then, and answers the statements that it opens.
pub fn step_statement<'a, L: Lookup>(
    recorder: &mut Recorder<'_, L>,
    scope: &mut Scope,
    text: &'a [u8],
) -> Result<Option<Opened<'a>>, AllocError>
    ensures { IfOk result (λ opened. HandsOn (meaning.statement scope.old text.now) scope.new (opening_of opened) L.answer recorder.old recorder.new) }
{
    let known = recorder.note(Key::Control)?;
    let answer = recorder.answer(known);
    let control = control_of(answer);
    let mode = mode_of(answer)?;
    let fields = card_in(text);
    match control.phase {
        Phase::AfterEnd => {
            step_after_end(recorder, fields);
            Ok(None)
        }
        _ => step_before_end(
            recorder,
            control,
            mode,
            scope,
            WrittenStatement { text, fields },
        ),
    }
}

/// A line after END that is no comment has E alone.
fn step_after_end<L: Lookup>(recorder: &mut Recorder<'_, L>, fields: Fields<'_>)
    ensures { Does (meaning.after_end (fields_value fields.entry)) L.answer recorder.old recorder.new }
{
    match fields {
        Fields::Comment => flag(recorder, Flags::none()),
        _ => misplaced(recorder),
    }
}

/// A statement that is assembled, skipped or kept. END on a source line is obeyed in every mode.
fn step_before_end<'a, L: Lookup>(
    recorder: &mut Recorder<'_, L>,
    control: Control,
    mode: Mode,
    scope: &mut Scope,
    written: WrittenStatement<'a>,
) -> Result<Option<Opened<'a>>, AllocError>
    requires { fields_value written.fields ≡ cards.card_in written.text.now }
    ensures { Opens result (meaning.in_phase control mode scope.old written.entry.text.now Phase.Body) scope.new L.answer recorder.old recorder.new }
{
    let named = operation_in(written.fields);
    if let Some(location) = end_in(scope, written.fields, named) {
        end(recorder, Context { control, location }, &mode)?;
        return Ok(None);
    }
    let mode = mode_in(mode, scope)?;
    let WrittenStatement { text, fields } = written;
    match &mode {
        Mode::Normal => assemble(recorder, control, scope, fields, named),
        mode => {
            let passing = Passing {
                control,
                mode,
                text,
            };
            pass_by(recorder, passing, scope, fields)
        }
    }
}

/// A statement that is skipped or kept. It stands apart from `step_before_end`, which most statements leave before this.
#[cold]
#[inline(never)]
fn pass_by<'a, L: Lookup>(
    recorder: &mut Recorder<'_, L>,
    passing: Passing<'_>,
    scope: &mut Scope,
    fields: Fields<'_>,
) -> Result<Option<Opened<'a>>, AllocError>
    requires columns { fields_value fields ≡ cards.card_in passing.text.now }
    requires passed { taking.is_passed passing.mode.now ≡ true }
    ensures { Opens result (taking.passed passing.entry scope.old) scope.new L.answer recorder.old recorder.new }
{
    match passing.mode {
        Mode::Normal => unreachable!(),
        Mode::SkipLines(count) => treat(recorder, passing, scope, skipped_line(*count)),
        Mode::SkipRange(skip) => {
            let seen = seen_in(fields);
            treat(recorder, passing, scope, skipped_in_range(*skip, seen))
        }
        Mode::KeepMacro(body) => {
            let seen = seen_in(fields);
            treat(recorder, passing, scope, kept_for_macro(body, seen)?)
        }
        Mode::KeepDup(body) => {
            let seen = seen_in(fields);
            treat(recorder, passing, scope, kept_for_dup(*body, seen))
        }
    }
}

/// The operation of the statement table that a line has.
fn operation_in(fields: Fields<'_>) -> Option<Operation>
    ensures { result ≡ taking.operation_in (fields_value fields.entry) }
{
    match fields {
        Fields::Statement(statement) => Operation::named(statement.operation),
        _ => None,
    }
}

/// The location field of END on a source line.
fn end_in(scope: &Scope, fields: Fields<'_>, named: Option<Operation>) -> Option<Location>
    requires { named ≡ taking.operation_in (fields_value fields) }
    ensures { result ≡ meaning.end_in scope.now (fields_value fields.entry) }
{
    match (scope, fields) {
        (Scope::Source, Fields::Statement(statement)) => end_location(statement, named),
        _ => None,
    }
}

fn end_location(statement: StatementFields<'_>, named: Option<Operation>) -> Option<Location>
    ensures { result ≡ meaning.end_location (statement_value statement.entry) named }
{
    match named {
        Some(Operation::End) => Some(read_location(statement.location)),
        _ => None,
    }
}

/// A statement that is assembled. The head ends, unless the statement stays in it.
fn assemble<'a, L: Lookup>(
    recorder: &mut Recorder<'_, L>,
    control: Control,
    scope: &mut Scope,
    fields: Fields<'a>,
    named: Option<Operation>,
) -> Result<Option<Opened<'a>>, AllocError>
    requires { named ≡ taking.operation_in (fields_value fields) }
    ensures { Opens result (assembled control scope.old (fields_value fields.entry)) scope.new L.answer recorder.old recorder.new }
{
    match fields {
        Fields::Comment => {
            flag(recorder, Flags::none());
            Ok(None)
        }
        Fields::Continued => {
            misplaced(recorder);
            Ok(None)
        }
        Fields::Statement(statement) => match named {
            Some(named) => assemble_named(recorder, control, scope, statement, named),
            None => assemble_unnamed(recorder, control, scope, statement),
        },
    }
}

/// A statement with an operation of the statement table.
#[inline(never)]
fn assemble_named<'a, L: Lookup>(
    recorder: &mut Recorder<'_, L>,
    control: Control,
    scope: &mut Scope,
    statement: StatementFields<'_>,
    named: Operation,
) -> Result<Option<Opened<'a>>, AllocError>
    requires { operation_named statement.operation.now ≡ Just named }
    ensures { Opens result (assembled control scope.old (StatementLine (statement_value statement.entry))) scope.new L.answer recorder.old recorder.new }
{
    let location = read_location(statement.location);
    let alloc = recorder.alloc();
    let read = Stated::read(alloc, named, statement.tail, control.machine, control.radix);
    match read {
        Ok(stated) => {
            let control = leave_head(recorder, control, row_stays(stated.row()))?;
            let context = Context { control, location };
            obey_row(recorder, context, scope, stated.into_row())?;
            Ok(None)
        }
        Err(ExprFault::Unreadable) => {
            let control = leave_head(recorder, control, operation_stays(named))?;
            let context = Context { control, location };
            obey_unreadable(recorder, context, scope, named)?;
            Ok(None)
        }
        Err(ExprFault::Memory) => Err(AllocError),
    }
}

/// A statement without an operation, or with one that the statement table doesn't have.
fn assemble_unnamed<'a, L: Lookup>(
    recorder: &mut Recorder<'_, L>,
    control: Control,
    scope: &Scope,
    statement: StatementFields<'a>,
) -> Result<Option<Opened<'a>>, AllocError>
    requires { operation_named statement.operation.now ≡ Nothing }
    ensures { Opens result (assembled control scope.now (StatementLine (statement_value statement.entry))) scope.now L.answer recorder.old recorder.new }
{
    if statement.operation.is_empty() {
        unknown(recorder);
        return Ok(None);
    }
    let location = read_location(statement.location);
    let Control { machine, radix, .. } = control;
    let control = leave_head(recorder, control, false)?;
    let context = Context { control, location };
    match machine {
        Machine::Cp => assemble_central(recorder, context, scope, statement, radix),
        Machine::Pp => assemble_peripheral(recorder, context, scope, statement, radix),
    }
}

/// An instruction of the central processor, or a call of a macro.
fn assemble_central<'a, L: Lookup>(
    recorder: &mut Recorder<'_, L>,
    context: Context,
    scope: &Scope,
    statement: StatementFields<'a>,
    radix: Radix,
) -> Result<Option<Opened<'a>>, AllocError>
    ensures { Opens result (unnamed Machine.Cp radix context.control scope.now context.location statement.entry) scope.now L.answer recorder.old recorder.new }
{
    let alloc = recorder.alloc();
    match cp_form(alloc, statement.operation, statement.tail, radix) {
        Ok(form) => {
            instruction(recorder, context, Some(form))?;
            Ok(None)
        }
        Err(FormFault::Unreadable) => {
            instruction(recorder, context, None)?;
            Ok(None)
        }
        Err(FormFault::NoOperation) => {
            let name = Name::read(statement.operation);
            call_named(recorder, context, scope, statement.tail, name)
        }
        Err(FormFault::Memory) => Err(AllocError),
    }
}

/// An instruction of a peripheral processor, or a call of a macro.
#[inline(never)]
fn assemble_peripheral<'a, L: Lookup>(
    recorder: &mut Recorder<'_, L>,
    context: Context,
    scope: &Scope,
    statement: StatementFields<'a>,
    radix: Radix,
) -> Result<Option<Opened<'a>>, AllocError>
    ensures { Opens result (unnamed Machine.Pp radix context.control scope.now context.location statement.entry) scope.now L.answer recorder.old recorder.new }
{
    let alloc = recorder.alloc();
    match pp_form(alloc, statement.operation, statement.tail, radix) {
        Ok(form) => {
            peripheral_instruction(recorder, context, Some(form))?;
            Ok(None)
        }
        Err(FormFault::Unreadable) => {
            peripheral_instruction(recorder, context, None)?;
            Ok(None)
        }
        Err(FormFault::NoOperation) => {
            let name = Name::read(statement.operation);
            call_named(recorder, context, scope, statement.tail, name)
        }
        Err(FormFault::Memory) => Err(AllocError),
    }
}

/// Whether a row stays in the head of a program, which all others end.
fn row_stays(row: &Pseudo) -> bool
    ensures { result ≡ meaning.row_stays row.now }
{
    match row {
        Pseudo::Ident(_)
        | Pseudo::Abs
        | Pseudo::Periph
        | Pseudo::Base(_)
        | Pseudo::Equate(_)
        | Pseudo::Set(_)
        | Pseudo::Listing
        | Pseudo::Macro(_)
        | Pseudo::Endm => true,
        _ => false,
    }
}

/// Whether an operation with unreadable operands stays there.
fn operation_stays(operation: Operation) -> bool
    ensures { result ≡ meaning.operation_stays operation }
{
    match operation {
        Operation::Ident
        | Operation::Base
        | Operation::Equate
        | Operation::Set
        | Operation::Macro => true,
        _ => false,
    }
}

/// A statement with its operands.
fn obey_row<L: Lookup>(
    recorder: &mut Recorder<'_, L>,
    context: Context,
    scope: &mut Scope,
    row: Pseudo,
) -> Result<(), AllocError>
    requires { IsBounded context.control.machine row }
    ensures { Leads result (meaning.obeyed context.control scope.old context.location row) scope.new L.answer recorder.old recorder.new }
{
    match row {
        Pseudo::Macro(names) => obey_macro(recorder, context, scope, Some(names.as_slice())),
        Pseudo::Endm => {
            end_macro(recorder, scope, context.location);
            Ok(())
        }
        Pseudo::Compare(test) => if_compared(recorder, context, scope, &test),
        Pseudo::If(test) => if_defined(recorder, context, scope, &test),
        Pseudo::Else => turn_range(recorder, context, scope),
        Pseudo::Endif => close_range(recorder, scope, context.location),
        Pseudo::Dup(repetition) => dup(recorder, context, scope, &repetition),
        Pseudo::Endd => {
            unmatched(recorder, context.location);
            Ok(())
        }
        Pseudo::End => end_within(recorder, context.control),
        row => obey_plainly(recorder, context, row),
    }
}

/// A statement with unreadable operands.
fn obey_unreadable<L: Lookup>(
    recorder: &mut Recorder<'_, L>,
    context: Context,
    scope: &mut Scope,
    operation: Operation,
) -> Result<(), AllocError>
    ensures { Leads result (meaning.unreadable context.control scope.old context.location operation) scope.new L.answer recorder.old recorder.new }
{
    match operation {
        Operation::Macro => obey_macro(recorder, context, scope, None),
        operation => obey_unread_plainly(recorder, context, operation),
    }
}

/// MACRO: of a source line; in an expansion it may not stand.
fn obey_macro<L: Lookup>(
    recorder: &mut Recorder<'_, L>,
    context: Context,
    scope: &mut Scope,
    parameters: Option<&[Name]>,
) -> Result<(), AllocError>
    ensures { Leads result (macro context.control scope.old context.location (copied parameters.entry)) scope.new L.answer recorder.old recorder.new }
{
    match scope {
        Scope::Source => define(recorder, context, scope, parameters),
        Scope::Expansion(_) => {
            misplaced(recorder);
            Ok(())
        }
    }
}

/// ENDM where no macro is kept; in an expansion it may not stand.
fn end_macro<L: Lookup>(recorder: &mut Recorder<'_, L>, scope: &Scope, location: Location)
    ensures { Does (meaning.endm scope.now location) L.answer recorder.old recorder.new }
{
    match scope {
        Scope::Source => unmatched(recorder, location),
        Scope::Expansion(_) => misplaced(recorder),
    }
}

/// END in an expansion asks where the block in use stands, and does nothing there.
fn end_within<L: Lookup>(recorder: &mut Recorder<'_, L>, control: Control) -> Result<(), AllocError>
    ensures { OnOk result (Does (meaning.end_within control) L.answer recorder.old recorder.new) }
{
    stand(recorder, control)?;
    misplaced(recorder);
    Ok(())
}

/// A call of a macro, if there is one; None: the operation is no symbol.
#[inline(never)]
fn call_named<'a, L: Lookup>(
    recorder: &mut Recorder<'_, L>,
    context: Context,
    scope: &Scope,
    tail: &'a [u8],
    name: Option<Name>,
) -> Result<Option<Opened<'a>>, AllocError>
    ensures { Opens result (meaning.calling_named context.control scope.now context.location tail.now name) scope.now L.answer recorder.old recorder.new }
{
    let Some(name) = name else {
        unknown(recorder);
        return Ok(None);
    };
    let known = recorder.note(Key::Macro(name))?;
    let Some(named) = macro_of(recorder.answer(known))? else {
        unknown(recorder);
        return Ok(None);
    };
    call(recorder, context, scope, &named, tail)
}

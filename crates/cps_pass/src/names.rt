//! The names of LOCAL lines: each call of a macro has its own, for which generated ones stand.
ghost use Rattle.std.specs.Prelude.{◌≡◌, ◌≤◌, ◌+◌, ◌++◌, length, nat_lt, Some, None, IfOk, OnOk, if◌then◌else◌};
ghost use Rattle.std.specs.List.{list_any};
ghost use Rattle.cps_text.specs.Card.{StatementLine};
ghost use Rattle.cps_text.specs.CardFields.{statement_value};
ghost use Rattle.cps_text.specs.Operands.{operands_of};
ghost use Rattle.cps_expr.specs.Row.{locals_of};
ghost use Rattle.cps_text.specs.CardIn.{card_in};
ghost use Rattle.cps_pass.specs.Locals as locals;
ghost use Rattle.cps_pass.specs.Code.Naming.{Names};

use crate::located::present_flags;
use crate::making::{flag, unread};
use crate::reading::{Location, read_location};
use cps_expr::{ExprFault, Sequence, read_locals};
use cps_state::{Answer, Key, Lookup, Recorder, Shared, count_of};
use cps_text::limits::{DEEPEST, MOST_GENERATED};
use cps_text::{Fields, Name, StatementFields, Substitute, Substitutes, Substitution, card_in};
use std::alloc::{AllocError, Global};

/// The LOCAL lines of a call; what stands for names has theirs too then. False where one is too much.
pub fn name_all<L: Lookup>(
    recorder: &mut Recorder<'_, L>,
    depth: u8,
    lines: &[Shared<u8>],
    known: &mut Substitutes<'_>,
) -> Result<bool, AllocError>
    ensures { IfOk result (λ complete. Names (locals.naming_all depth known.old lines.now) complete known.new L.answer recorder.old recorder.new) }
{
    for line in lines {
        if !recorder.begin(depth, line.share()?)? {
            return Ok(false);
        }
        if !name_locals(recorder, known, line.as_slice())? {
            return Ok(false);
        }
    }
    Ok(true)
}

/// A LOCAL line. False where there are no more generated names: then the line is dropped.
fn name_locals<L: Lookup>(
    recorder: &mut Recorder<'_, L>,
    known: &mut Substitutes<'_>,
    line: &[u8],
) -> Result<bool, AllocError>
    ensures { IfOk result (λ complete. Names (locals.local_in known.old (card_in line.now)) complete known.new L.answer recorder.old recorder.new) }
{
    match card_in(line) {
        Fields::Statement(statement) => name_by(recorder, known, statement),
        _ => Ok(true),
    }
}

fn name_by<L: Lookup>(
    recorder: &mut Recorder<'_, L>,
    known: &mut Substitutes<'_>,
    statement: StatementFields<'_>,
) -> Result<bool, AllocError>
    ensures { IfOk result (λ complete. Names (locals.local_in known.old (StatementLine (statement_value statement.entry))) complete known.new L.answer recorder.old recorder.new) }
{
    let place = recorder.note(Key::Locals)?;
    let count = count_of(recorder.answer(place));
    let location = read_location(statement.location);
    match new_names(recorder.alloc(), known, statement.tail)? {
        Some(names) => generate(recorder, known, location, count, names.as_slice()),
        None => {
            unread(recorder, location);
            Ok(true)
        }
    }
}

/// The names of LOCAL's operands; None where these can't be read, or a name is taken.
fn new_names(
    alloc: Global,
    known: &Substitutes<'_>,
    tail: &[u8],
) -> Result<Option<Sequence<Name>>, AllocError>
    ensures { IfOk result (λ names. names ≡ locals.names_new known.now (locals_of (operands_of tail.now))) }
{
    match read_locals(alloc, tail) {
        Ok(names) => {
            if some_is_taken(known, names.as_slice()) {
                return Ok(None);
            }
            Ok(Some(names))
        }
        Err(ExprFault::Unreadable) => Ok(None),
        Err(ExprFault::Memory) => Err(AllocError),
    }
}

/// Whether one of these names is a parameter or a local name already.
fn some_is_taken(known: &Substitutes<'_>, names: &[Name]) -> bool
    ensures { result ≡ list_any (locals.is_taken known.now) names.now }
{
    for name in names {
        if is_taken(known, *name) {
            return true;
        }
    }
    false
}

fn is_taken(known: &Substitutes<'_>, name: Name) -> bool
    ensures { result ≡ locals.is_taken known.now name }
{
    known.text_of(name).is_some()
}

// ---- generated names

/// The names are the call's from now on, if there are as many generated ones.
fn generate<L: Lookup>(
    recorder: &mut Recorder<'_, L>,
    known: &mut Substitutes<'_>,
    location: Location,
    count: u32,
    names: &[Name],
) -> Result<bool, AllocError>
    ensures { IfOk result (λ complete. Names (locals.generating known.old location names.now count) complete known.new L.answer recorder.old recorder.new) }
{
    let Some(total) = total_of(count, names.len()) else {
        return recorder.begin(DEEPEST + 1, Shared::empty());
    };
    push_generated(known, count, names)?;
    recorder.put(Key::Locals, Answer::Count(total))?;
    flag(recorder, present_flags(location));
    Ok(true)
}

/// How many generated names there are with so many more; None: there can't be as many.
fn total_of(count: u32, more: usize) -> Option<u32>
    ensures { result ≡ (if nat_lt MOST_GENERATED (count + more) then None else Some (count + more)) }
{
    if count > MOST_GENERATED || more > (MOST_GENERATED - count) as usize {
        return None;
    }
    Some(count + more as u32)
}

/// Adds names with the generated names behind so many others.
fn push_generated(known: &mut Substitutes<'_>, count: u32, names: &[Name]) -> Result<(), AllocError>
    requires { count + length names.now ≤ MOST_GENERATED }
    ensures { OnOk result (known.new ≡ known.old ++ locals.generated_behind count names.now) }
{
    let mut number = count;
    for name in names {
        number += 1;
        known.push(*name, Substitute::Generated(Name::generated(number)))?;
    }
    Ok(())
}

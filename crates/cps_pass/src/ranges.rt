//! Conditional assembly: IFEQ and the like, IF, ELSE and ENDIF.
ghost use Rattle.std.specs.Prelude.{◌≡◌, IfOk};
ghost use Rattle.cps_state.specs.Code.Line.{Hands};
ghost use Rattle.cps_pass.specs.Ranges as meaning;
ghost use Rattle.cps_pass.specs.Code.Taking.{Leads};

use crate::context::Context;
use crate::located::{ask_definition, has_value, present_flags};
use crate::making::{flag, unmatched};
use crate::numbers::plain_number;
use crate::reading::Location;
use crate::scope::{Scope, ask_ranges, go_by, put_ranges};
use crate::value_now::{ValueNow, value_here};
use cps_expr::{Expr, Relation, SymbolTest, ValueTest};
use cps_state::{Control, Flags, Lookup, Mode, OpenRange, Recorder, Shared, Skip, is_same_block};
use cps_text::limits::{MOST_COUNTED_LINES, MOST_RANGES};
use std::alloc::AllocError;

/// Whether a test holds, and its flags; one with flags doesn't hold.
#[derive(Clone, Copy, PartialEq, Eq)]
pub struct Tested {
    pub holds: bool,
    pub flags: Flags,
}

/// IFEQ and the like: the test of two values.
pub fn if_compared<L: Lookup>(
    recorder: &mut Recorder<'_, L>,
    context: Context,
    scope: &mut Scope,
    test: &ValueTest,
) -> Result<(), AllocError>
    ensures { Leads result (meaning.if_compared context.control scope.old context.location test.now) scope.new L.answer recorder.old recorder.new }
{
    let tested = ask_compared(recorder, context.control, test)?;
    hang(recorder, context, scope, &test.lines, tested)
}

/// IF: the test of a symbol.
pub fn if_defined<L: Lookup>(
    recorder: &mut Recorder<'_, L>,
    context: Context,
    scope: &mut Scope,
    test: &SymbolTest,
) -> Result<(), AllocError>
    ensures { Leads result (meaning.if_defined context.control scope.old context.location test.now) scope.new L.answer recorder.old recorder.new }
{
    let tested = ask_defined(recorder, test)?;
    hang(recorder, context, scope, &test.lines, tested)
}

/// ELSE: the newest range is skipped from here on.
pub fn turn_range<L: Lookup>(
    recorder: &mut Recorder<'_, L>,
    context: Context,
    scope: &mut Scope,
) -> Result<(), AllocError>
    ensures { Leads result (meaning.else_of context.control scope.old context.location) scope.new L.answer recorder.old recorder.new }
{
    let ranges = ask_ranges(recorder, scope)?;
    turn(recorder, context, scope, ranges.as_slice())
}

fn turn<L: Lookup>(
    recorder: &mut Recorder<'_, L>,
    context: Context,
    scope: &mut Scope,
    ranges: &[OpenRange],
) -> Result<(), AllocError>
    ensures { Leads result (meaning.turned_round context.control scope.old context.location ranges.now) scope.new L.answer recorder.old recorder.new }
{
    let alloc = recorder.alloc();
    let [OpenRange::BeforeElse, others @ ..] = ranges else {
        unmatched(recorder, context.location);
        return Ok(());
    };
    put_ranges(recorder, scope, Shared::new(alloc, others)?)?;
    let skip = Skip {
        nested: 0,
        may_resume: false,
    };
    go_by(recorder, context.control, scope, Mode::SkipRange(skip))?;
    flag(recorder, present_flags(context.location));
    Ok(())
}

/// ENDIF: the newest range ends.
pub fn close_range<L: Lookup>(
    recorder: &mut Recorder<'_, L>,
    scope: &mut Scope,
    location: Location,
) -> Result<(), AllocError>
    ensures { Leads result (meaning.endif_of scope.old location) scope.new L.answer recorder.old recorder.new }
{
    let ranges = ask_ranges(recorder, scope)?;
    close(recorder, scope, location, ranges.as_slice())
}

fn close<L: Lookup>(
    recorder: &mut Recorder<'_, L>,
    scope: &mut Scope,
    location: Location,
    ranges: &[OpenRange],
) -> Result<(), AllocError>
    ensures { Leads result (meaning.closed scope.old location ranges.now) scope.new L.answer recorder.old recorder.new }
{
    let alloc = recorder.alloc();
    let [_, others @ ..] = ranges else {
        unmatched(recorder, location);
        return Ok(());
    };
    put_ranges(recorder, scope, Shared::new(alloc, others)?)?;
    flag(recorder, present_flags(location));
    Ok(())
}

fn ask_compared<L: Lookup>(
    recorder: &mut Recorder<'_, L>,
    control: Control,
    test: &ValueTest,
) -> Result<Tested, AllocError>
    ensures { IfOk result (λ tested. Hands (meaning.asking_compared control test.now) tested L.answer recorder.old recorder.new) }
{
    let left = value_here(recorder, control, &test.left)?;
    let right = value_here(recorder, control, &test.right)?;
    Ok(compare(test.relation, left, right))
}

/// Compares two values that are both plain or in one block.
fn compare(relation: Relation, left: ValueNow, right: ValueNow) -> Tested
    ensures { result ≡ meaning.compared relation left right }
{
    match (left, right) {
        (ValueNow::Known(left), ValueNow::Known(right)) => {
            if is_same_block(left.block, right.block) {
                return Tested {
                    holds: relates(relation, left.offset, right.offset),
                    flags: Flags::none(),
                };
            }
            let mut flags = Flags::none();
            flags.operand = true;
            Tested {
                holds: false,
                flags,
            }
        }
        (left, right) => Tested {
            holds: false,
            flags: value_flags(left).joined(value_flags(right)),
        },
    }
}

fn relates(relation: Relation, left: i64, right: i64) -> bool
    ensures { result ≡ meaning.relates relation left right }
{
    match relation {
        Relation::Equal => left == right,
        Relation::NotEqual => left != right,
        Relation::Greater => left > right,
        Relation::GreaterOrEqual => left >= right,
        Relation::Less => left < right,
        Relation::LessOrEqual => left <= right,
    }
}

fn value_flags(value: ValueNow) -> Flags
    ensures { result ≡ meaning.value_flags value }
{
    let mut flags = Flags::none();
    match value {
        ValueNow::Undefined => flags.undefined = true,
        ValueNow::NoValue => flags.operand = true,
        ValueNow::Known(_) => {}
    }
    flags
}

fn ask_defined<L: Lookup>(
    recorder: &mut Recorder<'_, L>,
    test: &SymbolTest,
) -> Result<Tested, AllocError>
    ensures { IfOk result (λ tested. Hands (meaning.asking_defined test.now) tested L.answer recorder.old recorder.new) }
{
    let definition = ask_definition(recorder, test.symbol)?;
    recorder.tell(test.symbol)?;
    Ok(defined(test.is_defined, has_value(definition)))
}

/// The symbol has a value, or with `-DEF` has none.
fn defined(is_defined: bool, has_value: bool) -> Tested
    ensures { result ≡ meaning.defined is_defined has_value }
{
    Tested {
        holds: if is_defined { has_value } else { !has_value },
        flags: Flags::none(),
    }
}

/// What hangs on a test: so many lines, or those up to ENDIF.
fn hang<L: Lookup>(
    recorder: &mut Recorder<'_, L>,
    context: Context,
    scope: &mut Scope,
    lines: &Option<Expr>,
    test: Tested,
) -> Result<(), AllocError>
    ensures { Leads result (meaning.hanging context.control scope.old context.location lines.now test) scope.new L.answer recorder.old recorder.new }
{
    match lines {
        Some(lines) => count_lines(recorder, context, scope, lines, test),
        None => open_range(recorder, context, scope, test),
    }
}

fn count_lines<L: Lookup>(
    recorder: &mut Recorder<'_, L>,
    context: Context,
    scope: &mut Scope,
    lines: &Expr,
    test: Tested,
) -> Result<(), AllocError>
    ensures { Leads result (meaning.hanging_lines context.control scope.old context.location lines.now test) scope.new L.answer recorder.old recorder.new }
{
    let value = value_here(recorder, context.control, lines)?;
    count(recorder, context, scope, test, value)
}

fn open_range<L: Lookup>(
    recorder: &mut Recorder<'_, L>,
    context: Context,
    scope: &mut Scope,
    test: Tested,
) -> Result<(), AllocError>
    ensures { Leads result (meaning.hanging_range context.control scope.old context.location test) scope.new L.answer recorder.old recorder.new }
{
    let others = ask_ranges(recorder, scope)?;
    let others = others.as_slice();
    open(recorder, context, scope, test, others)
}

/// The number of lines that a test governs.
fn count<L: Lookup>(
    recorder: &mut Recorder<'_, L>,
    context: Context,
    scope: &mut Scope,
    test: Tested,
    value: ValueNow,
) -> Result<(), AllocError>
    ensures { Leads result (meaning.counting context.control scope.old context.location test value) scope.new L.answer recorder.old recorder.new }
{
    let count = line_count(value);
    skip_lines(recorder, context.control, scope, test.holds, count)?;
    let flags = test.flags.joined(count_flags(value, count));
    flag(recorder, present_flags(context.location).joined(flags));
    Ok(())
}

fn line_count(value: ValueNow) -> Option<u32>
    ensures { result ≡ meaning.line_count value }
{
    match plain_number(value) {
        Some(count) if count <= MOST_COUNTED_LINES => Some(count as u32),
        _ => None,
    }
}

pub fn count_flags(value: ValueNow, count: Option<u32>) -> Flags
    ensures { result ≡ meaning.count_flags value count }
{
    let mut flags = Flags::none();
    match (count, value) {
        (Some(_), _) => {}
        (None, ValueNow::Undefined) => flags.undefined = true,
        (None, _) => flags.operand = true,
    }
    flags
}

/// The lines are skipped where the test doesn't hold.
fn skip_lines<L: Lookup>(
    recorder: &mut Recorder<'_, L>,
    control: Control,
    scope: &mut Scope,
    holds: bool,
    count: Option<u32>,
) -> Result<(), AllocError>
    ensures { Leads result (meaning.skipping_lines control scope.old holds count) scope.new L.answer recorder.old recorder.new }
{
    match count {
        Some(count) if !holds && count > 0 => {
            go_by(recorder, control, scope, Mode::SkipLines(count))
        }
        _ => Ok(()),
    }
}

/// A range begins, unless too many are open.
fn open<L: Lookup>(
    recorder: &mut Recorder<'_, L>,
    context: Context,
    scope: &mut Scope,
    test: Tested,
    others: &[OpenRange],
) -> Result<(), AllocError>
    ensures { Leads result (meaning.opening context.control scope.old context.location test others.now) scope.new L.answer recorder.old recorder.new }
{
    let mut flags = present_flags(context.location).joined(test.flags);
    if others.len() >= MOST_RANGES {
        flags.structure = true;
        flag(recorder, flags);
        return Ok(());
    }
    begin_range(recorder, context.control, scope, test.holds, others)?;
    flag(recorder, flags);
    Ok(())
}

/// A range whose test holds is open; one whose test doesn't is skipped.
fn begin_range<L: Lookup>(
    recorder: &mut Recorder<'_, L>,
    control: Control,
    scope: &mut Scope,
    holds: bool,
    others: &[OpenRange],
) -> Result<(), AllocError>
    ensures { Leads result (meaning.beginning_range control scope.old holds others.now) scope.new L.answer recorder.old recorder.new }
{
    let alloc = recorder.alloc();
    if holds {
        let ranges = Shared::with(alloc, OpenRange::BeforeElse, others)?;
        return put_ranges(recorder, scope, ranges);
    }
    let skip = Skip {
        nested: 0,
        may_resume: true,
    };
    go_by(recorder, control, scope, Mode::SkipRange(skip))
}

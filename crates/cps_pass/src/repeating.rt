//! DUP and ENDD where lines are assembled.
ghost use Rattle.std.specs.Prelude.{◌≡◌};
ghost use Rattle.cps_pass.specs.Numbers.{plain_number};
ghost use Rattle.cps_pass.specs.Repeating as meaning;
ghost use Rattle.cps_pass.specs.Code.Taking.{Leads, repeating_known};

use crate::context::Context;
use crate::keeping::no_lines;
use crate::located::present_flags;
use crate::making::flag;
use crate::numbers::plain_number;
use crate::ranges::count_flags;
use crate::scope::{Scope, go_by};
use crate::value_now::{ValueNow, value_here};
use cps_expr::{Expr, Repetition};
use cps_state::{DupBody, Extent, Flags, Lookup, Mode, Recorder};
use cps_text::limits::{MOST_BODY_LINES, MOST_TIMES};
use std::alloc::AllocError;

/// DUP: the lines to come are kept.
pub fn dup<L: Lookup>(
    recorder: &mut Recorder<'_, L>,
    context: Context,
    scope: &mut Scope,
    repetition: &Repetition,
) -> Result<(), AllocError>
    ensures { Leads result (meaning.dup context.control scope.old context.location repetition.now) scope.new L.answer recorder.old recorder.new }
{
    let times = value_here(recorder, context.control, &repetition.count)?;
    repeat_by(recorder, context, scope, times, &repetition.lines)
}

/// Lines of a number, or up to ENDD.
fn repeat_by<L: Lookup>(
    recorder: &mut Recorder<'_, L>,
    context: Context,
    scope: &mut Scope,
    times: ValueNow,
    lines: &Option<Expr>,
) -> Result<(), AllocError>
    ensures { Leads result (meaning.repeating_by context.control scope.old context.location times lines.now) scope.new L.answer recorder.old recorder.new }
{
    match lines {
        Some(lines) => repeat_counted(recorder, context, scope, times, lines),
        None => repeat(recorder, context, scope, times, Extent::ToEndd(0)),
    }
}

fn repeat_counted<L: Lookup>(
    recorder: &mut Recorder<'_, L>,
    context: Context,
    scope: &mut Scope,
    times: ValueNow,
    lines: &Expr,
) -> Result<(), AllocError>
    ensures { Leads result (meaning.repeating_counted context.control scope.old context.location times lines.now) scope.new L.answer recorder.old recorder.new }
{
    let value = value_here(recorder, context.control, lines)?;
    repeat_lines(recorder, context, scope, times, value)
}

fn repeat_lines<L: Lookup>(
    recorder: &mut Recorder<'_, L>,
    context: Context,
    scope: &mut Scope,
    times: ValueNow,
    lines: ValueNow,
) -> Result<(), AllocError>
    ensures { Leads result (repeating_known context.control scope.old context.location times lines) scope.new L.answer recorder.old recorder.new }
{
    match body_count(lines) {
        Some(count) => repeat(recorder, context, scope, times, Extent::Counted(count)),
        None => {
            let flags = present_flags(context.location).joined(count_flags(lines, None));
            flag(recorder, flags.joined(times_flags(times)));
            Ok(())
        }
    }
}

fn repeat<L: Lookup>(
    recorder: &mut Recorder<'_, L>,
    context: Context,
    scope: &mut Scope,
    times: ValueNow,
    extent: Extent,
) -> Result<(), AllocError>
    ensures { Leads result (meaning.repeating context.control scope.old context.location times extent) scope.new L.answer recorder.old recorder.new }
{
    let body = DupBody {
        times: times_in(times),
        extent,
        kept: no_lines(),
    };
    go_by(recorder, context.control, scope, Mode::KeepDup(body))?;
    flag(
        recorder,
        present_flags(context.location).joined(times_flags(times)),
    );
    Ok(())
}

/// How many lines are repeated.
fn body_count(lines: ValueNow) -> Option<u32>
    ensures { result ≡ meaning.body_count lines }
{
    match plain_number(lines) {
        Some(count) if count >= 1 && count <= u64::from(MOST_BODY_LINES) => Some(count as u32),
        _ => None,
    }
}

/// How often they are repeated.
fn times_in(times: ValueNow) -> u32
    ensures { result ≡ meaning.times_in (plain_number times) }
{
    match plain_number(times) {
        Some(number) if number <= MOST_TIMES => number as u32,
        _ => 0,
    }
}

fn times_flags(times: ValueNow) -> Flags
    ensures { result ≡ meaning.times_flags times (plain_number times) }
{
    match plain_number(times) {
        None => count_flags(times, None),
        Some(number) => {
            let mut flags = Flags::none();
            flags.structure = number > MOST_TIMES;
            flags
        }
    }
}

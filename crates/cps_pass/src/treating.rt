//! Lines that are not assembled: they are skipped or kept, and closing ones open what was kept.
ghost use Rattle.std.specs.Prelude.{◌≡◌, ◌++◌, IfOk};
ghost use Rattle.cps_pass.specs.Code.Opened.{opening_of};
ghost use Rattle.cps_pass.specs.Opening.{plain};
ghost use Rattle.cps_pass.specs.Code.Taking.{Leads, Opens, with_passing};
ghost use Rattle.cps_pass.specs.Treating as treating;

use crate::lines::macro_of_lines;
use crate::located::present_flags;
use crate::making::flag;
use crate::opened::{Opened, Repeated};
use crate::scope::{Scope, ask_ranges, go_by, keep, put_ranges, take_body};
use crate::treatment::Treatment;
use cps_state::{
    Answer, Control, Key, Lookup, MacroBody, Mode, OpenRange, Recorder, Shared, SharedMacro,
};
use cps_text::Name;
use std::alloc::{AllocError, Global};

/// A line that is not assembled: the control that holds there, what is done with lines there, and its text.
#[derive(Clone, Copy)]
pub struct Passing<'a> {
    pub control: Control,
    pub mode: &'a Mode,
    pub text: &'a [u8],
}

/// Treats a line so, and answers the statements that it opens.
pub fn treat<'a, L: Lookup>(
    recorder: &mut Recorder<'_, L>,
    passing: Passing<'_>,
    scope: &mut Scope,
    treatment: Treatment,
) -> Result<Option<Opened<'a>>, AllocError>
    ensures { Opens result (with_passing treating.treated passing.entry scope.old treatment) scope.new L.answer recorder.old recorder.new }
{
    match treatment {
        Treatment::Passes(later, kept_at, flags) => {
            pass(recorder, passing, scope, later, kept_at)?;
            flag(recorder, flags);
            Ok(None)
        }
        Treatment::Resumes(location) => {
            resume(recorder, passing.control, scope)?;
            flag(recorder, present_flags(location));
            Ok(None)
        }
        Treatment::Defines(name, body, location) => {
            define_macro(recorder, passing.control, scope, name, body)?;
            flag(recorder, present_flags(location));
            Ok(None)
        }
        Treatment::Opens(body, with_line, flags) => {
            let lines = take_body(recorder, passing.control, scope, body.kept.lines)?;
            let lines = with_last(recorder.alloc(), lines, with_line, passing.text)?;
            flag(recorder, flags);
            Ok(open_lines(lines, body.times))
        }
    }
}

/// The line is kept, if it is, and what is done with the lines after it is put where it changes.
fn pass<L: Lookup>(
    recorder: &mut Recorder<'_, L>,
    passing: Passing<'_>,
    scope: &mut Scope,
    later: Mode,
    kept_at: Option<u32>,
) -> Result<(), AllocError>
    ensures { Leads result (with_passing treating.passing passing.entry scope.old later kept_at) scope.new L.answer recorder.old recorder.new }
{
    keep_at(recorder, scope, kept_at, passing.text)?;
    change(recorder, passing.control, scope, passing.mode, later)
}

fn keep_at<L: Lookup>(
    recorder: &mut Recorder<'_, L>,
    scope: &mut Scope,
    kept_at: Option<u32>,
    text: &[u8],
) -> Result<(), AllocError>
    ensures { Leads result (treating.keeping_at kept_at scope.old text.now) scope.new L.answer recorder.old recorder.new }
{
    let Some(count) = kept_at else {
        return Ok(());
    };
    let text = Shared::new(recorder.alloc(), text)?;
    keep(recorder, scope, count, text)
}

fn change<L: Lookup>(
    recorder: &mut Recorder<'_, L>,
    control: Control,
    scope: &mut Scope,
    mode: &Mode,
    later: Mode,
) -> Result<(), AllocError>
    ensures { Leads result (treating.changing control scope.old mode.now later) scope.new L.answer recorder.old recorder.new }
{
    if later == *mode {
        return Ok(());
    }
    go_by(recorder, control, scope, later)
}

/// Takes up assembly after the ELSE of a range.
fn resume<L: Lookup>(
    recorder: &mut Recorder<'_, L>,
    control: Control,
    scope: &mut Scope,
) -> Result<(), AllocError>
    ensures { Leads result (treating.resuming control scope.old) scope.new L.answer recorder.old recorder.new }
{
    let others = ask_ranges(recorder, scope)?;
    let ranges = Shared::with(recorder.alloc(), OpenRange::BehindElse, others.as_slice())?;
    put_ranges(recorder, scope, ranges)?;
    go_by(recorder, control, scope, Mode::Normal)
}

/// The lines of a body are the macro's from now on.
fn define_macro<L: Lookup>(
    recorder: &mut Recorder<'_, L>,
    control: Control,
    scope: &mut Scope,
    name: Name,
    body: MacroBody,
) -> Result<(), AllocError>
    ensures { Leads result (treating.defining_macro control scope.old name body) scope.new L.answer recorder.old recorder.new }
{
    let lines = take_body(recorder, control, scope, body.kept.lines)?;
    let named = macro_of_lines(body.parameters, lines)?;
    let named = SharedMacro::new(recorder.alloc(), named)?;
    recorder.put(Key::Macro(name), Answer::Macro(named))
}

/// Lines with the one that closes them, if it is one of them.
fn with_last(
    alloc: Global,
    lines: Vec<Shared<u8>>,
    with_line: bool,
    text: &[u8],
) -> Result<Vec<Shared<u8>>, AllocError>
    ensures { IfOk result (λ all. all.items ≡ lines.items ++ treating.last_line with_line text.now) }
{
    let mut lines = lines;
    if with_line {
        lines.push(Shared::new(alloc, text)?)?;
    }
    Ok(lines)
}

/// Lines that are opened so many times. Where there are none, nothing is opened, however often.
fn open_lines<'a>(lines: Vec<Shared<u8>>, times: u32) -> Option<Opened<'a>>
    ensures { opening_of result ≡ plain (treating.repeated times lines.items) }
{
    if lines.is_empty() {
        return None;
    }
    Some(Opened::Lines(Repeated { lines, times }))
}

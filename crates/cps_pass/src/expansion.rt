//! The statements that a source line stands for: its own, and those that it opens.
ghost use Rattle.std.specs.Prelude.{◌≡◌, ◌≤◌, ◌+◌, ◌-◌, IfOk, OnOk, Some};
ghost use Rattle.cps_state.specs.Course.{stop};
ghost use Rattle.cps_state.specs.Code.Line.{Does, Goes, runs};
ghost use Rattle.cps_state.specs.Code.Scratch.{StandsOn, statements_on};
ghost use Rattle.cps_pass.specs.Expansion.{ended, opened_at, too_deep, walk_at};
ghost use Rattle.cps_pass.specs.Expansion as expansion;
ghost use Rattle.cps_pass.specs.Code.Taking.{Walks};
ghost use Rattle.cps_pass.specs.Code.Opened.{opening_of, body_opening, lines_of};
ghost use Rattle.cps_pass.specs.Opening.{plain};

use crate::macros::insert_all;
use crate::names::name_all;
use crate::opened::{Body, Opened, Repeated};
use crate::scope::{Own, Scope};
use crate::statement::step_statement;
use crate::watcher::{Unwatched, Watcher};
use cps_state::{Flags, Lookup, Mode, Recorder, Scratch, Shared, Trace};
use cps_text::Substitutes;
use std::alloc::{AllocError, Global};

/// Statements, each followed by those that it opens. False where one is too much.
#[cycle(expansion)]
fn go_through<L: Lookup, W: Watcher<L>>(
    recorder: &mut Recorder<'_, L>,
    scope: &mut Scope,
    depth: u8,
    texts: &[Shared<u8>],
    watcher: &mut W,
) -> Result<bool, AllocError>
    requires { depth ≤ too_deep }
    ensures { IfOk result (λ complete. Walks (walk_at depth scope.old texts.now) complete scope.new L.answer recorder.old recorder.new) }
{
    for text in texts {
        if !recorder.begin(depth, text.share()?)? {
            watcher.see_dropped(depth)?;
            return Ok(false);
        }
        let bytes = text.as_slice();
        watcher.see_statement(recorder, scope, bytes)?;
        if let Some(opened) = step_statement(recorder, scope, bytes)? {
            watcher.see_opened(bytes, &opened)?;
            if !expand(recorder, depth + 1, opened, watcher)? {
                return Ok(false);
            }
        }
    }
    Ok(true)
}

/// The statements that a statement opens, at their depth. False where one is too much.
#[cycle(expansion)]
fn expand<L: Lookup, W: Watcher<L>>(
    recorder: &mut Recorder<'_, L>,
    depth: u8,
    opened: Opened<'_>,
    watcher: &mut W,
) -> Result<bool, AllocError>
    requires { depth ≤ too_deep }
    ensures { IfOk result (λ complete. Goes (opened_at depth (opening_of (Some opened.entry))) complete L.answer recorder.old recorder.new) }
{
    match opened {
        Opened::Lines(lines) => repeat(recorder, depth, &lines, watcher),
        Opened::Naming(called) => expand_body(recorder, depth, &called, watcher),
    }
}

/// Lines so many times.
#[cycle(expansion)]
fn repeat<L: Lookup, W: Watcher<L>>(
    recorder: &mut Recorder<'_, L>,
    depth: u8,
    opened: &Repeated,
    watcher: &mut W,
) -> Result<bool, AllocError>
    requires { depth ≤ too_deep }
    ensures { IfOk result (λ complete. Goes (opened_at depth (plain (lines_of opened.now))) complete L.answer recorder.old recorder.new) }
{
    let alloc = recorder.alloc();
    let mut scope = Scope::Expansion(Own::at_start(alloc));
    for _turn in 0..opened.times {
        if !go_through(recorder, &mut scope, depth, &opened.lines, watcher)? {
            return Ok(false);
        }
    }
    watcher.see_end(&scope)?;
    end_expansion(recorder, &scope);
    Ok(true)
}

/// The body of a call whose macro has LOCAL lines: these, and then the lines behind them.
#[cycle(expansion)]
fn expand_body<L: Lookup, W: Watcher<L>>(
    recorder: &mut Recorder<'_, L>,
    depth: u8,
    called: &Body<'_>,
    watcher: &mut W,
) -> Result<bool, AllocError>
    requires { depth ≤ too_deep }
    ensures { IfOk result (λ complete. Goes (opened_at depth (body_opening called.now)) complete L.answer recorder.old recorder.new) }
{
    watcher.see_locals(called)?;
    let alloc = recorder.alloc();
    let mut known = Substitutes::of(alloc, &called.pairs)?;
    if !name_all(recorder, depth, called.locals.as_slice(), &mut known)? {
        watcher.see_dropped(depth)?;
        return Ok(false);
    }
    let lines = insert_all(alloc, called.lines.as_slice(), &known)?;
    let opened = Repeated { lines, times: 1 };
    repeat(recorder, depth, &opened, watcher)
}

/// A body of DUP that is open ends with the expansion.
fn end_expansion<L: Lookup>(recorder: &mut Recorder<'_, L>, scope: &Scope)
    ensures { Does (ended scope.now) L.answer recorder.old recorder.new }
{
    if keeps_lines(scope) {
        let mut flags = Flags::none();
        flags.structure = true;
        recorder.mark(flags);
    }
}

fn keeps_lines(scope: &Scope) -> bool
    ensures { result ≡ expansion.keeps_lines scope.now }
{
    match scope {
        Scope::Expansion(own) => is_dup_body(own.mode()),
        Scope::Source => false,
    }
}

fn is_dup_body(mode: &Mode) -> bool
    ensures { result ≡ expansion.is_dup_body mode.now }
{
    match mode {
        Mode::KeepDup(_) => true,
        _ => false,
    }
}

/// The statement of a source line, and those that it opens. False where one is too much.
fn go_through_line<L: Lookup, W: Watcher<L>>(
    recorder: &mut Recorder<'_, L>,
    line: &[u8],
    watcher: &mut W,
) -> Result<bool, AllocError>
    ensures { IfOk result (λ complete. runs (expansion.line_part line.now stop) L.answer recorder.old ≡ (recorder.new, complete)) }
{
    let mut scope = Scope::Source;
    watcher.see_statement(recorder, &scope, line)?;
    let opened = step_statement(recorder, &mut scope, line)?;
    recorder.settle();
    let complete = match opened {
        Some(opened) => {
            watcher.see_opened(line, &opened)?;
            expand(recorder, 1, opened, watcher)?
        }
        None => true,
    };
    Ok(complete)
}

/// What a source line asks, puts and makes in a state. Meanwhile it is in the lists of a scratch.
pub fn trace_line<L: Lookup>(
    alloc: Global,
    scratch: &mut Scratch,
    line: &[u8],
    state: &L,
) -> Result<Trace, AllocError>
    ensures { IfOk result (λ trace. trace ≡ expansion.trace_of line.now (L.answer state.now)) }
{
    let mut recorder = Recorder::new(alloc, scratch, state);
    let complete = go_through_line(&mut recorder, line, &mut Unwatched)?;
    recorder.into_trace(complete, scratch)
}

/// The same without what it asks, on a scratch behind all statements there.
pub fn write_line<L: Lookup>(
    alloc: Global,
    scratch: &mut Scratch,
    line: &[u8],
    state: &L,
) -> Result<(), AllocError>
    ensures { OnOk result (StandsOn scratch.new (statements_on scratch.old) (expansion.trace_of line.now (L.answer state.now))) }
{
    watch_line(alloc, scratch, line, state, &mut Unwatched)
}

/// The same, and tells a watcher what the line does. It is counted as no step.
pub fn watch_line<L: Lookup, W: Watcher<L>>(
    alloc: Global,
    scratch: &mut Scratch,
    line: &[u8],
    state: &L,
    watcher: &mut W,
) -> Result<(), AllocError>
    ensures { OnOk result (StandsOn scratch.new (statements_on scratch.old) (expansion.trace_of line.now (L.answer state.now))) }
{
    let mut recorder = Recorder::new(alloc, scratch, state);
    let complete = go_through_line(&mut recorder, line, watcher)?;
    recorder.write(complete, scratch)
}

//! Where a statement stands: a source line, or a statement of an expansion.
ghost use Rattle.std.specs.Prelude.{◌≡◌, IfOk};
ghost use Rattle.cps_state.specs.Code.Line.{Hands};
ghost use Rattle.cps_pass.specs.Own.{new_expansion};
ghost use Rattle.cps_pass.specs.Scope as meaning;
ghost use Rattle.cps_pass.specs.Code.Taking.{Leads, TakesBody};

use cps_state::{
    Answer, Control, Key, Lookup, Mode, OpenRange, Recorder, Shared, SharedMode, ranges_of, text_of,
};
use std::alloc::{AllocError, Global};
use std::marker::Model;
use std::mem;

/// What an expansion has of its own: what is done with its statements to come, the ranges that are open in it, and the lines that it keeps.
#[derive(Drop)]
pub struct Own {
    mode: Mode,
    ranges: Shared<OpenRange>,
    kept: Vec<Shared<u8>>,
}

impl Model for Own {
    ghost use Rattle.cps_pass.specs.Own.{Own};

    ghost Value = { Own };

    ghost view = { λ own. record { mode = own.mode; ranges = own.ranges; kept = own.kept.items } };
}

impl Own {
    /// Of an expansion that begins.
    pub fn at_start(alloc: Global) -> Own
        ensures { result ≡ new_expansion }
    {
        Own {
            mode: Mode::Normal,
            ranges: Shared::empty(),
            kept: Vec::new(alloc),
        }
    }

    /// What is done with its statements to come.
    pub fn mode(&self) -> &Mode
        ensures { result.now ≡ self.now.mode }
    {
        &self.mode
    }
}

/// Where a statement stands.
#[derive(Drop)]
pub enum Scope {
    /// A source line goes by the state.
    Source,
    /// A statement of an expansion goes by what the expansion has of its own.
    Expansion(Own),
}

/// What is done with a statement: for a source line what the state says.
#[inline(always)]
pub fn mode_in(mode: Mode, scope: &Scope) -> Result<Mode, AllocError>
    ensures { IfOk result (λ found. found ≡ meaning.mode_in mode scope.now) }
{
    match scope {
        Scope::Source => Ok(mode),
        Scope::Expansion(own) => own.mode.share(),
    }
}

/// What is done with the lines to come.
pub fn go_by<L: Lookup>(
    recorder: &mut Recorder<'_, L>,
    control: Control,
    scope: &mut Scope,
    mode: Mode,
) -> Result<(), AllocError>
    ensures { Leads result (meaning.going_by control scope.old mode) scope.new L.answer recorder.old recorder.new }
{
    match scope {
        Scope::Source => {
            let mode = SharedMode::new(recorder.alloc(), mode)?;
            recorder.put(Key::Control, Answer::Control(control, mode))
        }
        Scope::Expansion(own) => {
            own.mode = mode;
            Ok(())
        }
    }
}

/// The ranges that are open, the newest first.
pub fn ask_ranges<L: Lookup>(
    recorder: &mut Recorder<'_, L>,
    scope: &Scope,
) -> Result<Shared<OpenRange>, AllocError>
    ensures { IfOk result (λ ranges. Hands (meaning.asking_ranges scope.now) ranges L.answer recorder.old recorder.new) }
{
    match scope {
        Scope::Source => {
            let known = recorder.note(Key::Ifs)?;
            ranges_of(recorder.answer(known))
        }
        Scope::Expansion(own) => own.ranges.share(),
    }
}

/// These ranges are open.
pub fn put_ranges<L: Lookup>(
    recorder: &mut Recorder<'_, L>,
    scope: &mut Scope,
    ranges: Shared<OpenRange>,
) -> Result<(), AllocError>
    ensures { Leads result (meaning.putting_ranges scope.old ranges) scope.new L.answer recorder.old recorder.new }
{
    match scope {
        Scope::Source => recorder.put(Key::Ifs, Answer::Ifs(ranges)),
        Scope::Expansion(own) => {
            own.ranges = ranges;
            Ok(())
        }
    }
}

/// Keeps a line after so many others.
pub fn keep<L: Lookup>(
    recorder: &mut Recorder<'_, L>,
    scope: &mut Scope,
    count: u32,
    text: Shared<u8>,
) -> Result<(), AllocError>
    ensures { Leads result (meaning.keeping scope.old count text) scope.new L.answer recorder.old recorder.new }
{
    match scope {
        Scope::Source => recorder.put(Key::Kept(count), Answer::Text(text)),
        Scope::Expansion(own) => {
            own.kept.truncate(count as usize);
            own.kept.push(text)?;
            Ok(())
        }
    }
}

/// So many lines that are kept.
fn ask_lines<L: Lookup>(
    recorder: &mut Recorder<'_, L>,
    count: u32,
) -> Result<Vec<Shared<u8>>, AllocError>
    ensures { IfOk result (λ lines. Hands (meaning.asking_lines 0 count) lines.items L.answer recorder.old recorder.new) }
{
    let alloc = recorder.alloc();
    let mut lines = Vec::new(alloc);
    for line in 0..count {
        let known = recorder.note(Key::Kept(line))?;
        let text = text_of(recorder.answer(known))?;
        lines.push(text)?;
    }
    Ok(lines)
}

/// So many lines that were kept. The lines to come are assembled.
pub fn take_body<L: Lookup>(
    recorder: &mut Recorder<'_, L>,
    control: Control,
    scope: &mut Scope,
    count: u32,
) -> Result<Vec<Shared<u8>>, AllocError>
    ensures { IfOk result (λ lines. TakesBody (meaning.taking_body control scope.old count) lines.items scope.new L.answer recorder.old recorder.new) }
{
    let alloc = recorder.alloc();
    match scope {
        Scope::Source => {
            let lines = ask_lines(recorder, count)?;
            recorder.put(Key::Control, Answer::Control(control, SharedMode::normal()))?;
            Ok(lines)
        }
        Scope::Expansion(own) => {
            own.mode = Mode::Normal;
            let mut lines = mem::replace(&mut own.kept, Vec::new(alloc));
            lines.truncate(count as usize);
            Ok(lines)
        }
    }
}

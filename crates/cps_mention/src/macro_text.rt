//! A macro as its source writes it.
ghost use Rattle.std.specs.Prelude.{◌≡◌, ◌≤◌, ◌<◌, ◌++◌, length, IfOk, OnOk, option_map, slice_get};
ghost use Rattle.cps_text.specs.Card as cards;
ghost use Rattle.cps_text.specs.Card.{card};
ghost use Rattle.cps_text.specs.Insertion.{is_of_run};
ghost use Rattle.cps_text.specs.Runs.{run_len};
ghost use Rattle.cps_mention.specs.CallLines.{ArePut, IsShort};
ghost use Rattle.cps_mention.specs.Code.MacroNames.{IsPlaced, body_origins, kept_origins, lists_of, origins_for, placed_origins};

use crate::macro_names::{MacroName, MacroNames};
use crate::placed_text::PlacedText;
use crate::statement_text::{KeptText, columns_of};
use crate::stretch::Stretch;
use cps_state::Shared;
use cps_text::{Fields, Name, read_fields, run_end};
use std::alloc::{AllocError, Global};

/// The characters of a generated name.
const GENERATED_CHARACTERS: usize = 8;

/// Stands for a name of a body that nothing calls.
const UNKNOWN: u8 = b'?';

/// A macro as its source writes it.
#[derive(Drop)]
pub struct MacroText {
    /// The line of MACRO, from 1.
    pub line: u32,
    /// Where its name is defined.
    pub defined: Stretch,
    names: MacroNames,
    /// For each of these, whether the lines behind the LOCAL lines write it.
    are_written: Vec<bool>,
    /// The lines of its body, from 1.
    pub lines: Vec<u32>,
    /// How many of them are LOCAL lines, which stand first.
    pub local_lines: usize,
}

impl MacroText {
    /// Of a macro without names.
    pub fn new(alloc: Global, defined: Stretch, lines: Vec<u32>, local_lines: usize) -> MacroText {
        MacroText {
            line: defined.line,
            defined,
            names: MacroNames::new(alloc),
            are_written: Vec::new(alloc),
            lines,
            local_lines,
        }
    }

    /// One more name.
    pub fn add(&mut self, name: MacroName) -> Result<(), AllocError> {
        self.names.add(name)?;
        self.are_written.push(false)?;
        Ok(())
    }

    /// Whether it has a name already.
    pub fn is_taken(&self, name: Name) -> bool {
        self.names.place_of(name).is_some()
    }

    /// The name that a run writes, and its place.
    pub fn named(&self, run: &[u8]) -> Option<(usize, MacroName)> {
        let at = self.names.place_of_run(run)?;
        let name = self.names.get(at)?;
        Some((at, name))
    }

    /// The lines behind the LOCAL lines write a name.
    pub fn write(&mut self, at: usize) {
        if let Some(is_written) = self.are_written.get_mut(at) {
            *is_written = true;
        }
    }

    /// Whether these lines write the parameter of so many before it.
    pub fn writes_parameter(&self, at: usize) -> bool {
        match (self.names.get(at), self.are_written.get(at)) {
            (Some(name), Some(is_written)) => *is_written && !name.is_local,
            _ => false,
        }
    }

    /// A line behind the LOCAL lines, from 0.
    pub fn line_behind(&self, at: usize) -> Option<u32> {
        self.lines.get(self.local_lines.saturating_add(at)).copied()
    }

    /// What wrote the characters of a line of the body in a call with these arguments.
    pub fn origins_in(
        &self,
        alloc: Global,
        line: u32,
        body: &[u8],
        arguments: &[&[Stretch]],
    ) -> Result<Vec<Stretch>, AllocError>
        ensures { IsShort body.now → IfOk result (λ origins. ArePut self.now.names (lists_of arguments.now) line body.now origins.items) }
    {
        if is_comment(body) {
            columns_of(alloc, line, body)
        } else {
            put_runs(alloc, &self.names, line, body, arguments)
        }
    }

    /// A line of the body that nothing calls, with something that is no name in the place of each of its names.
    pub fn uncalled(&self, alloc: Global, line: u32, body: &[u8]) -> Result<KeptText, AllocError> {
        let mut text = Vec::with_capacity(alloc, body.len())?;
        let mut origins = Vec::with_capacity(alloc, body.len())?;
        for run in list_runs(alloc, body)?.as_slice() {
            let is_name = self.named(run.text).is_some();
            for (at, byte) in run.text.iter().enumerate() {
                if *byte != b'_' {
                    text.push(if is_name { UNKNOWN } else { *byte })?;
                    origins.push(Stretch::behind(line, run.before.saturating_add(at), 1))?;
                }
            }
        }
        Ok(KeptText {
            text: Shared::from_vec(text)?,
            origins,
            line,
        })
    }
}

/// What wrote the characters of a line that is no comment.
fn put_runs(
    alloc: Global,
    names: &MacroNames,
    line: u32,
    body: &[u8],
    arguments: &[&[Stretch]],
) -> Result<Vec<Stretch>, AllocError>
    ensures { IsShort body.now → IfOk result (λ origins. origins.items ≡ body_origins names.now (lists_of arguments.now) line body.now) }
{
    let mut origins = Vec::new(alloc);
    let mut rest = body;
    while !rest.is_empty() {
        let before = body.len() - rest.len();
        let (text, behind) = rest.split_at(first_run_len(rest));
        put_run(
            &mut origins,
            names,
            line,
            PlacedText { text, before },
            arguments,
        )?;
        rest = behind;
    }
    Ok(origins)
}

/// The same of one run.
fn put_run(
    origins: &mut Vec<Stretch>,
    names: &MacroNames,
    line: u32,
    run: PlacedText<'_>,
    arguments: &[&[Stretch]],
) -> Result<(), AllocError>
    ensures { IsPlaced run.entry
        → OnOk result (origins.new.items ≡ origins.old.items ++ placed_origins names.now (lists_of arguments.now) line run.entry) }
{
    match names.place_of_run(run.text) {
        Some(at) => {
            let columns = Stretch::behind(line, run.before, run.text.len());
            put_name(origins, names.get(at), columns, arguments, at)
        }
        None => push_unmarked(origins, line, run),
    }
}

/// What wrote the argument of so many before it.
fn argument_at<'t>(arguments: &[&'t [Stretch]], at: usize) -> Option<&'t [Stretch]>
    ensures { option_map (λ a. a.now) result ≡ slice_get (lists_of arguments.now) at }
{
    arguments.get(at).copied()
}

/// What wrote what stands for a name, which has so many before it, in the place of columns.
fn put_name(
    origins: &mut Vec<Stretch>,
    name: Option<MacroName>,
    columns: Stretch,
    arguments: &[&[Stretch]],
    at: usize,
) -> Result<(), AllocError>
    ensures { OnOk result (origins.new.items ≡ origins.old.items ++ origins_for (lists_of arguments.now) columns at name) }
{
    match (name, argument_at(arguments, at)) {
        (Some(name), _) if name.is_local => {
            origins.extend_from_slice(&[columns; GENERATED_CHARACTERS])
        }
        (Some(_), Some(argument)) => origins.extend_from_slice(argument),
        _ => Ok(()),
    }
}

/// The columns of a run that stays, without `_`.
fn push_unmarked(
    origins: &mut Vec<Stretch>,
    line: u32,
    run: PlacedText<'_>,
) -> Result<(), AllocError>
    ensures { IsPlaced run.entry
        → OnOk result (origins.new.items ≡ origins.old.items ++ kept_origins line run.entry.before run.entry.text.now) }
{
    let mut before = run.before;
    for byte in run.text {
        if *byte != b'_' {
            origins.push(Stretch::behind(line, before, 1))?;
        }
        before = before.saturating_add(1);
    }
    Ok(())
}

fn is_comment(body: &[u8]) -> bool
    ensures { result ≡ cards.is_comment (card body.now) }
{
    match read_fields(body) {
        Fields::Comment => true,
        _ => false,
    }
}

/// How many characters the first run of a text has: letters, digits and points; each other character is one by itself.
fn first_run_len(text: &[u8]) -> usize
    ensures len { 0 < length text.now → result ≡ run_len is_of_run text.now }
    ensures some { 0 < length text.now → 0 < result }
    ensures within { 0 < length text.now → result ≤ length text.now }
{
    run_end(text).max(1)
}

/// The runs of a line of a body: letters, digits and points, and each other character by itself. A comment is one.
pub fn list_runs<'a>(alloc: Global, body: &'a [u8]) -> Result<Vec<PlacedText<'a>>, AllocError> {
    let whole = PlacedText {
        text: body,
        before: 0,
    };
    let mut runs = Vec::new(alloc);
    if is_comment(body) {
        runs.push(whole)?;
        return Ok(runs);
    }
    let mut from: usize = 0;
    for at in 0..body.len() {
        if at >= from {
            let rest = whole.cut(at, body.len());
            from = at.saturating_add(first_run_len(rest.text));
            runs.push(whole.cut(at, from))?;
        }
    }
    Ok(runs)
}

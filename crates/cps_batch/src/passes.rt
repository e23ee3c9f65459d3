//! The two passes of batch assembly over the lines of a source.
ghost use Rattle.std.specs.Prelude.{◌≡◌, ℕ, List, [], ◌∷◌, ◌++◌, ◌+◌, ◌≤◌, ◌<◌, drop, length, IfOk, OnOk};
ghost use Rattle.cps_state.specs.Code.Scratch.{statements_on};
ghost use Rattle.cps_list.specs.Code.Making.{shows_symbols};
ghost use Rattle.cps_list.specs.Texts.{text_of};
ghost use Rattle.cps_edit.specs.Assembly.{assembly_of, traces_of};
ghost use Rattle.cps_edit.specs.Flagged.{flagged_lines};
ghost use Rattle.cps_batch.specs.Code.Words.{AreWordsOf};
ghost use Rattle.cps_batch.specs.Code.KeptLines.{statements_in};
ghost use Rattle.cps_batch.specs.Code.Passes.{AreBegun, AreShown, GathersNext, IsAnyKept, IsPassed, IsShown, KeepsOn, PassesOn, ShowsOn, ShowsStatements, ShowsTo, StepsNext, noted, statements_of};
ghost use Rattle.cps_edit.specs.Code.PassOne.{AreGathered};

use crate::kept_lines::{KeptLines, KeptStatements};
use crate::source_words::SourceWords;
use cps_final::{Finals, Gather, Gathered, LineSymbols, Output};
use cps_input::LineText;
use cps_list::{Mention, Part, Printout, push_mentions};
use cps_pass::step_unasked;
use cps_state::{Hashing, Item, Scratch, Work};
use cps_text::limits::MOST_LINES;
use std::alloc::{AllocError, Global};
use std::mem::replace;

/// Statements are kept for pass two up to so many, or to so many a line where that is more. Where the lines make more, each line is gone through again.
const MOST_KEPT: usize = 82_000;

const MOST_KEPT_A_LINE: usize = 4;

/// A text of a source, and the number of flagged lines.
pub fn make_part(
    alloc: Global,
    hashing: Hashing,
    lines: &LineText,
    part: Part,
) -> Result<(Vec<u8>, u32), AllocError>
    requires { length lines.now ≤ MOST_LINES }
    ensures { IfOk result (λ made. (made.0.items ≡ text_of part (assembly_of lines.now)) × (made.1 ≡ flagged_lines lines.now)) }
{
    let mut one = BatchPassOne::of(alloc, hashing, lines, part)?;
    one.make_text(alloc, lines)
}

/// The words of a source, and the number of flagged lines. No text is made, and of what a line makes only its words stay.
pub fn make_words(
    alloc: Global,
    hashing: Hashing,
    lines: &LineText,
) -> Result<SourceWords, AllocError>
    requires { length lines.now ≤ MOST_LINES }
    ensures { IfOk result (AreWordsOf lines.now) }
{
    let mut one = BatchPassOne::of(alloc, hashing, lines, Part::Binary)?;
    one.make_words(alloc, lines)
}

/// What pass one makes of the lines so far.
struct BatchPassOne {
    part: Part,
    gather: Gather,
    /// The statements of the lines, but for those on the scratch. None: they are too many, and none is kept.
    kept: Option<KeptStatements>,
    /// How many statements there are, one with several contents for as many.
    count: usize,
    /// How many are kept at most.
    most: usize,
    scratch: Scratch,
    symbols: LineSymbols,
    mentions: Vec<Mention>,
}

// Written out, so that it is proved once.
impl Drop for BatchPassOne {
    fn drop(self) {
        let BatchPassOne {
            part: _,
            gather,
            kept,
            count: _,
            most: _,
            scratch,
            symbols,
            mentions,
        } = self;
        drop(gather);
        drop(kept);
        drop(scratch);
        drop(symbols);
        drop(mentions);
    }
}

impl BatchPassOne {
    /// Of no line. At most so many statements are to be kept. Takes no memory yet.
    fn new(alloc: Global, hashing: Hashing, part: Part, most: usize) -> BatchPassOne
        ensures passed { IsPassed [] result }
        ensures part { result.part ≡ part }
    {
        BatchPassOne {
            part,
            gather: Gather::new(alloc, hashing),
            kept: Some(KeptStatements::none(alloc)),
            count: 0,
            most,
            scratch: Scratch::new(alloc),
            symbols: LineSymbols::new(alloc, hashing),
            mentions: Vec::new(alloc),
        }
    }

    /// Of all lines.
    fn of(
        alloc: Global,
        hashing: Hashing,
        lines: &LineText,
        part: Part,
    ) -> Result<BatchPassOne, AllocError>
        requires { length lines.now ≤ MOST_LINES }
        ensures passed { IfOk result (IsPassed lines.now) }
        ensures part { IfOk result (λ one. one.part ≡ part) }
    {
        let mut one = BatchPassOne::new(alloc, hashing, part, most_kept(lines.len()));
        for before in 0..lines.len() {
            one.take_line(alloc, before as u32 + 1, lines.line(before))?;
        }
        Ok(one)
    }

    /// Takes the next line.
    fn take_line(&mut self, alloc: Global, number: u32, line: &[u8]) -> Result<(), AllocError>
        requires { (lines : List (List ℕ)) × IsPassed lines self.old }
        ensures passed { OnOk result (PassesOn line.now number self.old self.new) }
        ensures part { OnOk result (self.new.part ≡ self.old.part) }
    {
        step_next(alloc, &mut self.scratch, &self.gather, line)?;
        note_symbols(
            &mut self.mentions,
            self.part.shows_symbols(),
            number,
            &mut self.symbols,
            &self.scratch,
        )?;
        self.count = counted(self.count, self.scratch.items());
        self.gather.take(&mut self.scratch)?;
        let is_much = self.count > self.most;
        keep(alloc, &mut self.kept, is_much, &mut self.scratch)?;
        Ok(())
    }

    /// The text of these lines, and the number of flagged ones. The symbols that were noted go into it.
    fn make_text(&mut self, alloc: Global, lines: &LineText) -> Result<(Vec<u8>, u32), AllocError>
        requires passed { IsPassed lines.now self.old }
        requires few { length lines.now ≤ MOST_LINES }
        ensures { IfOk result (λ made. (made.0.items ≡ text_of self.old.part (assembly_of lines.now)) × (made.1 ≡ flagged_lines lines.now)) }
    {
        let mentions = replace(&mut self.mentions, Vec::new(alloc));
        let printout = self.show(alloc, lines)?;
        let finals = &self.gather;
        let (text, flagged) = printout.finish(finals, finals.is_open_at_end(), mentions)?;
        Ok((text, flagged as u32))
    }

    /// The words of these lines, and the number of flagged ones.
    fn make_words(&mut self, alloc: Global, lines: &LineText) -> Result<SourceWords, AllocError>
        requires passed { IsPassed lines.now self.old }
        requires part { self.old.part ≡ Part.Binary }
        requires few { length lines.now ≤ MOST_LINES }
        ensures { IfOk result (AreWordsOf lines.now) }
    {
        let printout = self.show(alloc, lines)?;
        let finals = &self.gather;
        let (words, flagged) = printout.into_words(finals, finals.is_open_at_end())?;
        Ok(SourceWords {
            words,
            machine: finals.machine(),
            flagged: flagged as u32,
        })
    }

    /// What pass two shows of these lines. The statements that were kept are let go as they are shown.
    fn show(&mut self, alloc: Global, lines: &LineText) -> Result<Printout, AllocError>
        requires few { length lines.now ≤ MOST_LINES }
        requires kept { IsAnyKept self.old.kept (statements_on self.old.scratch) (statements_of (traces_of lines.now)) }
        ensures printout { IfOk result (AreShown self.new.gather lines.now) }
        ensures part { IfOk result (λ printout. printout.part ≡ self.old.part) }
        ensures few { IfOk result (λ printout. printout.flagged ≤ MOST_LINES) }
        ensures gather { self.new.gather ≡ self.old.gather }
    {
        let kept = replace(&mut self.kept, None);
        let scratch = replace(&mut self.scratch, Scratch::new(alloc));
        match kept {
            Some(kept) => {
                let groups = kept.into_groups(scratch)?;
                show_kept(alloc, self.part, lines, groups, &self.gather)
            }
            None => show_again(alloc, self.part, lines, &self.gather),
        }
    }
}

/// Notes the symbols of the line on a scratch, where they are shown.
fn note_symbols(
    mentions: &mut Vec<Mention>,
    is_shown: bool,
    number: u32,
    symbols: &mut LineSymbols,
    scratch: &Scratch,
) -> Result<(), AllocError>
    ensures { OnOk result (mentions.new.items ≡ mentions.old.items ++ noted is_shown number scratch.now.line) }
{
    if !is_shown {
        return Ok(());
    }
    symbols.replace(scratch.puts(), scratch.reads(), scratch.items())?;
    push_mentions(mentions, number, symbols.defined(), symbols.read())
}

/// How many statements of so many lines are kept at most.
fn most_kept(lines: usize) -> usize {
    lines.saturating_mul(MOST_KEPT_A_LINE).max(MOST_KEPT)
}

/// A count with some statements.
fn counted(count: usize, items: &[Item]) -> usize {
    let mut count = count;
    for item in items {
        count = count.saturating_add(item.made.contents().len().max(1));
    }
    count
}

/// Keeps the statements of the line on a scratch. Where there are too many by now, the memory of all goes back.
fn keep(
    alloc: Global,
    kept: &mut Option<KeptStatements>,
    is_much: bool,
    scratch: &mut Scratch,
) -> Result<(), AllocError>
    requires { AreBegun kept.old scratch.old.before }
    ensures { OnOk result (KeepsOn kept.old kept.new scratch.old scratch.new) }
{
    if is_much {
        *kept = None;
        *scratch = Scratch::new(alloc);
        return Ok(());
    }
    match kept {
        Some(kept) => kept.end_line(alloc, scratch)?,
        None => scratch.clear_items(),
    }
    Ok(())
}

/// Pass one of the line after those that were gathered, without what it asks.
fn step_next(
    alloc: Global,
    scratch: &mut Scratch,
    gather: &Gather,
    line: &[u8],
) -> Result<(), AllocError>
    ensures { OnOk result (StepsNext line.now gather.now scratch.old scratch.new) }
{
    step_unasked(alloc, &mut Work::new(), scratch, line, gather.state())
}

/// What pass two shows of the lines so far, under the final values.
struct PassTwo<'a> {
    finals: &'a Finals,
    printout: Printout,
    output: Output,
}

// Written out, as that of pass one.
impl Drop for PassTwo<'_> {
    fn drop(self) {
        let PassTwo {
            finals: _,
            printout,
            output,
        } = self;
        drop(printout);
        drop(output);
    }
}

impl<'a> PassTwo<'a> {
    /// Of no line.
    fn new(alloc: Global, part: Part, finals: &'a Finals) -> PassTwo<'a>
        ensures none { IsShown [] result }
        ensures finals { result.finals.now ≡ finals.now }
        ensures part { result.printout.part ≡ part }
        ensures few { result.printout.flagged ≡ 0 }
    {
        PassTwo {
            finals,
            printout: Printout::new(alloc, part),
            output: Output::new(alloc),
        }
    }

    /// What is shown, which is taken out of it.
    fn take_printout(&mut self, alloc: Global, part: Part) -> Printout
        ensures { result ≡ self.old.printout }
    {
        replace(&mut self.printout, Printout::new(alloc, part))
    }

    /// Adds the next line, which stands for these statements.
    fn add(&mut self, number: u32, line: &[u8], items: &[Item]) -> Result<(), AllocError>
        requires { self.old.printout.flagged < number }
        ensures shown { OnOk result (ShowsStatements line.now items.now number self.old self.new) }
        ensures finals { OnOk result (self.new.finals.now ≡ self.old.finals.now) }
        ensures part { OnOk result (self.new.printout.part ≡ self.old.printout.part) }
        ensures few { OnOk result (self.new.printout.flagged ≤ number) }
    {
        self.output.replace(items, self.finals)?;
        self.printout
            .add(number, line, self.output.rows(), self.output.pieces())
    }

    /// Adds lines whose statements were kept, behind so many that are shown.
    fn add_group(
        &mut self,
        lines: &LineText,
        shown: usize,
        group: &KeptLines,
    ) -> Result<(), AllocError>
        requires few { length lines.now ≤ MOST_LINES }
        requires flagged { self.old.printout.flagged ≤ shown }
        requires kept { (rest : List (List Item)) × (drop shown (statements_of (traces_of lines.now)) ≡ group.now ++ rest) }
        ensures shown { OnOk result (ShowsTo lines.now shown (shown + length group.now) self.old self.new) }
        ensures finals { OnOk result (self.new.finals.now ≡ self.old.finals.now) }
        ensures part { OnOk result (self.new.printout.part ≡ self.old.printout.part) }
        ensures few { OnOk result (self.new.printout.flagged ≤ shown + length group.now) }
    {
        for at in 0..group.len() {
            let before = shown + at;
            self.add(before as u32 + 1, lines.line(before), group.items(at))?;
        }
        Ok(())
    }
}

/// What pass two shows of lines whose statements were kept.
fn show_kept(
    alloc: Global,
    part: Part,
    lines: &LineText,
    groups: Vec<KeptLines>,
    finals: &Finals,
) -> Result<Printout, AllocError>
    requires few { length lines.now ≤ MOST_LINES }
    requires kept { statements_in groups.items ≡ statements_of (traces_of lines.now) }
    ensures printout { IfOk result (AreShown finals.now lines.now) }
    ensures part { IfOk result (λ printout. printout.part ≡ part) }
    ensures few { IfOk result (λ printout. printout.flagged ≤ MOST_LINES) }
{
    let mut two = PassTwo::new(alloc, part, finals);
    let mut left = groups;
    left.reverse();
    let mut shown = 0;
    while let Some(group) = left.pop() {
        two.add_group(lines, shown, &group)?;
        shown += group.len();
    }
    Ok(two.take_printout(alloc, part))
}

/// The same where they were not: each line is gone through again.
fn show_again(
    alloc: Global,
    part: Part,
    lines: &LineText,
    finals: &Finals,
) -> Result<Printout, AllocError>
    requires { length lines.now ≤ MOST_LINES }
    ensures printout { IfOk result (AreShown finals.now lines.now) }
    ensures part { IfOk result (λ printout. printout.part ≡ part) }
    ensures few { IfOk result (λ printout. printout.flagged ≤ MOST_LINES) }
{
    let mut again = Again::new(alloc, part, finals);
    for before in 0..lines.len() {
        again.take_line(alloc, before as u32 + 1, lines.line(before))?;
    }
    Ok(again.two.take_printout(alloc, part))
}

/// What both passes make of the lines so far, where pass one was made before.
struct Again<'a> {
    gather: Gather,
    scratch: Scratch,
    two: PassTwo<'a>,
}

// Written out, as those of the passes.
impl Drop for Again<'_> {
    fn drop(self) {
        let Again {
            gather,
            scratch,
            two,
        } = self;
        drop(gather);
        drop(scratch);
        drop(two);
    }
}

impl<'a> Again<'a> {
    /// Of no line.
    fn new(alloc: Global, part: Part, finals: &'a Finals) -> Again<'a>
        ensures gathered { AreGathered [] result.gather }
        ensures none { IsShown [] result.two }
        ensures finals { result.two.finals.now ≡ finals.now }
        ensures part { result.two.printout.part ≡ part }
        ensures few { result.two.printout.flagged ≡ 0 }
    {
        Again {
            gather: Gather::new(alloc, finals.hashing()),
            scratch: Scratch::new(alloc),
            two: PassTwo::new(alloc, part, finals),
        }
    }

    /// Takes the next line.
    fn take_line(&mut self, alloc: Global, number: u32, line: &[u8]) -> Result<(), AllocError>
        requires { self.old.two.printout.flagged < number }
        ensures gathered { OnOk result (GathersNext line.now self.old.gather self.new.gather) }
        ensures shown { OnOk result ((lines : List (List ℕ)) → AreGathered lines self.old.gather
            → ShowsOn lines line.now number self.old.two self.new.two) }
        ensures finals { OnOk result (self.new.two.finals.now ≡ self.old.two.finals.now) }
        ensures part { OnOk result (self.new.two.printout.part ≡ self.old.two.printout.part) }
        ensures few { OnOk result (self.new.two.printout.flagged ≤ number) }
    {
        step_next(alloc, &mut self.scratch, &self.gather, line)?;
        self.gather.take(&mut self.scratch)?;
        self.two.add(number, line, self.scratch.items())?;
        self.scratch.clear_items();
        Ok(())
    }
}

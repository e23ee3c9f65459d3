//! A line of which something is told.
ghost use Rattle.std.specs.Prelude.{◌≡◌, ◌∷◌, ◌++◌, [], map, take, IfOk, OnOk};
ghost use Rattle.cps_cause.specs.Sentence.{IsSentence};
ghost use Rattle.cps_check.specs.Code.Adding.{Adds, excess_of};
ghost use Rattle.cps_check.specs.Reports.{flag_report, fault_report, note_report};
ghost use Rattle.cps_check.specs.Rows as rows;

use crate::heads::push_head;
use crate::limits::MOST_SHOWN;
use crate::notes::Note;
use crate::report_kind::ReportKind;
use crate::rows::{push_caret_row, push_line_row, push_statement_row};
use cps_cause::{Diagnostic, Places, Wording};
use cps_input::{CharacterFault, push_shown, shown_width};
use cps_text::limits::MOST_LINES;
use std::alloc::{AllocError, Global};

/// A line of which something is told.
#[derive(Clone, Copy)]
pub struct ToldLine<'a> {
    /// The name of the source.
    pub name: &'a [u8],
    /// The line's number, from 1.
    pub number: u32,
    pub line: &'a [u8],
}

impl ToldLine<'_> {
    /// Appends causes of flags.
    pub fn push_flags<P: Places>(
        &self,
        alloc: Global,
        places: &P,
        told: &[Diagnostic],
        text: &mut Vec<u8>,
    ) -> Result<(), AllocError>
        ensures { OnOk result (Adds self.now.name.now (map (flag_report self.now.number self.now.line.now) told.now)
            text.old.items text.new.items) }
    {
        for diagnostic in told {
            self.push_flag(alloc, places, diagnostic, text)?;
        }
        Ok(())
    }

    /// Appends a cause of a flag.
    pub fn push_flag<P: Places>(
        &self,
        alloc: Global,
        places: &P,
        told: &Diagnostic,
        text: &mut Vec<u8>,
    ) -> Result<(), AllocError>
        ensures { OnOk result (Adds self.now.name.now (flag_report self.now.number self.now.line.now told.now ∷ [])
            text.old.items text.new.items) }
    {
        let words = told.words(alloc, self.line, places)?;
        let letter = told.cause.letter();
        push_head(
            text,
            self.name,
            self.number,
            told.columns.first,
            ReportKind::Flag(letter),
        )?;
        text.extend_from_slice(words.as_slice())?;
        text.extend_from_slice(b"\n")?;
        push_flag_rows(text, self.number, self.line, told)?;
        Ok(())
    }

    /// Appends what is wrong in the line, if no source may have it.
    pub fn push_faults(
        &self,
        alloc: Global,
        faults: &[CharacterFault],
        text: &mut Vec<u8>,
    ) -> Result<(), AllocError>
        ensures { OnOk result (Adds self.now.name.now (map (fault_report self.now.number self.now.line.now) faults.now)
            text.old.items text.new.items) }
    {
        for fault in faults {
            self.push_fault(alloc, fault, text)?;
        }
        Ok(())
    }

    fn push_fault(
        &self,
        alloc: Global,
        fault: &CharacterFault,
        text: &mut Vec<u8>,
    ) -> Result<(), AllocError>
        ensures { OnOk result (Adds self.now.name.now (fault_report self.now.number self.now.line.now fault.now ∷ [])
            text.old.items text.new.items) }
    {
        let words = fault_words(alloc, self.line, fault)?;
        push_head(text, self.name, self.number, fault.first, ReportKind::Wrong)?;
        text.extend_from_slice(words.as_slice())?;
        text.extend_from_slice(b"\n")?;
        push_fault_rows(alloc, self.number, self.line, fault, text)?;
        Ok(())
    }

    /// Appends notes.
    pub fn push_notes(
        &self,
        alloc: Global,
        notes: &[Note],
        text: &mut Vec<u8>,
    ) -> Result<(), AllocError>
        ensures { OnOk result (Adds self.now.name.now (map (note_report self.now.number self.now.line.now) notes.now)
            text.old.items text.new.items) }
    {
        for note in notes {
            self.push_note(alloc, note, text)?;
        }
        Ok(())
    }

    fn push_note(&self, alloc: Global, note: &Note, text: &mut Vec<u8>) -> Result<(), AllocError>
        ensures { OnOk result (Adds self.now.name.now (note_report self.now.number self.now.line.now note.now ∷ [])
            text.old.items text.new.items) }
    {
        let words = note.remark.words(alloc)?;
        let first = note.columns.first;
        push_head(text, self.name, self.number, first, ReportKind::Note)?;
        text.extend_from_slice(words.as_slice())?;
        text.extend_from_slice(b"\n")?;
        push_note_rows(text, self.number, self.line, note)?;
        Ok(())
    }
}

/// The words that tell what is wrong in a line that no source may have.
fn fault_words(alloc: Global, line: &[u8], fault: &CharacterFault) -> Result<Wording, AllocError>
    ensures { IfOk result (λ words. IsSentence words) }
{
    let mut told = Vec::new(alloc);
    fault.push_words(line, &mut told)?;
    let mut words = Wording::new(alloc);
    words.push(&told)?;
    let from = fault.first.saturating_sub(1);
    with_dash(words, line.get(from..fault.last).unwrap_or(b""))
}

/// Words with what is meant behind them, if these bytes are a dash of UTF-8.
fn with_dash(words: Wording, bytes: &[u8]) -> Result<Wording, AllocError>
    requires { IsSentence words }
    ensures { IfOk result (λ more. IsSentence more) }
{
    if !is_dash(bytes) {
        return Ok(words);
    }
    let mut more = words;
    more.push(b", where a dash is -")?;
    Ok(more)
}

/// Whether bytes are a dash or a minus of UTF-8 that no line has.
fn is_dash(bytes: &[u8]) -> bool {
    matches!(
        bytes,
        [0xC2, 0xAD] | [0xE2, 0x80, 0x90..=0x95] | [0xE2, 0x88, 0x92]
    )
}

/// Appends the rows that show a cause of a flag.
fn push_flag_rows(
    text: &mut Vec<u8>,
    number: u32,
    line: &[u8],
    told: &Diagnostic,
) -> Result<(), AllocError>
    ensures { OnOk result (text.new.items ≡ text.old.items ++ rows.flag_rows number line.now told.now) }
{
    push_line_row(text, number, line)?;
    let before = told.columns.first.saturating_sub(1);
    push_caret_row(text, before, told.columns.last)?;
    push_statement_row(text, told.statement.as_slice(), told.times)
}

/// Appends the rows that show bad bytes.
fn push_fault_rows(
    alloc: Global,
    number: u32,
    line: &[u8],
    fault: &CharacterFault,
    text: &mut Vec<u8>,
) -> Result<(), AllocError>
    ensures { OnOk result (text.new.items ≡ text.old.items ++ rows.fault_rows number line.now fault.now) }
{
    let front = front_of(line, MOST_SHOWN);
    let mut shown = Vec::new(alloc);
    push_shown(front, &mut shown)?;
    push_line_row(text, number, &shown)?;
    let before = shown_width(front_of(front, fault.first.saturating_sub(1)));
    let last = shown_width(front_of(front, fault.last));
    push_caret_row(text, before, last)
}

/// Appends the rows that show a note.
fn push_note_rows(
    text: &mut Vec<u8>,
    number: u32,
    line: &[u8],
    note: &Note,
) -> Result<(), AllocError>
    ensures { OnOk result (text.new.items ≡ text.old.items ++ rows.note_rows number line.now note.now) }
{
    push_line_row(text, number, line)?;
    let before = note.columns.first.saturating_sub(1);
    push_caret_row(text, before, note.columns.last)
}

/// The first so many bytes of a line, as far as it has them.
fn front_of(line: &[u8], count: usize) -> &[u8]
    ensures { result.now ≡ take count line.now }
{
    &line[..count.min(line.len())]
}

/// Appends that so many lines are too many, where they are.
pub fn push_excess(text: &mut Vec<u8>, name: &[u8], count: usize) -> Result<(), AllocError>
    ensures { OnOk result (Adds name.now (excess_of count) text.old.items text.new.items) }
{
    if count <= MOST_LINES {
        return Ok(());
    }
    push_head(text, name, MOST_LINES as u32 + 1, 1, ReportKind::Wrong)?;
    text.extend_from_slice(
        b"a source has 99,999 lines at most; the lines from here on are not looked at",
    )?;
    text.extend_from_slice(b"\n")?;
    Ok(())
}

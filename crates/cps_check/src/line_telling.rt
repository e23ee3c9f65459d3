//! What is told of the lines of a source, one after another.
ghost use Rattle.std.specs.Prelude.{◌≡◌, ◌≤◌, [], true, length, map, IfOk};
ghost use Rattle.cps_final.specs.Finals.{finals_of};
ghost use Rattle.cps_input.specs.Card.{card_of, cards_of};
ghost use Rattle.cps_edit.specs.Assembly.{traces_of};
ghost use Rattle.cps_check.specs.Code.Adding.{AddsEnd};
ghost use Rattle.cps_check.specs.Code.Telling.{TellsLine, TellsLines};

use crate::known_places::KnownPlaces;
use crate::notes::{Note, notes_within};
use crate::told_line::ToldLine;
use cps_cause::{Card, Diagnostic, LinesAbove, Origin, explain, explain_end, opener_of};
use cps_expr::Radix;
use cps_final::{Finals, Gathered};
use cps_input::faults_of;
use cps_state::{Shared, Trace};
use cps_text::Line;
use cps_text::limits::MOST_LINES;
use std::alloc::{AllocError, Global};

/// A line of a source that is checked.
#[derive(Clone, Copy)]
pub struct CheckedLine<'a> {
    /// From 1.
    pub number: u32,
    pub line: &'a [u8],
    /// What stands for it.
    pub card: &'a Line,
    /// What that does in pass one.
    pub trace: &'a Trace,
}

/// The telling of a source: its name, whether notes are left out, and its final values.
#[derive(Clone, Copy)]
pub struct LineTelling<'a> {
    pub alloc: Global,
    pub name: &'a [u8],
    pub errors_only: bool,
    pub finals: &'a Finals,
}

impl LineTelling<'_> {
    /// Appends what is told of lines for which cards stand that do this, and gives whether an error is.
    pub fn tell_lines(
        &self,
        lines: &[&[u8]],
        cards: &[Line],
        traces: &[Trace],
        text: &mut Vec<u8>,
    ) -> Result<bool, AllocError>
        requires cards { cards.now ≡ cards_of (map (λ line. line.now) lines.now) }
        requires traces { traces.now ≡ traces_of cards.now }
        ensures { IfOk result (λ is_wrong. TellsLines self.now lines.now traces.now is_wrong text.old.items text.new.items) }
    {
        let mut places = KnownPlaces::of(self.alloc, self.finals.hashing(), cards, traces)?;
        let mut is_wrong = false;
        for (at, trace) in traces.iter().enumerate() {
            let line = CheckedLine {
                number: at as u32 + 1,
                line: lines[at],
                card: &cards[at],
                trace,
            };
            let is_wrong_here = self.tell_line(&line, &mut places, text)?;
            is_wrong = is_wrong | is_wrong_here;
            places.pass(line.number, trace)?;
        }
        Ok(is_wrong)
    }

    /// Appends what is told of a line, and gives whether an error is.
    fn tell_line(
        &self,
        line: &CheckedLine<'_>,
        places: &mut KnownPlaces<'_>,
        text: &mut Vec<u8>,
    ) -> Result<bool, AllocError>
        requires { line.now.card.now ≡ card_of line.now.line.now }
        ensures { IfOk result (λ is_wrong. TellsLine self.now line.now is_wrong text.old.items text.new.items) }
    {
        let told = ToldLine {
            name: self.name,
            number: line.number,
            line: line.line,
        };
        let faults = faults_of(self.alloc, line.line, line.number)?;
        let found = faults.as_slice();
        if found.is_empty() {
            let causes = explain(self.alloc, line.card, line.trace, self.finals)?;
            told.push_flags(self.alloc, places, &causes, text)?;
            let notes = self.notes_of(line, places)?;
            told.push_notes(self.alloc, &notes, text)?;
            return Ok(!causes.is_empty());
        }
        told.push_faults(self.alloc, found, text)?;
        Ok(true)
    }

    /// The notes of a line that are told: none where errors alone are asked for.
    fn notes_of(
        &self,
        line: &CheckedLine<'_>,
        places: &mut KnownPlaces<'_>,
    ) -> Result<Vec<Note>, AllocError>
        ensures { IfOk result (λ notes. self.now.errors_only ≡ true → notes.items ≡ []) }
    {
        if self.errors_only {
            return Ok(Vec::new(self.alloc));
        }
        let notes = notes_within(self.alloc, &Card::of(line.line), line.trace)?;
        places.borne_out(self.alloc, line.number, &notes)
    }

    /// Appends what is told where a source ends for which these cards stand, in the line that opened what is open there, and gives whether something is.
    pub fn tell_end(
        &self,
        cards: &[Line],
        traces: &[Trace],
        text: &mut Vec<u8>,
    ) -> Result<bool, AllocError>
        requires few { length cards.now ≤ MOST_LINES }
        requires traces { traces.now ≡ traces_of cards.now }
        requires finals { ⟦<Finals as Gathered>⟧.gathered self.now.finals.now ≡ finals_of traces.now }
        ensures { IfOk result (λ is_wrong.
            AddsEnd self.now.errors_only self.now.name.now cards.now is_wrong text.old.items text.new.items) }
    {
        let Some(cause) = explain_end(self.finals)? else {
            return Ok(false);
        };
        let Some(above) = opener_of(traces) else {
            unreachable!();
        };
        let line = cards[above].bytes();
        let told = ToldLine {
            name: self.name,
            number: above as u32 + 1,
            line,
        };
        let columns = Card::of(line).operation_or_all().within(line.len());
        let end = Diagnostic {
            columns,
            cause,
            within: columns,
            statement: Shared::empty(),
            origin: Origin::Line,
            base: Radix::Decimal,
            times: 1,
        };
        told.push_flag(self.alloc, &LinesAbove { traces }, &end, text)?;
        Ok(true)
    }
}

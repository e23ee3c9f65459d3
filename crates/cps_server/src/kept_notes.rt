//! The notes of a source, kept line by line.

use crate::changed_names::ChangedNames;
use crate::document::Document;
use crate::idle_lines::{IdleLines, find_runs};
use crate::noted_line::NotedLine;
use crate::readers::Readers;
use crate::touched_lines::TouchedLines;
use cps_check::{Note, Remark};
use cps_final::LineSymbols;
use cps_list::View;
use std::alloc::{AllocError, Global};
use std::mem;

/// The most notes that are told. All are sent again with each key.
const MOST_NOTED: usize = 100;

/// The notes of a source, and its lines that nothing assembles, with what they rest on of each line. A change makes anew what it touches; only where others may
/// be told then are the first ones looked for again.
pub struct KeptNotes {
    alloc: Global,
    /// Of each line of the source, in their order.
    lines: Vec<NotedLine>,
    readers: Readers,
    /// Room for the symbols of a line.
    symbols: LineSymbols,
    /// Whether nothing ends the program, and nothing is open behind all.
    lacks_end: bool,
    /// Whether what is told is to be looked for again.
    is_stale: bool,
    /// The first 1,000 runs of lines that nothing assembles.
    runs: Vec<IdleLines>,
    /// Where the first 100 notes stand; that of the program's end behind them.
    told: Vec<NotePlace>,
    /// Whether the last of these is that of the program's end.
    tells_end: bool,
}

/// A note of a line, from 0, by its place among those of the line.
#[derive(Clone, Copy)]
pub struct NotePlace {
    pub line: u32,
    pub at: usize,
}

// Written out, so that it is proved once.
impl Drop for KeptNotes {
    fn drop(self) {
        let KeptNotes {
            alloc: _,
            lines,
            readers,
            symbols,
            lacks_end: _,
            is_stale: _,
            runs,
            told,
            tells_end: _,
        } = self;
        drop(lines);
        drop(readers);
        drop(symbols);
        drop(runs);
        drop(told);
    }
}

impl KeptNotes {
    /// Those of a document.
    pub fn of(alloc: Global, document: &Document) -> Result<KeptNotes, AllocError> {
        let session = document.session();
        let hashing = session.finals().hashing();
        let mut notes = KeptNotes {
            alloc,
            lines: Vec::new(alloc),
            readers: Readers::new(alloc, hashing),
            symbols: LineSymbols::new(alloc, hashing),
            lacks_end: false,
            is_stale: true,
            runs: Vec::new(alloc),
            told: Vec::new(alloc),
            tells_end: false,
        };
        for number in 0..session.count() {
            let line = NotedLine::of(alloc, document, number, &mut notes.symbols)?;
            notes.readers.add(&line)?;
            notes.lines.push(line)?;
        }
        notes.find_told(document)?;
        Ok(notes)
    }

    /// Behind a change of the document. Gives the names that stand for something now and didn't before, or the other way round.
    pub fn change(
        &mut self,
        document: &Document,
        touched: &TouchedLines,
    ) -> Result<ChangedNames, AllocError> {
        let mut changed = ChangedNames::new(self.alloc);
        if touched.keeps_numbers() {
            for place in touched.first..touched.end {
                self.renew(document, place, &mut changed)?;
            }
        } else {
            self.put_lines(document, touched, &mut changed)?;
        }
        for place in &touched.redone.places {
            self.renew(document, *place, &mut changed)?;
        }
        if self.is_stale || self.lacks_end != self.finds_no_end(document) {
            self.find_told(document)?;
        }
        Ok(changed)
    }

    /// Runs of lines that nothing assembles, from the first on.
    pub fn runs(&self) -> &[IdleLines] {
        &self.runs
    }

    /// Where the first notes stand, with that of the program's end or without it.
    pub fn told(&self, with_end: bool) -> &[NotePlace] {
        let count = self.told.len();
        if self.tells_end && !with_end {
            &self.told[..count.saturating_sub(1)]
        } else {
            &self.told
        }
    }

    /// The note at a place.
    pub fn note(&self, place: NotePlace) -> Option<Note> {
        let line = self.lines.get(place.line as usize)?;
        line.notes.get(place.at).copied()
    }

    // ---- a change

    /// Puts lines that came in the place of those that gave way.
    fn put_lines(
        &mut self,
        document: &Document,
        touched: &TouchedLines,
        changed: &mut ChangedNames,
    ) -> Result<(), AllocError> {
        let mut come = Vec::new(self.alloc);
        let mut defined = Vec::new(self.alloc);
        for at in 0..touched.count {
            let number = u32::try_from(touched.first.saturating_add(at)).unwrap_or(u32::MAX);
            let line = NotedLine::of(self.alloc, document, number, &mut self.symbols)?;
            self.readers.add(&line)?;
            defined.extend_from_slice(&line.defines)?;
            come.push(line)?;
        }
        let end = touched.end.min(self.lines.len());
        let gone = self.lines.splice(touched.first.min(end)..end, come)?;
        let mut left = Vec::new(self.alloc);
        for line in gone {
            self.readers.remove(&line)?;
            left.extend_from_slice(&line.defines)?;
        }
        changed.add(&left, &defined)?;
        self.is_stale = true;
        Ok(())
    }

    /// Makes anew what is noted of a line, if there is such a line. A symbol without a value is in no note, whoever reads it.
    fn renew(
        &mut self,
        document: &Document,
        place: usize,
        changed: &mut ChangedNames,
    ) -> Result<(), AllocError> {
        if place >= self.lines.len() {
            return Ok(());
        }
        let number = u32::try_from(place).unwrap_or(u32::MAX);
        let line = NotedLine::of(self.alloc, document, number, &mut self.symbols)?;
        if line.is_as(&self.lines[place]) {
            return Ok(());
        }
        let finals = document.session().finals();
        changed.add(&self.lines[place].defines, &line.defines)?;
        let tells_other = !line.tells_as(&self.lines[place]);
        let gains = self.readers.gain_by(&line, finals);
        self.readers.add(&line)?;
        let gone = mem::replace(&mut self.lines[place], line);
        let loses = self.readers.lose_by(&gone, finals);
        self.readers.remove(&gone)?;
        self.is_stale = self.is_stale || tells_other || gains || loses;
        Ok(())
    }

    // ---- what is told

    /// Whether nothing ends the program, and nothing is open behind all.
    fn finds_no_end(&self, document: &Document) -> bool {
        !self.readers.has_end() && !document.session().finals().is_open_at_end()
    }

    /// Looks for what is told.
    fn find_told(&mut self, document: &Document) -> Result<(), AllocError> {
        self.lacks_end = self.finds_no_end(document);
        self.runs = find_runs(self.alloc, &self.lines)?;
        let mut told = Vec::new(self.alloc);
        let mut end = None;
        let mut number: u32 = 0;
        for line in &self.lines {
            if !line.notes.is_empty() {
                self.push_told(number, &line.notes, &mut told)?;
                end = first_end(end, number, &line.notes);
            }
            number = number.saturating_add(1);
        }
        self.tells_end = end.is_some();
        if let Some(place) = end {
            told.push(place)?;
        }
        self.told = told;
        self.is_stale = false;
        Ok(())
    }

    /// Appends where the notes of a line stand that are told, while there is room.
    fn push_told(
        &self,
        line: u32,
        notes: &[Note],
        told: &mut Vec<NotePlace>,
    ) -> Result<(), AllocError> {
        for (at, note) in notes.iter().enumerate() {
            if told.len() < MOST_NOTED && self.bears_out(note.remark) {
                told.push(NotePlace { line, at })?;
            }
        }
        Ok(())
    }

    /// Whether a note is told, but for that of the program's end.
    fn bears_out(&self, remark: Remark) -> bool {
        match remark {
            Remark::BehindEnd => false,
            Remark::NoEnd => self.lacks_end,
            Remark::Unread(name) => !self.readers.reads(name),
            _ => true,
        }
    }
}

/// Where the first note stands of the program's end: there, or else in a line.
fn first_end(found: Option<NotePlace>, line: u32, notes: &[Note]) -> Option<NotePlace> {
    if found.is_some() {
        return found;
    }
    let at = notes
        .iter()
        .position(|note| note.remark == Remark::BehindEnd)?;
    Some(NotePlace { line, at })
}

//! A document whose marks are kept.
ghost use Rattle.std.specs.Prelude.{◌≡◌, ◌-◌, ◌<◌, ◌≤◌, length, slice_set, vec_len, IfOk, OnOk};
ghost use Rattle.std.specs.List.{splice};
ghost use Rattle.cps_rpc.specs.Changes.{changed};
ghost use Rattle.cps_server.specs.Document.{source_of_text};
ghost use Rattle.cps_server.specs.Code.Keeping.{AreKept, AreKeptBut, AreLeft, IsRenewed, KeepsFrom};

use crate::document::Document;
use crate::kept_notes::KeptNotes;
use crate::line_marks::{ChangedWords, LineMarks};
use crate::touched_lines::TouchedLines;
use cps_rpc::{Encoding, Range};
use cps_state::Hashing;
use std::alloc::{AllocError, Global};
use std::marker::Model;

/// A document that an editor has open, with the marks of each line of its source, and its notes. A change makes those anew that it may have changed.
pub struct MarkedDocument {
    alloc: Global,
    document: Document,
    /// Those of each line of the source, in their order.
    kept: Vec<LineMarks>,
    notes: KeptNotes,
}

// Written out, as that of the document.
impl Drop for MarkedDocument {
    fn drop(self) {
        let MarkedDocument {
            alloc: _,
            document,
            kept,
            notes,
        } = self;
        drop(document);
        drop(kept);
        drop(notes);
    }
}

impl Model for MarkedDocument {
    ghost use Rattle.std.specs.Prelude.{List, ℕ};
    ghost use Rattle.cps_server.specs.Code.Keeping.{AreKept};

    ghost Value = { List ℕ };

    ghost view = { λ marked. marked.document };

    ghost invariant = { λ marked. AreKept marked.document marked.kept.items };
}

impl MarkedDocument {
    /// The document of a text, and all its marks. Both passes are made of each of its lines, once.
    pub fn open(alloc: Global, hashing: Hashing, text: &[u8]) -> Result<MarkedDocument, AllocError>
        ensures { IfOk result (λ document. document ≡ text.now) }
    {
        let document = Document::open(alloc, hashing, text)?;
        MarkedDocument::of(alloc, document)
    }

    /// The document with new text in the place of a range, or, where no range is told, of all of its text. Marks are made of the lines that came, of those that
    /// the session made anew, and of those whose words may tell what is another one elsewhere. An error: there was no memory, and the document is gone.
    pub fn change(
        self,
        encoding: Encoding,
        range: Option<Range>,
        new: &[u8],
    ) -> Result<MarkedDocument, AllocError>
        ensures { IfOk result (λ document. document ≡ changed encoding self range new.now) }
    {
        let MarkedDocument {
            alloc,
            document,
            kept,
            mut notes,
        } = self;
        let (document, touched) = document.change(encoding, range, new)?;
        let Some(touched) = touched else {
            drop(kept);
            drop(notes);
            return MarkedDocument::of(alloc, document);
        };
        let names = notes.change(&document, &touched)?;
        let changed = ChangedWords {
            names,
            numbers: !touched.puts_stand || !touched.keeps_numbers(),
        };
        let kept = renewed(alloc, &document, kept, touched, &changed)?;
        Ok(MarkedDocument {
            alloc,
            document,
            kept,
            notes,
        })
    }

    /// The document.
    pub fn document(&self) -> &Document
        ensures { result.now ≡ self.now }
    {
        &self.document
    }

    /// The marks of each line of its source, in their order.
    pub fn marks(&self) -> &[LineMarks]
        ensures { AreKept self.now result.now }
    {
        &self.kept
    }

    /// Its notes, and its lines that nothing assembles.
    pub fn notes(&self) -> &KeptNotes {
        &self.notes
    }

    /// A document, with all its marks.
    fn of(alloc: Global, document: Document) -> Result<MarkedDocument, AllocError>
        ensures { IfOk result (λ marked. marked ≡ document) }
    {
        let count = document.session().count() as usize;
        let kept = marks_between(alloc, &document, 0, count)?;
        let notes = KeptNotes::of(alloc, &document)?;
        Ok(MarkedDocument {
            alloc,
            document,
            kept,
            notes,
        })
    }
}

/// The marks of the lines of a changed document, from those that were kept before the change.
fn renewed(
    alloc: Global,
    document: &Document,
    kept: Vec<LineMarks>,
    touched: TouchedLines,
    changed: &ChangedWords,
) -> Result<Vec<LineMarks>, AllocError>
    requires { AreLeft document.now kept.items touched }
    ensures { IfOk result (λ now. AreKept document.now now.items) }
{
    let mut kept = kept;
    put_marks(alloc, document, &mut kept, &touched)?;
    renew_lines(alloc, document, &mut kept, &touched.redone.places)?;
    if changed.are_none() {
        return Ok(kept);
    }
    renew_words(alloc, document, &mut kept, changed)?;
    Ok(kept)
}

/// Puts the marks of the lines that came in the place of those of lines that gave way.
fn put_marks(
    alloc: Global,
    document: &Document,
    kept: &mut Vec<LineMarks>,
    touched: &TouchedLines,
) -> Result<(), AllocError>
    requires { AreLeft document.now kept.old.items touched.now }
    ensures { OnOk result (AreKeptBut document.now touched.now.redone.places.items kept.new.items) }
{
    let end = touched.first + touched.count;
    let come = marks_between(alloc, document, touched.first, end)?;
    put_between(kept, touched.first, touched.end, come)
}

/// Puts the marks of lines in the place of those of others. The ones behind them are moved once.
fn put_between(
    kept: &mut Vec<LineMarks>,
    first: usize,
    end: usize,
    come: Vec<LineMarks>,
) -> Result<(), AllocError>
    requires ordered { first ≤ end }
    requires within { end ≤ vec_len kept.old }
    ensures { OnOk result (kept.new.items ≡ splice kept.old.items first end come.items) }
{
    drop(kept.splice(first..end, come)?);
    Ok(())
}

/// The marks of the lines of a document from one up to another, from 0.
fn marks_between(
    alloc: Global,
    document: &Document,
    first: usize,
    end: usize,
) -> Result<Vec<LineMarks>, AllocError>
    requires ordered { first ≤ end }
    requires within { end ≤ length (source_of_text document.now) }
    ensures count { IfOk result (λ lines. length lines.items ≡ end - first) }
    ensures each { IfOk result (λ lines. KeepsFrom document.now first lines.items) }
{
    let mut lines = Vec::new(alloc);
    for number in first..end {
        lines.push(LineMarks::of(alloc, document, number)?)?;
    }
    Ok(lines)
}

/// Makes the marks of lines anew.
fn renew_lines(
    alloc: Global,
    document: &Document,
    kept: &mut Vec<LineMarks>,
    places: &[usize],
) -> Result<(), AllocError>
    requires { AreKeptBut document.now places.now kept.old.items }
    ensures { OnOk result (AreKept document.now kept.new.items) }
{
    for place in places {
        renew(alloc, document, kept, *place)?;
    }
    Ok(())
}

/// Makes the marks of all lines anew whose words may tell what a change changed.
fn renew_words(
    alloc: Global,
    document: &Document,
    kept: &mut Vec<LineMarks>,
    changed: &ChangedWords,
) -> Result<(), AllocError>
    requires { AreKept document.now kept.old.items }
    ensures { OnOk result (AreKept document.now kept.new.items) }
{
    for place in 0..kept.len() {
        renew_if_resting(alloc, document, kept, place, changed)?;
    }
    Ok(())
}

/// Makes the marks of a line anew if their words may tell what a change changed.
fn renew_if_resting(
    alloc: Global,
    document: &Document,
    kept: &mut Vec<LineMarks>,
    place: usize,
    changed: &ChangedWords,
) -> Result<(), AllocError>
    requires there { place < vec_len kept.old }
    requires right { AreKept document.now kept.old.items }
    ensures { OnOk result (AreKept document.now kept.new.items) }
{
    if !kept[place].rest_on(changed) {
        return Ok(());
    }
    renew(alloc, document, kept, place)
}

/// Makes the marks of a line anew, if there is such a line.
fn renew(
    alloc: Global,
    document: &Document,
    kept: &mut Vec<LineMarks>,
    place: usize,
) -> Result<(), AllocError>
    requires { length kept.old.items ≡ length (source_of_text document.now) }
    ensures { OnOk result (IsRenewed document.now place kept.old.items kept.new.items) }
{
    if place >= kept.len() {
        return Ok(());
    }
    let line = LineMarks::of(alloc, document, place)?;
    set_line(kept, place, line);
    Ok(())
}

/// Puts the marks of a line in the place of those that it had.
fn set_line(kept: &mut Vec<LineMarks>, place: usize, line: LineMarks)
    requires { place < vec_len kept.old }
    ensures { kept.new.items ≡ slice_set kept.old.items place line }
{
    kept[place] = line;
}

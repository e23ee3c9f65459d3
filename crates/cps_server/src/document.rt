//! A document that an editor has open.
ghost use Rattle.std.specs.Prelude.{◌≡◌, ◌<◌, ◌≤◌, length, map, slice_get, Some, IfOk, IfSome, OnOk};
ghost use Rattle.std.specs.List.{splice};
ghost use Rattle.cps_edit.specs.Splice.{splice_at};
ghost use Rattle.cps_live.specs.Edits.{HaveRedone};
ghost use Rattle.cps_text.specs.declared.limits.TheConstants.{MOST_LINES};
ghost use Rattle.cps_rpc.specs.Changes.{changed};
ghost use Rattle.cps_rpc.specs.Lines.{text_lines, source_lines};
ghost use Rattle.cps_server.specs.Code.Keeping.{AreTouched, IsTold};
ghost use Rattle.cps_server.specs.Code.Renaming.{edits_of};
ghost use Rattle.cps_server.specs.Document.{source_of_text};
ghost use Rattle.cps_server.specs.Renames.{edited};

use crate::cards::cards_from;
use crate::text_edit::TextEdit;
use crate::touched_lines::TouchedLines;
use cps_live::{EditFault, Redone, Session};
use cps_rpc::{Buffer, Encoding, Range, Replacement, source_is_replaced};
use cps_state::{Hashing, Put, Work};
use cps_text::Line;
use cps_text::limits::MOST_LINES;
use std::alloc::{AllocError, Global};
use std::marker::Model;

/// A document that an editor has open: its text, and the session over the cards of its lines.
pub struct Document {
    alloc: Global,
    hashing: Hashing,
    buffer: Buffer,
    session: Session,
}

// Written out, as that of the session.
impl Drop for Document {
    fn drop(self) {
        let Document {
            alloc: _,
            hashing: _,
            buffer,
            session,
        } = self;
        drop(buffer);
        drop(session);
    }
}

impl Model for Document {
    ghost use Rattle.std.specs.Prelude.{List, ℕ, ◌≡◌};
    ghost use Rattle.cps_server.specs.Document.{source_of_text};

    ghost Value = { List ℕ };

    ghost view = { λ document. document.buffer };

    ghost invariant = { λ document. document.session.lines ≡ source_of_text document.buffer };
}

impl Document {
    /// The document of a text. Both passes are made of each of its lines, once.
    pub fn open(alloc: Global, hashing: Hashing, text: &[u8]) -> Result<Document, AllocError>
        ensures { IfOk result (λ document. document ≡ text.now) }
    {
        let buffer = Buffer::of(alloc, text)?;
        Document::of(alloc, hashing, buffer)
    }

    /// The document with new text in the place of a range, or, where no range is told, of all of its text, and which lines of its source that touched. The lines
    /// that gave way are put anew by one edit of the session; where the source has more than 99,999 lines, before or after, the document is opened anew, and no
    /// more is told. An error: there was no memory, and the document is gone.
    pub fn change(
        self,
        encoding: Encoding,
        range: Option<Range>,
        new: &[u8],
    ) -> Result<(Document, Option<TouchedLines>), AllocError>
        ensures text { IfOk result (λ now. now.0 ≡ changed encoding self range new.now) }
        ensures lines { IfOk result (λ now. IfSome now.1 (AreTouched self now.0)) }
    {
        let Document {
            alloc,
            hashing,
            mut buffer,
            session,
        } = self;
        source_is_replaced();
        let old_len = buffer.source_len();
        let Replacement { first, end, count } = buffer.change(encoding, range, new)?;
        if old_len > MOST_LINES || buffer.source_len() > MOST_LINES {
            drop(session);
            let document = Document::of(alloc, hashing, buffer)?;
            return Ok((document, None));
        }
        let cards = cards_from(alloc, &buffer, first, count)?;
        let (session, touched) = put_cards(alloc, session, first, end.min(old_len), cards)?;
        let document = Document {
            alloc,
            hashing,
            buffer,
            session,
        };
        Ok((document, Some(touched)))
    }

    /// The document of the text with edits, one after another. It is assembled once.
    pub fn with_edits(
        &self,
        encoding: Encoding,
        edits: &[TextEdit<'_>],
    ) -> Result<Document, AllocError>
        ensures { IfOk result (λ document. document ≡ edited encoding (edits_of edits.now) self.now) }
    {
        let mut buffer = self.buffer.copy()?;
        for edit in edits {
            buffer.change(encoding, Some(edit.range()), edit.text.as_bytes())?;
        }
        Document::of(self.alloc, self.hashing, buffer)
    }

    /// The lines of the text, without their newlines. The last is what stands behind the last newline, so there is one at least.
    pub fn lines(&self) -> &[Vec<u8>]
        ensures { map (λ line. line.items) result.now ≡ text_lines self.now }
    {
        self.buffer.lines()
    }

    /// How many lines batch assembly reads of the text: as many as the text has, but the last one counts only if it has a byte. Of these the first 99,999 are
    /// assembled.
    pub fn source_len(&self) -> usize
        ensures { result ≡ length (source_lines self.now) }
    {
        self.buffer.source_len()
    }

    /// A line that batch assembly reads of the text, from 0: one of the text without the carriage return at its end.
    pub fn source_line(&self, at: usize) -> &[u8]
        requires { at < length (source_lines self.now) }
        ensures { slice_get (source_lines self.now) at ≡ Some result.now }
    {
        self.buffer.source_line(at)
    }

    /// The session over the source that the text stands for.
    pub fn session(&self) -> &Session
        ensures { result.now.lines ≡ source_of_text self.now }
    {
        &self.session
    }

    /// The document of a text that is kept as its lines.
    fn of(alloc: Global, hashing: Hashing, buffer: Buffer) -> Result<Document, AllocError>
        ensures { IfOk result (λ document. document ≡ buffer) }
    {
        let cards = cards_from(alloc, &buffer, 0, MOST_LINES)?;
        let session = Session::enter(alloc, hashing, cards, &mut Work::new())?;
        Ok(Document {
            alloc,
            hashing,
            buffer,
            session,
        })
    }
}

/// Puts cards in the place of those of a source from `first` up to `end`, from 0, and tells which lines that touched.
fn put_cards(
    alloc: Global,
    session: Session,
    first: usize,
    end: usize,
    cards: Vec<Line>,
) -> Result<(Session, TouchedLines), AllocError>
    requires ordered { first ≤ end }
    requires within { end ≤ length session.lines }
    requires few { length session.lines ≤ MOST_LINES }
    requires still_few { length (splice session.lines first end cards.items) ≤ MOST_LINES }
    ensures lines { IfOk result (λ put. put.0.lines ≡ splice session.lines first end cards.items) }
    ensures touched { IfOk result (λ put. IsTold session.lines first end cards.items put.0.lines put.1) }
{
    let count = cards.len();
    let had = puts_between(alloc, &session, first, end)?;
    let mut session = session;
    let redone = put_lines(alloc, &mut session, first, end, cards)?;
    let has = puts_between(alloc, &session, first, first + count)?;
    let puts_stand = had == has;
    let touched = TouchedLines {
        first,
        end,
        count,
        redone,
        puts_stand,
    };
    Ok((session, touched))
}

/// Puts cards in the place of those of a source from `first` up to `end`, from 0. Gives which others were made anew.
fn put_lines(
    alloc: Global,
    session: &mut Session,
    first: usize,
    end: usize,
    cards: Vec<Line>,
) -> Result<Redone, AllocError>
    requires ordered { first ≤ end }
    requires within { end ≤ length session.old.lines }
    requires few { length session.old.lines ≤ MOST_LINES }
    requires still_few { length (splice session.old.lines first end cards.items) ≤ MOST_LINES }
    ensures lines { OnOk result (session.new.lines ≡ splice session.old.lines first end cards.items) }
    ensures redone { IfOk result (λ redone. HaveRedone session.old (splice_at first end cards.items) session.new redone) }
{
    if first == end && cards.is_empty() {
        let places = Vec::new(alloc);
        return Ok(Redone { places });
    }
    match session.put(first as u32 + 1, end as u32, cards, &mut Work::new()) {
        Ok(redone) => Ok(redone),
        Err(EditFault::Memory) => Err(AllocError),
        Err(EditFault::NoSuchLine) => unreachable!(),
        Err(EditFault::TooManyLines) => unreachable!(),
    }
}

/// What a line puts in pass one, and how many lines stand above it.
#[derive(PartialEq, Drop)]
struct LinePut {
    above: usize,
    put: Put,
}

/// What the lines of a source from one up to another, from 0, put in pass one.
fn puts_between(
    alloc: Global,
    session: &Session,
    first: usize,
    end: usize,
) -> Result<Vec<LinePut>, AllocError> {
    let traces = session.traces();
    let end = end.min(traces.len());
    let mut puts = Vec::new(alloc);
    for (above, trace) in traces[first.min(end)..end].iter().enumerate() {
        for put in trace.puts() {
            let answer = put.answer.share()?;
            let put = Put {
                key: put.key,
                answer,
            };
            puts.push(LinePut { above, put })?;
        }
    }
    Ok(puts)
}

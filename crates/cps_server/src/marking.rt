//! The marks of a text.
ghost use Rattle.std.specs.Prelude.{[], length, IfOk, OnOk};
ghost use Rattle.cps_server.specs.Document.{source_of_text};
ghost use Rattle.cps_server.specs.Code.Adding.{excess_of};
ghost use Rattle.cps_server.specs.Code.Listing.{Lists, ListsEnd, ListsLines, ListsMarks, ListsMore};

use crate::document::Document;
use crate::first_marks::FirstMarks;
use crate::lead::Lead;
use crate::line_marks::unindented;
use crate::mark::Mark;
use crate::mark_kind::MarkKind;
use crate::marked_document::MarkedDocument;
use cps_cause::{Columns, Origin, Places, Quotation, explain_end, line_of_opener};
use cps_list::View;
use cps_text::Name;
use cps_text::limits::MOST_LINES;
use std::alloc::{AllocError, Global};

/// The marks of a document's text, line by line: each flag with its cause, and each byte that no line may have. The first 99,999 lines are looked at. It
/// takes time for each of them, and memory for the marks that are told.
pub fn marks_of(alloc: Global, marked: &MarkedDocument) -> Result<FirstMarks, AllocError>
    ensures { IfOk result (ListsMarks marked.now) }
{
    let document = marked.document();
    let mut marks = FirstMarks::new(alloc);
    push_lines(marked, &mut marks)?;
    push_excess(alloc, document.source_len(), &mut marks)?;
    push_end(alloc, document, &mut marks)?;
    Ok(marks)
}

/// Adds the marks of the lines of a document that are looked at, to none.
fn push_lines(marked: &MarkedDocument, marks: &mut FirstMarks) -> Result<(), AllocError>
    requires { Lists [] marks.old }
    ensures { OnOk result (ListsLines marked.now (length (source_of_text marked.now)) marks.new) }
{
    let document = marked.document();
    let kept = marked.marks();
    for number in 0..document.session().count() {
        marks.push_line(number, &kept[number as usize])?;
    }
    Ok(())
}

/// Adds the mark of the first line that is too many, where a text has so many lines.
fn push_excess(alloc: Global, count: usize, marks: &mut FirstMarks) -> Result<(), AllocError>
    ensures { OnOk result (ListsMore (excess_of count) marks.old marks.new) }
{
    if count <= MOST_LINES {
        return Ok(());
    }
    let mut message = Vec::new(alloc);
    message.extend_from_slice(
        b"a source has 99,999 lines at most; the lines from here on are not looked at",
    )?;
    marks.push(Mark {
        line: MOST_LINES as u32,
        columns: Columns { first: 1, last: 1 },
        kind: MarkKind::Wrong,
        lead: Lead::Nowhere,
        message,
    })?;
    Ok(())
}

/// Adds the mark of what is open where a document's source ends, in its last line. It names the line that opened it.
fn push_end(alloc: Global, document: &Document, marks: &mut FirstMarks) -> Result<(), AllocError>
    ensures { OnOk result (ListsEnd (source_of_text document.now) marks.old marks.new) }
{
    let session = document.session();
    let Some(cause) = explain_end(session.finals())? else {
        return Ok(());
    };
    let count = session.count();
    let line = card_at(document, count);
    let width = unindented(line).len();
    let columns = Columns::behind(line.len().saturating_sub(width), width).within(line.len());
    let opener = line_of_opener(session.traces());
    let above = KnownOpener { line: opener };
    let words = cause.words(alloc, Quotation::of(line, columns), &above)?;
    let letter = cause.letter();
    let last = count.saturating_sub(1);
    marks.push(Mark {
        line: last,
        columns,
        kind: MarkKind::Flag(letter),
        lead: lead_from(last, opener),
        message: words.into_bytes(),
    })?;
    Ok(())
}

/// The card of a line, whose number counts from 1; no bytes where there is none.
fn card_at(document: &Document, number: u32) -> &[u8] {
    match document.session().line(number) {
        Some(card) => card.bytes(),
        None => &[],
    }
}

/// Which line opened what is open, from 1.
#[derive(Clone, Copy)]
struct KnownOpener {
    line: Option<u32>,
}

impl Places for KnownOpener {
    fn line_of_symbol(&self, _name: Name) -> Option<u32> {
        None
    }

    fn line_of_opening(&self) -> Option<u32> {
        self.line
    }

    fn line_of_end(&self) -> Option<u32> {
        None
    }

    fn line_of_body(&self) -> Option<u32> {
        None
    }

    fn line_of_origin(&self, _origin: Origin) -> Option<u32> {
        None
    }
}

/// From a line, from 0, to one that opened what is open behind it, from 1.
fn lead_from(line: u32, opener: Option<u32>) -> Lead {
    match opener {
        Some(opener) => Lead::Opener(line.saturating_add(1).saturating_sub(opener)),
        None => Lead::Nowhere,
    }
}

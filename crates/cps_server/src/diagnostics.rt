//! The diagnostics of a text, and how an editor is told them.
ghost use Rattle.std.specs.Prelude.{◌≡◌, true, [], ◌++◌, All, length, map, IfOk, IfSome, OnOk, None};
ghost use Rattle.std.specs.String.{string_bytes};
ghost use Rattle.cps_rpc.specs.Lines.{source_lines};
ghost use Rattle.cps_rpc.specs.Frame.{frame_of};
ghost use Rattle.cps_server.specs.Marks.{place_of};
ghost use Rattle.cps_server.specs.Diagnostics.{more_message, published};
ghost use Rattle.cps_server.specs.Frames.{frame_of_json};
ghost use Rattle.cps_server.specs.Document.{source_of_text};
ghost use Rattle.cps_server.specs.Code.Writing.{AddsBeside, AddsIdle, IsIdleAmong, IsOther, ListsText, MarkAdded, MarksAdded, counted_text, document_text, listener_of, published_text};

use crate::diagnostic::{
    Relation, Report, Stretch, push_diagnostic, push_information, push_unnecessary,
};
use crate::first_marks::MOST_TOLD;
use crate::idle_lines::{IdleLines, runs_among};
use crate::kept_notes::KeptNotes;
use crate::lead::Lead;
use crate::leads::lines_led_to;
use crate::mark::Mark;
use crate::marked_document::MarkedDocument;
use crate::marking::marks_of;
use crate::mentions::line_of;
use crate::queried_text::QueriedText;
use crate::told_notes::push_all_notes;
use crate::writing::{push_comma, push_string, push_version};
use cps_cause::filled_len;
use cps_list::{View, push_decimal};
use cps_rpc::{Client, Encoding, push_frame, units_before};
use std::alloc::{AllocError, Global};
use std::str;

/// About how many bytes a diagnostic takes.
const MEAN_LEN: usize = 224;

/// How many bytes stand beside a list and a URI at most, if the URI has no byte that is escaped.
const FRONT_LEN: usize = 160;

/// A text of which an editor is told.
#[derive(Clone, Copy)]
pub struct ToldText<'a> {
    /// The URI of its document.
    pub uri: &'a str,
    /// The document's version, if it is known.
    pub version: Option<i64>,
}

/// Marks that aren't told one by one.
#[derive(Clone, Copy)]
struct MarksLeft<'a> {
    /// The first of them at least.
    marks: &'a [Mark],
    /// How many there are in all.
    count: usize,
}

/// A mark, and the line to which it leads, from 0.
#[derive(Clone, Copy)]
struct LedMark<'a> {
    mark: &'a Mark,
    line: Option<u32>,
}

// ---- the list

/// The diagnostics of a document's text, as JSON with no blank in it: of its first 1,000 marks, one that tells how many more there are, and, where the editor
/// takes these, of the first 1,000 runs of lines that nothing assembles; and of the first 100 notes.
pub fn list_of(
    alloc: Global,
    encoding: Encoding,
    client: Client,
    uri: &str,
    marked: &MarkedDocument,
) -> Result<Vec<u8>, AllocError>
    ensures { IfOk result (λ list. ListsText (record { encoding = encoding; client = client; uri = uri.now }) marked.now list.items) }
{
    let deck = QueriedText {
        uri,
        version: None,
        document: marked.document(),
        encoding,
        client,
    };
    let marks = marks_of(alloc, marked)?;
    let all = marks.first.as_slice();
    let (first, next) = all.split_at(MOST_TOLD.min(all.len()));
    let mut list = Vec::with_capacity(alloc, room_for(all.len(), marked.notes()))?;
    list.push(b'[')?;
    push_marks(alloc, deck, first, &mut list)?;
    let left = MarksLeft {
        marks: next,
        count: marks.count.saturating_sub(MOST_TOLD),
    };
    push_more(alloc, deck, left, &mut list)?;
    let later = push_all_idle(
        alloc,
        deck,
        marked.notes().runs(),
        !first.is_empty(),
        &mut list,
    )?;
    push_all_notes(alloc, deck, marked.notes(), later, &mut list)?;
    list.push(b']')?;
    Ok(list)
}

/// About as many bytes as the diagnostics of some marks and of notes take.
fn room_for(marks: usize, notes: &KeptNotes) -> usize {
    let count = marks.saturating_add(notes.told(true).len());
    count.saturating_add(1).saturating_mul(MEAN_LEN)
}

/// Appends the diagnostics of marks in a deck to the beginning of a list.
fn push_marks(
    alloc: Global,
    deck: QueriedText<'_>,
    marks: &[Mark],
    list: &mut Vec<u8>,
) -> Result<(), AllocError>
    ensures { OnOk result (MarksAdded deck.entry (map place_of marks.now) list.old.items list.new.items) }
{
    let leads = lines_led_to(alloc, deck.document, marks)?;
    for (at, mark) in marks.iter().enumerate() {
        push_comma(list, at > 0)?;
        let line = line_at(&leads, at);
        push_mark(alloc, deck, LedMark { mark, line }, list)?;
    }
    Ok(())
}

/// The line of a place among lines.
fn line_at(lines: &[Option<u32>], at: usize) -> Option<u32> {
    match lines.get(at) {
        Some(line) => *line,
        None => None,
    }
}

/// Appends the diagnostic of a mark in a deck. An editor that takes no other place reads at the end of the message to which line it leads.
fn push_mark(
    alloc: Global,
    deck: QueriedText<'_>,
    led: LedMark<'_>,
    list: &mut Vec<u8>,
) -> Result<(), AllocError>
    ensures { OnOk result (MarkAdded deck.entry (place_of led.entry.mark.now) list.old.items list.new.items) }
{
    let Some(line) = line_written(deck, led) else {
        return push_led(alloc, deck, led, text_of(&led.mark.message), list);
    };
    let message = message_with(alloc, led.mark, line)?;
    push_led(alloc, deck, led, text_of(&message), list)
}

/// Appends the same with a message, and the other place to which it leads.
fn push_led(
    alloc: Global,
    deck: QueriedText<'_>,
    led: LedMark<'_>,
    message: &str,
    list: &mut Vec<u8>,
) -> Result<(), AllocError>
    ensures { OnOk result (MarkAdded deck.entry (place_of led.entry.mark.now) list.old.items list.new.items) }
{
    let mark = led.mark;
    let line = line_of(deck.document, mark.line);
    let stretch = Stretch::of(deck.encoding, line, mark.line, mark.columns);
    let relation = relation_to(deck, mark.lead, led.line);
    let report = Report {
        stretch,
        message,
        relation,
    };
    push_diagnostic(alloc, list, mark.kind, report)
}

/// The line that is written at the end of a mark's message: that to which it leads, from 0, where the editor takes no other place and the words don't have it.
fn line_written(deck: QueriedText<'_>, led: LedMark<'_>) -> Option<u32> {
    match led.mark.lead {
        Lead::Opener(_) => None,
        _ if deck.client.takes_relations => None,
        _ => led.line,
    }
}

/// The message of a mark, with a line at its end.
fn message_with(alloc: Global, mark: &Mark, line: u32) -> Result<Vec<u8>, AllocError> {
    let mut message = Vec::new(alloc);
    message.extend_from_slice(&mark.message)?;
    message.extend_from_slice(b" (line ")?;
    push_decimal(&mut message, u64::from(line) + 1)?;
    message.push(b')')?;
    Ok(message)
}

/// The line to which a mark leads, as another place, if the editor takes one.
fn relation_to<'a>(deck: QueriedText<'a>, lead: Lead, line: Option<u32>) -> Option<Relation<'a>>
    ensures { IfSome result (λ place. IsOther deck.entry place) }
{
    let number = line?;
    if !deck.client.takes_relations || number as usize >= deck.document.source_len() {
        return None;
    }
    let line = line_of(deck.document, number);
    Some(Relation {
        uri: deck.uri,
        stretch: Stretch::of(deck.encoding, line, number, lead.columns_in(line)),
        words: lead.words(),
    })
}

/// Appends to a list the diagnostic that tells how many marks are left out, if some are. It shows where the first of them would.
fn push_more(
    alloc: Global,
    deck: QueriedText<'_>,
    left: MarksLeft<'_>,
    list: &mut Vec<u8>,
) -> Result<(), AllocError>
    ensures { OnOk result (list.new.items ≡ list.old.items
        ++ counted_text deck.entry.encoding (source_lines deck.entry.document.now) (map place_of left.entry.marks.now) left.entry.count) }
{
    let Some(mark) = left.marks.first() else {
        return Ok(());
    };
    let line = line_of(deck.document, mark.line);
    let stretch = Stretch::of(deck.encoding, line, mark.line, mark.columns);
    let message = message_of_more(alloc, left.count)?;
    list.push(b',')?;
    push_information(alloc, list, stretch, &message)
}

/// Appends to a list the diagnostics of runs of lines that nothing assembles, if the editor takes these. Others may stand before, and whether they do
/// behind that is given.
fn push_all_idle(
    alloc: Global,
    deck: QueriedText<'_>,
    found: &[IdleLines],
    later: bool,
    list: &mut Vec<u8>,
) -> Result<bool, AllocError>
    ensures { IfOk result (λ now. AddsBeside (listener_of deck.entry) deck.entry.document.now later now list.old.items list.new.items) }
{
    if !deck.client.takes_unnecessary {
        return Ok(later);
    }
    let count = deck.document.session().count() as usize;
    let runs = runs_among(alloc, found, count)?;
    push_runs(alloc, deck, &runs, later, list)
}

/// Appends those of runs.
fn push_runs(
    alloc: Global,
    deck: QueriedText<'_>,
    runs: &[IdleLines],
    later: bool,
    list: &mut Vec<u8>,
) -> Result<bool, AllocError>
    requires takes { deck.client.takes_unnecessary ≡ true }
    requires within { All (IsIdleAmong (length (source_of_text deck.document.now))) runs.now }
    ensures { IfOk result (λ now. AddsBeside (listener_of deck.entry) deck.entry.document.now later now list.old.items list.new.items) }
{
    let mut later = later;
    for lines in runs {
        push_comma(list, later)?;
        push_idle(alloc, deck, *lines, list)?;
        later = true;
    }
    Ok(later)
}

/// Appends the diagnostic of lines that nothing assembles.
fn push_idle(
    alloc: Global,
    deck: QueriedText<'_>,
    lines: IdleLines,
    list: &mut Vec<u8>,
) -> Result<(), AllocError>
    requires takes { deck.client.takes_unnecessary ≡ true }
    requires within { IsIdleAmong (length (source_of_text deck.document.now)) lines }
    ensures { OnOk result (AddsIdle (listener_of deck.entry) deck.entry.document.now list.old.items list.new.items) }
{
    let line = line_of(deck.document, lines.last);
    let stretch = Stretch {
        line: lines.first,
        start: 0,
        last: lines.last,
        end: units_before(deck.encoding, line, filled_len(line)),
    };
    push_unnecessary(alloc, list, stretch, lines.words())
}

/// How many marks are left out.
fn message_of_more(alloc: Global, count: usize) -> Result<String, AllocError>
    ensures { IfOk result (λ message. string_bytes message ≡ more_message count) }
{
    format!(in alloc; "and {count} more from here on")
}

/// A message as a text.
fn text_of(message: &[u8]) -> &str {
    match str::from_utf8(message) {
        Ok(text) => text,
        Err(_) => "no line may have this",
    }
}

// ---- what is said

/// Says that an editor has no diagnostics of a text that was closed.
pub fn say_closed(alloc: Global, uri: &str, said: &mut Vec<u8>) -> Result<(), AllocError>
    ensures { OnOk result (said.new.items ≡ said.old.items ++ frame_of_json (published uri.now None [])) }
{
    say_list(alloc, ToldText { uri, version: None }, b"[]", said)
}

/// Says a list of diagnostics of a text.
pub fn say_list(
    alloc: Global,
    text: ToldText<'_>,
    list: &[u8],
    said: &mut Vec<u8>,
) -> Result<(), AllocError>
    ensures { OnOk result (said.new.items ≡ said.old.items ++ frame_of (published_text text.entry.uri.now text.entry.version list.now)) }
{
    let room = list
        .len()
        .saturating_add(text.uri.len())
        .saturating_add(FRONT_LEN);
    let mut message = Vec::with_capacity(alloc, room)?;
    push_published(alloc, &mut message, text, list)?;
    push_frame(said, &message)
}

/// Appends the notification that tells a list of diagnostics.
fn push_published(
    alloc: Global,
    message: &mut Vec<u8>,
    text: ToldText<'_>,
    list: &[u8],
) -> Result<(), AllocError>
    ensures { OnOk result (message.new.items ≡ message.old.items ++ published_text text.entry.uri.now text.entry.version list.now) }
{
    message.extend_from_slice(
        b"{\"jsonrpc\":\"2.0\",\"method\":\"textDocument/publishDiagnostics\",\"params\":{\"diagnostics\":",
    )?;
    message.extend_from_slice(list)?;
    push_document(alloc, message, text)?;
    message.extend_from_slice(b"}}")?;
    Ok(())
}

/// Appends of which document a list is, and of which version, if that is known.
fn push_document(alloc: Global, message: &mut Vec<u8>, text: ToldText<'_>) -> Result<(), AllocError>
    ensures { OnOk result (message.new.items ≡ message.old.items ++ document_text text.entry.uri.now text.entry.version) }
{
    message.extend_from_slice(b",\"uri\":")?;
    push_string(alloc, message, text.uri)?;
    push_version(alloc, message, text.version)
}

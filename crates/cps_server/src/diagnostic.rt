//! A diagnostic, as it is written.
ghost use Rattle.std.specs.Prelude.{◌≡◌, ◌++◌, OnOk};
ghost use Rattle.cps_server.specs.declared.mark_kind.MarkKind.TheVariants.{Flag, Wrong};
ghost use Rattle.cps_server.specs.Diagnostics.{note_severity};
ghost use Rattle.cps_server.specs.Code.Writing.{columns_stretch, diagnostic_text, end_text, flag_front, idle_text, information_text, level, message_text, note_text, range_text, relation_text, report_text};

use crate::mark_kind::MarkKind;
use crate::note_form::NoteForm;
use crate::writing::push_string;
use cps_cause::{Columns, Letter};
use cps_list::push_decimal;
use cps_rpc::{Encoding, units_before};
use std::alloc::{AllocError, Global};

/// How severe a diagnostic is.
#[derive(Clone, Copy)]
enum Severity {
    Error,
    Information,
    Hint,
}

/// Where a diagnostic shows: from so many units of a line up to others of the last line. Lines count from 0.
#[derive(Clone, Copy)]
pub struct Stretch {
    pub line: u32,
    pub start: u32,
    pub last: u32,
    pub end: u32,
}

impl Stretch {
    /// Columns of a line of a number: from the first through the last.
    pub fn of(encoding: Encoding, line: &[u8], number: u32, columns: Columns) -> Stretch
        ensures { result ≡ columns_stretch encoding line.now number columns.first columns.last }
    {
        Stretch {
            line: number,
            start: units_before(encoding, line, columns.first.saturating_sub(1)),
            last: number,
            end: units_before(encoding, line, columns.last),
        }
    }
}

/// Another place to which a diagnostic leads.
#[derive(Clone, Copy)]
pub struct Relation<'a> {
    /// The URI of its document.
    pub uri: &'a str,
    pub stretch: Stretch,
    /// What stands there.
    pub words: &'a str,
}

/// What a diagnostic says.
#[derive(Clone, Copy)]
pub struct Report<'a> {
    pub stretch: Stretch,
    pub message: &'a str,
    pub relation: Option<Relation<'a>>,
}

/// Appends the diagnostic of an error.
pub fn push_diagnostic(
    alloc: Global,
    text: &mut Vec<u8>,
    kind: MarkKind,
    report: Report<'_>,
) -> Result<(), AllocError>
    ensures { OnOk result (text.new.items ≡ text.old.items
        ++ diagnostic_text kind report.entry.stretch report.entry.message.now report.entry.relation) }
{
    match kind {
        MarkKind::Flag(letter) => push_flag(alloc, text, letter, report),
        MarkKind::Wrong => push_fault(alloc, text, report),
    }
}

/// Appends the diagnostic of a flag.
fn push_flag(
    alloc: Global,
    text: &mut Vec<u8>,
    letter: Letter,
    report: Report<'_>,
) -> Result<(), AllocError>
    ensures { OnOk result (text.new.items ≡ text.old.items
        ++ diagnostic_text (Flag letter) report.entry.stretch report.entry.message.now report.entry.relation) }
{
    text.extend_from_slice(front_of(letter))?;
    push_report(alloc, text, Severity::Error, report, false)
}

/// Appends the diagnostic of bytes that no line may have.
fn push_fault(alloc: Global, text: &mut Vec<u8>, report: Report<'_>) -> Result<(), AllocError>
    ensures { OnOk result (text.new.items ≡ text.old.items
        ++ diagnostic_text Wrong report.entry.stretch report.entry.message.now report.entry.relation) }
{
    text.extend_from_slice(b"{")?;
    push_report(alloc, text, Severity::Error, report, false)
}

/// Appends the diagnostic of what is no error.
pub fn push_information(
    alloc: Global,
    text: &mut Vec<u8>,
    stretch: Stretch,
    message: &str,
) -> Result<(), AllocError>
    ensures { OnOk result (text.new.items ≡ text.old.items ++ information_text stretch message.now) }
{
    let report = Report {
        stretch,
        message,
        relation: None,
    };
    text.extend_from_slice(b"{")?;
    push_report(alloc, text, Severity::Information, report, false)
}

/// Appends the diagnostic of what is unnecessary.
pub fn push_unnecessary(
    alloc: Global,
    text: &mut Vec<u8>,
    stretch: Stretch,
    message: &str,
) -> Result<(), AllocError>
    ensures { OnOk result (text.new.items ≡ text.old.items ++ idle_text stretch message.now) }
{
    let report = Report {
        stretch,
        message,
        relation: None,
    };
    text.extend_from_slice(b"{")?;
    push_report(alloc, text, Severity::Hint, report, true)
}

/// Appends the diagnostic of a note.
pub fn push_note(
    alloc: Global,
    text: &mut Vec<u8>,
    form: NoteForm,
    stretch: Stretch,
    message: &str,
) -> Result<(), AllocError>
    ensures { OnOk result (text.new.items ≡ text.old.items ++ note_text form stretch message.now) }
{
    let report = Report {
        stretch,
        message,
        relation: None,
    };
    text.extend_from_slice(b"{")?;
    push_report(alloc, text, severity_of(form), report, form.is_tagged)
}

/// Appends what all diagnostics have, and their end.
fn push_report(
    alloc: Global,
    text: &mut Vec<u8>,
    severity: Severity,
    report: Report<'_>,
    is_unnecessary: bool,
) -> Result<(), AllocError>
    ensures { OnOk result (text.new.items ≡ text.old.items ++ report_text (level severity) report.entry is_unnecessary) }
{
    push_message(alloc, text, report.stretch, report.message)?;
    push_relation(alloc, text, report.relation)?;
    text.extend_from_slice(end_of(severity, is_unnecessary))
}

/// How severe a note is.
fn severity_of(form: NoteForm) -> Severity
    ensures { level result ≡ note_severity form.is_unread }
{
    if form.is_unread {
        Severity::Hint
    } else {
        Severity::Information
    }
}

/// What stands at the end of a diagnostic: how severe it is, who tells it, and that what it shows is unnecessary, all as the protocol counts.
fn end_of(severity: Severity, is_unnecessary: bool) -> &'static [u8]
    ensures { result.now ≡ end_text (level severity) is_unnecessary }
{
    match (severity, is_unnecessary) {
        (Severity::Error, false) => b",\"severity\":1,\"source\":\"compass\"}",
        (Severity::Error, true) => b",\"severity\":1,\"source\":\"compass\",\"tags\":[1]}",
        (Severity::Information, false) => b",\"severity\":3,\"source\":\"compass\"}",
        (Severity::Information, true) => { b",\"severity\":3,\"source\":\"compass\",\"tags\":[1]}" }
        (Severity::Hint, false) => b",\"severity\":4,\"source\":\"compass\"}",
        (Severity::Hint, true) => b",\"severity\":4,\"source\":\"compass\",\"tags\":[1]}",
    }
}

/// Appends another place to which a diagnostic leads.
fn push_relation(
    alloc: Global,
    text: &mut Vec<u8>,
    relation: Option<Relation<'_>>,
) -> Result<(), AllocError>
    ensures { OnOk result (text.new.items ≡ text.old.items ++ relation_text relation.entry) }
{
    let Some(place) = relation else {
        return Ok(());
    };
    text.extend_from_slice(b",\"relatedInformation\":[{\"location\":{\"range\":")?;
    push_range(text, place.stretch)?;
    text.extend_from_slice(b",\"uri\":")?;
    push_string(alloc, text, place.uri)?;
    text.extend_from_slice(b"},\"message\":")?;
    push_string(alloc, text, place.words)?;
    text.extend_from_slice(b"}]")
}

/// Appends a message, and where it shows.
fn push_message(
    alloc: Global,
    text: &mut Vec<u8>,
    stretch: Stretch,
    message: &str,
) -> Result<(), AllocError>
    ensures { OnOk result (text.new.items ≡ text.old.items ++ message_text stretch message.now) }
{
    text.extend_from_slice(b"\"message\":")?;
    push_string(alloc, text, message)?;
    text.extend_from_slice(b",\"range\":")?;
    push_range(text, stretch)
}

/// Appends a range: its end and its start, each by the units before it in a line, and that line.
fn push_range(text: &mut Vec<u8>, stretch: Stretch) -> Result<(), AllocError>
    ensures { OnOk result (text.new.items ≡ text.old.items ++ range_text stretch) }
{
    text.extend_from_slice(b"{\"end\":{\"character\":")?;
    push_decimal(text, u64::from(stretch.end))?;
    text.extend_from_slice(b",\"line\":")?;
    push_decimal(text, u64::from(stretch.last))?;
    text.extend_from_slice(b"},\"start\":{\"character\":")?;
    push_decimal(text, u64::from(stretch.start))?;
    text.extend_from_slice(b",\"line\":")?;
    push_decimal(text, u64::from(stretch.line))?;
    text.extend_from_slice(b"}}")
}

/// What stands at the front of the diagnostic of a flag.
fn front_of(letter: Letter) -> &'static [u8]
    ensures { result.now ≡ flag_front letter }
{
    match letter {
        Letter::A => b"{\"code\":\"A\",",
        Letter::D => b"{\"code\":\"D\",",
        Letter::E => b"{\"code\":\"E\",",
        Letter::L => b"{\"code\":\"L\",",
        Letter::O => b"{\"code\":\"O\",",
        Letter::T => b"{\"code\":\"T\",",
        Letter::U => b"{\"code\":\"U\",",
        Letter::V => b"{\"code\":\"V\",",
    }
}

//! How an editor is told the notes of a text.
ghost use Rattle.std.specs.Prelude.{◌<◌, All, IsTrue, length, IfOk, OnOk};
ghost use Rattle.cps_server.specs.Document.{source_of_text};
ghost use Rattle.cps_server.specs.Code.Writing.{AddsBeside, AddsNote, listener_of};

use crate::diagnostic::{Stretch, push_note};
use crate::kept_notes::KeptNotes;
use crate::mentions::line_of;
use crate::note_form::NoteForm;
use crate::queried_text::QueriedText;
use crate::writing::push_comma;
use cps_check::Note;
use cps_list::View;
use std::alloc::{AllocError, Global};
use std::str;

/// A note of a line, from 0.
#[derive(Clone, Copy)]
struct ToldNote {
    line: u32,
    note: Note,
}

/// Appends to a list the diagnostics of the notes that are kept. That of the program's end is left out where idle lines tell it. Others may stand before, and
/// whether some do behind that is given.
pub fn push_all_notes(
    alloc: Global,
    deck: QueriedText<'_>,
    notes: &KeptNotes,
    later: bool,
    list: &mut Vec<u8>,
) -> Result<bool, AllocError>
    ensures { IfOk result (λ now. AddsBeside (listener_of deck.entry) deck.entry.document.now later now list.old.items list.new.items) }
{
    let count = deck.document.session().count();
    let told = told_among(alloc, notes, !deck.client.takes_unnecessary, count)?;
    push_told(alloc, deck, &told, later, list)
}

/// The notes that are told, of those that stand among so many lines.
fn told_among(
    alloc: Global,
    notes: &KeptNotes,
    with_end: bool,
    count: u32,
) -> Result<Vec<ToldNote>, AllocError>
    ensures { IfOk result (λ told. All (λ note. note.line < count) told.items) }
{
    let mut told = Vec::new(alloc);
    for place in notes.told(with_end) {
        if let Some(note) = notes.note(*place) {
            let note = ToldNote {
                line: place.line,
                note,
            };
            if stands(note, count) {
                told.push(note)?;
            }
        }
    }
    Ok(told)
}

fn stands(note: ToldNote, count: u32) -> bool
    ensures { IsTrue result → note.line < count }
{
    note.line < count
}

/// Appends the diagnostics of notes.
fn push_told(
    alloc: Global,
    deck: QueriedText<'_>,
    told: &[ToldNote],
    later: bool,
    list: &mut Vec<u8>,
) -> Result<bool, AllocError>
    requires { All (λ note. note.line < length (source_of_text deck.document.now)) told.now }
    ensures { IfOk result (λ now. AddsBeside (listener_of deck.entry) deck.entry.document.now later now list.old.items list.new.items) }
{
    let mut later = later;
    for note in told {
        push_comma(list, later)?;
        push_told_note(alloc, deck, *note, list)?;
        later = true;
    }
    Ok(later)
}

/// Appends the diagnostic of a note.
fn push_told_note(
    alloc: Global,
    deck: QueriedText<'_>,
    told: ToldNote,
    list: &mut Vec<u8>,
) -> Result<(), AllocError>
    requires { told.line < length (source_of_text deck.document.now) }
    ensures { OnOk result (AddsNote (listener_of deck.entry) deck.entry.document.now list.old.items list.new.items) }
{
    let form = NoteForm::of(deck, told.note);
    let line = line_of(deck.document, told.line);
    let stretch = Stretch::of(deck.encoding, line, told.line, told.note.columns);
    let words = told.note.remark.words(alloc)?;
    push_note(alloc, list, form, stretch, text_of(words.as_slice()))
}

/// Words as a text.
fn text_of(words: &[u8]) -> &str {
    match str::from_utf8(words) {
        Ok(text) => text,
        Err(_) => "no line may have this",
    }
}

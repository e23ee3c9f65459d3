//! What a line has to do with notes.

use crate::document::Document;
use crate::idle::Idle;
use crate::mentions::line_of;
use cps_cause::Card;
use cps_check::{Note, ends_program, notes_within, start_of};
use cps_final::LineSymbols;
use cps_list::View;
use cps_state::{Key, Put, Trace};
use cps_text::{Line, Name};
use std::alloc::{AllocError, Global};

/// Whether something assembles a line, which notes it may have, and on what in it the notes of other lines rest, and their words.
pub struct NotedLine {
    pub idle: Idle,
    /// The notes that it may have, by column.
    pub notes: Vec<Note>,
    /// The symbols that it reads, each once.
    pub reads: Vec<Name>,
    /// The symbols and macros that it gives something to stand for.
    pub defines: Vec<Key>,
    pub ends_program: bool,
}

// Written out, so that it is proved once.
impl Drop for NotedLine {
    fn drop(self) {
        let NotedLine {
            idle: _,
            notes,
            reads,
            defines,
            ends_program: _,
        } = self;
        drop(notes);
        drop(reads);
        drop(defines);
    }
}

impl NotedLine {
    /// Of the line at a place of a document, from 0. The symbols are of another line, and give way to its own.
    pub fn of(
        alloc: Global,
        document: &Document,
        number: u32,
        symbols: &mut LineSymbols,
    ) -> Result<NotedLine, AllocError> {
        let session = document.session();
        let line = line_of(document, number);
        let Some(trace) = session.traces().get(number as usize) else {
            return Ok(NotedLine::none(alloc));
        };
        let card = Card::of(line);
        let idle = Idle::of(&card, trace)?;
        let notes = notes_of(alloc, &card, trace)?;
        symbols.replace(trace.puts(), trace.reads(), trace.items())?;
        let mut reads = symbols.read().to_vec(alloc)?;
        let defines = defined_by(alloc, trace.puts())?;
        let ends_program = ends_program(trace);
        if ends_program {
            push_start(&mut reads, session.line(number.saturating_add(1)))?;
        }
        Ok(NotedLine {
            idle,
            notes,
            reads,
            defines,
            ends_program,
        })
    }

    /// Of no line.
    fn none(alloc: Global) -> NotedLine {
        NotedLine {
            idle: Idle::Never,
            notes: Vec::new(alloc),
            reads: Vec::new(alloc),
            defines: Vec::new(alloc),
            ends_program: false,
        }
    }

    /// Whether another line has to do with notes as this one.
    pub fn is_as(&self, other: &NotedLine) -> bool {
        self.tells_as(other)
            && self.ends_program == other.ends_program
            && self.reads == other.reads
            && self.defines == other.defines
    }

    /// Whether another line may have the same notes, and is idle or not as this one.
    pub fn tells_as(&self, other: &NotedLine) -> bool {
        self.idle == other.idle && self.notes == other.notes
    }
}

/// The notes that a line may have that does this; none if no source may have it.
fn notes_of(alloc: Global, card: &Card<'_>, trace: &Trace) -> Result<Vec<Note>, AllocError> {
    if Line::check(card.text).is_err() {
        return Ok(Vec::new(alloc));
    }
    notes_within(alloc, card, trace)
}

/// The symbols and macros among the keys that a line puts.
fn defined_by(alloc: Global, puts: &[Put]) -> Result<Vec<Key>, AllocError> {
    let mut keys = Vec::new(alloc);
    for put in puts {
        match put.key {
            Key::Label(_) | Key::Setting(_) | Key::Macro(_) => keys.push(put.key)?,
            _ => {}
        }
    }
    Ok(keys)
}

/// Appends the symbol that a line names where execution begins, if it is none that the line reads.
fn push_start(reads: &mut Vec<Name>, card: Option<&Line>) -> Result<(), AllocError> {
    let Some(card) = card else {
        return Ok(());
    };
    match start_of(card.bytes()) {
        Some(name) if !reads.contains(&name) => {
            reads.push(name)?;
            Ok(())
        }
        _ => Ok(()),
    }
}

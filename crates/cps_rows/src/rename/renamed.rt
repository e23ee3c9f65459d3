//! The lines that a rename changes, or why it is refused.
use super::certified::{Certified, certify, edited, words_of};
use crate::mention::told::{push_number, session_of};
use cps_list::View;
use cps_live::Session;
use cps_mention::{
    LineEdit, NamePlace, RenameFault, Renaming, WrittenNames, name_at, rename_edits,
};
use std::alloc::{AllocError, Global};

/// A rename that is asked for.
#[derive(Clone, Copy)]
pub struct Asked {
    pub line: u32,
    pub column: usize,
    pub new_name: &'static str,
}

/// The lines that a rename changes, each behind its number and `:`; or why it is refused. Where all gaps are kept `moved` stands before them.
pub fn renamed(alloc: Global, texts: &[&str], asked: Asked) -> Option<Vec<u8>> {
    let session = session_of(alloc, texts)?;
    let names = WrittenNames::of(alloc, &session, session.traces()).ok()?;
    match name_at(alloc, &names.mentions, asked.line, asked.column).ok()? {
        Ok(place) => rename_at(alloc, texts, &session, place, asked.new_name),
        Err(fault) => words(alloc, fault).ok(),
    }
}

fn rename_at(
    alloc: Global,
    texts: &[&str],
    session: &Session,
    place: NamePlace,
    new_name: &str,
) -> Option<Vec<u8>> {
    let first = Renaming {
        meaning: place.meaning,
        new_name: new_name.as_bytes(),
        keeps_gaps: false,
    };
    let second = Renaming {
        keeps_gaps: true,
        ..first
    };
    let names = WrittenNames::of(alloc, session, session.traces()).ok()?;
    match rename_edits(alloc, session, &names, first).ok()? {
        Err(fault) => words(alloc, fault).ok(),
        Ok(edits) => {
            let after = edited(alloc, texts, &edits)?;
            let said = certify(alloc, session, &after, first).ok()?;
            if is_good(said) {
                return lines_of(alloc, b"", &after, &edits).ok();
            }
            let Ok(edits) = rename_edits(alloc, session, &names, second).ok()? else {
                return None;
            };
            let after = edited(alloc, texts, &edits)?;
            if is_good(certify(alloc, session, &after, second).ok()?) {
                return lines_of(alloc, b"moved\n", &after, &edits).ok();
            }
            words(alloc, RenameFault::WouldChange { line: said.changed }).ok()
        }
    }
}

fn is_good(said: Certified) -> bool {
    said.is_same && said.otherwise.is_none()
}

fn words(alloc: Global, fault: RenameFault) -> Result<Vec<u8>, AllocError> {
    let mut text = Vec::new(alloc);
    fault.push_words(&mut text)?;
    Ok(text)
}

/// The lines that edits changed, each behind its number and `:`.
pub fn lines_of(
    alloc: Global,
    front: &[u8],
    after: &Session,
    edits: &[LineEdit],
) -> Result<Vec<u8>, AllocError> {
    let mut text = front.to_vec(alloc)?;
    for edit in edits {
        if let Some(line) = after.line(edit.line) {
            push_number(&mut text, edit.line as usize)?;
            text.push(b':')?;
            text.extend_from_slice(line.bytes())?;
            text.push(b'\n')?;
        }
    }
    Ok(text)
}

/// The edits of a rename as rows: `LINE:FIRST-END` and the text.
pub fn edits_told(alloc: Global, texts: &[&str], asked: Asked) -> Option<Vec<u8>> {
    let edits = edits_asked(alloc, texts, asked)?;
    told_of(alloc, &edits).ok()
}

fn told_of(alloc: Global, edits: &[LineEdit]) -> Result<Vec<u8>, AllocError> {
    let mut text = Vec::new(alloc);
    for edit in edits {
        push_number(&mut text, edit.line as usize)?;
        text.push(b':')?;
        push_number(&mut text, edit.first)?;
        text.push(b'-')?;
        push_number(&mut text, edit.end)?;
        text.push(b' ')?;
        text.extend_from_slice(&edit.text)?;
        text.push(b'\n')?;
    }
    Ok(text)
}

fn edits_asked(alloc: Global, texts: &[&str], asked: Asked) -> Option<Vec<LineEdit>> {
    let session = session_of(alloc, texts)?;
    let names = WrittenNames::of(alloc, &session, session.traces()).ok()?;
    let place = name_at(alloc, &names.mentions, asked.line, asked.column)
        .ok()?
        .ok()?;
    let renaming = renaming_of(place, asked);
    rename_edits(alloc, &session, &names, renaming).ok()?.ok()
}

fn renaming_of(place: NamePlace, asked: Asked) -> Renaming<'static> {
    Renaming {
        meaning: place.meaning,
        new_name: asked.new_name.as_bytes(),
        keeps_gaps: false,
    }
}

/// What is said of a source after a rename of which one edit, counted from 0, is left out.
pub fn said_without(
    alloc: Global,
    texts: &[&str],
    asked: Asked,
    left_out: usize,
) -> Option<Vec<u8>> {
    let session = session_of(alloc, texts)?;
    let names = WrittenNames::of(alloc, &session, session.traces()).ok()?;
    let place = name_at(alloc, &names.mentions, asked.line, asked.column)
        .ok()?
        .ok()?;
    let renaming = renaming_of(place, asked);
    let mut edits = rename_edits(alloc, &session, &names, renaming).ok()?.ok()?;
    if left_out >= edits.len() {
        return None;
    }
    drop(edits.remove(left_out));
    let after = edited(alloc, texts, &edits)?;
    let said = certify(alloc, &session, &after, renaming).ok()?;
    words_of(alloc, said).ok()
}

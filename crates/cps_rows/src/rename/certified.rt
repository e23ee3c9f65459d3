//! Whether a source is the same but for a name.
use crate::mention::told::push_number;
use cps_live::Session;
use cps_mention::{
    LineEdit, Renaming, WrittenNames, is_same_but, line_named_otherwise, line_that_changed,
};
use cps_state::{Hashing, Work};
use cps_text::Line;
use cps_text::limits::MOST_LINES;
use std::alloc::{AllocError, Global};

/// What is said of a source after edits.
#[derive(Clone, Copy, PartialEq, Eq)]
pub struct Certified {
    /// Whether it is another but for what its symbols are called.
    pub is_same: bool,
    /// Where its rows or its symbols are others; the last line where none are.
    pub changed: u32,
    /// Where its names mean something else.
    pub otherwise: Option<u32>,
}

/// A source with edits, each made in what the one before it left.
pub fn edited(alloc: Global, texts: &[&str], edits: &[LineEdit]) -> Option<Session> {
    let mut lines = Vec::new(alloc);
    for (before, text) in texts.iter().enumerate() {
        let mut bytes = text.as_bytes().to_vec(alloc).ok()?;
        for edit in edits {
            if edit.line as usize == before.saturating_add(1) {
                bytes = line_with(alloc, &bytes, edit)?;
            }
        }
        lines.push(Line::new(alloc, &bytes).ok()?).ok()?;
    }
    if lines.len() > MOST_LINES {
        return None;
    }
    Session::enter(alloc, Hashing::by(1), lines, &mut Work::new()).ok()
}

fn line_with(alloc: Global, bytes: &[u8], edit: &LineEdit) -> Option<Vec<u8>> {
    let mut line = Vec::new(alloc);
    let front = bytes.get(..edit.first.checked_sub(1)?)?;
    let back = bytes.get(edit.end.checked_sub(1)?..)?;
    line.extend_from_slice(front).ok()?;
    line.extend_from_slice(&edit.text).ok()?;
    line.extend_from_slice(back).ok()?;
    Some(line)
}

/// Compares a source with what edits left of it.
pub fn certify(
    alloc: Global,
    before: &Session,
    after: &Session,
    renaming: Renaming<'_>,
) -> Result<Certified, AllocError> {
    let was = WrittenNames::of(alloc, before, before.traces())?;
    let is = WrittenNames::of(alloc, after, after.traces())?;
    let calling = renaming.calling();
    Ok(Certified {
        is_same: is_same_but(alloc, before, after, calling)?,
        changed: line_that_changed(before, after, calling),
        otherwise: line_named_otherwise(alloc, &was.mentions, &is.mentions, Some(renaming))?,
    })
}

/// What was said: `same`, or `other` and the line that changed; behind it `otherwise` and the line whose names mean something else.
pub fn words_of(alloc: Global, said: Certified) -> Result<Vec<u8>, AllocError> {
    let mut text = Vec::new(alloc);
    if said.is_same {
        text.extend_from_slice(b"same")?;
    } else {
        text.extend_from_slice(b"other ")?;
        push_number(&mut text, said.changed as usize)?;
    }
    if let Some(line) = said.otherwise {
        text.extend_from_slice(b" otherwise ")?;
        push_number(&mut text, line as usize)?;
    }
    Ok(text)
}

//! An edit of a line of a source.
ghost use Rattle.std.specs.Prelude.{◌≡◌, ◌≤◌, ◌-◌, IsTrue, IfOk, length, take, drop};
ghost use Rattle.cps_mention.specs.LineEdits.{AreLineEdits, FitsIn, IsLineEdit, edited};

use cps_list::View;
use cps_text::limits::MOST_CHARACTERS;
use std::alloc::{AllocError, Global};

/// A text in the place of some columns of a line of a source.
#[derive(Drop)]
pub struct LineEdit {
    /// The number of the line, from 1.
    pub line: u32,
    /// The first column, from 1.
    pub first: usize,
    /// The column behind the last.
    pub end: usize,
    pub text: Vec<u8>,
}

impl LineEdit {
    /// What makes another text of a line: all from the first column that changes to the last.
    pub fn between(alloc: Global, line: u32, was: &[u8], is: &[u8]) -> Result<LineEdit, AllocError>
        ensures line { IfOk result (λ edit. edit.line ≡ line) }
        ensures text { IfOk result (λ edit. edited was.now edit ≡ is.now) }
    {
        let front = same_in_front(was, is);
        let back = same_at_back(&was[front..], &is[front..]);
        let text = is[front..is.len() - back].to_vec(alloc)?;
        Ok(LineEdit {
            line,
            first: front + 1,
            end: was.len() - back + 1,
            text,
        })
    }
}

/// How many characters two texts begin with alike.
fn same_in_front(was: &[u8], is: &[u8]) -> usize
    ensures was { result ≤ length was.now }
    ensures is { result ≤ length is.now }
    ensures same { take result is.now ≡ take result was.now }
{
    let most = was.len().min(is.len());
    for at in 0..most {
        if was[at] != is[at] {
            return at;
        }
    }
    most
}

/// How many characters two texts end with alike.
fn same_at_back(was: &[u8], is: &[u8]) -> usize
    ensures was { result ≤ length was.now }
    ensures is { result ≤ length is.now }
    ensures same { drop (length is.now - result) is.now ≡ drop (length was.now - result) was.now }
{
    let most = was.len().min(is.len());
    for done in 0..most {
        if was[was.len() - 1 - done] != is[is.len() - 1 - done] {
            return done;
        }
    }
    most
}

/// Those of the edits that may be made one after another.
pub fn keep_fitting<V: View>(
    alloc: Global,
    view: &V,
    planned: Vec<LineEdit>,
) -> Result<Vec<LineEdit>, AllocError>
    ensures { IfOk result (λ edits. AreLineEdits (V.assembly view.now).lines edits.items) }
{
    let mut edits = Vec::with_capacity(alloc, planned.len())?;
    let mut below = u32::MAX;
    for edit in planned {
        if edit.line < below && fits(view, &edit) {
            below = edit.line;
            edits.push(edit)?;
        }
    }
    Ok(edits)
}

/// Whether an edit is of a line of the source.
fn fits<V: View>(view: &V, edit: &LineEdit) -> bool
    ensures { IsTrue result → IsLineEdit (V.assembly view.now).lines edit.now }
{
    match view.line(edit.line) {
        Some(line) => fits_in(line.bytes(), edit),
        None => false,
    }
}

/// Whether an edit changes columns of a line, and the line has room for it.
fn fits_in(line: &[u8], edit: &LineEdit) -> bool
    ensures { IsTrue result → FitsIn line.now edit.now }
{
    if edit.first < 1 || edit.first > edit.end || edit.end > line.len() + 1 {
        return false;
    }
    let kept = line.len() - (edit.end - edit.first);
    kept <= MOST_CHARACTERS && edit.text.len() <= MOST_CHARACTERS - kept
}

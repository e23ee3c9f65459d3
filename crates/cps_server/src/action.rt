//! What may be mended in lines, as it is told.
ghost use Rattle.std.specs.Prelude.{◌≡◌, All, IsTrue, map, IfOk};
ghost use Rattle.serde_json.specs.View.{view};
ghost use Rattle.cps_server.specs.Actions.{IsAction, IsEdit, IsShown, TellsActions, replacement as replaced, told_action};
ghost use Rattle.cps_server.specs.Code.Telling.{action_in_deck, edit_in_deck};

use crate::document::Document;
use crate::mentions::line_of;
use crate::queried_text::QueriedText;
use crate::ranges::{Units, range_of};
use cps_rpc::units_before;
use serde_json::{Value, json};
use std::alloc::{AllocError, Global};

/// An edit: a text in the place of what stands in a line, from 0, behind so many bytes and before a further place.
pub struct LineEdit {
    pub line: u32,
    pub start: usize,
    pub end: usize,
    pub text: Vec<u8>,
}

// Written out, so that it is proved once.
impl Drop for LineEdit {
    fn drop(self) {
        let LineEdit {
            line: _,
            start: _,
            end: _,
            text,
        } = self;
        drop(text);
    }
}

/// Edits that mend something, and what they do.
pub struct Action {
    pub title: Vec<u8>,
    pub edits: Vec<LineEdit>,
}

// Written out, so that it is proved once.
impl Drop for Action {
    fn drop(self) {
        let Action { title, edits } = self;
        drop(title);
        drop(edits);
    }
}

impl Action {
    /// Of a title that is shown as it stands, and one edit.
    pub fn of(
        alloc: Global,
        title: &[u8],
        word: &[u8],
        edit: LineEdit,
    ) -> Result<Action, AllocError> {
        let mut edits = Vec::new(alloc);
        edits.push(edit)?;
        Action::with(alloc, title, word, edits)
    }

    /// Of two words of a title, and edits.
    pub fn with(
        alloc: Global,
        title: &[u8],
        word: &[u8],
        edits: Vec<LineEdit>,
    ) -> Result<Action, AllocError> {
        let mut text = title.to_vec(alloc)?;
        text.extend_from_slice(word)?;
        Ok(Action { title: text, edits })
    }

    /// The same with those characters of its title that are shown, and those of its edits that stand in a document.
    fn standing(self, alloc: Global, document: &Document) -> Result<Action, AllocError>
        ensures { IfOk result (IsAction document.now) }
    {
        let Action { title, edits } = self;
        let title = shown(alloc, &title)?;
        let edits = edits_within(alloc, document, edits)?;
        Ok(Action { title, edits })
    }
}

/// Actions of a deck, each as it is told.
pub fn tell_actions(
    alloc: Global,
    deck: QueriedText<'_>,
    found: Vec<Action>,
) -> Result<Value, AllocError>
    ensures { IfOk result (λ json. TellsActions deck.entry.encoding deck.entry.uri.now deck.entry.document.now (view json)) }
{
    let actions = standing(alloc, deck.document, found)?;
    let told = tell_each(alloc, deck, &actions)?;
    Ok(Value::from(told))
}

/// The same, each as far as it stands in a document.
fn standing(
    alloc: Global,
    document: &Document,
    found: Vec<Action>,
) -> Result<Vec<Action>, AllocError>
    ensures { IfOk result (λ actions. All (IsAction document.now) actions.items) }
{
    let mut actions = Vec::new(alloc);
    for action in found {
        actions.push(action.standing(alloc, document)?)?;
    }
    Ok(actions)
}

/// The characters of a text that are shown.
fn shown(alloc: Global, text: &[u8]) -> Result<Vec<u8>, AllocError>
    ensures { IfOk result (λ shown. All IsShown shown.items) }
{
    let mut shown = Vec::new(alloc);
    for byte in text {
        if is_shown(*byte) {
            shown.push(*byte)?;
        }
    }
    Ok(shown)
}

fn is_shown(byte: u8) -> bool
    ensures { IsTrue result → IsShown byte }
{
    b' ' <= byte && byte <= b'~'
}

/// The edits that stand in a document.
fn edits_within(
    alloc: Global,
    document: &Document,
    edits: Vec<LineEdit>,
) -> Result<Vec<LineEdit>, AllocError>
    ensures { IfOk result (λ within. All (IsEdit document.now) within.items) }
{
    let mut within = Vec::new(alloc);
    for edit in edits {
        if stands(document, &edit) {
            within.push(edit)?;
        }
    }
    Ok(within)
}

fn stands(document: &Document, edit: &LineEdit) -> bool
    ensures { IsTrue result → IsEdit document.now edit.now }
{
    let line = line_of(document, edit.line);
    (edit.line as usize) < document.source_len() && edit.start <= edit.end && edit.end <= line.len()
}

fn tell_each(
    alloc: Global,
    deck: QueriedText<'_>,
    actions: &[Action],
) -> Result<Vec<Value>, AllocError>
    ensures { IfOk result (λ told. map view told.items ≡ map (action_in_deck deck.entry) actions.now) }
{
    let mut told = Vec::new(alloc);
    for action in actions {
        told.push(tell_action(alloc, deck, action)?)?;
    }
    Ok(told)
}

fn tell_action(alloc: Global, deck: QueriedText<'_>, action: &Action) -> Result<Value, AllocError>
    ensures { IfOk result (λ json. view json ≡ action_in_deck deck.entry action.now) }
{
    let edits = tell_edits(alloc, deck, &action.edits)?;
    tell(alloc, deck.uri, &action.title, Value::from(edits))
}

/// Edits of the text under a URI, and what they do.
fn tell(alloc: Global, uri: &str, title: &[u8], edits: Value) -> Result<Value, AllocError>
    ensures { IfOk result (λ json. view json ≡ told_action uri.now title.now (view edits)) }
{
    let title = String::from_utf8_lossy(alloc, title)?;
    json!(in alloc; {"edit": {"changes": {(uri): edits}}, "kind": "quickfix", "title": (&title)})
}

fn tell_edits(
    alloc: Global,
    deck: QueriedText<'_>,
    edits: &[LineEdit],
) -> Result<Vec<Value>, AllocError>
    ensures { IfOk result (λ told. map view told.items ≡ map (edit_in_deck deck.entry) edits.now) }
{
    let mut told = Vec::new(alloc);
    for edit in edits {
        told.push(tell_edit(alloc, deck, edit)?)?;
    }
    Ok(told)
}

fn tell_edit(alloc: Global, deck: QueriedText<'_>, edit: &LineEdit) -> Result<Value, AllocError>
    ensures { IfOk result (λ json. view json ≡ edit_in_deck deck.entry edit.now) }
{
    let line = line_of(deck.document, edit.line);
    let units = Units {
        start: units_before(deck.encoding, line, edit.start),
        end: units_before(deck.encoding, line, edit.end),
    };
    let range = range_of(alloc, edit.line, units)?;
    replacement(alloc, &edit.text, range)
}

/// A text in the place of a range.
fn replacement(alloc: Global, text: &[u8], range: Value) -> Result<Value, AllocError>
    ensures { IfOk result (λ json. view json ≡ replaced text.now (view range)) }
{
    let text = String::from_utf8_lossy(alloc, text)?;
    json!(in alloc; {"newText": (&text), "range": range})
}

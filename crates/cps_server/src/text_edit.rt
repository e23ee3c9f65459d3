//! Edits of a text, as an editor makes them.
ghost use Rattle.std.specs.Prelude.{◌≡◌, map, IfOk, Some};
ghost use Rattle.serde_json.specs.View.{view};
ghost use Rattle.cps_server.specs.Code.Renaming.{edit_of, edits_of, open_of, versioned};
ghost use Rattle.cps_server.specs.Renames as renames;
ghost use Rattle.cps_server.specs.Renames.{change_of, edit_json, edits_json, edits_told, version_json};

use crate::mentions::line_of;
use crate::queried_text::QueriedText;
use crate::ranges::{Units, range_of};
use cps_list::View;
use cps_mention::LineEdit;
use cps_rpc::{Position, Range, units_before};
use serde_json::{Value, json};
use std::alloc::{AllocError, Global};

/// Text in the place of what stands in a line from so many units up to others.
#[derive(Clone, Copy)]
pub struct TextEdit<'a> {
    /// The line, from 0.
    pub line: u32,
    pub units: Units,
    /// The new text.
    pub text: &'a str,
}

impl<'a> TextEdit<'a> {
    /// Of an edit of a line of a deck's source. None: a character gives way that no line may have, and that the edit can't write.
    pub fn of(deck: QueriedText<'_>, edit: &'a LineEdit) -> Option<TextEdit<'a>> {
        let number = edit.line.saturating_sub(1);
        let line = line_of(deck.document, number);
        let card = deck.document.session().line(edit.line)?;
        let start = edit.first.saturating_sub(1);
        let end = edit.end.saturating_sub(1);
        if part(line, start, end) != part(card.bytes(), start, end) {
            return None;
        }
        let text = str::from_utf8(&edit.text).ok()?;
        let units = Units {
            start: units_before(deck.encoding, line, start),
            end: units_before(deck.encoding, line, end),
        };
        Some(TextEdit {
            line: number,
            units,
            text,
        })
    }

    /// What gives way.
    pub fn range(self) -> Range
        ensures { Some result ≡ (change_of (edit_of self.entry)).range }
    {
        let start = Position {
            line: self.line,
            character: self.units.start,
        };
        let end = Position {
            line: self.line,
            character: self.units.end,
        };
        Range { start, end }
    }

    /// It as an editor is told.
    fn tell(self, alloc: Global) -> Result<Value, AllocError>
        ensures { IfOk result (λ json. view json ≡ edit_json (edit_of self.entry)) }
    {
        let range = range_of(alloc, self.line, self.units)?;
        let text = self.text;
        json!(in alloc; {"newText": text, "range": range})
    }
}

/// Edits of a deck, as its editor is told them.
pub fn tell_edits(
    alloc: Global,
    deck: QueriedText<'_>,
    edits: &[TextEdit<'_>],
) -> Result<Value, AllocError>
    ensures { IfOk result (λ json. view json ≡ edits_told deck.entry.client (open_of deck.entry) (edits_of edits.now)) }
{
    let list = list_edits(alloc, edits)?;
    if deck.client.takes_versions {
        return tell_versioned(alloc, deck, list);
    }
    let uri = deck.uri;
    json!(in alloc; {"changes": {uri: list}})
}

/// A list of edits of the version that a deck has.
fn tell_versioned(alloc: Global, deck: QueriedText<'_>, list: Value) -> Result<Value, AllocError>
    ensures { IfOk result (λ json. view json ≡ versioned deck.entry.uri.now deck.entry.version (view list)) }
{
    let version = version_value(deck.version);
    let document = told_version(alloc, deck.uri, version)?;
    json!(in alloc; {"documentChanges": [{"edits": list, "textDocument": document}]})
}

/// A version of the document of a URI.
fn told_version(alloc: Global, uri: &str, version: Value) -> Result<Value, AllocError>
    ensures { IfOk result (λ json. view json ≡ renames.told_version uri.now (view version)) }
{
    json!(in alloc; {"uri": uri, "version": version})
}

/// A version; null where it isn't known.
fn version_value(version: Option<i64>) -> Value
    ensures { view result ≡ version_json version }
{
    match version {
        Some(version) => Value::from(version),
        None => Value::Null,
    }
}

/// Edits as an editor is told them, in a list.
pub fn list_edits(alloc: Global, edits: &[TextEdit<'_>]) -> Result<Value, AllocError>
    ensures { IfOk result (λ json. view json ≡ edits_json (edits_of edits.now)) }
{
    let mut told = Vec::new(alloc);
    for edit in edits {
        told.push(edit.tell(alloc)?)?;
    }
    Ok(Value::from(told))
}

/// What stands between two places of a line, as far as it reaches.
fn part(line: &[u8], start: usize, end: usize) -> &[u8] {
    let end = end.min(line.len());
    &line[start.min(end)..end]
}

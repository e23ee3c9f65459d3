//! What is shown beside lines.
ghost use Rattle.std.specs.Prelude.{◌≡◌, ◌≤◌, ◌-◌, length, map, option_map, flat_map, IfOk, OnOk};
ghost use Rattle.std.specs.List.{range_with_len};
ghost use Rattle.serde_json.specs.Data.{array};
ghost use Rattle.serde_json.specs.View.{items_of, view};
ghost use Rattle.cps_server.specs.Document.{source_of_text};
ghost use Rattle.cps_server.specs.Results as results;
ghost use Rattle.cps_server.specs.Code.Telling.{AddsTold, hint_of_deck};

use crate::document::Document;
use crate::hint::hint_of;
use crate::mentions::line_of;
use crate::queried_text::QueriedText;
use cps_list::View;
use cps_rpc::{Range, units_before};
use serde_json::{Value, json};
use std::alloc::{AllocError, Global};

/// What is shown at the ends of lines, from the first line of a range through its last.
pub fn hints_in(alloc: Global, deck: QueriedText<'_>, range: Range) -> Result<Value, AllocError>
    ensures { IfOk result (λ json. view json ≡ array (items_of (results.hints_in deck.entry.encoding deck.entry.document.now range))) }
{
    let count = deck.document.session().count();
    let end = count.min(range.end.line.saturating_add(1));
    let told = hints_between(alloc, deck, range.start.line, end)?;
    Ok(Value::from(told))
}

/// Those of the lines from one up to another, from 0.
fn hints_between(
    alloc: Global,
    deck: QueriedText<'_>,
    first: u32,
    end: u32,
) -> Result<Vec<Value>, AllocError>
    requires { end ≤ length (source_of_text deck.document.now) }
    ensures { IfOk result (λ told. map view told.items ≡ flat_map (hint_of_deck deck.entry) (range_with_len first (end - first))) }
{
    let mut told = Vec::new(alloc);
    for number in first..end {
        push_hint(alloc, deck, number + 1, &mut told)?;
    }
    Ok(told)
}

/// Appends what is shown beside the line of a number, from 1, if something is.
fn push_hint(
    alloc: Global,
    deck: QueriedText<'_>,
    number: u32,
    told: &mut Vec<Value>,
) -> Result<(), AllocError>
    requires { 1 ≤ number }
    ensures { OnOk result (AddsTold (hint_of_deck deck.entry (number - 1)) told.old.items told.new.items) }
{
    let text = text_beside(alloc, deck.document, number)?;
    let line = number - 1;
    let bytes = line_of(deck.document, line);
    let character = units_before(deck.encoding, bytes, bytes.len());
    push_text(alloc, told, line, character, text)
}

/// What is shown beside the line of a number, from 1.
fn text_beside(
    alloc: Global,
    document: &Document,
    number: u32,
) -> Result<Option<Vec<u8>>, AllocError>
    requires { 1 ≤ number }
    ensures { IfOk result (λ text. option_map (λ text. text.items) text ≡ results.text_beside document.now (number - 1)) }
{
    match document.session().outcome(number) {
        Some(outcome) => hint_of(alloc, outcome.rows()),
        None => Ok(None),
    }
}

/// Appends a text at the end of a line, if there is one.
fn push_text(
    alloc: Global,
    told: &mut Vec<Value>,
    line: u32,
    character: u32,
    text: Option<Vec<u8>>,
) -> Result<(), AllocError>
    ensures { OnOk result (AddsTold (results.hint_in line character (option_map (λ text. text.items) text)) told.old.items told.new.items) }
{
    if let Some(text) = text {
        told.push(hint(alloc, line, character, &text)?)?;
    }
    Ok(())
}

/// A text at the end of a line, behind so many units.
fn hint(alloc: Global, line: u32, character: u32, text: &[u8]) -> Result<Value, AllocError>
    ensures { IfOk result (λ json. view json ≡ results.hint line character text.now) }
{
    let label = String::from_utf8_lossy(alloc, text)?;
    json!(in alloc; {"label": (&label), "paddingLeft": true, "position": {"character": character, "line": line}})
}

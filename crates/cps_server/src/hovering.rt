//! What is shown at a position.
ghost use Rattle.std.specs.Prelude.{◌≡◌, ◌<◌, option_map, IfOk};
ghost use Rattle.serde_json.specs.View.{view};
ghost use Rattle.cps_edit.specs.Assembly.{assembly_of};
ghost use Rattle.cps_mention.specs.Agreement.{AreMentions};
ghost use Rattle.cps_server.specs.Document.{source_of_text};
ghost use Rattle.cps_server.specs.Hovers as hovers;
ghost use Rattle.cps_server.specs.Results as results;
ghost use Rattle.cps_server.specs.Code.Naming.{IsFront, ShowsNamed, ShowsWord, TellsHover, range_of_mention};

use crate::document::Document;
use crate::locations::{caret_at, known_mentions, spots_under, stretch_range};
use crate::manual_rows::manual_rows;
use crate::queried_text::QueriedText;
use crate::rows::{push_shown, shown_behind, symbol_row, word_row};
use cps_mention::{Caret, Meaning, Mention, Spot};
use cps_rpc::{Markup, Position};
use serde_json::{Value, json};
use std::alloc::{AllocError, Global};

/// What is shown at a position of a deck: rows of the name there, the rows of the line, and why it is flagged. It is null where no such line is assembled.
pub fn hover_at(
    alloc: Global,
    deck: QueriedText<'_>,
    position: Position,
) -> Result<Value, AllocError>
    ensures { IfOk result (λ json. TellsHover deck.entry position (view json)) }
{
    match known_mentions(alloc, deck.document)? {
        Some(mentions) => hover_named(alloc, deck, &mentions, position),
        None => hover_word(alloc, deck, position),
    }
}

fn hover_named(
    alloc: Global,
    deck: QueriedText<'_>,
    mentions: &[Mention],
    position: Position,
) -> Result<Value, AllocError>
    requires { AreMentions (assembly_of (source_of_text deck.document.now)) mentions.now }
    ensures { IfOk result (λ json. ShowsNamed deck.entry position (view json)) }
{
    let caret = caret_at(deck, position);
    let mention = caret.mention_in(mentions);
    let spots = spots_under(alloc, deck.document, mention, mentions)?;
    let front = front_of(alloc, deck, position, mention, &spots)?;
    let shown = shown_behind(alloc, deck.document, position.line, front)?;
    let range = range_named(alloc, deck, caret, mention)?;
    hover(alloc, deck.client.markup, shown, range)
}

fn hover_word(alloc: Global, deck: QueriedText<'_>, position: Position) -> Result<Value, AllocError>
    ensures { IfOk result (λ json. ShowsWord deck.entry position (view json)) }
{
    let front = word_row(alloc, deck.document, deck.encoding, position)?;
    let shown = shown_behind(alloc, deck.document, position.line, front)?;
    hover(alloc, deck.client.markup, shown, None)
}

/// What is shown first: the rows of the mention at a position, with its spots, or else what is told of the operation there.
fn front_of(
    alloc: Global,
    deck: QueriedText<'_>,
    position: Position,
    mention: Option<&Mention>,
    spots: &[Spot],
) -> Result<Vec<u8>, AllocError>
    ensures { IfOk result (λ front. IsFront deck.entry position mention.entry spots.now front.items) }
{
    match mention {
        Some(mention) => rows_meant(alloc, deck.document, position.line, mention.meaning, spots),
        None => manual_rows(alloc, deck, position),
    }
}

fn rows_meant(
    alloc: Global,
    document: &Document,
    line: u32,
    meaning: Meaning,
    spots: &[Spot],
) -> Result<Vec<u8>, AllocError>
    ensures { IfOk result (λ rows. rows.items ≡ hovers.rows_meant document.now line meaning spots.now) }
{
    match meaning {
        Meaning::Symbol(name) => symbol_row(alloc, document, name),
        _ => defining_rows(alloc, document, line, first_definition(spots)),
    }
}

/// The first spot that defines.
fn first_definition(spots: &[Spot]) -> Option<Spot>
    ensures { result ≡ hovers.first_definition spots.now }
{
    for spot in spots {
        if spot.kind.is_definition() {
            return Some(*spot);
        }
    }
    None
}

/// The rows of the line where a name is defined, unless that is this line, from 0.
fn defining_rows(
    alloc: Global,
    document: &Document,
    line: u32,
    spot: Option<Spot>,
) -> Result<Vec<u8>, AllocError>
    ensures { IfOk result (λ rows. rows.items ≡ hovers.defining_rows document.now line spot) }
{
    match spot {
        Some(spot) => rows_elsewhere(alloc, document, line, spot.stretch.line.saturating_sub(1)),
        None => Ok(Vec::new(alloc)),
    }
}

/// The rows of a line, unless that is this line, both from 0.
fn rows_elsewhere(
    alloc: Global,
    document: &Document,
    line: u32,
    defining: u32,
) -> Result<Vec<u8>, AllocError>
    requires { defining < u32.MAX }
    ensures { IfOk result (λ rows. rows.items ≡ hovers.rows_elsewhere document.now line defining) }
{
    let mut rows = Vec::new(alloc);
    if defining == line {
        return Ok(rows);
    }
    push_shown(&mut rows, document, defining)?;
    Ok(rows)
}

/// Where a mention stands at a caret.
fn range_named(
    alloc: Global,
    deck: QueriedText<'_>,
    caret: Caret,
    mention: Option<&Mention>,
) -> Result<Option<Value>, AllocError>
    ensures { IfOk result (λ range. option_map view range ≡ range_of_mention deck.entry caret mention.entry) }
{
    let Some(mention) = mention else {
        return Ok(None);
    };
    let Some(stretch) = caret.stretch_in(&mention.written) else {
        return Ok(None);
    };
    let range = stretch_range(alloc, deck, stretch)?;
    Ok(Some(range))
}

/// Rows, shown in a form, with the range of the name of which they are; null where there are none.
fn hover(
    alloc: Global,
    markup: Markup,
    shown: Option<Vec<u8>>,
    range: Option<Value>,
) -> Result<Value, AllocError>
    ensures { IfOk result (λ json. view json ≡ results.hover markup (option_map (λ text. text.items) shown) (option_map view range)) }
{
    let Some(rows) = shown else {
        return Ok(Value::Null);
    };
    let contents = contents(alloc, markup, &rows)?;
    match range {
        Some(range) => json!(in alloc; {"contents": contents, "range": range}),
        None => json!(in alloc; {"contents": contents}),
    }
}

fn contents(alloc: Global, markup: Markup, rows: &[u8]) -> Result<Value, AllocError>
    ensures { IfOk result (λ json. view json ≡ results.contents markup rows.now) }
{
    let text = marked(alloc, markup, rows)?;
    let name = markup_name(markup);
    let value = String::from_utf8_lossy(alloc, &text)?;
    json!(in alloc; {"kind": name, "value": (&value)})
}

/// Rows in a form: as they stand, or fenced as a block of code.
fn marked(alloc: Global, markup: Markup, rows: &[u8]) -> Result<Vec<u8>, AllocError>
    ensures { IfOk result (λ text. text.items ≡ results.marked markup rows.now) }
{
    let mut text = Vec::new(alloc);
    match markup {
        Markup::Plain => text.extend_from_slice(rows)?,
        Markup::Markdown => {
            text.extend_from_slice(b"```text\n")?;
            text.extend_from_slice(rows)?;
            text.extend_from_slice(b"```")?;
        }
    }
    Ok(text)
}

fn markup_name(markup: Markup) -> &'static str
    ensures { result.now ≡ results.markup_name markup }
{
    match markup {
        Markup::Plain => "plaintext",
        Markup::Markdown => "markdown",
    }
}

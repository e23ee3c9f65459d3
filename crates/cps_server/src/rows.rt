//! The rows of a line, and the row of a symbol.
ghost use Rattle.std.specs.Prelude.{◌≡◌, ◌≤◌, ◌<◌, ◌-◌, ◌++◌, option_map, IfOk, OnOk};
ghost use Rattle.cps_server.specs.Rows as texts;
ghost use Rattle.cps_server.specs.Symbols.{mentioned_row, row_at, symbol_row};

use crate::document::Document;
use crate::mentions::{mentions_of, pointed};
use crate::why::why_of;
use cps_final::{Finals, Gathered, Row};
use cps_list::{Mention, View, push_rows, push_symbol};
use cps_rpc::{Encoding, Position};
use cps_text::Name;
use std::alloc::{AllocError, Global};

/// The most rows of a line that are shown.
const MOST_ROWS: usize = 40;

/// What is shown of a line of a document's text, from 0, behind other rows: the rows that the listing has of it, of which the first 40 are shown, and a row for each cause
/// of its flags. None: no such line is assembled.
pub fn shown_behind(
    alloc: Global,
    document: &Document,
    line: u32,
    front: Vec<u8>,
) -> Result<Option<Vec<u8>>, AllocError>
    ensures { IfOk result (λ shown. texts.ShowsBehind document.now line front.items (option_map (λ text. text.items) shown)) }
{
    if line >= document.session().count() {
        return Ok(None);
    }
    let mut text = front;
    push_shown(&mut text, document, line)?;
    let why = why_of(alloc, document, line + 1)?;
    text.extend_from_slice(&why)?;
    Ok(Some(text))
}

/// The row that the cross-reference has of the symbol that the word at a position writes, if it has one.
pub fn word_row(
    alloc: Global,
    document: &Document,
    encoding: Encoding,
    position: Position,
) -> Result<Vec<u8>, AllocError>
    ensures { IfOk result (λ row. row.items ≡ row_at encoding document.now position) }
{
    match pointed(document, encoding, position) {
        Some(name) => symbol_row(alloc, document, name),
        None => Ok(Vec::new(alloc)),
    }
}

/// The row that the cross-reference has of a symbol, where a line mentions it.
pub fn symbol_row(alloc: Global, document: &Document, name: Name) -> Result<Vec<u8>, AllocError>
    ensures { IfOk result (λ row. row.items ≡ symbol_row document.now name) }
{
    let mentions = mentions_of(alloc, document, name)?;
    let mut row = Vec::new(alloc);
    push_mentioned(&mut row, document.session().finals(), name, &mentions)?;
    Ok(row)
}

/// Appends what is shown of the rows of a line, from 0; nothing where no such line is assembled.
pub fn push_shown(text: &mut Vec<u8>, document: &Document, line: u32) -> Result<(), AllocError>
    requires { line < u32.MAX }
    ensures { OnOk result (text.new.items ≡ text.old.items ++ texts.shown_rows document.now line) }
{
    let session = document.session();
    let number = line + 1;
    let Some(card) = session.line(number) else {
        return Ok(());
    };
    let Some(outcome) = session.outcome(number) else {
        return Ok(());
    };
    push_first_rows(text, number, card.bytes(), outcome.rows())
}

/// Appends the rows that the listing has of the line of a number, from 1; nothing where no such line is assembled.
pub fn push_line_listing(
    text: &mut Vec<u8>,
    document: &Document,
    number: u32,
) -> Result<(), AllocError>
    requires { 1 ≤ number }
    ensures { OnOk result (text.new.items ≡ text.old.items ++ texts.line_listing document.now (number - 1)) }
{
    let session = document.session();
    let Some(line) = session.line(number) else {
        return Ok(());
    };
    let Some(outcome) = session.outcome(number) else {
        return Ok(());
    };
    push_rows(text, number, line.bytes(), outcome.rows())
}

/// Appends the row of a symbol, from its mentions; nothing where it has none.
fn push_mentioned(
    text: &mut Vec<u8>,
    finals: &Finals,
    name: Name,
    mentions: &[Mention],
) -> Result<(), AllocError>
    ensures { OnOk result (text.new.items ≡ text.old.items ++ mentioned_row (⟦<Finals as Gathered>⟧.gathered finals.now) name mentions.now) }
{
    if mentions.is_empty() {
        return Ok(());
    }
    push_symbol(text, finals, name, mentions)
}

/// Appends the first rows of a line with its number, as the listing has them, and `..` in place of more.
fn push_first_rows(
    text: &mut Vec<u8>,
    number: u32,
    line: &[u8],
    rows: &[Row],
) -> Result<(), AllocError>
    ensures { OnOk result (text.new.items ≡ text.old.items ++ texts.first_rows number line.now rows.now) }
{
    push_rows(text, number, line, &rows[..MOST_ROWS.min(rows.len())])?;
    push_more(text, rows.len())
}

/// Appends what stands in place of more rows, where there are so many.
fn push_more(text: &mut Vec<u8>, count: usize) -> Result<(), AllocError>
    ensures { OnOk result (text.new.items ≡ text.old.items ++ texts.more_rows count) }
{
    if count > MOST_ROWS {
        text.extend_from_slice(b"..\n")?;
    }
    Ok(())
}

//! Lines that open, part and close others, at the names of their operations.
ghost use Rattle.std.specs.Prelude.{◌≡◌, ◌<◌, All, length, IfOk, IfSome};
ghost use Rattle.serde_json.specs.View.{view};
ghost use Rattle.cps_server.specs.Document.{source_of_text};
ghost use Rattle.cps_server.specs.Openers as told;
ghost use Rattle.cps_server.specs.Openers.{TellsPartner};
ghost use Rattle.cps_server.specs.Ranges.{IsInLine};
ghost use Rattle.cps_server.specs.Results.{TellsEach};
ghost use Rattle.cps_server.specs.Code.Naming as decks;

use crate::document::Document;
use crate::field::{Field, field_at};
use crate::folding_walk::FoldingWalk;
use crate::line_pairs::{LinePair, opener_of};
use crate::mentions::line_of;
use crate::queried_text::QueriedText;
use crate::ranges::columns_range;
use crate::word_locations::{highlight, location};
use crate::words::word_around;
use cps_cause::Card;
use cps_expr::Operation;
use cps_list::View;
use cps_rpc::{Position, place_in};
use serde_json::Value;
use std::alloc::{AllocError, Global};

/// How a partner counts, as the protocol has it: as a text.
const TEXT: u32 = 1;

/// Where the line opens that the one at a position parts or closes. None: no operation stands there that does, or nothing opened it. It takes time for each
/// line of the text.
pub fn opener_at(
    alloc: Global,
    deck: QueriedText<'_>,
    position: Position,
) -> Result<Option<Value>, AllocError>
    ensures { IfOk result (λ found. IfSome found (λ json. decks.TellsOpener deck.entry position (view json))) }
{
    if !closes(operation_at(alloc, deck, position)?) {
        return Ok(None);
    }
    let pairs = pairs_of(alloc, deck.document)?;
    let opener = opener_of(&pairs, position.line);
    if opener == position.line || opener >= deck.document.session().count() {
        return Ok(None);
    }
    let range = operation_range(alloc, deck, opener)?;
    let place = location(alloc, deck.uri, range)?;
    let told = alone(alloc, place)?;
    Ok(Some(told))
}

/// The lines that open, part and close the same lines as the one at a position. None: no operation stands there that does, or it stands alone. It takes time
/// for each line of the text.
pub fn partners_at(
    alloc: Global,
    deck: QueriedText<'_>,
    position: Position,
) -> Result<Option<Value>, AllocError>
    ensures { IfOk result (λ found. IfSome found (λ json. decks.TellsPartners deck.entry position (view json))) }
{
    if !has_partners(operation_at(alloc, deck, position)?) {
        return Ok(None);
    }
    let pairs = pairs_of(alloc, deck.document)?;
    let lines = partners_of(
        alloc,
        &pairs,
        position.line,
        deck.document.session().count(),
    )?;
    if lines.len() < 2 {
        return Ok(None);
    }
    let told = tell_partners(alloc, deck, &lines)?;
    Ok(Some(told))
}

/// The statement whose name stands at a position as an operation.
fn operation_at(
    alloc: Global,
    deck: QueriedText<'_>,
    position: Position,
) -> Result<Option<Operation>, AllocError>
    ensures { IfOk result (λ found. found ≡ told.operation_at deck.entry.encoding deck.entry.document.now position) }
{
    let field = field_at(alloc, deck, position)?;
    let line = line_of(deck.document, position.line);
    let at = place_in(deck.encoding, line, position.character);
    Ok(operation_in(field, Operation::named(word_around(line, at))))
}

/// An operation, if it stands in the field of operations.
fn operation_in(field: Field, named: Option<Operation>) -> Option<Operation>
    ensures { result ≡ told.operation_in field named }
{
    match field {
        Field::Operation => named,
        Field::Location | Field::Operand | Field::Remark => None,
    }
}

/// Whether a statement parts or closes lines.
fn closes(operation: Option<Operation>) -> bool
    ensures { result ≡ told.closes operation }
{
    match operation {
        Some(Operation::Else) => true,
        Some(Operation::Endif) => true,
        Some(Operation::Endd) => true,
        Some(Operation::Endm) => true,
        Some(Operation::End) => true,
        _ => false,
    }
}

/// Whether a statement opens, parts or closes lines.
fn has_partners(operation: Option<Operation>) -> bool
    ensures { result ≡ told.has_partners operation }
{
    match operation {
        Some(Operation::If) => true,
        Some(Operation::Compare(_)) => true,
        Some(Operation::Dup) => true,
        Some(Operation::Macro) => true,
        _ => closes(operation),
    }
}

/// The lines that part or close others.
fn pairs_of(alloc: Global, document: &Document) -> Result<Vec<LinePair>, AllocError> {
    Ok(FoldingWalk::over(alloc, document)?.into_pairs())
}

/// The line that opens lines of which a line is one, and those that part or close them, of so many.
fn partners_of(
    alloc: Global,
    pairs: &[LinePair],
    line: u32,
    count: u32,
) -> Result<Vec<u32>, AllocError>
    ensures { IfOk result (λ lines. All (λ partner. partner < count) lines.items) }
{
    let opener = opener_of(pairs, line);
    let mut lines = Vec::new(alloc);
    if opener < count {
        lines.push(opener)?;
    }
    for pair in pairs {
        if pair.opener == opener && pair.line < count {
            lines.push(pair.line)?;
        }
    }
    Ok(lines)
}

fn tell_partners(alloc: Global, deck: QueriedText<'_>, lines: &[u32]) -> Result<Value, AllocError>
    ensures { IfOk result (λ json. TellsEach TellsPartner lines.now (view json)) }
{
    let mut told = Vec::new(alloc);
    for line in lines {
        told.push(tell_partner(alloc, deck, *line)?)?;
    }
    Ok(Value::from(told))
}

fn tell_partner(alloc: Global, deck: QueriedText<'_>, line: u32) -> Result<Value, AllocError>
    ensures { IfOk result (λ json. TellsPartner line (view json)) }
{
    let range = operation_range(alloc, deck, line)?;
    highlight(alloc, TEXT, range)
}

/// Where the operation of a line stands. What no line may have counts as blanks.
fn operation_range(alloc: Global, deck: QueriedText<'_>, number: u32) -> Result<Value, AllocError>
    ensures { IfOk result (λ json. IsInLine number (view json)) }
{
    let line = line_of(deck.document, number);
    let read = match deck.document.session().line(number.saturating_add(1)) {
        Some(card) => card.bytes(),
        None => line,
    };
    let columns = Card::of(read).operation_or_all();
    columns_range(alloc, deck.encoding, line, number, columns)
}

/// A list of one.
fn alone(alloc: Global, json: Value) -> Result<Value, AllocError>
    ensures { IfOk result (λ list. view list ≡ told.alone (view json)) }
{
    let mut list = Vec::new(alloc);
    list.push(json)?;
    Ok(Value::from(list))
}

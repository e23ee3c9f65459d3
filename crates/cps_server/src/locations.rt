//! Where the name at a position stands.
ghost use Rattle.std.specs.Prelude.{◌≡◌, IfOk, IfSome};
ghost use Rattle.serde_json.specs.View.{view};
ghost use Rattle.cps_edit.specs.Assembly.{assembly_of};
ghost use Rattle.cps_mention.specs.Agreement.{AreMentions};
ghost use Rattle.cps_mention.specs.Spots.{AreSpots};
ghost use Rattle.cps_server.specs.Document.{source_of_text};
ghost use Rattle.cps_server.specs.Locations as told;
ghost use Rattle.cps_server.specs.Code.Naming as decks;
ghost use Rattle.cps_server.specs.Code.Naming.{lent};

use crate::document::Document;
use crate::mentions::line_of;
use crate::openers::{opener_at, partners_at};
use crate::queried_text::QueriedText;
use crate::ranges::columns_range;
use crate::word_locations::{
    first_definition, highlight, highlighted_lines, location, reading_lines,
};
use cps_cause::Columns;
use cps_list::View;
use cps_mention::{
    Caret, Mention, Spot, SpotKind, Stretch, agreeing_mentions, counted, keep_definitions, spots_of,
};
use cps_rpc::{Position, place_in};
use serde_json::Value;
use std::alloc::{AllocError, Global};

/// Where the name at a position is defined, or what opened the lines that its operation parts or closes. Of a symbol that SET gives several values these are the
/// definitions that counted there. It takes time for each line of the text.
pub fn definition_at(
    alloc: Global,
    deck: QueriedText<'_>,
    position: Position,
) -> Result<Value, AllocError>
    ensures { IfOk result (λ json. decks.TellsDefinition deck.entry position (view json)) }
{
    match opener_at(alloc, deck, position)? {
        Some(told) => Ok(told),
        None => defined_at(alloc, deck, position),
    }
}

fn defined_at(alloc: Global, deck: QueriedText<'_>, position: Position) -> Result<Value, AllocError>
    ensures { IfOk result (λ json. decks.TellsDefined deck.entry position (view json)) }
{
    match known_mentions(alloc, deck.document)? {
        Some(mentions) => tell_definition(alloc, deck, &mentions, position),
        None => first_definition(alloc, deck, position),
    }
}

/// Where the name at a position stands; without where it is defined, unless that is wanted. It takes time for each line of the text.
pub fn references_at(
    alloc: Global,
    deck: QueriedText<'_>,
    position: Position,
    definitions_too: bool,
) -> Result<Value, AllocError>
    ensures { IfOk result (λ json. decks.TellsReferences definitions_too deck.entry position (view json)) }
{
    match known_mentions(alloc, deck.document)? {
        Some(mentions) => tell_references(alloc, deck, &mentions, position, definitions_too),
        None => reading_lines(alloc, deck, position, definitions_too),
    }
}

/// The same with where it is defined, each as it counts; or the operations that open, part and close the same lines as the one at the position. It takes time
/// for each line of the text.
pub fn highlights_at(
    alloc: Global,
    deck: QueriedText<'_>,
    position: Position,
) -> Result<Value, AllocError>
    ensures { IfOk result (λ json. decks.TellsHighlights deck.entry position (view json)) }
{
    match partners_at(alloc, deck, position)? {
        Some(told) => Ok(told),
        None => places_at(alloc, deck, position),
    }
}

fn places_at(alloc: Global, deck: QueriedText<'_>, position: Position) -> Result<Value, AllocError>
    ensures { IfOk result (λ json. decks.TellsPlaces deck.entry position (view json)) }
{
    match known_mentions(alloc, deck.document)? {
        Some(mentions) => tell_highlights(alloc, deck, &mentions, position),
        None => highlighted_lines(alloc, deck, position),
    }
}

/// Where a document's text writes names, if that says all that its cross-reference has.
pub fn known_mentions(
    alloc: Global,
    document: &Document,
) -> Result<Option<Vec<Mention>>, AllocError>
    ensures { IfOk result (λ found. IfSome found (λ mentions. AreMentions (assembly_of (source_of_text document.now)) mentions.items)) }
{
    let session = document.session();
    let mentions = agreeing_mentions(alloc, session, session.traces())?;
    Ok(mentions)
}

fn tell_definition(
    alloc: Global,
    deck: QueriedText<'_>,
    mentions: &[Mention],
    position: Position,
) -> Result<Value, AllocError>
    requires { AreMentions (assembly_of (source_of_text deck.document.now)) mentions.now }
    ensures { IfOk result (λ json. decks.TellsNamedDefinition deck.entry position (view json)) }
{
    let mention = caret_at(deck, position).mention_in(mentions);
    let mut spots = spots_under(alloc, deck.document, mention, mentions)?;
    keep_definitions(&mut spots);
    let spots = counted_by(alloc, mention, spots)?;
    tell_locations(alloc, deck, &spots)
}

fn tell_references(
    alloc: Global,
    deck: QueriedText<'_>,
    mentions: &[Mention],
    position: Position,
    definitions_too: bool,
) -> Result<Value, AllocError>
    requires { AreMentions (assembly_of (source_of_text deck.document.now)) mentions.now }
    ensures { IfOk result (λ json. decks.TellsNamedReferences definitions_too deck.entry position (view json)) }
{
    let mention = caret_at(deck, position).mention_in(mentions);
    let mut spots = spots_under(alloc, deck.document, mention, mentions)?;
    spots.retain(|spot| definitions_too || !spot.kind.is_definition());
    tell_locations(alloc, deck, &spots)
}

fn tell_highlights(
    alloc: Global,
    deck: QueriedText<'_>,
    mentions: &[Mention],
    position: Position,
) -> Result<Value, AllocError>
    requires { AreMentions (assembly_of (source_of_text deck.document.now)) mentions.now }
    ensures { IfOk result (λ json. decks.TellsNamedHighlights deck.entry position (view json)) }
{
    let mention = caret_at(deck, position).mention_in(mentions);
    let spots = spots_under(alloc, deck.document, mention, mentions)?;
    tell_spots(alloc, deck, &spots)
}

/// A caret at a position of a deck.
pub fn caret_at(deck: QueriedText<'_>, position: Position) -> Caret
    ensures { result ≡ told.caret_at deck.entry.encoding deck.entry.document.now position }
{
    let line = line_of(deck.document, position.line);
    Caret {
        line: position.line.saturating_add(1),
        column: place_in(deck.encoding, line, position.character) + 1,
    }
}

/// The spots of what a mention means.
pub fn spots_under(
    alloc: Global,
    document: &Document,
    mention: Option<&Mention>,
    mentions: &[Mention],
) -> Result<Vec<Spot>, AllocError>
    ensures { IfOk result (λ spots. AreSpots (told.said_of mentions.now (lent mention.entry)) spots.items) }
{
    match mention {
        Some(mention) => {
            let hashing = document.session().finals().hashing();
            spots_of(alloc, hashing, mention.meaning, mentions)
        }
        None => Ok(Vec::new(alloc)),
    }
}

/// The definitions whose values counted for a mention.
fn counted_by(
    alloc: Global,
    mention: Option<&Mention>,
    spots: Vec<Spot>,
) -> Result<Vec<Spot>, AllocError>
    ensures { IfOk result (λ kept. kept.items ≡ told.counted_by (lent mention.entry) spots.items) }
{
    match mention {
        Some(mention) => counted(alloc, &mention.from, spots),
        None => Ok(spots),
    }
}

/// Where spots are.
fn tell_locations(alloc: Global, deck: QueriedText<'_>, spots: &[Spot]) -> Result<Value, AllocError>
    ensures { IfOk result (λ json. view json ≡ told.spot_locations deck.entry.encoding deck.entry.uri.now deck.entry.document.now spots.now) }
{
    let mut told = Vec::new(alloc);
    for spot in spots {
        let range = stretch_range(alloc, deck, spot.stretch)?;
        told.push(location(alloc, deck.uri, range)?)?;
    }
    Ok(Value::from(told))
}

/// Spots, each as it counts.
fn tell_spots(alloc: Global, deck: QueriedText<'_>, spots: &[Spot]) -> Result<Value, AllocError>
    ensures { IfOk result (λ json. view json ≡ told.spot_highlights deck.entry.encoding deck.entry.document.now spots.now) }
{
    let mut told = Vec::new(alloc);
    for spot in spots {
        let range = stretch_range(alloc, deck, spot.stretch)?;
        told.push(highlight(alloc, spot_kind(spot.kind), range)?)?;
    }
    Ok(Value::from(told))
}

/// How a spot counts, as the protocol has it: it writes, reads, or is a text alone.
fn spot_kind(kind: SpotKind) -> u32
    ensures { result ≡ told.spot_kind kind }
{
    match kind {
        SpotKind::Defined => 3,
        SpotKind::Used => 2,
        SpotKind::Idle => 1,
    }
}

/// The range of a stretch.
pub fn stretch_range(
    alloc: Global,
    deck: QueriedText<'_>,
    stretch: Stretch,
) -> Result<Value, AllocError>
    ensures { IfOk result (λ json. view json ≡ told.stretch_range deck.entry.encoding deck.entry.document.now stretch) }
{
    let number = stretch.line.saturating_sub(1);
    let columns = Columns {
        first: stretch.first,
        last: stretch.end.saturating_sub(1),
    };
    columns_range(
        alloc,
        deck.encoding,
        line_of(deck.document, number),
        number,
        columns,
    )
}

//! The name at a position, which may be called otherwise. What stands there is told by `cps_mention`.
ghost use Rattle.std.specs.Prelude.{◌≡◌, IfOk};
ghost use Rattle.serde_json.specs.View.{view};
ghost use Rattle.cps_server.specs.Code.Owing.{value_of};
ghost use Rattle.cps_server.specs.Renames as renames;
ghost use Rattle.cps_server.specs.Renames.{TellsName};
ghost use Rattle.cps_server.specs.Requests.{HasFailed, IsOwed};

use crate::document::Document;
use crate::mentions::line_of;
use crate::owed::Owed;
use crate::queried_text::QueriedText;
use crate::ranges::columns_range;
use cps_cause::Columns;
use cps_mention::{NamePlace, RenameFault, WrittenNames, name_at};
use cps_rpc::{Position, place_in};
use serde_json::{Value, json};
use std::alloc::{AllocError, Global};

/// Where the name at a position stands and what it is, or words that say why it can't be called otherwise.
pub fn owed_name(
    alloc: Global,
    deck: QueriedText<'_>,
    position: Position,
) -> Result<Owed, AllocError>
    ensures { IfOk result (λ owed. IsOwed (TellsName position) (value_of owed)) }
{
    let names = names_in(alloc, deck.document)?;
    match place_at(alloc, deck, &names, position)? {
        Ok(place) => tell_place(alloc, deck, position, place),
        Err(fault) => owed_fault(alloc, fault),
    }
}

/// Where a document writes names.
pub fn names_in(alloc: Global, document: &Document) -> Result<WrittenNames, AllocError> {
    let session = document.session();
    WrittenNames::of(alloc, session, session.traces())
}

/// The name at a position.
pub fn place_at(
    alloc: Global,
    deck: QueriedText<'_>,
    names: &WrittenNames,
    position: Position,
) -> Result<Result<NamePlace, RenameFault>, AllocError> {
    let line = line_of(deck.document, position.line);
    let at = place_in(deck.encoding, line, position.character);
    let number = position.line.saturating_add(1);
    name_at(alloc, &names.mentions, number, at.saturating_add(1))
}

/// Why a name can't be called otherwise, in words.
pub fn owed_fault(alloc: Global, fault: RenameFault) -> Result<Owed, AllocError>
    ensures { IfOk result (λ owed. HasFailed (value_of owed)) }
{
    let mut words = Vec::new(alloc);
    fault.push_words(&mut words)?;
    let words = String::from_utf8_lossy(alloc, &words)?;
    Ok(Owed::Failed(words))
}

fn tell_place(
    alloc: Global,
    deck: QueriedText<'_>,
    position: Position,
    place: NamePlace,
) -> Result<Owed, AllocError>
    ensures { IfOk result (λ owed. IsOwed (TellsName position) (value_of owed)) }
{
    let columns = Columns {
        first: place.stretch.first,
        last: place.stretch.end.saturating_sub(1),
    };
    let line = line_of(deck.document, position.line);
    let range = columns_range(alloc, deck.encoding, line, position.line, columns)?;
    let name = place.meaning.name();
    let json = place_json(alloc, range, name.text())?;
    Ok(Owed::Found(json))
}

fn place_json(alloc: Global, range: Value, name: &[u8]) -> Result<Value, AllocError>
    ensures { IfOk result (λ json. view json ≡ renames.place_json (view range) name.now) }
{
    let name = String::from_utf8_lossy(alloc, name)?;
    json!(in alloc; {"placeholder": (&name), "range": range})
}

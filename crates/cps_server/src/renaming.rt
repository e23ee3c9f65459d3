//! The edits that call a name otherwise. Which they are is a guess of `cps_mention`: the text is assembled with them, and they are told only where
//! that says that nothing else changes.
ghost use Rattle.std.specs.Prelude.{◌≡◌, None, Some, IsTrue, IfOk};
ghost use Rattle.serde_json.specs.View.{view};
ghost use Rattle.cps_server.specs.Code.Owing.{value_of};
ghost use Rattle.cps_server.specs.Code.Renaming.{OwesWish, TellsWish, wish_of};
ghost use Rattle.cps_server.specs.Renames.{IsSameText, IsWished};

use crate::document::Document;
use crate::mentions::pointed;
use crate::name_places::{names_in, owed_fault, place_at};
use crate::owed::Owed;
use crate::queried_text::QueriedText;
use crate::rename_wish::RenameWish;
use crate::text_edit::{TextEdit, tell_edits};
use cps_expr::is_same_name;
use cps_list::View;
use cps_mention::{
    Calling, RenameFault, Renaming, WrittenNames, is_same_but, line_named_otherwise,
    line_that_changed, rename_edits,
};
use cps_text::Name;
use serde_json::Value;
use std::alloc::{AllocError, Global};

/// A renaming of a deck that is tried.
#[derive(Clone, Copy)]
struct Trial<'a> {
    deck: QueriedText<'a>,
    wish: RenameWish<'a>,
    names: &'a WrittenNames,
    renaming: Renaming<'a>,
}

/// The edits that call the name at a position otherwise, or words that say why it can't be.
pub fn owed_rename(
    alloc: Global,
    deck: QueriedText<'_>,
    wish: RenameWish<'_>,
) -> Result<Owed, AllocError>
    ensures { IfOk result (λ owed. OwesWish deck.entry wish.entry (value_of owed)) }
{
    let names = names_in(alloc, deck.document)?;
    let place = match place_at(alloc, deck, &names, wish.position)? {
        Ok(place) => place,
        Err(fault) => return owed_fault(alloc, fault),
    };
    let renaming = Renaming {
        meaning: place.meaning,
        new_name: wish.new_name.as_bytes(),
        keeps_gaps: false,
    };
    let trial = Trial {
        deck,
        wish,
        names: &names,
        renaming,
    };
    match try_twice(alloc, trial)? {
        Ok(json) => Ok(Owed::Found(json)),
        Err(fault) => owed_fault(alloc, fault),
    }
}

/// Edits that keep the columns of other fields; where those would change a line, edits that keep the gaps between fields.
fn try_twice(alloc: Global, trial: Trial<'_>) -> Result<Result<Value, RenameFault>, AllocError>
    ensures { IfOk result (λ made. IfOk made (λ json. TellsWish trial.entry.deck trial.entry.wish (view json))) }
{
    match try_once(alloc, trial)? {
        Err(RenameFault::WouldChange { line }) => try_with_gaps(alloc, trial, line),
        made => Ok(made),
    }
}

/// Edits that keep the gaps between fields, where others would change a line.
fn try_with_gaps(
    alloc: Global,
    trial: Trial<'_>,
    line: u32,
) -> Result<Result<Value, RenameFault>, AllocError>
    ensures { IfOk result (λ made. IfOk made (λ json. TellsWish trial.entry.deck trial.entry.wish (view json))) }
{
    let renaming = Renaming {
        meaning: trial.renaming.meaning,
        new_name: trial.renaming.new_name,
        keeps_gaps: true,
    };
    let kept = Trial {
        deck: trial.deck,
        wish: trial.wish,
        names: trial.names,
        renaming,
    };
    match try_once(alloc, kept)? {
        Ok(json) => Ok(Ok(json)),
        Err(_) => Ok(Err(RenameFault::WouldChange { line })),
    }
}

/// Edits that nothing else changes by.
fn try_once(alloc: Global, trial: Trial<'_>) -> Result<Result<Value, RenameFault>, AllocError>
    ensures { IfOk result (λ made. IfOk made (λ json. TellsWish trial.entry.deck trial.entry.wish (view json))) }
{
    let session = trial.deck.document.session();
    let lines = match rename_edits(alloc, session, trial.names, trial.renaming)? {
        Ok(lines) => lines,
        Err(fault) => return Ok(Err(fault)),
    };
    let mut edits = Vec::new(alloc);
    for edit in &lines {
        match TextEdit::of(trial.deck, edit) {
            Some(edit) => edits.push(edit)?,
            None => return Ok(Err(RenameFault::WouldChange { line: edit.line })),
        }
    }
    certify(alloc, trial, &edits)
}

// ---- the certificate

/// Tells edits, where nothing else changes by them.
fn certify(
    alloc: Global,
    trial: Trial<'_>,
    edits: &[TextEdit<'_>],
) -> Result<Result<Value, RenameFault>, AllocError>
    ensures { IfOk result (λ made. IfOk made (λ json. TellsWish trial.entry.deck trial.entry.wish (view json))) }
{
    let deck = trial.deck;
    let calling = trial.renaming.calling();
    if !is_wished(deck, trial.wish, calling) {
        return Ok(Err(RenameFault::NothingHere));
    }
    let after = deck.document.with_edits(deck.encoding, edits)?;
    if let Some(line) = changed_line(alloc, deck.document, &after, calling)? {
        return Ok(Err(RenameFault::WouldChange { line }));
    }
    if let Some(line) = line_named(alloc, trial, &after)? {
        return Ok(Err(RenameFault::WouldChange { line }));
    }
    let json = tell_edits(alloc, deck, edits)?;
    Ok(Ok(json))
}

/// Whether no symbol is called otherwise, or the one that is wished by the name that is wished.
fn is_wished(deck: QueriedText<'_>, wish: RenameWish<'_>, calling: Calling) -> bool
    ensures { IsTrue result → IsWished deck.entry.encoding deck.entry.document.now (wish_of wish.entry) calling }
{
    match calling {
        Calling::Same => true,
        Calling::Renamed { from, to } => {
            is_name(pointed(deck.document, deck.encoding, wish.position), from)
                && is_name(Name::read(wish.new_name.as_bytes()), to)
        }
    }
}

fn is_name(found: Option<Name>, name: Name) -> bool
    ensures { IsTrue result → found ≡ Some name }
{
    match found {
        Some(found) => is_same_name(found, name),
        None => false,
    }
}

/// A line that would change. None: only what symbols are called changes.
pub fn changed_line(
    alloc: Global,
    before: &Document,
    after: &Document,
    calling: Calling,
) -> Result<Option<u32>, AllocError>
    ensures { IfOk result (λ line. line ≡ None → IsSameText calling before.now after.now) }
{
    if is_same_but(alloc, before.session(), after.session(), calling)? {
        Ok(None)
    } else {
        Ok(Some(line_that_changed(before.session(), after.session(), calling)))
    }
}

/// A line of which the names mean something else afterwards, as far as names are looked at.
fn line_named(
    alloc: Global,
    trial: Trial<'_>,
    after: &Document,
) -> Result<Option<u32>, AllocError> {
    let names = names_in(alloc, after)?;
    line_named_otherwise(
        alloc,
        &trial.names.mentions,
        &names.mentions,
        Some(trial.renaming),
    )
}

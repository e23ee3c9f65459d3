//! The symbols of the cross-reference to which links can lead.
ghost use Rattle.std.specs.Prelude.{◌≡◌, ◌&&◌, IsTrue, IfOk, OnOk};
ghost use Rattle.std.specs.Ordering.{is_lt};
ghost use Rattle.cps_list.specs.Symbols.{mentions_from, name_order};
ghost use Rattle.cps_markup.specs.PlaceLaws.{IsWritten};
ghost use Rattle.cps_page.specs.Code.Making as making;
ghost use Rattle.cps_page.specs.Code.Making.{AddsFirst, AddsMention, AreEntries};

use cps_list::{Mention, View, list_mentions};
use cps_markup::{Entry, Place};
use cps_text::Name;
use std::alloc::{AllocError, Global};
use std::cmp::Ordering;

/// The symbols that lines define, each with the first such line, in their order.
pub fn list_entries<V: View>(alloc: Global, view: &V) -> Result<Vec<Entry>, AllocError>
    ensures { IfOk result (λ entries. AreEntries (mentions_from 1 (V.assembly view.now).outcomes) entries.items) }
{
    let mut mentions = list_mentions(alloc, view)?;
    mentions.sort_by_key(|mention| mention.name)?;
    let entries = entries_of(alloc, &mentions)?;
    Ok(entries)
}

/// The symbols that mentions define, which stand in the order of the symbols.
fn entries_of(alloc: Global, mentions: &[Mention]) -> Result<Vec<Entry>, AllocError>
    ensures { IfOk result (λ entries. AreEntries mentions.now entries.items) }
{
    let mut entries = Vec::new(alloc);
    let mut last = None;
    for mention in mentions {
        last = add_entry(&mut entries, last, mention)?;
    }
    Ok(entries)
}

/// Adds the symbol of a mention, if that is the first to define it, and tells which is the last now.
fn add_entry(
    entries: &mut Vec<Entry>,
    last: Option<Name>,
    mention: &Mention,
) -> Result<Option<Name>, AllocError>
    ensures { IfOk result (λ now. AddsMention mention.now last now entries.old.items entries.new.items) }
{
    if is_first(last, mention) {
        add_first(entries, mention)?;
        return Ok(Some(mention.name));
    }
    Ok(last)
}

/// Whether a mention is the first to define a symbol, where the symbols up to the last one are done with.
fn is_first(last: Option<Name>, mention: &Mention) -> bool
    ensures { result ≡ (mention.now.is_definition && making.is_behind last mention.now.name) }
{
    mention.is_definition && is_behind(last, mention.name)
}

/// Adds the symbol of the first mention that defines it.
fn add_first(entries: &mut Vec<Entry>, mention: &Mention) -> Result<(), AllocError>
    ensures { OnOk result (AddsFirst mention.now entries.old.items entries.new.items) }
{
    if is_written(mention.name) {
        entries.push(Entry {
            name: mention.name,
            line: mention.line,
        })?;
        return Ok(());
    }
    Ok(())
}

/// Whether a symbol is the one that its characters write.
pub fn is_written(name: Name) -> bool
    ensures { IsTrue result → IsWritten (Place.Symbol name) }
{
    match Name::read(name.text()) {
        Some(again) => is_same(again, name),
        None => false,
    }
}

fn is_same(one: Name, other: Name) -> bool
    ensures { IsTrue result → one ≡ other }
{
    one == other
}

fn is_behind(last: Option<Name>, name: Name) -> bool
    ensures { result ≡ making.is_behind last name }
{
    match last {
        Some(last) => is_before(last, name),
        None => true,
    }
}

fn is_before(last: Name, name: Name) -> bool
    ensures { result ≡ is_lt (name_order last name) }
{
    match last.cmp(&name) {
        Ordering::Less => true,
        Ordering::Equal | Ordering::Greater => false,
    }
}

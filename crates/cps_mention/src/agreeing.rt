//! Mentions that say all that the cross-reference has.
ghost use Rattle.std.specs.Prelude.{◌≡◌, ◌++◌, All, Contains, IfOk, IfSome, OnOk, IsTrue};
ghost use Rattle.cps_mention.specs.declared.role.Role.TheVariants.{Defines};
ghost use Rattle.cps_mention.specs.Agreement as agreement;
ghost use Rattle.cps_mention.specs.Agreement.{AreMentions};

use crate::meaning::Meaning;
use crate::mention::Mention;
use crate::mentions::mentions_in;
use crate::role::Role;
use cps_expr::is_same_name;
use cps_list::{Mention as Entry, View, list_mentions};
use cps_state::{Hashing, Trace};
use cps_text::Name;
use indexmap::IndexMap;
use std::alloc::{AllocError, Global};

/// An entry of a cross-reference, to look it up.
#[derive(Clone, Copy, PartialEq, Eq, Hash)]
struct EntryKey {
    name: Name,
    line: u32,
    is_definition: bool,
}

/// Where each entry stands in a list.
type Places = IndexMap<EntryKey, usize, Hashing>;

impl EntryKey {
    fn of(entry: Entry) -> EntryKey {
        EntryKey {
            name: entry.name,
            line: entry.line,
            is_definition: entry.is_definition,
        }
    }
}

/// Where a source writes names, if that says all that its cross-reference has. None: it doesn't; no source is known of which that is so. The traces are those of pass one. It
/// takes time for each line, with the statements that it stands for.
pub fn agreeing_mentions<V: View>(
    alloc: Global,
    view: &V,
    traces: &[Trace],
) -> Result<Option<Vec<Mention>>, AllocError>
    ensures { IfOk result (λ found. IfSome found (λ mentions. AreMentions (V.assembly view.now) mentions.items)) }
{
    let mentions = mentions_in(alloc, view, traces)?;
    let entries = list_mentions(alloc, view)?;
    if say_all(alloc, view.finals().hashing(), &mentions, &entries)? {
        Ok(Some(mentions))
    } else {
        Ok(None)
    }
}

/// Whether mentions say all these entries.
fn say_all(
    alloc: Global,
    hashing: Hashing,
    mentions: &[Mention],
    entries: &[Entry],
) -> Result<bool, AllocError>
    ensures { IfOk result (λ all. IsTrue all → All (Contains (agreement.entries_said mentions.now)) entries.now) }
{
    let said = entries_said(alloc, mentions)?;
    let places = places_of(alloc, hashing, &said)?;
    Ok(has_all(&said, &places, entries))
}

/// Whether all of these entries stand in a list, where `places` tells to look.
fn has_all(said: &[Entry], places: &Places, entries: &[Entry]) -> bool
    ensures { IsTrue result → All (Contains said.now) entries.now }
{
    for entry in entries {
        let place = places.get(&EntryKey::of(*entry)).copied();
        if !stands_at(said, place, *entry) {
            return false;
        }
    }
    true
}

/// Whether an entry stands at a place in a list.
fn stands_at(said: &[Entry], place: Option<usize>, entry: Entry) -> bool
    ensures { IsTrue result → Contains said.now entry }
{
    match place {
        Some(place) => place < said.len() && equals(said[place], entry),
        None => false,
    }
}

fn equals(left: Entry, right: Entry) -> bool
    ensures { IsTrue result → left ≡ right }
{
    is_same_name(left.name, right.name)
        && left.line == right.line
        && left.is_definition == right.is_definition
}

/// Where each of these entries stands first.
fn places_of(alloc: Global, hashing: Hashing, said: &[Entry]) -> Result<Places, AllocError> {
    let mut places = IndexMap::with_hasher(alloc, hashing);
    for (place, entry) in said.iter().enumerate() {
        places.insert(EntryKey::of(*entry), place)?;
    }
    Ok(places)
}

/// What mentions say of a cross-reference.
fn entries_said(alloc: Global, mentions: &[Mention]) -> Result<Vec<Entry>, AllocError>
    ensures { IfOk result (λ said. said.items ≡ agreement.entries_said mentions.now) }
{
    let mut said = Vec::new(alloc);
    for mention in mentions {
        push_entries(&mut said, mention)?;
    }
    Ok(said)
}

fn push_entries(said: &mut Vec<Entry>, mention: &Mention) -> Result<(), AllocError>
    ensures { OnOk result (said.new.items ≡ said.old.items ++ agreement.entries_of mention.now) }
{
    match mention.meaning {
        Meaning::Symbol(name) => push_symbol(said, name, mention.role, &mention.by),
        _ => Ok(()),
    }
}

fn push_symbol(
    said: &mut Vec<Entry>,
    name: Name,
    role: Role,
    lines: &[u32],
) -> Result<(), AllocError>
    ensures { OnOk result (said.new.items ≡ said.old.items ++ agreement.entries_in role name lines.now) }
{
    match role {
        Role::Defines => push_definitions(said, name, lines),
        Role::Reads | Role::Clashes => push_lines(said, false, name, lines),
        _ => Ok(()),
    }
}

/// Lines that give a symbol a value. Where it had another, they are listed as reading it too.
fn push_definitions(said: &mut Vec<Entry>, name: Name, lines: &[u32]) -> Result<(), AllocError>
    ensures { OnOk result (said.new.items ≡ said.old.items ++ agreement.entries_in Defines name lines.now) }
{
    push_lines(said, true, name, lines)?;
    push_lines(said, false, name, lines)
}

fn push_lines(
    said: &mut Vec<Entry>,
    is_definition: bool,
    name: Name,
    lines: &[u32],
) -> Result<(), AllocError>
    ensures { OnOk result (said.new.items ≡ said.old.items ++ agreement.entries_as is_definition name lines.now) }
{
    for line in lines {
        said.push(Entry {
            name,
            line: *line,
            is_definition,
        })?;
    }
    Ok(())
}

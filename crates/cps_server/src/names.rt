//! Names that lines of a text define or read, each once.
ghost use Rattle.std.specs.Prelude.{◌≡◌, [], ◌∷◌, map, IfOk, OnOk};
ghost use Rattle.cps_final.specs.Layout.{puts_of};
ghost use Rattle.cps_list.specs.Symbols.{shown_names};
ghost use Rattle.cps_server.specs.Completions as completions;
ghost use Rattle.cps_server.specs.Code.Telling.{InsertsNames};

use crate::document::Document;
use crate::mentions::{definitions_in, mentions_in};
use cps_list::{Mention, View};
use cps_state::{Hashing, Key, Put, Trace};
use cps_text::Name;
use indexmap::IndexSet;
use std::alloc::{AllocError, Global};

/// Names, each once, in the order in which they were added.
pub type NameSet = IndexSet<Name, Hashing>;

/// No names.
pub fn no_names(alloc: Global, document: &Document) -> NameSet
    ensures { result.keys ≡ [] }
{
    IndexSet::with_hasher(alloc, document.session().finals().hashing())
}

/// The symbols that lines define.
pub fn defined_in(alloc: Global, document: &Document) -> Result<NameSet, AllocError>
    ensures { IfOk result (λ names. names.keys ≡ completions.defined_in document.now) }
{
    let definitions = definitions_in(alloc, document)?;
    let mut names = no_names(alloc, document);
    insert_names(&mut names, &definitions)?;
    Ok(names)
}

/// The symbols that lines read and none defines.
pub fn missing_in(alloc: Global, document: &Document) -> Result<NameSet, AllocError>
    ensures { IfOk result (λ names. names.keys ≡ completions.missing_in document.now) }
{
    let defined = defined_in(alloc, document)?;
    let mentions = mentions_in(alloc, document)?;
    let mut names = no_names(alloc, document);
    insert_missing(&mut names, &mentions, &defined)?;
    Ok(names)
}

/// The macros that lines define.
pub fn macros_in(alloc: Global, document: &Document) -> Result<NameSet, AllocError>
    ensures { IfOk result (λ names. names.keys ≡ completions.macros_in document.now) }
{
    let mut names = no_names(alloc, document);
    insert_macros(&mut names, document.session().traces())?;
    Ok(names)
}

/// The macros that lines above one define, from 0.
pub fn macros_above(alloc: Global, document: &Document, line: u32) -> Result<NameSet, AllocError> {
    let traces = document.session().traces();
    let mut names = no_names(alloc, document);
    insert_macros(&mut names, &traces[..(line as usize).min(traces.len())])?;
    Ok(names)
}

/// Inserts the symbols of mentions.
fn insert_names(names: &mut NameSet, mentions: &[Mention]) -> Result<(), AllocError>
    ensures { OnOk result (InsertsNames (map (λ mention. mention.name) mentions.now) names.old.keys names.new.keys) }
{
    for mention in mentions {
        names.insert(mention.name)?;
    }
    Ok(())
}

/// Inserts the symbols of mentions that aren't among others.
fn insert_missing(
    names: &mut NameSet,
    mentions: &[Mention],
    others: &NameSet,
) -> Result<(), AllocError>
    ensures { OnOk result (InsertsNames (completions.others_than others.now.keys mentions.now) names.old.keys names.new.keys) }
{
    for mention in mentions {
        insert_unless_among(names, mention.name, others)?;
    }
    Ok(())
}

fn insert_unless_among(names: &mut NameSet, name: Name, others: &NameSet) -> Result<(), AllocError>
    ensures { OnOk result (InsertsNames (completions.unless_among others.now.keys name) names.old.keys names.new.keys) }
{
    if !others.contains(&name) {
        names.insert(name)?;
    }
    Ok(())
}

/// Inserts the macros that lines define which did this.
fn insert_macros(names: &mut NameSet, traces: &[Trace]) -> Result<(), AllocError>
    ensures { OnOk result (InsertsNames (completions.macros_put (puts_of traces.now)) names.old.keys names.new.keys) }
{
    for trace in traces {
        insert_put(names, trace.puts())?;
    }
    Ok(())
}

fn insert_put(names: &mut NameSet, puts: &[Put]) -> Result<(), AllocError>
    ensures { OnOk result (InsertsNames (completions.macros_put puts.now) names.old.keys names.new.keys) }
{
    for put in puts {
        insert_macro(names, put.key)?;
    }
    Ok(())
}

fn insert_macro(names: &mut NameSet, key: Key) -> Result<(), AllocError>
    ensures { OnOk result (InsertsNames (completions.macro_of key) names.old.keys names.new.keys) }
{
    match key {
        Key::Macro(name) => insert_shown(names, name),
        _ => Ok(()),
    }
}

/// Inserts a name, unless it was generated.
fn insert_shown(names: &mut NameSet, name: Name) -> Result<(), AllocError>
    ensures { OnOk result (InsertsNames (shown_names (name ∷ [])) names.old.keys names.new.keys) }
{
    if !name.was_generated() {
        names.insert(name)?;
    }
    Ok(())
}

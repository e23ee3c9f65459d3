//! The names of a macro.
ghost use Rattle.std.specs.Prelude.{◌≡◌, ◌++◌, ◌∷◌, List, [], OnOk, OnErr, length, option_and_then, slice_get};
ghost use Rattle.cps_text.specs.Name.{name_of};
ghost use Rattle.cps_mention.specs.declared.macro_names.MacroName.{MacroName as MacroNameValue};
ghost use Rattle.cps_mention.specs.Code.MacroNames.{Indexes, IndexesNext, place_in};

use crate::stretch::Stretch;
use cps_text::Name;
use std::alloc::{AllocError, Global};
use std::collections::BTreeMap;
use std::marker::Model;

/// A parameter or a local name of a macro, and where it is defined.
#[derive(Clone, Copy)]
pub struct MacroName {
    pub name: Name,
    pub is_local: bool,
    pub defined: Stretch,
}

/// The names of a macro: its parameters, followed by its local names. Of two that are written alike the first counts.
#[derive(Drop)]
pub struct MacroNames {
    names: Vec<MacroName>,
    /// Places in these, by the names.
    index: BTreeMap<Name, usize>,
}

impl Model for MacroNames {
    ghost use Rattle.std.specs.Prelude.{List};
    ghost use Rattle.cps_mention.specs.Code.MacroNames.{Indexes};
    ghost use Rattle.cps_mention.specs.declared.macro_names.MacroName.{MacroName};

    ghost Value = { List MacroName };

    ghost view = { λ names. names.names.items };

    ghost invariant = { λ names. Indexes names.names.items names.index };
}

impl MacroNames {
    /// None yet. Takes no memory.
    pub fn new(alloc: Global) -> MacroNames
        ensures { result ≡ [] }
    {
        MacroNames {
            names: Vec::new(alloc),
            index: BTreeMap::new(alloc),
        }
    }

    /// One more name.
    pub fn add(&mut self, name: MacroName) -> Result<(), AllocError>
        ensures { OnOk result (self.new ≡ self.old ++ name ∷ []) }
    {
        self.names.reserve(1)?;
        enter(&mut self.index, name, self.names.len())?;
        self.names.push_reserved(name);
        Ok(())
    }

    /// Where a name stands among them, from 0.
    pub fn place_of(&self, name: Name) -> Option<usize>
        ensures { result ≡ place_in self.now name }
    {
        self.index.get(&name).copied()
    }

    /// That of the name that a run writes.
    pub fn place_of_run(&self, run: &[u8]) -> Option<usize>
        ensures { result ≡ option_and_then (place_in self.now) (name_of run.now) }
    {
        match Name::read(run) {
            Some(name) => self.place_of(name),
            None => None,
        }
    }

    /// The name at a place.
    pub fn get(&self, at: usize) -> Option<MacroName>
        ensures { result ≡ slice_get self.now at }
    {
        self.names.get(at).copied()
    }
}

/// One more name behind so many others; one written as another before it has no place in an index.
fn enter(
    index: &mut BTreeMap<Name, usize>,
    name: MacroName,
    before: usize,
) -> Result<(), AllocError>
    ensures ok { OnOk result (IndexesNext before name index.old index.new) }
    ensures err { OnErr result ((names : List MacroNameValue) → Indexes names index.old → Indexes names index.new) }
{
    if index.contains_key(&name.name) {
        return Ok(());
    }
    index.insert(name.name, before)?;
    Ok(())
}

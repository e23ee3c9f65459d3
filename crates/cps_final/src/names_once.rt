//! Names of one line after another, each once.
ghost use Rattle.std.specs.Prelude.{◌≡◌, [], OnOk};
ghost use Rattle.std.specs.List.{list_any};
ghost use Rattle.cps_expr.specs.Value.{same_name};
ghost use Rattle.cps_final.specs.LineNames.{defined_by, read_by};

use crate::line_names::{NameSet, insert_defined, insert_read};
use cps_expr::is_same_name;
use cps_state::{Hashing, Item, Put};
use cps_text::Name;
use indexmap::IndexSet;
use std::alloc::{AllocError, Global};
use std::marker::Model;

/// The most names that are looked through one by one.
const FEW: usize = 8;

/// Names, each once. A few stand in a list, more in a set that finds them by an index.
#[derive(Drop)]
pub struct NamesOnce {
    few: ShortList,
    many: IndexSet<Name, Hashing>,
}

impl Model for NamesOnce {
    ghost use Rattle.std.specs.Prelude.{List};
    ghost use Rattle.cps_text.specs.declared.name.Name.{Name};
    ghost use Rattle.cps_final.specs.Code.NamesKept.{few_or_many};

    ghost Value = { List Name };

    ghost view = { λ names. few_or_many names.few.names.items names.many.keys };
}

impl NamesOnce {
    /// None. Takes no memory yet.
    pub fn new(alloc: Global, hashing: Hashing) -> NamesOnce
        ensures { result ≡ [] }
    {
        NamesOnce {
            few: ShortList {
                names: Vec::new(alloc),
            },
            many: IndexSet::with_hasher(alloc, hashing),
        }
    }

    /// Puts the symbols that puts define in the place of those that stood here.
    pub fn replace_defined(&mut self, puts: &[Put]) -> Result<(), AllocError>
        ensures { OnOk result (self.new ≡ defined_by puts.now) }
    {
        self.few.names.clear();
        clear_set(&mut self.many);
        if insert_defined(&mut self.few, puts).is_ok() {
            return Ok(());
        }
        self.few.names.clear();
        insert_defined(&mut self.many, puts)
    }

    /// Puts the symbols that a line reads, now or later, in the place of those that stood here.
    pub fn replace_read(&mut self, reads: &[Name], items: &[Item]) -> Result<(), AllocError>
        ensures { OnOk result (self.new ≡ read_by reads.now items.now) }
    {
        self.few.names.clear();
        clear_set(&mut self.many);
        if insert_read(&mut self.few, reads, items).is_ok() {
            return Ok(());
        }
        self.few.names.clear();
        insert_read(&mut self.many, reads, items)
    }

    /// The names, in the order in which they came.
    pub fn as_slice(&self) -> &[Name]
        ensures { result.now ≡ self.now }
    {
        if self.many.is_empty() {
            self.few.names.as_slice()
        } else {
            self.many.as_slice()
        }
    }
}

/// A few names, each once. It has no room for more than a few.
#[derive(Drop)]
struct ShortList {
    names: Vec<Name>,
}

impl NameSet for ShortList {
    ghost names = { λ list. list.names.items };

    #[inline(always)]
    fn add(&mut self, name: Name) -> Result<(), AllocError> {
        if has_name(self.names.as_slice(), name) {
            return Ok(());
        }
        if self.names.len() >= FEW {
            return Err(AllocError);
        }
        self.names.push(name)?;
        Ok(())
    }
}

/// Removes all names. One without names is not gone through.
#[inline(always)]
fn clear_set(names: &mut IndexSet<Name, Hashing>)
    ensures { names.new.keys ≡ [] }
{
    if !names.is_empty() {
        names.clear();
    }
}

/// Whether a name is among a few.
#[inline(always)]
pub fn has_name(names: &[Name], name: Name) -> bool
    ensures { result ≡ list_any (same_name name) names.now }
{
    names.iter().any(|other| is_same_name(name, *other))
}

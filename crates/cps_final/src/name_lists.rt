//! The symbols of a line that is kept, in lists without room for more.
ghost use Rattle.std.specs.Prelude.{◌≡◌, [], IfOk};
ghost use Rattle.cps_final.specs.LineNames.{names_defined, names_read};

use crate::kept_names::KeptNames;
use crate::line_names::{NameSet, insert_defined, insert_read};
use crate::names_once::has_name;
use cps_state::{Hashing, Trace};
use cps_text::Name;
use indexmap::IndexSet;
use std::alloc::{AllocError, Global};

/// The most names that are looked through one by one.
const FEW: usize = 8;

/// The symbols that a line defines, each once.
pub fn list_defined(alloc: Global, hashing: Hashing, trace: &Trace) -> Result<KeptNames, AllocError>
    ensures { IfOk result (λ names. names ≡ names_defined trace.now) }
{
    let mut few = FewNames::new(alloc);
    if insert_defined(&mut few, trace.puts()).is_ok() {
        return Ok(few.names);
    }
    let mut names = IndexSet::with_hasher(alloc, hashing);
    insert_defined(&mut names, trace.puts())?;
    KeptNames::copy_of(alloc, names.as_slice())
}

/// The symbols that a line reads, now or later, each once.
pub fn list_read(alloc: Global, hashing: Hashing, trace: &Trace) -> Result<KeptNames, AllocError>
    ensures { IfOk result (λ names. names ≡ names_read trace.now) }
{
    let mut few = FewNames::new(alloc);
    if insert_read(&mut few, trace.reads(), trace.items()).is_ok() {
        return Ok(few.names);
    }
    let mut names = IndexSet::with_hasher(alloc, hashing);
    insert_read(&mut names, trace.reads(), trace.items())?;
    KeptNames::copy_of(alloc, names.as_slice())
}

/// A few names, each once, in a list that takes room for one after another. It has no room for more than a few.
#[derive(Drop)]
struct FewNames {
    alloc: Global,
    names: KeptNames,
}

impl FewNames {
    /// None. Takes no memory yet.
    fn new(alloc: Global) -> FewNames
        ensures { result.names ≡ [] }
    {
        FewNames {
            alloc,
            names: KeptNames::new(),
        }
    }
}

impl NameSet for FewNames {
    ghost names = { λ few. few.names };

    fn add(&mut self, name: Name) -> Result<(), AllocError> {
        let names = self.names.as_slice();
        if has_name(names, name) {
            return Ok(());
        }
        if names.len() >= FEW {
            return Err(AllocError);
        }
        self.names.push(self.alloc, name)
    }
}

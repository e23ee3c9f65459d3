//! Which symbols lines read, in a set that only grows.
ghost use Rattle.std.specs.Prelude.{◌≡◌, ◌∷◌, [], true, OnOk};
ghost use Rattle.cps_live.specs.Code.NamesRead.{HasRead, StillHas, has_all, has_name, items_of};

use cps_chunk::SparseItem;
use cps_final::Outcome;
use cps_state::Hashing;
use cps_text::Name;
use indexmap::IndexSet;
use std::alloc::{AllocError, Global};

/// All symbols that some lines read, and perhaps others.
#[derive(Drop)]
pub struct NamesRead {
    names: IndexSet<Name, Hashing>,
}

impl NamesRead {
    /// None. Takes no memory yet.
    pub fn new(alloc: Global, hashing: Hashing) -> NamesRead
        ensures { result.names.keys ≡ [] }
    {
        NamesRead {
            names: IndexSet::with_hasher(alloc, hashing),
        }
    }

    /// Whether a symbol is among them.
    pub fn has(&self, name: Name) -> bool
        ensures { result ≡ has_name self.now name }
    {
        self.names.contains(&name)
    }

    /// With these. Where there is no memory, none goes.
    fn add(&mut self, names: &[Name]) -> Result<(), AllocError>
        ensures still { StillHas self.old self.new }
        ensures added { OnOk result (has_all self.new names.now ≡ true) }
    {
        for name in names {
            self.names.insert(*name)?;
        }
        Ok(())
    }

    /// With those that lines read, of which pass two makes this.
    pub fn add_all(&mut self, outcomes: &[Outcome]) -> Result<(), AllocError>
        ensures still { StillHas self.old self.new }
        ensures read { OnOk result (HasRead self.new outcomes.now) }
    {
        for outcome in outcomes {
            self.add(outcome.names_read())?;
        }
        Ok(())
    }

    /// With those that a line reads, of which pass two makes this.
    pub fn add_one(&mut self, outcome: &Outcome) -> Result<(), AllocError>
        ensures still { StillHas self.old self.new }
        ensures read { OnOk result (HasRead self.new (outcome.now ∷ [])) }
    {
        self.add(outcome.names_read())
    }

    /// With those that lines read, of which pass two makes this anew.
    pub fn add_renewed(&mut self, renewed: &[SparseItem<Outcome>]) -> Result<(), AllocError>
        ensures still { StillHas self.old self.new }
        ensures read { OnOk result (HasRead self.new (items_of renewed.now)) }
    {
        for new in renewed {
            self.add(new.item.names_read())?;
        }
        Ok(())
    }
}

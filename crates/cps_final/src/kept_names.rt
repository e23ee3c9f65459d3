//! Names of which most lines have one alone.
ghost use Rattle.std.specs.Prelude.{◌≡◌, ◌++◌, [], ◌∷◌, IfOk, OnOk};

use cps_text::Name;
use std::alloc::{AllocError, Global};
use std::marker::Model;
use std::mem::replace;
use std::slice::from_ref;

/// Names, one after another. One alone is kept in place, so that a line with few takes little room.
#[derive(Drop)]
pub struct KeptNames {
    kept: NameSlots,
}

#[derive(Drop)]
enum NameSlots {
    Empty,
    One(Name),
    Several(Box<Vec<Name>>),
}

impl Model for KeptNames {
    ghost use Rattle.std.specs.Prelude.{List};
    ghost use Rattle.cps_text.specs.declared.name.Name.{Name};
    ghost use Rattle.cps_final.specs.Code.NamesKept.{names_in};

    ghost Value = { List Name };

    ghost view = { λ names. names_in names.kept };
}

impl KeptNames {
    /// None. Takes no memory.
    pub fn new() -> KeptNames
        ensures { result ≡ [] }
    {
        KeptNames {
            kept: NameSlots::Empty,
        }
    }

    /// Of these names.
    pub fn copy_of(alloc: Global, names: &[Name]) -> Result<KeptNames, AllocError>
        ensures { IfOk result (λ copy. copy ≡ names.now) }
    {
        let mut copy = Vec::with_capacity(alloc, names.len())?;
        copy.extend_from_slice(names)?;
        let copy = Box::new(alloc, copy)?;
        Ok(KeptNames {
            kept: NameSlots::Several(copy),
        })
    }

    /// One name more. Its list has no room for another.
    pub fn push(&mut self, alloc: Global, name: Name) -> Result<(), AllocError>
        ensures { OnOk result (self.new ≡ self.old ++ name ∷ []) }
    {
        self.kept = match replace(&mut self.kept, NameSlots::Empty) {
            NameSlots::Empty => NameSlots::One(name),
            NameSlots::One(first) => {
                let mut names = Vec::with_capacity(alloc, 2)?;
                names.push(first)?;
                names.push(name)?;
                NameSlots::Several(Box::new(alloc, names)?)
            }
            NameSlots::Several(mut names) => {
                names.reserve_exact(1)?;
                names.push_reserved(name);
                NameSlots::Several(names)
            }
        };
        Ok(())
    }

    /// The names, in their order.
    pub fn as_slice(&self) -> &[Name]
        ensures { result.now ≡ self.now }
    {
        match &self.kept {
            NameSlots::Empty => &[],
            NameSlots::One(name) => from_ref(name),
            NameSlots::Several(names) => names.as_slice(),
        }
    }
}

//! The symbols of one line after another.
ghost use Rattle.std.specs.Prelude.{◌≡◌, [], OnOk};
ghost use Rattle.cps_final.specs.LineNames.{defined_by, read_by};

use crate::names_once::NamesOnce;
use cps_state::{Hashing, Item, Put};
use cps_text::Name;
use std::alloc::{AllocError, Global};
use std::marker::Model;

/// The symbols that a line defines and those that it reads, each once. Those of one line can be put in the place of another's.
#[derive(Drop)]
pub struct LineSymbols {
    defined: NamesOnce,
    read: NamesOnce,
}

impl Model for LineSymbols {
    ghost use Rattle.cps_final.specs.LineNames.{LineSymbols};

    ghost Value = { LineSymbols };

    ghost view = { λ symbols. record { defined = symbols.defined; read = symbols.read } };
}

impl LineSymbols {
    /// Of a line without symbols. Takes no memory yet.
    pub fn new(alloc: Global, hashing: Hashing) -> LineSymbols
        ensures { result ≡ record { defined = []; read = [] } }
    {
        LineSymbols {
            defined: NamesOnce::new(alloc, hashing),
            read: NamesOnce::new(alloc, hashing),
        }
    }

    /// Puts the symbols of a line, by what it put, read in pass one and made, in the place of those that stood here.
    pub fn replace(
        &mut self,
        puts: &[Put],
        reads: &[Name],
        items: &[Item],
    ) -> Result<(), AllocError>
        ensures { OnOk result (self.new ≡ record { defined = defined_by puts.now; read = read_by reads.now items.now }) }
    {
        self.defined.replace_defined(puts)?;
        self.read.replace_read(reads, items)
    }

    /// The symbols that the line defines.
    pub fn defined(&self) -> &[Name]
        ensures { result.now ≡ self.now.defined }
    {
        self.defined.as_slice()
    }

    /// The symbols that the line reads, now or later.
    pub fn read(&self) -> &[Name]
        ensures { result.now ≡ self.now.read }
    {
        self.read.as_slice()
    }
}

//! Where symbols and blocks are defined, as far as lines are looked at.

use crate::stretch::Stretch;
use crate::told::Origin;
use cps_state::{Key, Put};
use cps_text::Name;
use std::alloc::{AllocError, Global};
use std::collections::BTreeMap;

/// Where symbols and blocks are defined, as far as lines are looked at.
#[derive(Drop)]
pub struct Definitions {
    pub labels: BTreeMap<Name, Stretch>,
    /// By SET, the last one.
    settings: BTreeMap<Name, Stretch>,
    blocks: BTreeMap<Name, Stretch>,
}

impl Definitions {
    /// Before the first line. Takes no memory.
    pub fn new(alloc: Global) -> Definitions {
        Definitions {
            labels: BTreeMap::new(alloc),
            settings: BTreeMap::new(alloc),
            blocks: BTreeMap::new(alloc),
        }
    }

    /// Where the value of a symbol comes from that a statement takes as it is read.
    pub fn of_value(&self, name: Name) -> Option<Origin> {
        let place = match self.settings.get(&name) {
            Some(place) => Some(place),
            None => self.labels.get(&name),
        };
        place.map(|place| Origin::Here(*place))
    }

    /// Where that of a symbol comes from that a statement takes after the last line, unless SET had given it one.
    pub fn of_later_value(&self, name: Name) -> Origin {
        match self.settings.get(&name) {
            Some(place) => Origin::Here(*place),
            None => Origin::Label(name),
        }
    }

    /// Where a block was first in use.
    pub fn of_block(&self, name: Name) -> Option<Stretch> {
        self.blocks.get(&name).copied()
    }

    /// A symbol is defined here, as the puts of its statement say it.
    pub fn define(&mut self, name: Name, puts: &[Put], place: Stretch) -> Result<(), AllocError> {
        if is_set(name, puts) {
            self.settings.insert(name, place)?;
        } else {
            self.labels.insert(name, place)?;
        }
        Ok(())
    }

    /// A block is in use here, for the first time.
    pub fn begin_block(&mut self, name: Name, place: Stretch) -> Result<(), AllocError> {
        self.blocks.insert(name, place)?;
        Ok(())
    }
}

/// Whether SET gives a symbol a value.
fn is_set(name: Name, puts: &[Put]) -> bool {
    puts.iter().any(|put| match put.key {
        Key::Setting(other) => other == name,
        _ => false,
    })
}

//! Keys that are sought in many filters.
ghost use Rattle.std.specs.Prelude.{◌≡◌, ◌++◌, ◌∷◌, [], OnOk};
ghost use Rattle.std.specs.List.{list_any};
ghost use Rattle.cps_chunk.specs.KeyFilter.{has, mark_of};

use crate::key_filter::{KeyFilter, mark_of};
use cps_state::{Hashing, Key};
use std::alloc::{AllocError, Global};
use std::marker::Model;

/// The marks of some keys. Each key is hashed once, and not for each filter in which it is sought.
#[derive(Drop)]
pub struct SoughtKeys {
    marks: Vec<usize>,
}

impl Model for SoughtKeys {
    ghost use Rattle.std.specs.Prelude.{ℕ, List};

    ghost Value = { List ℕ };

    ghost view = { λ sought. sought.marks.items };
}

impl SoughtKeys {
    /// No key. Takes no memory yet.
    pub fn new(alloc: Global) -> SoughtKeys
        ensures { result ≡ [] }
    {
        SoughtKeys {
            marks: Vec::new(alloc),
        }
    }

    /// With a key more.
    pub fn seek(&mut self, hashing: Hashing, key: Key) -> Result<(), AllocError>
        ensures { OnOk result (self.new ≡ self.old ++ mark_of hashing key ∷ []) }
    {
        self.marks.push(mark_of(hashing, key))?;
        Ok(())
    }

    /// Whether one of them has its bits in a filter.
    pub fn has_bits_in(&self, filter: &KeyFilter) -> bool
        ensures { result ≡ list_any (has filter.now) self.now }
    {
        self.marks.iter().any(|mark| filter.has(*mark))
    }
}

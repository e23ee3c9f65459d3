//! Final values as they were before a patch.
ghost use Rattle.std.specs.Prelude.{◌≡◌};
ghost use Rattle.cps_state.specs.Keys.{first_state, labels_of};
ghost use Rattle.cps_final.specs.Code.FormerFinals.{finals_before, values_before};
ghost use Rattle.cps_final.specs.Finals.{label, block as block_named, literal};
ghost use Rattle.cps_final.specs.Code.Storage.{stored};

use crate::finals::Finals;
use crate::finals_patch::FinalsPatch;
use crate::storage::Storage;
use cps_expr::{Names, Value};
use cps_state::{Key, value_of};
use cps_text::Name;

/// The final values before a patch, of which what it gave back is left: they are looked up there first.
#[derive(Clone, Copy)]
pub struct FormerFinals<'a> {
    pub finals: &'a Finals,
    pub patch: &'a FinalsPatch,
}

impl<'a> FormerFinals<'a> {
    /// The final value that a symbol had, None for one that was not defined.
    pub fn label(self, name: Name) -> Option<Value>
        ensures { result ≡ values_before self.entry (label name) }
    {
        let value = self.value_of(name)?;
        self.storage().final_of(value)
    }

    /// The address that a block had; None: it had no put.
    pub fn base(self, block: Option<Name>) -> Option<Value>
        ensures { result ≡ values_before self.entry (block_named block) }
    {
        self.storage().base(block)
    }

    /// The address that a literal had, None for a word that was none.
    pub fn literal(self, word: u64) -> Option<Value>
        ensures { result ≡ values_before self.entry (literal word) }
    {
        self.storage().literal(word)
    }

    /// The value that a symbol had, in its block.
    fn value_of(self, name: Name) -> Option<Value>
        ensures { result ≡ labels_of (finals_before self.entry).state name }
    {
        match self.patch.changes.find(&Key::Label(name)) {
            Some(answer) => value_of(answer.as_ref()),
            None => self.finals.state().value_of(name),
        }
    }

    /// Where blocks and literals stood.
    fn storage(self) -> &'a Storage
        ensures { stored result.now ≡ record (finals_before self.entry) { state = first_state } }
    {
        match &self.patch.storage {
            Some(storage) => storage,
            None => &self.finals.storage,
        }
    }
}

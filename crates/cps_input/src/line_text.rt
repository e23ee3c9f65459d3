//! The lines of a source, one behind another in one text.
ghost use Rattle.std.specs.Prelude.{◌≡◌, ◌<◌, [], ◌∷◌, ◌++◌, Some, length, slice_get, IfOk, OnOk};

use crate::parts::part_at;
use std::alloc::{AllocError, Global};
use std::marker::Model;

/// The lines of a source, one behind another in one text.
#[derive(Drop)]
pub struct LineText {
    text: Vec<u8>,
    /// How many bytes of the text stand before the end of each line.
    ends: Vec<usize>,
}

impl Model for LineText {
    ghost use Rattle.std.specs.Prelude.{ℕ, List, length};
    ghost use Rattle.cps_input.specs.Code.Parts.{parts_at, RisesTo};

    ghost Value = { List (List ℕ) };

    ghost view = { λ lines. parts_at 0 lines.ends.items lines.text.items };

    ghost invariant = { λ lines. RisesTo 0 lines.ends.items (length lines.text.items) };
}

impl LineText {
    /// No line. Takes no memory yet.
    pub fn new(alloc: Global) -> LineText
        ensures { result ≡ [] }
    {
        LineText {
            text: Vec::new(alloc),
            ends: Vec::new(alloc),
        }
    }

    /// One more line.
    pub fn push(&mut self, line: &[u8]) -> Result<(), AllocError>
        ensures { OnOk result (self.new ≡ self.old ++ line.now ∷ []) }
    {
        self.ends.reserve(1)?;
        self.text.extend_from_slice(line)?;
        self.ends.push_reserved(self.text.len());
        Ok(())
    }

    /// How many lines.
    pub fn len(&self) -> usize
        ensures { result ≡ length self.now }
    {
        self.ends.len()
    }

    /// The line behind so many others.
    pub fn line(&self, before: usize) -> &[u8]
        requires { before < length self.now }
        ensures { slice_get self.now before ≡ Some result.now }
    {
        part_at(&self.text, &self.ends, before)
    }
}

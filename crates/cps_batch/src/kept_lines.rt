//! The statements of lines, kept for pass two.
ghost use Rattle.std.specs.Prelude.{◌≡◌, ◌<◌, [], ◌∷◌, ◌++◌, Some, length, slice_get, IfOk, OnOk};
ghost use Rattle.cps_state.specs.Code.Scratch.{statements_on};
ghost use Rattle.cps_input.specs.Code.Parts.{RisesTo, parts_at};
ghost use Rattle.cps_batch.specs.Code.KeptLines.{EndsLine, statements_in};

use cps_input::part_at;
use cps_state::{Item, Scratch};
use std::alloc::{AllocError, Global};
use std::marker::Model;
use std::mem::replace;

/// Statements are kept together up to so many, and those of one line more. Their memory goes back as one.
const MOST_TOGETHER: usize = 16_384;

/// The statements of lines that are kept together.
#[derive(Drop)]
pub struct KeptLines {
    scratch: Scratch,
    /// How many statements stand before the end of each line's.
    ends: Vec<usize>,
}

impl Model for KeptLines {
    ghost use Rattle.std.specs.Prelude.{List, length};
    ghost use Rattle.cps_state.specs.declared.item.Item.{Item};
    ghost use Rattle.cps_state.specs.Code.Scratch.{statements_on};
    ghost use Rattle.cps_input.specs.Code.Parts.{parts_at, RisesTo};

    ghost Value = { List (List Item) };

    ghost view = { λ kept. parts_at 0 kept.ends.items (statements_on kept.scratch) };

    ghost invariant = { λ kept. RisesTo 0 kept.ends.items (length (statements_on kept.scratch)) };
}

impl KeptLines {
    /// How many lines.
    pub fn len(&self) -> usize
        ensures { result ≡ length self.now }
    {
        self.ends.len()
    }

    /// The statements of the line behind so many others.
    pub fn items(&self, before: usize) -> &[Item]
        requires { before < length self.now }
        ensures { slice_get self.now before ≡ Some result.now }
    {
        part_at(self.scratch.all_items(), &self.ends, before)
    }
}

/// The statements of all lines, but for those that stand on a scratch.
#[derive(Drop)]
pub struct KeptStatements {
    /// Those of the lines before.
    groups: Vec<KeptLines>,
    /// How many statements on the scratch stand before the end of each line's.
    ends: Vec<usize>,
}

impl KeptStatements {
    /// Of no line. Takes no memory yet.
    pub fn none(alloc: Global) -> KeptStatements
        ensures groups { result.groups.items ≡ [] }
        ensures ends { result.ends.items ≡ [] }
    {
        KeptStatements {
            groups: Vec::new(alloc),
            ends: Vec::new(alloc),
        }
    }

    /// A line ends behind the statements on a scratch. Where they are many by now, they are kept as a group, and the scratch is another.
    pub fn end_line(&mut self, alloc: Global, scratch: &mut Scratch) -> Result<(), AllocError>
        requires { RisesTo 0 self.old.ends.items (length scratch.old.before) }
        ensures { OnOk result (EndsLine self.old self.new scratch.old scratch.new) }
    {
        let count = scratch.all_items().len();
        self.ends.push(count)?;
        if count >= MOST_TOGETHER {
            let full = replace(scratch, Scratch::new(alloc));
            self.end_group(alloc, full)?;
        }
        Ok(())
    }

    /// The statements on a scratch are kept as a group.
    fn end_group(&mut self, alloc: Global, scratch: Scratch) -> Result<(), AllocError>
        requires { RisesTo 0 self.old.ends.items (length (statements_on scratch)) }
        ensures ends { OnOk result (self.new.ends.items ≡ []) }
        ensures groups { OnOk result (statements_in self.new.groups.items
            ≡ statements_in self.old.groups.items ++ parts_at 0 self.old.ends.items (statements_on scratch)) }
    {
        let ends = replace(&mut self.ends, Vec::new(alloc));
        self.groups.push(KeptLines { scratch, ends })?;
        Ok(())
    }

    /// The statements of all lines, the last of which stand on this scratch.
    pub fn into_groups(self, scratch: Scratch) -> Result<Vec<KeptLines>, AllocError>
        requires { RisesTo 0 self.ends.items (length (statements_on scratch)) }
        ensures { IfOk result (λ groups. statements_in groups.items
            ≡ statements_in self.groups.items ++ parts_at 0 self.ends.items (statements_on scratch)) }
    {
        let KeptStatements { groups, ends } = self;
        let mut groups = groups;
        groups.push(KeptLines { scratch, ends })?;
        Ok(groups)
    }
}

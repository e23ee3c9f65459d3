//! The statements of a line.
ghost use Rattle.std.specs.Prelude.{◌≡◌};
ghost use Rattle.cps_state.specs.Item.{blank_item, standing_in, with_made, with_flags};

use crate::flags::Flags;
use crate::made::Made;
use crate::shared::Shared;
use cps_text::Name;

/// Whether a statement has a place, and in which block.
#[derive(Clone, Copy, PartialEq, Eq)]
pub enum Stand {
    /// It has none: it did not ask where the block in use stands.
    Nowhere,
    /// In a block; None is the nominal one.
    In(Option<Name>),
}

/// A statement: how deep in expansions it is, 0 for a source line; its text, empty for a source line's own statement; the block of its place; and what
/// it made.
#[derive(Drop)]
pub struct Item {
    pub depth: u8,
    pub stand: Stand,
    pub text: Shared<u8>,
    pub made: Made,
}

impl Item {
    /// Of a statement that has begun.
    pub fn blank(depth: u8, text: Shared<u8>) -> Item
        ensures { result ≡ blank_item depth text }
    {
        Item {
            depth,
            text,
            stand: Stand::Nowhere,
            made: Made::nothing(Flags::none()),
        }
    }

    /// The statement has its place in a block.
    pub fn stand_in(&mut self, block: Option<Name>)
        ensures { self.new ≡ standing_in block self.old }
    {
        self.stand = Stand::In(block);
    }

    /// What the statement made.
    #[inline(always)]
    pub fn fill(&mut self, made: Made)
        ensures { self.new ≡ with_made made self.old }
    {
        self.made = made;
    }

    /// More flags.
    pub fn mark(&mut self, flags: Flags)
        ensures { self.new ≡ with_flags flags self.old }
    {
        self.made.mark(flags);
    }
}

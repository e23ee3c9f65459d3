//! Where an editor's caret stands.
ghost use Rattle.std.specs.Prelude.{◌≡◌, find, option_map};
ghost use Rattle.std.specs.List.{list_any};
ghost use Rattle.cps_mention.specs.Spots as spots;

use crate::mention::Mention;
use crate::stretch::Stretch;

/// Where an editor's caret stands: in front of a column of a line, both from 1.
#[derive(Clone, Copy)]
pub struct Caret {
    pub line: u32,
    pub column: usize,
}

impl Caret {
    /// The mention here. The place behind a name belongs to it, unless another begins there.
    pub fn mention_in(self, mentions: &[Mention]) -> Option<&Mention>
        ensures { option_map (λ mention. mention.now) result ≡ spots.mention_at self mentions.now }
    {
        match self.first_in(false, mentions) {
            Some(mention) => Some(mention),
            None => self.first_in(true, mentions),
        }
    }

    /// The stretch of a mention here.
    pub fn stretch_in(self, stretches: &[Stretch]) -> Option<Stretch>
        ensures { result ≡ spots.stretch_at self stretches.now }
    {
        match self.first_of(false, stretches) {
            Some(stretch) => Some(stretch),
            None => self.first_of(true, stretches),
        }
    }

    fn first_of(self, behind: bool, stretches: &[Stretch]) -> Option<Stretch>
        ensures { result ≡ find (spots.is_at behind self) stretches.now }
    {
        for stretch in stretches {
            if self.is_at(behind, *stretch) {
                return Some(*stretch);
            }
        }
        None
    }

    /// The first mention with a stretch around the caret, or with one that it stands behind.
    fn first_in(self, behind: bool, mentions: &[Mention]) -> Option<&Mention>
        ensures { option_map (λ mention. mention.now) result ≡ spots.first_at behind self mentions.now }
    {
        for mention in mentions {
            if self.is_at_one(behind, &mention.written) {
                return Some(mention);
            }
        }
        None
    }

    fn is_at_one(self, behind: bool, stretches: &[Stretch]) -> bool
        ensures { result ≡ list_any (spots.is_at behind self) stretches.now }
    {
        stretches.iter().any(|stretch| self.is_at(behind, *stretch))
    }

    fn is_at(self, behind: bool, stretch: Stretch) -> bool
        ensures { result ≡ spots.is_at behind self stretch }
    {
        if behind {
            stretch.line == self.line && stretch.end == self.column
        } else {
            stretch.line == self.line && stretch.first <= self.column && self.column < stretch.end
        }
    }
}

//! The operands of a statement, one after another.
ghost use Rattle.std.specs.Prelude.{◌≡◌, ◌+◌, ◌^◌, ◌≤◌, length, take};
ghost use Rattle.std.specs.Iterator.{YieldsFirstRef, item_count};
ghost use Rattle.cps_text.specs.Operands.{operands_of};
ghost use Rattle.cps_text.specs.Code.OperandsLeft.{operands_left};
ghost use Rattle.cps_text.specs.Parts.{with_commas};

use crate::operand::operand_len;
use crate::part::{begins_blank, behind_comma};

/// The operands that are left to come.
#[derive(Drop)]
pub struct Operands<'a> {
    /// The text that begins the next one.
    rest: Option<&'a [u8]>,
}

impl<'a> Operands<'a> {
    /// The operands of a tail.
    pub(crate) fn new(tail: &'a [u8]) -> Operands<'a>
        ensures list { operands_left result ≡ operands_of tail.now }
        ensures front { take (length (with_commas (operands_left result))) tail.now ≡ with_commas (operands_left result) }
        ensures few { length (operands_left result) ≤ length tail.now + 1 }
        ensures fits { length (operands_left result) ≤ 2 ^ 63 }
    {
        if begins_blank(tail) {
            Operands { rest: None }
        } else {
            Operands { rest: Some(tail) }
        }
    }
}

impl<'a> Iterator for Operands<'a> {
    type Item = &'a [u8];

    ghost next_gives = { YieldsFirstRef operands_left };

    ghost remaining = { item_count operands_left };

    #[inline(always)]
    fn next(&mut self) -> Option<&'a [u8]> {
        let rest = self.rest?;
        let (operand, behind) = rest.split_at(operand_len(rest));
        self.rest = behind_comma(behind);
        Some(operand)
    }
}

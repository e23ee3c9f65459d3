//! The operands of a tail.
ghost use Rattle.std.specs.Prelude.{◌≡◌, ◌+◌, ◌^◌, ◌≤◌, length, take};
ghost use Rattle.cps_text.specs.Operands.{operands_of};
ghost use Rattle.cps_text.specs.Code.OperandsLeft.{operands_left};
ghost use Rattle.cps_text.specs.Parts.{with_commas};

use crate::operand_list::Operands;

/// The parts of a tail between its commas and before its first blank. Commas and blanks of a data item behind the `=` that begins a part don't count.
/// With commas between them the parts are the front of the tail.
pub fn operands(tail: &[u8]) -> Operands<'_>
    ensures list { operands_left result ≡ operands_of tail.now }
    ensures front { take (length (with_commas (operands_left result))) tail.now ≡ with_commas (operands_left result) }
    ensures few { length (operands_left result) ≤ length tail.now + 1 }
    ensures fits { length (operands_left result) ≤ 2 ^ 63 }
{
    Operands::new(tail)
}

//! Operands that name a thing: the program of IDENT, the radix of BASE, the block of USE.
ghost use Rattle.std.specs.Prelude.{◌≡◌};
ghost use Rattle.cps_text.specs.Name.{name_of};
ghost use Rattle.cps_text.specs.Operands.{operands_of};
ghost use Rattle.cps_expr.specs.OperandList.{first_one};
ghost use Rattle.cps_expr.specs.Row.{radix_of, block_named, block_of};

use crate::pseudo::Block;
use crate::radix::Radix;
use crate::text::is_text;
use cps_text::{Name, capital, operands};

/// The first operand as a symbol.
pub(crate) fn read_program(tail: &[u8]) -> Option<Name>
    ensures { result ≡ first_one name_of (operands_of tail.now) }
{
    let mut operands = operands(tail);
    match operands.next() {
        Some(operand) => Name::read(operand),
        None => None,
    }
}

/// The radix that the first operand begins with.
pub(crate) fn read_base(tail: &[u8]) -> Option<Radix>
    ensures { result ≡ first_one radix_of (operands_of tail.now) }
{
    let mut operands = operands(tail);
    match operands.next() {
        Some(operand) => read_radix(operand),
        None => None,
    }
}

fn read_radix(text: &[u8]) -> Option<Radix>
    ensures { result ≡ radix_of text.now }
{
    match text {
        [letter, ..] if capital(*letter) == b'O' => Some(Radix::Octal),
        [letter, ..] if capital(*letter) == b'D' => Some(Radix::Decimal),
        _ => None,
    }
}

/// The block of no operand or the only one.
pub(crate) fn read_block(tail: &[u8]) -> Option<Block>
    ensures { result ≡ block_of (operands_of tail.now) }
{
    let mut operands = operands(tail);
    let Some(operand) = operands.next() else {
        return Some(Block::Nominal);
    };
    if operands.next().is_some() {
        return None;
    }
    block_named(operand)
}

fn block_named(text: &[u8]) -> Option<Block>
    ensures { result ≡ block_named text.now }
{
    if is_text(text, b"0") {
        return Some(Block::Nominal);
    }
    if is_text(text, b"*") {
        return Some(Block::Previous);
    }
    match Name::read(text) {
        Some(name) => Some(Block::Named(name)),
        None => None,
    }
}

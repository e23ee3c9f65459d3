//! The front of an instruction's row.
ghost use Rattle.std.specs.Prelude.{◌≡◌, ◌++◌, ◌≤◌, OnOk};
ghost use Rattle.cps_check.specs.Front as laid;

use itoa::Buffer;
use std::alloc::AllocError;

/// The columns of a name.
const NAME_COLUMNS: usize = 6;

/// The columns of the operands.
const OPERANDS_COLUMNS: usize = 10;

/// The columns of a code.
pub const CODE_COLUMNS: usize = 12;

/// Appends a name, operands, and how many bits a code has.
pub fn push_front(
    text: &mut Vec<u8>,
    name: &[u8],
    operands: &[u8],
    bits: u8,
) -> Result<(), AllocError>
    ensures { OnOk result (text.new.items ≡ text.old.items ++ laid.front name.now operands.now bits) }
{
    push_at_left(text, NAME_COLUMNS, name)?;
    push_at_left(text, OPERANDS_COLUMNS, operands)?;
    text.extend_from_slice(Buffer::new().format(bits).as_bytes())?;
    text.extend_from_slice(b" bits  ")
}

/// Appends a text at the left of so many columns.
pub fn push_at_left(text: &mut Vec<u8>, width: usize, shown: &[u8]) -> Result<(), AllocError>
    requires { width ≤ 12 }
    ensures { OnOk result (text.new.items ≡ text.old.items ++ laid.at_left width shown.now) }
{
    text.extend_from_slice(shown)?;
    push_blanks(text, width.saturating_sub(shown.len()))
}

fn push_blanks(text: &mut Vec<u8>, count: usize) -> Result<(), AllocError>
    requires { count ≤ 12 }
    ensures { OnOk result (text.new.items ≡ text.old.items ++ laid.blanks count) }
{
    text.resize(text.len() + count, b' ')
}

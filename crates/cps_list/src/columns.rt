//! Rows of columns.
ghost use Rattle.std.specs.Prelude.{◌≡◌, ◌++◌, ◌≤◌, OnOk, length, decimal};
ghost use Rattle.cps_list.specs.Columns as laid;
ghost use Rattle.cps_list.specs.Code.Front.{RowBecomes};

use itoa::Buffer;
use std::alloc::AllocError;

/// The columns before the address.
pub const BEFORE_ADDRESS: usize = 9;

/// The octal digits of an address.
pub const ADDRESS_DIGITS: u8 = 6;

/// The columns before the code.
pub const BEFORE_CODE: usize = 16;

/// The columns before a line's number.
pub const BEFORE_NUMBER: usize = 37;

/// The columns of a line's number.
pub const NUMBER_COLUMNS: usize = 6;

/// The columns before the line.
pub const BEFORE_LINE: usize = 44;

/// Fills the columns that a row takes from a length of a text on.
pub fn fill_columns(text: &mut Vec<u8>, before: usize, columns: usize) -> Result<(), AllocError>
    requires within { before ≤ length text.old.items }
    requires few { columns ≤ 44 }
    ensures row { RowBecomes result text.old.items text.new.items before (laid.at_left columns) }
    ensures grows { OnOk result (length text.old.items ≤ length text.new.items) }
{
    let used = text.len() - before;
    push_blanks(text, columns.saturating_sub(used))
}

fn push_blanks(text: &mut Vec<u8>, count: usize) -> Result<(), AllocError>
    requires { count ≤ 44 }
    ensures { OnOk result (text.new.items ≡ text.old.items ++ laid.blanks count) }
{
    text.resize(text.len() + count, b' ')
}

/// A text at the right of so many columns.
pub fn push_at_right(text: &mut Vec<u8>, width: usize, shown: &[u8]) -> Result<(), AllocError>
    requires { width ≤ 44 }
    ensures { OnOk result (text.new.items ≡ text.old.items ++ laid.at_right width shown.now) }
{
    push_blanks(text, width.saturating_sub(shown.len()))?;
    text.extend_from_slice(shown)
}

/// The last so many characters of a text.
pub fn last_of(count: usize, text: &[u8]) -> &[u8]
    ensures { result.now ≡ laid.last_of count text.now }
{
    &text[text.len().saturating_sub(count)..]
}

pub fn push_decimal(text: &mut Vec<u8>, number: u64) -> Result<(), AllocError>
    ensures { OnOk result (text.new.items ≡ text.old.items ++ decimal number) }
{
    text.extend_from_slice(Buffer::new().format(number).as_bytes())
}

//! Rows that may be wider than those of a listing.
ghost use Rattle.std.specs.Prelude.{◌≡◌, ◌++◌, ◌≤◌, ◌^◌, OnOk, length};
ghost use Rattle.cps_list.specs.Columns as laid;
ghost use Rattle.cps_list.specs.Code.Front.{RowBecomes};

use std::alloc::AllocError;

/// Fills the columns that a row takes from a length of a text on.
pub fn fill_wide(text: &mut Vec<u8>, before: usize, columns: usize) -> Result<(), AllocError>
    requires within { before ≤ length text.old.items }
    requires few { columns ≤ 2 ^ 40 }
    ensures row { RowBecomes result text.old.items text.new.items before (laid.at_left columns) }
    ensures grows { OnOk result (length text.old.items ≤ length text.new.items) }
{
    let used = text.len() - before;
    push_blanks(text, columns.saturating_sub(used))
}

fn push_blanks(text: &mut Vec<u8>, count: usize) -> Result<(), AllocError>
    requires { count ≤ 2 ^ 40 }
    ensures { OnOk result (text.new.items ≡ text.old.items ++ laid.blanks count) }
{
    text.resize(text.len() + count, b' ')
}

//! The flags text.
ghost use Rattle.std.specs.Prelude.{◌≡◌, ◌++◌, ◌+◌, ◌<◌, ◌≤◌, ◌^◌, OnOk};
ghost use Rattle.cps_state.specs.Flags.{has_flag};
ghost use Rattle.cps_list.specs.Flagged as texts;

use crate::columns::push_decimal;
use cps_state::Flags;
use std::alloc::AllocError;

/// The rest of the flags text after the rows of the lines, of which so many have a flag.
pub fn push_end(text: &mut Vec<u8>, is_open: bool, count: u64) -> Result<(), AllocError>
    ensures { OnOk result (text.new.items ≡ text.old.items ++ (texts.end_row is_open ++ texts.count_row count)) }
{
    push_end_row(text, is_open)?;
    push_count(text, count)
}

fn push_count(text: &mut Vec<u8>, count: u64) -> Result<(), AllocError>
    ensures { OnOk result (text.new.items ≡ text.old.items ++ texts.count_row count) }
{
    push_decimal(text, count)?;
    text.extend_from_slice(b" flagged lines\n")?;
    Ok(())
}

/// One for a line with flags.
pub fn count_of(flags: Flags) -> u64
    ensures count { result ≡ texts.count_if (has_flag flags) }
    ensures one { result ≤ 1 }
{
    if flags.has_flag() { 1 } else { 0 }
}

/// One more where a range is open at the end.
pub fn with_end(count: u64, is_open: bool) -> u64
    requires { count < 2 ^ 32 }
    ensures { result ≡ count + texts.count_if is_open }
{
    if is_open { count + 1 } else { count }
}

/// The row of a line with these flags.
pub fn push_row(text: &mut Vec<u8>, number: u32, flags: Flags) -> Result<(), AllocError>
    ensures { OnOk result (text.new.items ≡ text.old.items ++ texts.flag_row number flags) }
{
    if !flags.has_flag() {
        return Ok(());
    }
    push_decimal(text, u64::from(number))?;
    text.push(b' ')?;
    flags.push_letters(text)?;
    text.push(b'\n')?;
    Ok(())
}

/// The row of the end of a source where a range is open.
fn push_end_row(text: &mut Vec<u8>, is_open: bool) -> Result<(), AllocError>
    ensures { OnOk result (text.new.items ≡ text.old.items ++ texts.end_row is_open) }
{
    if is_open {
        text.extend_from_slice(b"end E\n")?;
    }
    Ok(())
}

//! The rows that show where in a line something is.
ghost use Rattle.std.specs.Prelude.{◌≡◌, ◌++◌, OnOk, replicate};
ghost use Rattle.cps_check.specs.Rows as rows;

use cps_cause::push_cleaned;
use cps_list::push_decimal;
use itoa::Buffer;
use std::alloc::AllocError;

/// The columns of a line's number.
const NUMBER_COLUMNS: usize = 5;

/// Appends a line behind its number.
pub fn push_line_row(text: &mut Vec<u8>, number: u32, line: &[u8]) -> Result<(), AllocError>
    ensures { OnOk result (text.new.items ≡ text.old.items ++ rows.line_row number line.now) }
{
    let mut buffer = Buffer::new();
    let digits = buffer.format(number).as_bytes();
    push_repeated(text, b' ', NUMBER_COLUMNS.saturating_sub(digits.len()))?;
    text.extend_from_slice(digits)?;
    text.extend_from_slice(b" | ")?;
    text.extend_from_slice(line)?;
    text.extend_from_slice(b"\n")
}

/// Appends carets below the columns behind so many, up to the last; one at least.
pub fn push_caret_row(text: &mut Vec<u8>, before: usize, last: usize) -> Result<(), AllocError>
    ensures { OnOk result (text.new.items ≡ text.old.items ++ rows.caret_row before last) }
{
    text.extend_from_slice(b"      | ")?;
    push_repeated(text, b' ', before)?;
    text.extend_from_slice(b"^")?;
    push_repeated(text, b'^', last.saturating_sub(before).saturating_sub(1))?;
    text.extend_from_slice(b"\n")
}

/// Appends a statement of the line's expansion, without control characters, and how often it comes; nothing where it is empty.
pub fn push_statement_row(
    text: &mut Vec<u8>,
    statement: &[u8],
    times: u32,
) -> Result<(), AllocError>
    ensures { OnOk result (text.new.items ≡ text.old.items ++ rows.statement_row statement.now times) }
{
    if statement.is_empty() {
        return Ok(());
    }
    push_stated_row(text, statement, times)
}

fn push_stated_row(text: &mut Vec<u8>, statement: &[u8], times: u32) -> Result<(), AllocError>
    ensures { OnOk result (text.new.items ≡ text.old.items ++ rows.stated_row statement.now times) }
{
    text.extend_from_slice(b"      = in its expansion: ")?;
    push_cleaned(text, unindented(statement))?;
    push_times(text, times)?;
    text.extend_from_slice(b"\n")
}

/// A text from its first character on that is no blank.
fn unindented(text: &[u8]) -> &[u8]
    ensures { result.now ≡ rows.unindented text.now }
{
    match text {
        [b' ', rest @ ..] => unindented(rest),
        _ => text,
    }
}

fn push_times(text: &mut Vec<u8>, times: u32) -> Result<(), AllocError>
    ensures { OnOk result (text.new.items ≡ text.old.items ++ rows.times_text times) }
{
    if times <= 1 {
        return Ok(());
    }
    text.extend_from_slice(b" (")?;
    push_decimal(text, u64::from(times))?;
    text.extend_from_slice(b" times)")
}

/// Appends a byte so many times.
fn push_repeated(text: &mut Vec<u8>, byte: u8, count: usize) -> Result<(), AllocError>
    ensures { OnOk result (text.new.items ≡ text.old.items ++ replicate count byte) }
{
    for _at in 0..count {
        text.push(byte)?;
    }
    Ok(())
}

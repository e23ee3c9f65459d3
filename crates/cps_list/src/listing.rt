//! The listing.
ghost use Rattle.std.specs.Prelude.{◌≡◌, ◌++◌, ◌+◌, ◌≤◌, ℕ, List, IsTrue, OnOk, true, false, length, take};
ghost use Rattle.cps_state.specs.Flags.{has_flag};
ghost use Rattle.cps_list.specs.Columns.{with_columns, at_right, laid_out};
ghost use Rattle.cps_list.specs.Code.Front.{HasFront, HasRow, IsNarrow, RowBecomes, front_columns, with_text};
ghost use Rattle.cps_list.specs.Listing.{code_text, second_text};
ghost use Rattle.cps_list.specs.Listing as texts;

use crate::columns::{
    ADDRESS_DIGITS, BEFORE_ADDRESS, BEFORE_CODE, BEFORE_LINE, BEFORE_NUMBER, NUMBER_COLUMNS,
    fill_columns, last_of, push_at_right,
};
use crate::front::write_front;
use cps_final::{OctalDigits, Row};
use cps_text::push_octal;
use itoa::Buffer;
use std::alloc::AllocError;

/// The most columns that a statement's text takes.
const TEXT_COLUMNS: usize = 90;

/// The columns of a code.
const CODE_COLUMNS: u8 = 20;

/// The rows of a line.
pub fn push_rows(
    text: &mut Vec<u8>,
    number: u32,
    line: &[u8],
    rows: &[Row],
) -> Result<(), AllocError>
    ensures { OnOk result (text.new.items ≡ text.old.items ++ texts.line_rows number line.now rows.now) }
{
    for row in rows {
        push_row(text, number, line, row)?;
    }
    Ok(())
}

fn push_row(text: &mut Vec<u8>, number: u32, line: &[u8], row: &Row) -> Result<(), AllocError>
    ensures { OnOk result (text.new.items ≡ text.old.items ++ texts.listing_row number line.now row.now) }
{
    let before = text.len();
    push_columns(text, number, line, row)?;
    cut_blanks(text, before);
    text.push(b'\n')?;
    Ok(())
}

/// The columns of a row, perhaps with blanks at their end.
fn push_columns(text: &mut Vec<u8>, number: u32, line: &[u8], row: &Row) -> Result<(), AllocError>
    ensures { OnOk result (HasRow text.old.items text.new.items (texts.row_columns number line.now row.now)) }
{
    if is_narrow(row) {
        push_narrow(text, number, line, row)
    } else {
        push_wide(text, number, line, row)
    }
}

/// Whether a row has no second word, and no more digits of a code than columns for them.
fn is_narrow(row: &Row) -> bool
    ensures { IsTrue result → IsNarrow row.now }
{
    match (row.second.digits(), row.code.digits()) {
        (None, None) => true,
        (None, Some(code)) => code.count <= CODE_COLUMNS,
        (Some(_), _) => false,
    }
}

/// The columns of a narrow row.
fn push_narrow(text: &mut Vec<u8>, number: u32, line: &[u8], row: &Row) -> Result<(), AllocError>
    requires { IsNarrow row.now }
    ensures { OnOk result (HasRow text.old.items text.new.items (texts.row_columns number line.now row.now)) }
{
    let before = text.len();
    push_front(text, number, row)?;
    if row.is_later {
        text.truncate(before + later_columns(row));
        return Ok(());
    }
    text.extend_from_slice(text_shown(row, line))?;
    Ok(())
}

/// The columns of a later row, which ends behind its code. One without a code ends where the line would begin.
fn later_columns(row: &Row) -> usize
    requires { IsNarrow row.now }
    ensures within { result ≤ 44 }
    ensures columns { row.now.is_later ≡ true → (number : ℕ) → length (laid_out (front_columns number row.now)) ≤ result }
{
    match row.code.digits() {
        Some(code) => BEFORE_CODE + usize::from(code.count),
        None => BEFORE_LINE,
    }
}

/// The columns before the line.
fn push_front(text: &mut Vec<u8>, number: u32, row: &Row) -> Result<(), AllocError>
    requires { IsNarrow row.now }
    ensures { OnOk result (HasFront text.old.items text.new.items (front_columns number row.now)) }
{
    if row.flags.has_flag() {
        push_flagged_front(text, number, row)
    } else {
        push_plain_front(text, number, row)
    }
}

/// Those of a row without a flag: blanks over which they are written.
fn push_plain_front(text: &mut Vec<u8>, number: u32, row: &Row) -> Result<(), AllocError>
    requires narrow { IsNarrow row.now }
    requires plain { has_flag row.now.flags ≡ false }
    ensures { OnOk result (HasFront text.old.items text.new.items (front_columns number row.now)) }
{
    let mut front = [b' '; BEFORE_LINE];
    write_front(&mut front, number, row);
    text.extend_from_slice(&front)
}

/// Those of any row: the flags, and blanks over which the others are written.
fn push_flagged_front(text: &mut Vec<u8>, number: u32, row: &Row) -> Result<(), AllocError>
    requires { IsNarrow row.now }
    ensures { OnOk result (HasFront text.old.items text.new.items (front_columns number row.now)) }
{
    let before = text.len();
    row.flags.push_letters(text)?;
    fill_columns(text, before, BEFORE_LINE)?;
    write_front(&mut text[before..], number, row);
    Ok(())
}

/// The columns of any row, one after another.
fn push_wide(text: &mut Vec<u8>, number: u32, line: &[u8], row: &Row) -> Result<(), AllocError>
    ensures { OnOk result (HasRow text.old.items text.new.items (texts.row_columns number line.now row.now)) }
{
    let before = text.len();
    row.flags.push_letters(text)?;
    push_address(text, before, row.location)?;
    push_code(text, before, row.code.digits(), row.second.digits())?;
    push_statement(text, before, number, line, row)
}

/// The address, from its column on.
fn push_address(text: &mut Vec<u8>, before: usize, location: Option<u64>) -> Result<(), AllocError>
    requires { before ≤ length text.old.items }
    ensures { RowBecomes result text.old.items text.new.items before (λ row. with_text row (BEFORE_ADDRESS + 1) (texts.address_text location)) }
{
    fill_columns(text, before, BEFORE_ADDRESS)?;
    if let Some(address) = location {
        push_octal(text, address, ADDRESS_DIGITS)?;
    }
    Ok(())
}

/// The code, from its column on.
fn push_code(
    text: &mut Vec<u8>,
    before: usize,
    code: Option<OctalDigits>,
    second: Option<OctalDigits>,
) -> Result<(), AllocError>
    requires { before ≤ length text.old.items }
    ensures { RowBecomes result text.old.items text.new.items before
        (λ row. with_text row (BEFORE_CODE + 1) (code_text code ++ second_text second)) }
{
    fill_columns(text, before, BEFORE_CODE)?;
    if let Some(digits) = code {
        push_octal(text, digits.number, digits.count)?;
    }
    if let Some(digits) = second {
        text.push(b' ')?;
        push_octal(text, digits.number, digits.count)?;
    }
    Ok(())
}

/// A line behind its number, or a statement of an expansion behind `+`. Later rows of a statement have neither.
fn push_statement(
    text: &mut Vec<u8>,
    before: usize,
    number: u32,
    line: &[u8],
    row: &Row,
) -> Result<(), AllocError>
    requires { before ≤ length text.old.items }
    ensures { RowBecomes result text.old.items text.new.items before (λ begun. with_columns begun (texts.statement_columns number line.now row.now)) }
{
    if row.is_later {
        return Ok(());
    }
    fill_columns(text, before, BEFORE_NUMBER)?;
    push_number(text, row.depth, number)?;
    fill_columns(text, before, BEFORE_LINE)?;
    text.extend_from_slice(text_shown(row, line))
}

/// The last digits of a line's number, or `+` for a statement of an expansion, at the right of the number's columns.
fn push_number(text: &mut Vec<u8>, depth: u8, number: u32) -> Result<(), AllocError>
    ensures number { OnOk result (text.new.items ≡ text.old.items ++ at_right NUMBER_COLUMNS (texts.number_text depth number)) }
    ensures grows { OnOk result (length text.old.items ≤ length text.new.items) }
{
    if depth > 0 {
        return push_at_right(text, NUMBER_COLUMNS, b"+");
    }
    let mut digits = Buffer::new();
    let shown = last_of(NUMBER_COLUMNS, digits.format(number).as_bytes());
    push_at_right(text, NUMBER_COLUMNS, shown)
}

/// The line of a row, or so much of its statement's text as a line may have columns.
fn text_shown<'a>(row: &'a Row, line: &'a [u8]) -> &'a [u8]
    ensures { result.now ≡ texts.text_shown row.now.depth line.now row.now.text }
{
    if row.depth == 0 {
        return line;
    }
    let text = row.text.as_slice();
    &text[..TEXT_COLUMNS.min(text.len())]
}

/// The last row of a source that ends while a range is open.
pub fn push_open_row(text: &mut Vec<u8>, is_open: bool) -> Result<(), AllocError>
    ensures { OnOk result (text.new.items ≡ text.old.items ++ texts.open_row is_open) }
{
    if is_open {
        push_open_columns(text)?;
        text.push(b'\n')?;
    }
    Ok(())
}

fn push_open_columns(text: &mut Vec<u8>) -> Result<(), AllocError>
    ensures { OnOk result (text.new.items ≡ text.old.items ++ laid_out texts.open_columns) }
{
    let before = text.len();
    text.push(b'E')?;
    fill_columns(text, before, BEFORE_LINE)?;
    text.extend_from_slice(b"open range at end of source")?;
    Ok(())
}

/// Cuts the blanks at the end of a row that begins at a length.
fn cut_blanks(text: &mut Vec<u8>, before: usize)
    requires { before ≤ length text.old.items }
    ensures { (front row : List ℕ) → text.old.items ≡ front ++ row → before ≡ length front → text.new.items ≡ front ++ texts.trimmed row }
{
    let (_, row) = text.split_at(before);
    let kept = trimmed_length(row);
    text.truncate(before + kept);
}

/// The length of a text without the blanks at its end.
fn trimmed_length(text: &[u8]) -> usize
    ensures length { take result text.now ≡ texts.trimmed text.now }
    ensures within { result ≤ length text.now }
{
    for cut in 0..text.len() {
        let last = text.len() - 1 - cut;
        if text[last] != b' ' {
            return last + 1;
        }
    }
    0
}

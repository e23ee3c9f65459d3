//! What rows of a report are made of. None of it has a newline.
ghost use Rattle.std.specs.Prelude.{◌≡◌, OnOk, true, not, ◌==◌};
ghost use Rattle.cps_drift.specs.Drift.{newline};
ghost use Rattle.cps_drift.specs.Code.Rows.{IsPlain, StaysPlain};

use super::deck_code::DeckCode;
use super::laid_sides::LaidCounts;
use super::octal_parcel::OctalParcel;
use super::parcel::parcel_digits;
use cps_expr::Machine;
use cps_list::push_decimal;
use cps_text::push_octal;
use std::alloc::AllocError;

/// The octal digits of an address.
const ADDRESS_DIGITS: u8 = 6;

/// The most octal digits of a number.
const MOST_DIGITS: u8 = 21;

/// Appends words of a row.
pub fn push_words(row: &mut Vec<u8>, words: &[u8]) -> Result<(), AllocError>
    requires { IsPlain words.now }
    ensures { OnOk result (StaysPlain row.old.items row.new.items) }
{
    row.extend_from_slice(words)
}

/// Appends a number in decimal.
pub fn push_number(row: &mut Vec<u8>, number: usize) -> Result<(), AllocError>
    ensures { OnOk result (StaysPlain row.old.items row.new.items) }
{
    push_decimal(row, number as u64)?;
    Ok(())
}

/// Appends low octal digits of a number, so many.
fn push_digits(row: &mut Vec<u8>, number: u64, digits: u8) -> Result<(), AllocError>
    ensures { OnOk result (StaysPlain row.old.items row.new.items) }
{
    push_octal(row, number, digits)?;
    Ok(())
}

/// Appends an address.
pub fn push_address(row: &mut Vec<u8>, address: u32) -> Result<(), AllocError>
    ensures { OnOk result (StaysPlain row.old.items row.new.items) }
{
    push_digits(row, u64::from(address), ADDRESS_DIGITS)
}

/// Appends the digits of a code.
pub fn push_code(row: &mut Vec<u8>, machine: Machine, code: &DeckCode) -> Result<(), AllocError>
    ensures { OnOk result (StaysPlain row.old.items row.new.items) }
{
    let digits = parcel_digits(machine).saturating_mul(code.count);
    push_digits(row, code.number, digits)
}

/// Appends the line that made a code, if a line did.
pub fn push_line(row: &mut Vec<u8>, line: u32) -> Result<(), AllocError>
    ensures { OnOk result (StaysPlain row.old.items row.new.items) }
{
    if line == 0 {
        return Ok(());
    }
    push_words(row, b" (line ")?;
    push_number(row, line as usize)?;
    push_words(row, b")")
}

/// Appends the digits of a parcel, and a question mark for each that can't be read.
pub fn push_parcel(
    row: &mut Vec<u8>,
    machine: Machine,
    parcel: &OctalParcel,
) -> Result<(), AllocError>
    ensures { OnOk result (StaysPlain row.old.items row.new.items) }
{
    for behind in (0..u32::from(parcel_digits(machine))).rev() {
        let is_known = (parcel.known >> (3 * behind)) & 7 == 7;
        let digit = digit_of(is_known, parcel.number >> (3 * behind));
        push_words(row, &[digit])?;
    }
    Ok(())
}

fn digit_of(is_known: bool, number: u16) -> u8
    ensures { not (result == newline) ≡ true }
{
    if is_known {
        b'0' + (number % 8) as u8
    } else {
        b'?'
    }
}

/// Appends from where on a text stands so many words higher than the source.
pub fn push_shift(row: &mut Vec<u8>, address: u32, shift: i64) -> Result<(), AllocError>
    ensures { OnOk result (StaysPlain row.old.items row.new.items) }
{
    push_words(row, b"from ")?;
    push_address(row, address)?;
    push_words(row, b" on OCTAL stands ")?;
    if shift == 0 {
        return push_words(row, b"where the deck stands");
    }
    let words = shift.unsigned_abs();
    push_digits(row, words, digits_of(words))?;
    if shift > 0 {
        push_words(row, b" higher than the deck")
    } else {
        push_words(row, b" lower than the deck")
    }
}

/// The octal digits of a number, without zeros before them.
fn digits_of(number: u64) -> u8 {
    let mut digits: u8 = 1;
    let mut rest = number / 8;
    for _ in 1..MOST_DIGITS {
        if rest > 0 {
            digits = digits.saturating_add(1);
            rest /= 8;
        }
    }
    digits
}

/// Appends how many rows are left out.
pub fn push_more(row: &mut Vec<u8>, count: usize) -> Result<(), AllocError>
    ensures { OnOk result (StaysPlain row.old.items row.new.items) }
{
    push_number(row, count)?;
    push_words(row, b" more rows")
}

/// Appends how many codes agree.
pub fn push_counts(row: &mut Vec<u8>, counts: LaidCounts) -> Result<(), AllocError>
    ensures { OnOk result (StaysPlain row.old.items row.new.items) }
{
    push_words(row, b"so laid, ")?;
    push_number(row, counts.pairs.saturating_sub(counts.wrong))?;
    push_words(row, b" of ")?;
    push_number(row, counts.all)?;
    push_words(row, b" codes agree; ")?;
    push_number(row, counts.along)?;
    push_words(row, b" of them hold an address that moved along")
}

//! What is shown beside a line: an address and a code.
ghost use Rattle.std.specs.Prelude.{◌≡◌, ◌++◌, option_map, IfOk, OnOk};
ghost use Rattle.cps_server.specs.Rows as shown;

use cps_final::{OctalDigits, Row};
use cps_text::push_octal;
use std::alloc::{AllocError, Global};

/// The octal digits of an address.
const ADDRESS_DIGITS: u8 = 6;

/// What is shown beside a line with these rows: the address and the code of the first that has one of them, and `..` where there are more. None: none has
/// any.
pub fn hint_of(alloc: Global, rows: &[Row]) -> Result<Option<Vec<u8>>, AllocError>
    ensures { IfOk result (λ hint. option_map (λ text. text.items) hint ≡ shown.hint_of rows.now) }
{
    let mut left = rows;
    while let [row, more @ ..] = left {
        if has_code(row) {
            let text = row_text(alloc, row, more)?;
            return Ok(Some(text));
        }
        left = more;
    }
    Ok(None)
}

/// Whether a row has an address or a code.
fn has_code(row: &Row) -> bool
    ensures { result ≡ shown.has_code row.now }
{
    row.location.is_some() || row.code.digits().is_some()
}

/// The address and the code of a row, and `..` where more rows follow.
fn row_text(alloc: Global, row: &Row, more: &[Row]) -> Result<Vec<u8>, AllocError>
    ensures { IfOk result (λ text. text.items ≡ shown.row_code row.now ++ shown.more_text more.now) }
{
    let mut text = Vec::new(alloc);
    push_code(&mut text, row)?;
    if !more.is_empty() {
        text.extend_from_slice(b" ..")?;
    }
    Ok(text)
}

/// Appends the address and the code of a row.
fn push_code(text: &mut Vec<u8>, row: &Row) -> Result<(), AllocError>
    ensures { OnOk result (text.new.items ≡ text.old.items ++ shown.row_code row.now) }
{
    push_address_and_code(text, row.location, row.code.digits())?;
    if let Some(digits) = row.second.digits() {
        text.push(b' ')?;
        push_octal(text, digits.number, digits.count)?;
    }
    Ok(())
}

/// Appends an address and a code, with a blank between them.
fn push_address_and_code(
    text: &mut Vec<u8>,
    location: Option<u64>,
    code: Option<OctalDigits>,
) -> Result<(), AllocError>
    ensures { OnOk result (text.new.items ≡ text.old.items ++ shown.address_and_code location code) }
{
    match (location, code) {
        (None, None) => Ok(()),
        (None, Some(digits)) => push_octal(text, digits.number, digits.count),
        (Some(address), None) => push_octal(text, address, ADDRESS_DIGITS),
        (Some(address), Some(digits)) => {
            push_octal(text, address, ADDRESS_DIGITS)?;
            text.push(b' ')?;
            push_octal(text, digits.number, digits.count)
        }
    }
}

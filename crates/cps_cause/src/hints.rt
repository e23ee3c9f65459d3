//! What may be meant in the place of what a cause quotes.

use crate::quotation::Quotation;
use crate::wording::{Wording, push_quoted};
use cps_code::is_builtin;
use cps_expr::Operation;
use cps_text::capital;
use std::alloc::AllocError;

/// Appends the register that a text may be meant for, if its digit is a letter that looks like one; or that it has none so high. Says whether.
pub fn push_register(text: &mut Wording, shown: &[u8]) -> Result<bool, AllocError> {
    let [letter, written] = shown else {
        return Ok(false);
    };
    if !matches!(capital(*letter), b'A' | b'B' | b'X') {
        return Ok(false);
    }
    match capital(*written) {
        b'O' => push_quoted(text, b"; perhaps ", &[*letter], b"0")?,
        b'I' | b'L' => push_quoted(text, b"; perhaps ", &[*letter], b"1")?,
        b'8' | b'9' => text.push(b"; registers are 0 to 7")?,
        _ => return Ok(false),
    }
    Ok(true)
}

/// The same of the first such text between the operators and commas of operands.
pub fn push_register_in(text: &mut Wording, operands: &[u8]) -> Result<(), AllocError> {
    for part in operands.split(|byte| matches!(*byte, b',' | b'+' | b'-' | b'*' | b'/')) {
        if push_register(text, part)? {
            return Ok(());
        }
    }
    Ok(())
}

/// Appends where an operation stands that is in the place of another field, if one does; or that no register is so high.
pub fn push_operation_place(
    text: &mut Wording,
    quotation: Quotation<'_>,
) -> Result<(), AllocError> {
    let location = quotation.location;
    let operands = quotation.operands;
    if is_operation(location) {
        push_quoted(
            text,
            b"; ",
            location,
            b" is one, and stands in the location field: begin it in column 11",
        )
    } else if location.is_empty() && is_operation(operands) {
        push_quoted(
            text,
            b"; ",
            operands,
            b" is one: a location field begins in column 1 or 2",
        )
    } else if has_high_register(quotation.operation) {
        text.push(b"; registers are 0 to 7")
    } else {
        Ok(())
    }
}

/// Whether a text is an operation of this assembler.
fn is_operation(text: &[u8]) -> bool {
    Operation::named(text).is_some() || is_builtin(text)
}

/// Whether a text is an operation but for its last character, which is 8 or 9 in the place of a register's digit.
fn has_high_register(operation: &[u8]) -> bool {
    match operation {
        [first, second, b'8' | b'9'] => is_builtin(&[*first, *second, b'0']),
        _ => false,
    }
}

/// Appends that lines have no numbers, if a location field has digits alone.
pub fn push_line_number(text: &mut Wording, location: &[u8]) -> Result<(), AllocError> {
    if location.len() > 1 && location.iter().all(|byte| byte.is_ascii_digit()) {
        return text.push(b"; lines of a source have no numbers in front");
    }
    Ok(())
}

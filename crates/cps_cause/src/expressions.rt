//! Why texts are no expressions.

use crate::cause::Cause;
use crate::columns::Columns;
use crate::findings::Findings;
use crate::misreading::Misreading;
use crate::operand_fault::OperandFault;
use crate::operands::{PlacedText, element};
use cps_expr::{ExprFault, Radix, read_expression};
use cps_text::{CP_CHARACTERS, TextItem, capital};
use std::alloc::{AllocError, Global};

/// What is wrong with an operand that should be an expression, if something is.
pub fn find_expression(
    alloc: Global,
    findings: &mut Findings,
    part: &PlacedText<'_>,
    radix: Radix,
) -> Result<(), AllocError> {
    if is_expression(alloc, part.text, radix)? {
        return Ok(());
    }
    let (misread, columns) = first_misreading(alloc, part, radix)?;
    findings.add(Cause::Operand(OperandFault::NoExpression(misread)), columns)
}

/// Whether a text is an expression.
pub fn is_expression(alloc: Global, text: &[u8], radix: Radix) -> Result<bool, AllocError> {
    match read_expression(alloc, text, radix) {
        Ok(_) => Ok(true),
        Err(ExprFault::Unreadable) => Ok(false),
        Err(ExprFault::Memory) => Err(AllocError),
    }
}

/// Why a text is no expression, and the columns that show it: those of the first element that is none, else all.
pub fn first_misreading(
    alloc: Global,
    part: &PlacedText<'_>,
    radix: Radix,
) -> Result<(Misreading, Columns), AllocError> {
    if part.text.is_empty() {
        return Ok((Misreading::Empty, part.columns()));
    }
    let mut from: usize = 0;
    for _turn in 0..part.text.len() {
        let at = element(part, from);
        if !at.text.is_empty() && !is_expression(alloc, at.text, radix)? {
            return Ok((misread_element(at.text, radix), at.columns()));
        }
        from = from.saturating_add(at.text.len()).saturating_add(1);
    }
    Ok((Misreading::Element, part.columns()))
}

/// Why characters without an operator are no element.
fn misread_element(text: &[u8], radix: Radix) -> Misreading {
    if is_register(text) {
        Misreading::Register
    } else if text.first().copied() == Some(b'=') {
        Misreading::Literal
    } else if TextItem::read(text, CP_CHARACTERS).is_some() || is_uncounted(text) {
        Misreading::Characters
    } else if text.iter().any(|byte| matches!(*byte, b'(' | b')')) {
        Misreading::Parenthesis
    } else if is_number(text) {
        misread_number(text, radix)
    } else {
        Misreading::Part
    }
}

/// Whether a text begins as characters do whose count is 0, up to a blank or a comma: this assembler leaves them out.
fn is_uncounted(text: &[u8]) -> bool {
    match text {
        [b'0', letter, _, ..] => matches!(
            capital(*letter),
            b'A' | b'C' | b'H' | b'L' | b'R' | b'Z'
        ),
        _ => false,
    }
}

/// Whether a text is a register, in capitals or not.
pub fn is_register(text: &[u8]) -> bool {
    match text {
        [letter, digit] => {
            matches!(capital(*letter), b'A' | b'B' | b'X') && matches!(*digit, b'0'..=b'7')
        }
        _ => false,
    }
}

/// Whether a text is digits, and perhaps the letter of a base behind them.
fn is_number(text: &[u8]) -> bool {
    match text {
        [digits @ .., last] => {
            all_digits(digits) && (last.is_ascii_digit() || (!digits.is_empty() && is_base(*last)))
        }
        _ => false,
    }
}

fn all_digits(text: &[u8]) -> bool {
    text.iter().all(|byte| byte.is_ascii_digit())
}

fn is_base(letter: u8) -> bool {
    matches!(capital(letter), b'B' | b'O' | b'D')
}

fn is_octal_base(letter: u8) -> bool {
    matches!(capital(letter), b'B' | b'O')
}

/// Digits that are no number: one is 8 or 9 in an octal one, or it is too great.
fn misread_number(text: &[u8], radix: Radix) -> Misreading {
    let is_octal = match text.last() {
        Some(last) if last.is_ascii_digit() => is_octal_radix(radix),
        Some(last) => is_octal_base(*last),
        None => false,
    };
    if is_octal && text.iter().any(|byte| matches!(*byte, b'8' | b'9')) {
        Misreading::Octal
    } else {
        Misreading::Great
    }
}

fn is_octal_radix(radix: Radix) -> bool {
    match radix {
        Radix::Octal => true,
        Radix::Decimal => false,
    }
}

//! Numbers of a draft.
use cps_text::push_octal;
use std::alloc::AllocError;

/// Appends a number: below 8 a digit, else octal digits and B.
pub fn push_number(text: &mut Vec<u8>, number: u64) -> Result<(), AllocError> {
    push_octal(text, number, octal_digits(number))?;
    if number >= 8 {
        text.push(b'B')?;
    }
    Ok(())
}

/// Appends all octal digits of a word, and B.
pub fn push_word(text: &mut Vec<u8>, word: u64, digits: u8) -> Result<(), AllocError> {
    push_octal(text, word, digits)?;
    text.push(b'B')?;
    Ok(())
}

/// Appends a number in decimal.
pub fn push_decimal(text: &mut Vec<u8>, number: usize) -> Result<(), AllocError> {
    if number < 10 {
        text.push(b'0' + (number % 10) as u8)?;
        return Ok(());
    }
    let mut rest = number;
    let mut digits = [b'0'; 20];
    let mut first = 19;
    for place in (0..20).rev() {
        digits[place] = b'0' + (rest % 10) as u8;
        rest /= 10;
        first = place;
        if rest == 0 {
            break;
        }
    }
    text.extend_from_slice(digits.get(first..).unwrap_or(&[]))
}

/// How many octal digits a number has.
fn octal_digits(number: u64) -> u8 {
    (number.max(1).ilog2() / 3) as u8 + 1
}

//! The names that rows of a text tell.
use super::hints::KnownName;
use cps_text::Name;
use std::alloc::{AllocError, Global};

/// The most octal digits of a value: those of a word.
const MOST_DIGITS: usize = 20;

/// The names that a text tells, as a cross-reference is written: each row that begins with a symbol, and behind blanks has octal digits, with
/// or without B. What stands behind these is left, and any other row is passed over.
pub fn read_names(alloc: Global, text: &[u8]) -> Result<Vec<KnownName>, AllocError> {
    let mut names = Vec::new(alloc);
    for row in text.split(|byte| *byte == b'\n') {
        if let Some(known) = known_name(alloc, row)? {
            names.push(known)?;
        }
    }
    Ok(names)
}

/// The program's name that a text tells: a symbol behind IDENT in the first row. In a listing the number of the line stands in front of IDENT.
pub fn find_ident(text: &[u8]) -> Option<Name> {
    let row = text.split(|byte| *byte == b'\n').next()?;
    let (first, behind) = first_word(row);
    let (word, rest) = if first.iter().all(|byte| byte.is_ascii_digit()) {
        first_word(behind)
    } else {
        (first, behind)
    };
    if !word.eq_ignore_ascii_case(b"IDENT") {
        return None;
    }
    let (symbol, _) = first_word(rest);
    let name = Name::read(symbol)?;
    if name.was_generated() {
        None
    } else {
        Some(name)
    }
}

/// The name that a row tells.
fn known_name(alloc: Global, row: &[u8]) -> Result<Option<KnownName>, AllocError> {
    let (symbol, behind) = first_word(row);
    let (digits, _) = first_word(behind);
    let Some(name) = Name::read(symbol) else {
        return Ok(None);
    };
    match octal_value(digits) {
        Some(value) if !name.was_generated() => Ok(Some(KnownName {
            name: name.text().to_vec(alloc)?,
            value,
        })),
        _ => Ok(None),
    }
}

/// The first word of a text, behind blanks, and what stands behind it.
fn first_word(text: &[u8]) -> (&[u8], &[u8]) {
    let text = text.trim_ascii_start();
    match text.iter().position(|byte| byte.is_ascii_whitespace()) {
        Some(end) => text.split_at(end.min(text.len())),
        None => (text, &[]),
    }
}

/// The value of octal digits, behind which B may stand.
fn octal_value(word: &[u8]) -> Option<u64> {
    let digits = match word {
        [digits @ .., b'B' | b'b'] => digits,
        _ => word,
    };
    if digits.is_empty() || digits.len() > MOST_DIGITS {
        return None;
    }
    let mut value: u64 = 0;
    for digit in digits {
        match *digit {
            b'0'..=b'7' => value = value.wrapping_mul(8).wrapping_add(u64::from(*digit - b'0')),
            _ => return None,
        }
    }
    Some(value)
}

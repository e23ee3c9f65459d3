//! Why a text is no symbol.

use crate::wording::{Wording, push_quoted};
use cps_text::capital;
use std::alloc::AllocError;

/// The most characters of a symbol.
const LONGEST: usize = 8;

/// Appends that a text is no symbol, and why.
pub fn push_no_symbol(text: &mut Wording, written: &[u8]) -> Result<(), AllocError> {
    push_quoted(text, written, b" is no symbol: ", reason(written))
}

fn reason(written: &[u8]) -> &'static [u8] {
    match written {
        [] => b"nothing stands there",
        _ if written.len() > LONGEST => b"it has more than 8 characters",
        [letter, digit] if is_register(*letter, *digit) => b"it is a register",
        [first, ..] if !begins_symbol(*first) => b"a letter or a point stands first in one",
        _ => b"it has a character that is no letter, no digit, no point and no =",
    }
}

fn is_register(letter: u8, digit: u8) -> bool {
    matches!(capital(letter), b'A' | b'B' | b'X') && matches!(digit, b'0'..=b'7')
}

fn begins_symbol(byte: u8) -> bool {
    byte.is_ascii_alphabetic() || byte == b'.'
}

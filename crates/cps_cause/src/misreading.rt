//! Why a text is no expression.

use crate::wording::{Wording, push_quoted};
use std::alloc::AllocError;

/// What makes a text no expression.
#[derive(Clone, Copy, PartialEq, Eq)]
pub enum Misreading {
    /// Nothing stands there.
    Empty,
    /// A number has a digit that its base hasn't, and the base is octal.
    Octal,
    /// A register stands in it.
    Register,
    /// Characters stand in it.
    Characters,
    /// A number is past the greatest.
    Great,
    /// An element is missing before or behind a sign.
    Element,
    /// A literal stands in it.
    Literal,
    /// A parenthesis stands in it.
    Parenthesis,
    /// A part of it is no number, no symbol and no `*`.
    Part,
}

impl Misreading {
    /// Appends the words.
    pub(crate) fn push_words(self, text: &mut Wording, shown: &[u8]) -> Result<(), AllocError> {
        if let Misreading::Empty = self {
            return text.push(b"an operand is empty");
        }
        push_quoted(text, b"", shown, self.reason())?;
        match self {
            Misreading::Part => push_number_meant(text, shown),
            _ => Ok(()),
        }
    }

    /// What is told of the text.
    fn reason(self) -> &'static [u8] {
        match self {
            Misreading::Empty => b" is empty",
            Misreading::Octal => b" is no octal number, which has no digit 8 or 9",
            Misreading::Register => b" is a register, and none may stand here",
            Misreading::Characters => {
                b": characters can't stand in an expression, only in DATA and behind ="
            }
            Misreading::Great => b" is greater than 2^59 - 1",
            Misreading::Element => b": an element is missing before or behind an operator",
            Misreading::Literal => b": a literal can't stand here",
            Misreading::Parenthesis => b": an expression has no parentheses",
            Misreading::Part => b" is no number, no symbol and no *",
        }
    }
}

/// Appends the number that may be meant by a text with letters that look like digits, if digits and perhaps a base are all else that it has.
fn push_number_meant(text: &mut Wording, shown: &[u8]) -> Result<(), AllocError> {
    let (digits, base) = match shown {
        [digits @ .., last] if is_base(*last) => (digits, &shown[digits.len()..]),
        _ => (shown, &shown[..0]),
    };
    if digits.is_empty() || !digits.iter().all(|byte| is_meant_digit(*byte)) {
        return Ok(());
    }
    text.push(b"; perhaps ")?;
    for byte in digits {
        text.push(&[digit_meant(*byte)])?;
    }
    text.push(base)
}

/// Whether a letter is that of a base, and no letter that looks like a digit.
fn is_base(letter: u8) -> bool {
    matches!(letter, b'B' | b'b' | b'D' | b'd')
}

fn is_meant_digit(byte: u8) -> bool {
    digit_meant(byte).is_ascii_digit()
}

/// The digit that a letter looks like; another character is itself.
fn digit_meant(byte: u8) -> u8 {
    match byte {
        b'O' | b'o' => b'0',
        b'I' | b'i' | b'L' | b'l' => b'1',
        _ => byte,
    }
}

//! How the operands of an instruction look: as the digits of the code that they make.

use crate::painting::style_of;
use crate::row_form::RowForm;
use crate::style::Style;

/// How a word looks that stands among operands behind others; None: as it is. A register looks as its field, what else stands there as the
/// number that it makes.
pub fn operand_style(form: RowForm<'_>, before: &[u8], word: &[u8]) -> Option<Style> {
    match register_in(word) {
        Some(letter) => {
            let others = Registers::of(before, letter, usize::MAX);
            let letters = Registers::of(form.operands, letter, others.count);
            style_of(letters.field?)
        }
        None => number_style(form.operands, before),
    }
}

/// Where the digit of the register stands that an operation names, if it names one.
pub fn register_place(name: &[u8]) -> Option<usize> {
    for (at, letter) in name.iter().enumerate() {
        if *letter == b'i' {
            return Some(at);
        }
    }
    None
}

/// The letter of a register.
fn register_in(word: &[u8]) -> Option<u8> {
    match word {
        [letter, digit] if is_register(*letter, *digit) => Some(*letter),
        _ => None,
    }
}

/// Whether two characters are a register, of a source or of a form.
fn is_register(letter: u8, digit: u8) -> bool {
    matches!(letter, b'A' | b'B' | b'X') && matches!(digit, b'0'..=b'7' | b'i' | b'j' | b'k')
}

/// The registers of a letter in a text.
#[derive(Clone, Copy)]
struct Registers {
    count: usize,
    /// The second character of the one behind some others.
    field: Option<u8>,
}

impl Registers {
    /// Of a text, with the field of the one behind so many others.
    fn of(text: &[u8], letter: u8, others: usize) -> Registers {
        let mut registers = Registers {
            count: 0,
            field: None,
        };
        let mut last = b' ';
        for character in text {
            if last == letter && is_register(letter, *character) {
                if registers.count == others {
                    registers.field = Some(*character);
                }
                registers.count = registers.count.saturating_add(1);
            }
            last = *character;
        }
        registers
    }
}

/// How the number looks that stands in the field of operands behind others.
fn number_style(operands: &[u8], before: &[u8]) -> Option<Style> {
    let field = count_commas(before);
    let mut commas: usize = 0;
    let mut last = b' ';
    for letter in operands {
        if *letter == b',' {
            commas = commas.saturating_add(1);
        }
        if commas == field && !is_register(last, *letter) {
            if let Some(style) = style_of(*letter) {
                return Some(style);
            }
        }
        last = *letter;
    }
    None
}

fn count_commas(text: &[u8]) -> usize {
    let mut count: usize = 0;
    for character in text {
        if *character == b',' {
            count = count.saturating_add(1);
        }
    }
    count
}

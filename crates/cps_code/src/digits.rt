ghost use Rattle.std.specs.Prelude.{◌≡◌, ◌<◌, ◌≤◌, ◌^◌, [], ◌∷◌, length, IfSome, MatchOption, Some, None, if◌then◌else◌};
ghost use Rattle.cps_code.specs.Digits.{with_character, digits_in, digit_of, octal, AreDigits};
ghost use Rattle.cps_code.specs.Register.{digit_value};
ghost use Rattle.cps_text.specs.Text.{is_digit};

use cps_text::capital;

/// The octal digits that the letters f, i, j and k stand for in the texts of a table.
#[derive(Clone, Copy)]
pub struct Digits {
    pub f: u8,
    pub i: u8,
    pub j: u8,
    pub k: u8,
}

/// The digits in a text of a statement that is written like `letters`, beside those that are known.
pub fn read_digits(letters: &[u8], text: &[u8], digits: Digits) -> Option<Digits>
    requires { AreDigits digits }
    ensures digits { result ≡ digits_in letters.now text.now digits }
    ensures octal { IfSome result AreDigits }
{
    let mut known = digits;
    let mut rest = text;
    for letter in letters {
        match first_and_rest(rest) {
            None => return None,
            Some((character, more)) => match read_character(*letter, character, known) {
                None => return None,
                Some(digits) => {
                    known = digits;
                    rest = more;
                }
            },
        }
    }
    if rest.is_empty() { Some(known) } else { None }
}

/// The first character of a text and what follows it, if there is one.
pub fn first_and_rest(text: &[u8]) -> Option<(u8, &[u8])>
    ensures { MatchOption result (text.now ≡ []) (λ parts. text.now ≡ parts.0 ∷ parts.1.now) }
{
    match text {
        [] => None,
        [first, rest @ ..] => Some((*first, rest)),
    }
}

fn read_character(letter: u8, character: u8, digits: Digits) -> Option<Digits>
    requires { AreDigits digits }
    ensures digits { result ≡ with_character letter character digits }
    ensures octal { IfSome result AreDigits }
{
    match letter {
        b'i' => match octal_digit(character) {
            Some(i) => Some(Digits { i, ..digits }),
            None => None,
        },
        b'j' => match octal_digit(character) {
            Some(j) => Some(Digits { j, ..digits }),
            None => None,
        },
        b'k' => match octal_digit(character) {
            Some(k) => Some(Digits { k, ..digits }),
            None => None,
        },
        _ => {
            if letter == capital(character) {
                Some(digits)
            } else {
                None
            }
        }
    }
}

fn octal_digit(character: u8) -> Option<u8>
    ensures digit { result ≡ (if is_digit 8 character then Some (digit_value character) else None) }
    ensures octal { IfSome result (λ digit. digit < 8) }
{
    match character {
        b'0'..=b'7' => Some(character - b'0'),
        _ => None,
    }
}

/// The number that octal digits write.
pub fn octal(digits: Digits, text: &[u8]) -> u16
    requires digits { AreDigits digits }
    requires few { length text.now ≤ 5 }
    ensures number { result ≡ octal digits text.now }
    ensures small { result < 8 ^ length text.now }
{
    let mut number = 0;
    for letter in text {
        number = number * 8 + u16::from(digit_of(digits, *letter));
    }
    number
}

fn digit_of(digits: Digits, letter: u8) -> u8
    requires { AreDigits digits }
    ensures digit { result ≡ digit_of digits letter }
    ensures octal { result < 8 }
{
    match letter {
        b'f' => digits.f,
        b'i' => digits.i,
        b'j' => digits.j,
        b'k' => digits.k,
        b'0'..=b'7' => letter - b'0',
        _ => 0,
    }
}

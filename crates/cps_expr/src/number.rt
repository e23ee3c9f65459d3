//! Numbers of the language.
ghost use Rattle.std.specs.Prelude.{◌≡◌, ◌+◌, ◌-◌, ◌^◌, ◌<◌, ◌≤◌, true, false, IfSome, MatchOption, length, slice_index, take, ◌⊎◌};
ghost use Rattle.cps_expr.specs.Number.{base_of, base_named, last, number_of, number_in};
ghost use Rattle.cps_text.specs.Digits.{with_digit};
ghost use Rattle.cps_text.specs.Text.{is_digit};

use crate::radix::Radix;

/// The number that a text writes: digits, and behind them perhaps B or O for octal, D for decimal.
/// None also for one beyond the greatest.
pub fn read_number(text: &[u8], radix: Radix, greatest: u64) -> Option<u64>
    requires { greatest < 2 ^ 60 }
    ensures value { result ≡ number_of (greatest + 1) radix text.now }
    ensures small { IfSome result (λ number. number ≤ greatest) }
{
    if !begins_with_digit(text) {
        return None;
    }
    match named_base(last_byte(text)) {
        None => number_in_base(text, default_base(radix), greatest),
        Some(base) => number_in_base(all_but_last(text), base, greatest),
    }
}

/// Whether a text begins with a decimal digit. No number begins with anything else, and most operands are symbols.
fn begins_with_digit(text: &[u8]) -> bool
    ensures { result ≡ is_digit 10 (slice_index text.now 0) }
{
    match text {
        [first, ..] => b'0' <= *first && *first <= b'9',
        [] => false,
    }
}

fn default_base(radix: Radix) -> u8
    ensures base { result ≡ base_of radix }
    ensures cases { (result ≡ 8) ⊎ (result ≡ 10) }
{
    match radix {
        Radix::Octal => 8,
        Radix::Decimal => 10,
    }
}

fn named_base(letter: u8) -> Option<u8>
    ensures base { result ≡ base_named letter }
    ensures cases { IfSome result (λ base. (base ≡ 8) ⊎ (base ≡ 10)) }
{
    match letter.to_ascii_uppercase() {
        b'B' | b'O' => Some(8),
        b'D' => Some(10),
        _ => None,
    }
}

/// The last byte, 0 where there is none.
fn last_byte(text: &[u8]) -> u8
    ensures { result ≡ last text.now }
{
    if text.is_empty() {
        return 0;
    }
    text[text.len() - 1]
}

fn all_but_last(text: &[u8]) -> &[u8]
    ensures { result.now ≡ take (length text.now - 1) text.now }
{
    if text.is_empty() {
        return text;
    }
    let (front, _) = text.split_at(text.len() - 1);
    front
}

fn number_in_base(digits: &[u8], base: u8, greatest: u64) -> Option<u64>
    requires base { (base ≡ 8) ⊎ (base ≡ 10) }
    requires greatest { greatest < 2 ^ 60 }
    ensures value { result ≡ number_in (greatest + 1) base digits.now }
    ensures small { IfSome result (λ number. number ≤ greatest) }
{
    if digits.is_empty() {
        return None;
    }
    let mut number = 0;
    for digit in digits {
        match with_digit(number, *digit, base, greatest) {
            None => return None,
            Some(next) => number = next,
        }
    }
    Some(number)
}

/// A number with one digit more.
fn with_digit(number: u64, digit: u8, base: u8, greatest: u64) -> Option<u64>
    requires base { (base ≡ 8) ⊎ (base ≡ 10) }
    requires greatest { greatest < 2 ^ 60 }
    requires small { number ≤ greatest }
    ensures { MatchOption result
        ((is_digit base digit ≡ false) ⊎ (greatest < with_digit base number digit))
        (λ next. (is_digit base digit ≡ true) × (next ≡ with_digit base number digit) × (next ≤ greatest)) }
{
    if digit < b'0' || digit >= b'0' + base {
        return None;
    }
    let next = number * u64::from(base) + u64::from(digit - b'0');
    if next <= greatest { Some(next) } else { None }
}

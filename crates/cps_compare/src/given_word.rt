//! What an octal text gives of a word, as it is told.
ghost use Rattle.std.specs.Prelude.{◌≡◌, ◌++◌, ◌≤◌, OnOk, count_by, length, map, nat_lt, take, if◌then◌else◌};
ghost use Rattle.cps_list.specs.Listing.{trimmed};
ghost use Rattle.cps_claims.specs.Counts.{places};
ghost use Rattle.cps_claims.specs.Shown.{kept_digit};
ghost use Rattle.cps_compare.specs.Given as given;
ghost use Rattle.cps_compare.specs.Code.Kept.{CountsGiven};

use arrayvec::ArrayVec;
use cps_claims::{ClaimedDigit, ClaimedWord, MOST_DIGITS};
use std::alloc::AllocError;

/// What is counted of the digits that are given of a word.
#[derive(Clone, Copy)]
pub struct GivenCounts {
    /// How many digits are shown, from the first on.
    pub shown: usize,
    /// Digits that can be read.
    pub known: u8,
    /// Digits that can't be read.
    pub unknown: u8,
    /// Digits that are given twice, with two values.
    pub denied: u8,
}

/// Counts the digits that are given of a word.
pub fn count_given(word: &ClaimedWord) -> GivenCounts
    ensures { CountsGiven (kept_digit word.now) result }
{
    let mut known = 0;
    let mut unknown = 0;
    let mut denied = 0;
    for place in 0..MOST_DIGITS {
        let digit = word.digit(place);
        known += one_if(digit.is_known());
        unknown += one_if(digit.is_unknown());
        denied += one_if(digit.is_denied());
    }
    let shown = filled_len(&shown_digits(word));
    GivenCounts {
        shown,
        known,
        unknown,
        denied,
    }
}

fn one_if(test: bool) -> u8
    ensures { result ≡ (if test then 1 else 0) }
{
    if test { 1 } else { 0 }
}

/// Whether some digit is given twice, with two values.
pub fn has_denied(word: &ClaimedWord) -> bool
    ensures { result ≡ given.has_denied (kept_digit word.now) }
{
    for place in 0..MOST_DIGITS {
        if word.digit(place).is_denied() {
            return true;
        }
    }
    false
}

/// Whether digits of a word are given.
pub fn has_shown(word: &ClaimedWord) -> bool
    ensures { result ≡ nat_lt 0 (length (given.shown_word (kept_digit word.now))) }
{
    filled_len(&shown_digits(word)) > 0
}

/// Appends the digits of a word that are given.
pub fn push_shown(text: &mut Vec<u8>, word: &ClaimedWord) -> Result<(), AllocError>
    ensures { OnOk result (text.new.items ≡ text.old.items ++ given.shown_word (kept_digit word.now)) }
{
    push_filled(text, &shown_digits(word))
}

/// Appends the digits of a word that are given, with those that are said again.
pub fn push_again(text: &mut Vec<u8>, word: &ClaimedWord) -> Result<(), AllocError>
    ensures { OnOk result (text.new.items ≡ text.old.items ++ given.again_word (kept_digit word.now)) }
{
    push_filled(text, &again_digits(word))
}

/// What is shown at each place.
fn shown_digits(word: &ClaimedWord) -> ArrayVec<u8, MOST_DIGITS>
    ensures { result.items ≡ map (λ place. (kept_digit word.now place).shown) places }
{
    let mut digits = ArrayVec::new();
    for place in 0..MOST_DIGITS {
        digits.push(word.digit(place).shown);
    }
    digits
}

/// What is said again at each place.
fn again_digits(word: &ClaimedWord) -> ArrayVec<u8, MOST_DIGITS>
    ensures { result.items ≡ map (λ place. given.said_again (kept_digit word.now place)) places }
{
    let mut digits = ArrayVec::new();
    for place in 0..MOST_DIGITS {
        digits.push(said_again(word.digit(place)));
    }
    digits
}

fn said_again(digit: ClaimedDigit) -> u8
    ensures { result ≡ given.said_again digit }
{
    if digit.is_denied() {
        digit.again
    } else {
        digit.shown
    }
}

/// Appends a text without the blanks at its end.
fn push_filled(text: &mut Vec<u8>, digits: &[u8]) -> Result<(), AllocError>
    ensures { OnOk result (text.new.items ≡ text.old.items ++ trimmed digits.now) }
{
    text.extend_from_slice(&digits[..filled_len(digits)])
}

/// How long a text is without the blanks at its end.
fn filled_len(text: &[u8]) -> usize
    ensures len { result ≡ length (trimmed text.now) }
    ensures front { take result text.now ≡ trimmed text.now }
    ensures few { result ≤ length text.now }
{
    for cut in 0..text.len() {
        let last = text.len() - 1 - cut;
        if text[last] != b' ' {
            return last + 1;
        }
    }
    0
}

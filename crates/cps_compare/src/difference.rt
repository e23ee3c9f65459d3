//! Whether a word of a source has its digits in an octal text, and which of them differ.
ghost use Rattle.std.specs.Prelude.{◌≡◌, true, false, IfSome, ◌<◌, ◌≤◌, length, All, OnOk, ◌==◌};
ghost use Rattle.std.specs.List.{list_all};
ghost use Rattle.std.specs.Option.{option_map_or};
ghost use Rattle.cps_claims.specs.Shown.{kept_digit};
ghost use Rattle.cps_compare.specs.Given.{Given, shown_word};
ghost use Rattle.cps_compare.specs.Differences as differences;

use arrayvec::ArrayVec;
use cps_claims::{ClaimedWord, MOST_DIGITS};
use cps_expr::Machine;
use cps_text::push_octal;
use std::alloc::AllocError;

/// The octal digits of a word of the central processor, and of a peripheral processor.
const CP_DIGITS: u8 = 20;

const PP_DIGITS: u8 = 4;

/// The bits of a word that are behind those of a peripheral processor.
const BITS_BEHIND: u32 = 48;

/// The digits of a parcel.
const PARCEL: usize = 5;

/// Four parcels that do nothing.
const FILLING: &[u8] = b"46000460004600046000";

/// Room for the places of digits that differ, and of digits that lack.
pub type Places = ArrayVec<usize, 40>;

/// Puts the octal digits of a word in the place of what `digits` has.
pub fn show_word(digits: &mut Vec<u8>, machine: Machine, word: u64) -> Result<(), AllocError>
    ensures digits { OnOk result (digits.new.items ≡ differences.digits_of machine word) }
    ensures few { OnOk result (length digits.new.items ≤ MOST_DIGITS) }
{
    digits.clear();
    match machine {
        Machine::Cp => push_octal(digits, word, CP_DIGITS),
        Machine::Pp => push_octal(digits, word >> BITS_BEHIND, PP_DIGITS),
    }
}

/// The places of the digits that differ, of which the first is 0; where all words must be given, also of those that lack. `shown` is how
/// many digits are given.
pub fn places_of(word: &[u8], given: &ClaimedWord, shown: usize, whole: bool) -> Places
    requires word { length word.now ≤ MOST_DIGITS }
    requires shown { shown ≡ length (shown_word (kept_digit given.now)) }
    ensures places { result.items ≡ differences.places_of whole word.now (kept_digit given.now) }
    ensures few { All (λ place. place < MOST_DIGITS) result.items }
{
    let mut places = ArrayVec::new();
    for place in 0..MOST_DIGITS {
        if differs_in(word, given, place) {
            places.push(place);
        }
    }
    if whole && lacks(word, shown) {
        for place in shown..word.len() {
            places.push(place);
        }
    }
    places
}

/// Whether the digit at a place differs.
fn differs_in(word: &[u8], given: &ClaimedWord, place: usize) -> bool
    requires { place < MOST_DIGITS }
    ensures { result ≡ differences.differs_in word.now (kept_digit given.now) place }
{
    let digit = given.digit(place);
    digit.is_known() && (digit.is_denied() || !has_digit(word, place, digit.shown))
}

/// Whether a word has a digit at a place.
fn has_digit(word: &[u8], place: usize, digit: u8) -> bool
    ensures { result ≡ differences.has_digit word.now place digit }
{
    match word.get(place) {
        Some(other) => *other == digit,
        None => false,
    }
}

/// Whether a word of which so many digits are given isn't given whole.
fn lacks(word: &[u8], shown: usize) -> bool
    requires { length word.now ≤ MOST_DIGITS }
    ensures lacks { (given : Given) → shown ≡ length (shown_word given) → result ≡ differences.lacks word.now given }
    ensures fewer { result ≡ true → shown < length word.now }
{
    shown < word.len() && !is_filled_up(word, shown)
}

/// The same, where there is a word.
pub fn lacks_in(word: Option<&[u8]>, shown: usize) -> bool
    requires { IfSome word (λ word. length word.now ≤ MOST_DIGITS) }
    ensures { (given : Given) → shown ≡ length (shown_word given)
        → result ≡ option_map_or (λ word. differences.lacks word.now given) word.entry false }
{
    match word {
        Some(word) => lacks(word, shown),
        None => false,
    }
}

/// Whether a word is filled up behind its first digits.
fn is_filled_up(word: &[u8], count: usize) -> bool
    requires { count ≤ MOST_DIGITS }
    ensures { result ≡ differences.is_filled_up word.now count }
{
    if word.len() != MOST_DIGITS || count == 0 {
        return false;
    }
    let border = count + (MOST_DIGITS - count) % PARCEL;
    are_zeros(&word[count..border]) && word[border..] == FILLING[border..]
}

fn are_zeros(digits: &[u8]) -> bool
    ensures { result ≡ list_all (λ digit. digit == 48) digits.now }
{
    digits.iter().all(|digit| *digit == b'0')
}

//! Words of a dump that stand again.
ghost use Rattle.std.specs.Prelude.{◌≡◌, ◌∷◌, ◌<◌, ◌%◌, ◌^◌, ◌==◌, ◌||◌, not, IsTrue, IfOk, OnOk, length, codes, true};
ghost use Rattle.std.specs.List.{starts_with, repeat};
ghost use Rattle.std.specs.Char.{eq_ignore_ascii_case};
ghost use Rattle.cps_claims.specs.Rows as rows;
ghost use Rattle.cps_claims.specs.Code.Walk.{part_shown, parts_left};
ghost use Rattle.cps_claims.specs.Code.Found.{Finds, has_digits, reached, IsWithin, address_behind};

use super::layout::{OctalLayout, cut_row, word_size};
use super::part::{RowPart, RowRest, address_in};
use super::reading::first_row;
use super::reason::UnreadReason;
use super::row::{MOST_WORDS, RowReading, claimed, fits, unread_at};
use super::stand::RowStand;
use std::alloc::AllocError;

/// Whether a row, of this part and a rest, says that the words of the row above stand again.
pub fn is_repetition(part: RowPart<'_>, rest: RowRest<'_>) -> bool
    ensures { result ≡ rows.is_repetition (part_shown part.entry ∷ parts_left rest.entry) }
{
    says_again(part.text) || (part.text == b"*".as_slice() && rest.next().is_none())
}

/// Whether a part begins with a word that says so.
fn says_again(text: &[u8]) -> bool
    ensures { result ≡ rows.says_again text.now }
{
    begins_with(text, b"DUPL") || begins_with(text, b"REPEAT") || begins_with(text, b"SAME")
}

/// Whether a text begins with a word, in capitals or small letters.
fn begins_with(text: &[u8], word: &[u8]) -> bool
    ensures { result ≡ starts_with eq_ignore_ascii_case text.now word.now }
{
    if text.len() < word.len() {
        return false;
    }
    for at in 0..word.len() {
        if !word[at].eq_ignore_ascii_case(&text[at]) {
            return false;
        }
    }
    true
}

/// Reads a row that says that the words of the row above stand again. `digits` has the digits of the last row that is read.
pub fn read_repetition(
    layout: OctalLayout,
    stand: RowStand,
    behind: Option<&[u8]>,
    digits: &mut Vec<u8>,
) -> Result<(RowReading, RowStand), AllocError>
    requires near { reached stand < 2 ^ 40 }
    ensures row { Finds result digits.new.items (rows.repetition layout stand digits.old.items (address_behind layout behind.entry)) }
    ensures digits { IfOk result (λ found. has_digits found.0 ≡ true) }
    ensures near { IfOk result (λ found. reached found.1 < 2 ^ 40) }
    ensures within { IfOk result (λ found. IsWithin layout.form digits.new.items found.0) }
{
    let reason = UnreadReason::EndlessRepetition;
    let Some(end) = first_address(layout, behind) else {
        return Ok(unread_at(stand, None, reason));
    };
    let Some(place) = stand.place else {
        return Ok(unread_at(stand, None, reason));
    };
    let begin = place.address + 1;
    let count = u64::from(end).saturating_sub(begin);
    read_words_again(layout, stand, begin, count as usize, digits)
}

/// Reads that the digits stand again, from an address on in so many words.
fn read_words_again(
    layout: OctalLayout,
    stand: RowStand,
    begin: u64,
    count: usize,
    digits: &mut Vec<u8>,
) -> Result<(RowReading, RowStand), AllocError>
    requires { begin < 2 ^ 41 }
    ensures row { Finds result digits.new.items (rows.words_again layout stand digits.old.items begin count) }
    ensures digits { IfOk result (λ found. has_digits found.0 ≡ true) }
    ensures near { IfOk result (λ found. reached found.1 < 2 ^ 40) }
    ensures within { IfOk result (λ found. IsWithin layout.form digits.new.items found.0) }
{
    let words = digits.len() / word_size(layout.form);
    if !comes_out_even(count, words) {
        return Ok(unread_at(stand, None, UnreadReason::UnevenRepetition));
    }
    if !fits(MOST_WORDS, stand.repeated, count) {
        return Ok(unread_at(stand, None, UnreadReason::TooManyRepetitions));
    }
    repeat_digits(digits, count / words)?;
    let stand = RowStand {
        repeated: stand.repeated + count,
        ..stand
    };
    Ok(claimed(layout, stand, begin, 0, digits))
}

/// Whether some words fill a count of words, once or more.
fn comes_out_even(count: usize, words: usize) -> bool
    ensures even { result ≡ not ((count == 0) || not (count % words == 0)) }
    ensures some { IsTrue result → 0 < words }
{
    count != 0 && words != 0 && count % words == 0
}

/// Repeats digits so many times.
fn repeat_digits(digits: &mut Vec<u8>, times: usize) -> Result<(), AllocError>
    ensures { OnOk result (digits.new.items ≡ repeat times digits.old.items) }
{
    let repeated = digits.repeat(*digits.allocator(), times)?;
    *digits = repeated;
    Ok(())
}

/// The address with which the row behind begins.
fn first_address(layout: OctalLayout, behind: Option<&[u8]>) -> Option<u32>
    ensures { result ≡ address_behind layout behind.entry }
{
    let (row, _) = first_row(behind?);
    let (part, _) = RowRest::of(cut_row(row, layout.columns)).next()?;
    address_in(part.text)
}

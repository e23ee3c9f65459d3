//! The rows that tell a difference.
ghost use Rattle.std.specs.Prelude.{◌≡◌, ℕ, [], ◌++◌, ◌<◌, ◌^◌, length, OnOk, IfSome, All, if◌then◌else◌};
ghost use Rattle.std.specs.List.{position};
ghost use Rattle.std.specs.Option.{option_map};
ghost use Rattle.cps_text.specs.Text.{is_filled};
ghost use Rattle.cps_claims.specs.Shown.{kept_digit};
ghost use Rattle.cps_compare.specs.Statements.{statements_of, texts_from};
ghost use Rattle.cps_compare.specs.Told as told;
ghost use Rattle.cps_compare.specs.Told.{statement_rows};
ghost use Rattle.cps_compare.specs.Code.Deck.{maker_at};
ghost use Rattle.cps_compare.specs.Code.Kept.{kept_rows, statements_at};

use super::given_word::{has_denied, has_shown, push_again, push_shown};
use super::maker::Maker;
use super::makers::Makers;
use super::statements::push_statements;
use super::wide_rows::fill_wide;
use cps_claims::ClaimedWord;
use cps_final::Row;
use cps_list::{View, push_decimal};
use cps_text::push_octal;
use std::alloc::AllocError;

/// The octal digits of an address.
const ADDRESS_DIGITS: u8 = 6;

/// The columns before a word.
const BEFORE_WORD: usize = 13;

/// The rows of a word of a source, and of the digits that an octal text gives of it.
pub fn push_words(
    text: &mut Vec<u8>,
    address: u32,
    word: Option<&[u8]>,
    given: &ClaimedWord,
) -> Result<(), AllocError>
    ensures { OnOk result (text.new.items ≡ text.old.items
        ++ told.word_rows address (option_map (λ word. word.now) word.entry) (kept_digit given.now) (kept_rows given.now)) }
{
    push_octal(text, u64::from(address), ADDRESS_DIGITS)?;
    text.extend_from_slice(b" deck  ")?;
    text.extend_from_slice(deck_text(word))?;
    text.extend_from_slice(b"\n       octal ")?;
    push_given(text, given)?;
    text.push(b'\n')?;
    push_denied(text, given)?;
    Ok(())
}

fn deck_text(word: Option<&[u8]>) -> &[u8]
    ensures { result.now ≡ told.deck_text (option_map (λ word. word.now) word.entry) }
{
    match word {
        Some(word) => word,
        None => b"(no word)",
    }
}

/// The digits that are given, and the rows that have them.
fn push_given(text: &mut Vec<u8>, given: &ClaimedWord) -> Result<(), AllocError>
    ensures { OnOk result (text.new.items ≡ text.old.items ++ told.octal_text (kept_digit given.now) (kept_rows given.now)) }
{
    if !has_shown(given) {
        return text.extend_from_slice(b"(no digits)");
    }
    push_shown(text, given)?;
    push_rows(text, given)
}

fn push_rows(text: &mut Vec<u8>, given: &ClaimedWord) -> Result<(), AllocError>
    ensures { OnOk result (text.new.items ≡ text.old.items ++ told.rows_text (kept_rows given.now)) }
{
    push_row_numbers(text, given.first_row, given.last_row)
}

/// The first and the last row that have digits.
pub fn push_row_numbers(text: &mut Vec<u8>, first: usize, last: usize) -> Result<(), AllocError>
    ensures { (again : ℕ) → OnOk result (text.new.items ≡ text.old.items
        ++ told.rows_text (record { first = first; last = last; again = again })) }
{
    if first == last {
        text.extend_from_slice(b"  row ")?;
        return push_decimal(text, first as u64);
    }
    text.extend_from_slice(b"  rows ")?;
    push_decimal(text, first as u64)?;
    text.extend_from_slice(b" to ")?;
    push_decimal(text, last as u64)
}

/// What later rows say otherwise, and the first that does, where one does.
fn push_denied(text: &mut Vec<u8>, given: &ClaimedWord) -> Result<(), AllocError>
    ensures { OnOk result (text.new.items ≡ text.old.items ++ told.again_text (kept_digit given.now) (kept_rows given.now)) }
{
    if has_denied(given) {
        push_again_row(text, given)
    } else {
        Ok(())
    }
}

fn push_again_row(text: &mut Vec<u8>, given: &ClaimedWord) -> Result<(), AllocError>
    ensures { OnOk result (text.new.items ≡ text.old.items ++ told.again_told (kept_digit given.now) (kept_rows given.now)) }
{
    text.extend_from_slice(b"       again ")?;
    push_again(text, given)?;
    text.extend_from_slice(b"  row ")?;
    push_decimal(text, given.again_row as u64)?;
    text.push(b'\n')?;
    Ok(())
}

/// The row of carets below digits, where some are given.
pub fn push_carets(text: &mut Vec<u8>, is_given: bool, places: &[usize]) -> Result<(), AllocError>
    requires { All (λ place. place < 2 ^ 32) places.now }
    ensures { OnOk result (text.new.items ≡ text.old.items ++ (if is_given then told.caret_row places.now else [])) }
{
    if is_given {
        push_caret_row(text, places)
    } else {
        Ok(())
    }
}

fn push_caret_row(text: &mut Vec<u8>, places: &[usize]) -> Result<(), AllocError>
    requires { All (λ place. place < 2 ^ 32) places.now }
    ensures { OnOk result (text.new.items ≡ text.old.items ++ told.caret_row places.now) }
{
    let before = text.len();
    for place in places {
        fill_wide(text, before, BEFORE_WORD + *place)?;
        text.push(b'^')?;
    }
    text.push(b'\n')?;
    Ok(())
}

/// The rows of what made the digits at some places of a word.
pub fn push_makers<V: View>(
    text: &mut Vec<u8>,
    view: &V,
    makers: &Makers,
    address: u32,
    places: &[usize],
) -> Result<(), AllocError>
    ensures { OnOk result (text.new.items ≡ text.old.items
        ++ told.made_rows (V.assembly view.now).lines (statements_at (V.assembly view.now) address) (maker_at makers.now address) places.now) }
{
    let mut last = Maker::Nobody;
    for place in places {
        let maker = makers.get(address, *place);
        if !last.is_same(maker) {
            push_maker(text, view, address, maker)?;
        }
        last = maker;
    }
    Ok(())
}

/// The rows of what made a digit of a word at an address.
pub fn push_maker<V: View>(
    text: &mut Vec<u8>,
    view: &V,
    address: u32,
    maker: Maker,
) -> Result<(), AllocError>
    ensures { OnOk result (text.new.items ≡ text.old.items
        ++ told.maker_row (V.assembly view.now).lines (statements_at (V.assembly view.now) address) maker) }
{
    match maker {
        Maker::Nobody => Ok(()),
        Maker::Line(number) => {
            push_line(text, number, line_at(view, number))?;
            push_statements(text, rows_of(view, number), address)
        }
        Maker::Literal => text.extend_from_slice(b"       a literal\n"),
    }
}

/// The rows of a line in a listing; none where there is no such line.
fn rows_of<V: View>(view: &V, number: u32) -> &[Row]
    ensures { (address : ℕ) → statement_rows [] (texts_from address [] result.now)
        ≡ statement_rows [] (statements_of (V.assembly view.now).outcomes number address) }
{
    match view.outcome(number) {
        Some(outcome) => outcome.rows(),
        None => &[],
    }
}

fn push_line(text: &mut Vec<u8>, number: u32, line: &[u8]) -> Result<(), AllocError>
    ensures { OnOk result (text.new.items ≡ text.old.items ++ told.line_row number line.now) }
{
    text.extend_from_slice(b"       line ")?;
    push_decimal(text, u64::from(number))?;
    text.extend_from_slice(b": ")?;
    text.extend_from_slice(trimmed(line))?;
    text.push(b'\n')?;
    Ok(())
}

/// A line of a source; no bytes where there is none.
fn line_at<V: View>(view: &V, number: u32) -> &[u8]
    ensures { result.now ≡ told.line_at (V.assembly view.now).lines number }
{
    match view.line(number) {
        Some(line) => line.bytes(),
        None => &[],
    }
}

/// A line from its first character on that is no blank.
pub fn trimmed(line: &[u8]) -> &[u8]
    ensures { result.now ≡ told.trimmed line.now }
{
    match filled_at(line) {
        Some(at) => &line[at..],
        None => &[],
    }
}

fn filled_at(line: &[u8]) -> Option<usize>
    ensures place { result ≡ position is_filled line.now }
    ensures within { IfSome result (λ at. at < length line.now) }
{
    line.iter().position(|byte| *byte != b' ')
}

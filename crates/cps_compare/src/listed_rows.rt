//! The rows that tell how two listings differ.
ghost use Rattle.std.specs.Prelude.{◌≡◌, ◌++◌, ◌<◌, ◌≤◌, ◌^◌, length, OnOk};
ghost use Rattle.cps_claims.specs.ListedPlaces as places;
ghost use Rattle.cps_compare.specs.ListedSides as listed;
ghost use Rattle.cps_compare.specs.Told.{made_rows, rows_text};
ghost use Rattle.cps_compare.specs.Code.Kept.{statements_at};

use super::difference_rows::{push_maker, push_row_numbers};
use super::maker::Maker;
use super::telling::push_address;
use cps_claims::{ListedDigit, push_listed};
use cps_list::View;
use std::alloc::AllocError;

/// The rows of the codes at an address, in a source's listing and in a text.
pub fn push_codes(
    text: &mut Vec<u8>,
    address: u32,
    deck: &[ListedDigit],
    given: &[ListedDigit],
) -> Result<(), AllocError>
    ensures { OnOk result (text.new.items ≡ text.old.items ++ listed.code_rows address deck.now given.now) }
{
    push_address(text, address)?;
    text.extend_from_slice(b" deck  ")?;
    push_deck(text, deck)?;
    text.extend_from_slice(b"\n       octal ")?;
    push_given(text, given)?;
    text.push(b'\n')?;
    Ok(())
}

fn push_deck(text: &mut Vec<u8>, deck: &[ListedDigit]) -> Result<(), AllocError>
    ensures { OnOk result (text.new.items ≡ text.old.items ++ listed.deck_told deck.now) }
{
    if deck.is_empty() {
        text.extend_from_slice(b"(no code)")
    } else {
        push_listed(text, deck)
    }
}

/// The digits of a text, and the rows that have them.
fn push_given(text: &mut Vec<u8>, given: &[ListedDigit]) -> Result<(), AllocError>
    ensures { OnOk result (text.new.items ≡ text.old.items ++ listed.text_told given.now) }
{
    if given.is_empty() {
        return text.extend_from_slice(b"(no digits)");
    }
    push_listed(text, given)?;
    push_rows_of(text, given)?;
    Ok(())
}

fn push_rows_of(text: &mut Vec<u8>, given: &[ListedDigit]) -> Result<(), AllocError>
    requires { 0 < length given.now }
    ensures { OnOk result (text.new.items ≡ text.old.items ++ rows_text (listed.listing_rows given.now)) }
{
    let first = by_at(given, 0);
    let last = by_at(given, given.len() - 1);
    push_row_numbers(text, first as usize, last as usize)
}

/// The number of what lists a digit; 0 where there is none.
fn by_at(digits: &[ListedDigit], place: usize) -> u32
    ensures { result ≡ listed.by_at digits.now place }
{
    match digits.get(place) {
        Some(digit) => digit.by,
        None => 0,
    }
}

/// The rows of the lines that list the digits at some places of an address.
pub fn push_lines<V: View>(
    text: &mut Vec<u8>,
    view: &V,
    address: u32,
    deck: &[ListedDigit],
    places: &[usize],
) -> Result<(), AllocError>
    ensures { OnOk result (text.new.items ≡ text.old.items
        ++ made_rows (V.assembly view.now).lines (statements_at (V.assembly view.now) address) (listed.line_of deck.now) places.now) }
{
    let mut last = Maker::Nobody;
    for place in places {
        let maker = line_of(deck, *place);
        if !last.is_same(maker) {
            push_maker(text, view, address, maker)?;
        }
        last = maker;
    }
    Ok(())
}

/// The line that lists a digit.
fn line_of(deck: &[ListedDigit], place: usize) -> Maker
    ensures { result ≡ listed.line_of deck.now place }
{
    match deck.get(place) {
        Some(digit) => Maker::Line(digit.by),
        None => Maker::Nobody,
    }
}

/// How many digits can't be read.
pub fn unknown_listed(text: &[ListedDigit]) -> usize
    ensures count { result ≡ places.unknown_listed text.now }
    ensures few { result ≤ length text.now }
{
    text.iter().filter(|digit| !digit.is_known()).count()
}

//! The digits that listings have at an address, and where two of them differ.
ghost use Rattle.std.specs.Prelude.{◌≡◌, ◌++◌, ◌<◌, ◌≤◌, ◌^◌, true, IfOk, OnOk, length, nat_lt, slice_get, All};
ghost use Rattle.cps_claims.specs.ListedPlaces as places;

use super::part::is_octal;
use std::alloc::{AllocError, Global};

/// A digit that is listed at an address, or a mark.
#[derive(Clone, Copy)]
pub struct ListedDigit {
    pub digit: u8,
    /// The number of what lists it, from 1 on: of a row of a text, or of a line of a source.
    pub by: u32,
}

impl ListedDigit {
    /// Whether it can be read.
    pub fn is_known(self) -> bool
        ensures { result ≡ places.can_be_read self }
    {
        is_octal(self.digit)
    }

    /// The digit as it is told.
    fn shown(self) -> u8
        ensures { result ≡ places.shown_listed self }
    {
        if is_octal(self.digit) {
            self.digit
        } else {
            b'?'
        }
    }
}

/// The places of an address at which the digits of a text, which can be read, aren't those that a source lists there; where all codes must
/// be given, also those at which digits lack. The first place is 0.
pub fn listed_places(
    alloc: Global,
    whole: bool,
    deck: &[ListedDigit],
    text: &[ListedDigit],
) -> Result<Vec<usize>, AllocError>
    ensures { IfOk result (λ found. found.items ≡ places.listed_places whole deck.now text.now) }
{
    let mut places = Vec::new(alloc);
    push_differing(&mut places, deck, text)?;
    if whole {
        push_lacking(&mut places, deck, text)?;
    }
    Ok(places)
}

/// Appends the places of the digits that can be read and aren't the source's.
fn push_differing(
    found: &mut Vec<usize>,
    deck: &[ListedDigit],
    text: &[ListedDigit],
) -> Result<(), AllocError>
    ensures { OnOk result (found.new.items ≡ found.old.items ++ places.differing_places deck.now text.now) }
{
    for place in 0..text.len() {
        if differs_in(deck, text, place) {
            found.push(place)?;
        }
    }
    Ok(())
}

/// Appends the places at which the source alone lists a digit.
fn push_lacking(
    found: &mut Vec<usize>,
    deck: &[ListedDigit],
    text: &[ListedDigit],
) -> Result<(), AllocError>
    ensures { OnOk result (found.new.items ≡ found.old.items ++ places.lacking_places deck.now text.now) }
{
    for place in text.len()..deck.len() {
        found.push(place)?;
    }
    Ok(())
}

/// Whether the digit of a text at a place differs.
fn differs_in(deck: &[ListedDigit], text: &[ListedDigit], place: usize) -> bool
    ensures { result ≡ places.differs_in deck.now text.now place }
{
    match text.get(place) {
        Some(listed) => listed.is_known() && !lists_digit(deck, place, listed.digit),
        None => false,
    }
}

/// Whether a source lists a digit at a place.
fn lists_digit(deck: &[ListedDigit], place: usize, digit: u8) -> bool
    ensures { result ≡ places.lists_digit deck.now place digit }
{
    match deck.get(place) {
        Some(listed) => listed.digit == digit,
        None => false,
    }
}

/// How many digits can be read.
pub fn known_listed(text: &[ListedDigit]) -> usize
    ensures count { result ≡ places.known_listed text.now }
    ensures few { result ≤ length text.now }
{
    text.iter().filter(|listed| listed.is_known()).count()
}

/// Whether some digit can be read.
pub fn gives_listed(text: &[ListedDigit]) -> bool
    ensures { result ≡ places.gives_listed text.now }
{
    text.iter().any(|listed| listed.is_known())
}

/// Appends the digits as they are told: a question mark for one that can't be read.
pub fn push_listed(text: &mut Vec<u8>, listed: &[ListedDigit]) -> Result<(), AllocError>
    ensures { OnOk result (text.new.items ≡ text.old.items ++ places.listed_text listed.now) }
{
    for one in listed {
        text.push(one.shown())?;
    }
    Ok(())
}

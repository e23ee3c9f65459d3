//! The addresses and the ranges that lists name.
ghost use Rattle.std.specs.Prelude.{◌≡◌};
ghost use Rattle.cps_words.specs.Hints as hints;

use super::numbers::{halves_of, read_address};
use cps_draft::AddressRange;
use std::alloc::{AllocError, Global};

/// Whether a word has addresses with commas between them.
pub fn are_addresses(word: &str) -> bool
    ensures { result ≡ hints.are_addresses word.now }
{
    word.split(',').all(|part| read_address(part).is_some())
}

/// Whether a word has ranges of addresses with commas between them.
pub fn are_ranges(word: &str) -> bool
    ensures { result ≡ hints.are_ranges word.now }
{
    word.split(',').all(|part| read_range(part).is_some())
}

/// The addresses that a word has with commas between them. A part that is none is left out.
pub fn read_addresses(alloc: Global, word: &str) -> Result<Vec<u32>, AllocError> {
    let mut addresses = Vec::new(alloc);
    for part in word.split(',') {
        if let Some(address) = read_address(part) {
            addresses.push(address)?;
        }
    }
    Ok(addresses)
}

/// The ranges of addresses that a word has with commas between them. A part that is none is left out.
pub fn read_ranges(alloc: Global, word: &str) -> Result<Vec<AddressRange>, AllocError> {
    let mut ranges = Vec::new(alloc);
    for part in word.split(',') {
        if let Some(range) = read_range(part) {
            ranges.push(range)?;
        }
    }
    Ok(ranges)
}

/// The addresses that a word names: a first and a last one with a minus between them, or one alone.
fn read_range(word: &str) -> Option<AddressRange>
    ensures { result ≡ hints.range_named word.now }
{
    match halves_of(word) {
        Some((first, last)) => range_between(read_address(first), read_address(last)),
        None => range_between(read_address(word), read_address(word)),
    }
}

fn range_between(first: Option<u32>, last: Option<u32>) -> Option<AddressRange>
    ensures { result ≡ hints.range_between first last }
{
    match (first, last) {
        (Some(first), Some(last)) if first <= last => Some(AddressRange { first, last }),
        _ => None,
    }
}

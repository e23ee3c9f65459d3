//! The words that an octal text gives.
use super::characters::Characters;
use super::hints::GivenWord;
use super::reading::Reading;
use cps_expr::Machine;
use std::alloc::{AllocError, Global};

/// The most words of a gap that a BSS passes. ORG passes a longer one.
pub const MOST_GAP: u32 = 4096;

/// Below this address only what the text has is an address.
pub const LOW: u32 = 0o100;

/// The bits of a word of the central processor.
const ALL_BITS: u64 = (1 << 60) - 1;

/// The words that an octal text gives, at rising addresses. A word is named by its index among them.
#[derive(Clone, Copy)]
pub struct Image<'a> {
    pub machine: Machine,
    pub words: &'a [GivenWord],
    /// For each address, from that of the first word on, the index of the word there.
    pub places: &'a [Option<u32>],
    /// The instructions of each word of the central processor.
    pub readings: &'a [Reading],
}

/// For each address, from that of the first word to that of the last, the index of the word there.
pub fn find_places(alloc: Global, words: &[GivenWord]) -> Result<Vec<Option<u32>>, AllocError> {
    let mut places = Vec::new(alloc);
    let first = words.first().map_or(0, |word| word.address);
    for (index, word) in words.iter().enumerate() {
        places.resize(word.address.saturating_sub(first) as usize, None)?;
        places.push(u32::try_from(index).ok())?;
    }
    Ok(places)
}

impl Image<'_> {
    pub fn is_central(&self) -> bool {
        self.machine == Machine::Cp
    }

    /// The octal digits of a word.
    pub fn word_digits(&self) -> u8 {
        if self.is_central() { 20 } else { 4 }
    }

    /// The octal digits with which an address is shown.
    pub fn address_digits(&self) -> u8 {
        if self.is_central() { 6 } else { 4 }
    }

    /// The first address at which no program has a word.
    pub fn limit(&self) -> u32 {
        if self.is_central() { 0o400000 } else { 0o10000 }
    }

    /// The index of the word at an address.
    pub fn index_of(&self, address: u32) -> Option<usize> {
        let first = self.words.first()?.address;
        let place = address.checked_sub(first)? as usize;
        match self.places.get(place) {
            Some(Some(index)) => Some(*index as usize),
            _ => None,
        }
    }

    /// How many words stand in front of an address.
    pub fn count_before(&self, address: u32) -> usize {
        self.words.partition_point(|word| word.address < address)
    }

    /// The address of a word.
    pub fn address(&self, index: usize) -> u32 {
        self.words.get(index).map_or(0, |word| word.address)
    }

    /// Whether all digits of a word are given, and can be read.
    pub fn is_whole(&self, index: usize) -> bool {
        self.words.get(index).is_some_and(|word| word.digits >= self.word_digits()
            && word.unread == 0)
    }

    /// Whether each digit that is given of a word can be read.
    pub fn is_read(&self, index: usize) -> bool {
        self.words.get(index).is_some_and(|word| word.unread == 0)
    }

    /// Whether a word follows the one before it without a gap.
    pub fn is_joined(&self, index: usize) -> bool {
        let Some(before) = index.checked_sub(1) else {
            return false;
        };
        index < self.words.len() && self.address(index) == self.address(before).saturating_add(1)
    }

    /// The address up to which an address behind the text is taken for a part of it, not included.
    pub fn reach(&self) -> u32 {
        let words = if self.is_central() { 4096 } else { 512 };
        self.behind().saturating_add(words).min(self.limit())
    }

    /// The address behind the last word.
    pub fn behind(&self) -> u32 {
        self.words
            .last()
            .map_or(0, |word| word.address.saturating_add(1))
    }

    /// Whether an address is that of a word.
    pub fn has(&self, address: u32) -> bool {
        self.index_of(address).is_some()
    }

    /// Whether an address is in a gap that BSS passes.
    pub fn is_in_gap(&self, address: u32) -> bool {
        let index = self.count_before(address);
        let Some(before) = index.checked_sub(1) else {
            return false;
        };
        let Some(word) = self.words.get(index) else {
            return false;
        };
        let first = self.address(before).saturating_add(1);
        address < word.address && word.address.saturating_sub(first) <= MOST_GAP
    }

    /// Whether an address is that of a word, or in a gap that BSS passes.
    pub fn stands(&self, address: u32) -> bool {
        self.has(address) || self.is_in_gap(address)
    }

    /// Whether an address can have a label: it is that of a word, in a gap, or not far behind the text.
    pub fn has_label(&self, address: u32) -> bool {
        self.stands(address) || (self.behind() <= address && address < self.reach())
    }

    /// Whether an address begins what isn't given, behind a word.
    pub fn is_end(&self, address: u32) -> bool {
        match address.checked_sub(1) {
            Some(before) => address < self.limit() && !self.has(address) && self.has(before),
            None => false,
        }
    }

    /// The index of the word in front of a word, if no gap is between them.
    pub fn before(&self, index: usize) -> Option<usize> {
        if self.is_joined(index) {
            index.checked_sub(1)
        } else {
            None
        }
    }

    /// The index of the word behind a word, if no gap is between them.
    pub fn after(&self, index: usize) -> Option<usize> {
        let next = index.saturating_add(1);
        if self.is_joined(next) {
            Some(next)
        } else {
            None
        }
    }

    /// How many parcels of a word are given.
    pub fn parcels(&self, index: usize) -> usize {
        self.words
            .get(index)
            .map_or(0, |word| usize::from(word.digits.min(20) / 5))
    }

    /// Whether whole parcels of a word are given.
    pub fn has_whole_parcels(&self, index: usize) -> bool {
        self.words
            .get(index)
            .is_some_and(|word| word.digits % 5 == 0)
    }

    /// The number that is in the low 18 bits of a word.
    pub fn low_address(&self, index: usize) -> u32 {
        (self.value(index) & 0o777777) as u32
    }

    /// The instructions of a word of the central processor.
    pub fn reading(&self, index: usize) -> Option<&Reading> {
        self.readings.get(index)
    }

    /// The characters of a word.
    pub fn characters(&self, index: usize) -> Characters {
        let word = self.value(index);
        if self.is_central() {
            Characters::of_central(word)
        } else {
            Characters::of_peripheral(word)
        }
    }

    /// A word with what stands for the digits that aren't given: zeros, or where whole parcels are given what a forcing leaves, 46000
    /// each.
    pub fn value(&self, index: usize) -> u64 {
        match self.words.get(index) {
            Some(word) if self.is_central() => filled(*word),
            Some(word) => { (word.value << (3 * (4 - u32::from(word.digits.min(4))))) & 0o7777 }
            None => 0,
        }
    }
}

/// A word of the central processor with what stands for the digits that aren't given.
fn filled(word: GivenWord) -> u64 {
    let missing = 20 - u32::from(word.digits.min(20));
    let left = (word.value << (3 * missing)) & ALL_BITS;
    match missing {
        5 => left | 0o46000,
        10 => left | 0o4600046000,
        15 => left | 0o460004600046000,
        _ => left,
    }
}

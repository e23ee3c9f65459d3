//! The digits that an octal text claims, by address.
ghost use Rattle.std.specs.Prelude.{◌≡◌, ℕ, ◌<◌, ◌≤◌, ◌^◌, ◌+◌, ◌-◌, List, OnOk, vec_len, length, max, IfSome, MatchOption};
ghost use Rattle.cps_claims.specs.Code.Slots.{deck_digit};
ghost use Rattle.cps_claims.specs.Claims.{Claimed, Words, IsWordAt, differs};
ghost use Rattle.cps_claims.specs.Words.{size_of};
ghost use Rattle.cps_claims.specs.Code.Slots as slots;

use super::claimed_word::{ClaimedWord, MOST_DIGITS};
use super::layout::{WordForm, word_size};
use super::row::MOST_WORDS;
use std::alloc::{AllocError, Global};

/// Where the digits of a row begin.
#[derive(Clone, Copy)]
pub(crate) struct RowClaim {
    /// The number of the row, from 1 on.
    pub row: usize,
    pub address: u32,
    /// The place in the word; the first is 0.
    pub place: usize,
}

/// The digits that are claimed for the words at each address, from address 0 on.
#[derive(Drop)]
pub struct ClaimedWords {
    words: Vec<ClaimedWord>,
    ghost few: { vec_len words ≤ 262144 },
}

impl ClaimedWords {
    ghost use Rattle.cps_claims.specs.Rows.{words_in};
    ghost use Rattle.cps_claims.specs.Counts.{SomeBetween, is_given, GivesNone, IsFirst, IsLast};
    ghost use Rattle.cps_claims.specs.Shown.{Shows};
    ghost use Rattle.cps_claims.specs.Code.Held.{Holds};

    /// No claims. Takes no memory yet.
    pub(crate) fn new(alloc: Global) -> ClaimedWords
        ensures { slots.state_at result.words.items ≡ slots.none_claimed }
    {
        ClaimedWords {
            words: Vec::new(alloc),
        }
    }

    /// Adds the digits of a row. The error is that there was no memory; then some of the digits may be kept.
    pub(crate) fn add(
        &mut self,
        form: WordForm,
        claim: RowClaim,
        digits: &[u8],
    ) -> Result<(), AllocError>
        requires place { claim.place ≤ MOST_DIGITS }
        requires within { claim.address + words_in (size_of form) (claim.place + length digits.now) ≤ MOST_WORDS }
        ensures { OnOk result (slots.AddsClaims (slots.digits_claimed form claim digits.now) self.old.words.items self.new.words.items) }
    {
        let size = word_size(form);
        let mut at = claim.place;
        let mut left = digits;
        while !left.is_empty() {
            let address = claim.address as usize + at / size;
            let place = at % size;
            let count = fewer(size - place, left.len());
            let (here, behind) = left.split_at(count);
            put(&mut self.words, address, place, here, claim.row)?;
            at += count;
            left = behind;
        }
        Ok(())
    }

    /// Whether a digit that is claimed for the word at an address is another than the deck's. `word` has the deck's octal digits, 20 or 4;
    /// None: the deck has no word there.
    pub fn differs(&self, address: u32, word: Option<&[u8]>) -> bool
        ensures { (claims : List Claimed) (words : Words) → Holds self.now claims → IsWordAt words address word.entry
            → result ≡ differs words claims address }
    {
        word_differs(&self.word(address), word)
    }

    /// Whether a digit that can be read is claimed between two addresses, both counted.
    pub fn gives_some(&self, low: u32, high: u32) -> bool
        ensures { (claims : List Claimed) → Holds self.now claims → SomeBetween claims low high result }
    {
        for address in u64::from(low)..u64::from(high) + 1 {
            if is_given(&self.word(address as u32)) {
                return true;
            }
        }
        false
    }

    /// Whether a digit of the word at an address is claimed that can be read.
    pub fn gives(&self, address: u32) -> bool
        ensures { (claims : List Claimed) → Holds self.now claims → result ≡ is_given claims address }
    {
        is_given(&self.kept(address))
    }

    /// The first address for which a digit is claimed that can be read.
    pub fn first(&self) -> Option<u32>
        ensures first { (claims : List Claimed) → Holds self.now claims → MatchOption result (GivesNone claims) (IsFirst claims) }
        ensures few { IfSome result (λ address. address < MOST_WORDS) }
    {
        for address in 0..self.end() {
            if is_given(&self.word(address)) {
                return Some(address);
            }
        }
        None
    }

    /// The last address for which a digit is claimed that can be read.
    pub fn last(&self) -> Option<u32>
        ensures last { (claims : List Claimed) → Holds self.now claims → MatchOption result (GivesNone claims) (IsLast claims) }
        ensures few { IfSome result (λ address. address < MOST_WORDS) }
    {
        for address in (0..self.end()).rev() {
            if is_given(&self.word(address)) {
                return Some(address);
            }
        }
        None
    }

    /// The address past the last that may have digits.
    fn end(&self) -> u32
        ensures end { result ≡ vec_len self.now.words }
        ensures few { result ≤ MOST_WORDS }
    {
        self.words.len() as u32
    }

    /// What is claimed of the word at an address.
    pub fn word(&self, address: u32) -> ClaimedWord
        ensures shows { (claims : List Claimed) → Holds self.now claims → Shows claims address result }
        ensures state { slots.state_of result ≡ slots.state_at self.now.words.items address }
    {
        self.kept(address)
    }

    fn kept(&self, address: u32) -> ClaimedWord
        ensures { slots.state_of result ≡ slots.state_at self.now.words.items address }
    {
        match self.words.get(address as usize) {
            Some(word) => *word,
            None => ClaimedWord::new(),
        }
    }
}

/// Whether a digit of a word is claimed that can be read.
fn is_given(word: &ClaimedWord) -> bool
    ensures { slots.AnyPlace result (λ place. slots.is_known ((slots.state_of word.now).slots place)) }
{
    for place in 0..MOST_DIGITS {
        if word.digit(place).is_known() {
            return true;
        }
    }
    false
}

/// Whether a digit that is claimed of a word isn't the deck's.
fn word_differs(word: &ClaimedWord, deck: Option<&[u8]>) -> bool
    ensures { slots.AnyPlace result (λ place. slots.slot_differs (deck_digit deck.entry place) ((slots.state_of word.now).slots place)) }
{
    for place in 0..MOST_DIGITS {
        if word.digit(place).differs(digit_in(deck, place)) {
            return true;
        }
    }
    false
}

/// The digit of the deck at a place.
fn digit_in(deck: Option<&[u8]>, place: usize) -> Option<u8>
    ensures { result ≡ deck_digit deck.entry place }
{
    match deck {
        Some(word) => word.get(place).copied(),
        None => None,
    }
}

/// The less of two counts.
fn fewer(count: usize, other: usize) -> usize
    ensures first { result ≤ count }
    ensures second { result ≤ other }
    ensures some { 0 < count → 0 < other → 0 < result }
{
    if count < other { count } else { other }
}

/// Adds digits of a row for one word, from a place of it on.
fn put(
    words: &mut Vec<ClaimedWord>,
    address: usize,
    place: usize,
    digits: &[u8],
    row: usize,
) -> Result<(), AllocError>
    requires place { place + length digits.now ≤ MOST_DIGITS }
    requires address { address < MOST_WORDS }
    ensures few { vec_len words.old ≤ MOST_WORDS → vec_len words.new ≤ MOST_WORDS }
    ensures state { OnOk result (slots.state_at words.new.items
        ≡ slots.with_digits (slots.state_at words.old.items) row address place digits.now) }
{
    make_room(words, address + 1)?;
    words[address].put_digits(place, digits, row);
    Ok(())
}

/// Adds words of which nothing is claimed up to an end.
fn make_room(words: &mut Vec<ClaimedWord>, end: usize) -> Result<(), AllocError>
    ensures room { OnOk result (end ≤ vec_len words.new) }
    ensures same { (address : ℕ) → slots.state_at words.new.items address ≡ slots.state_at words.old.items address }
    ensures few { vec_len words.new ≤ max (vec_len words.old) end }
{
    while words.len() < end {
        words.push(ClaimedWord::new())?;
    }
    Ok(())
}

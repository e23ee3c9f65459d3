//! A listing of this program beside the one that it writes of a source.
ghost use Rattle.std.specs.Prelude.{◌≡◌, ℕ, List, ◌++◌, ◌<◌, ◌≤◌, ◌^◌, IfOk, IfSome, OnOk, MatchOption, length, if◌then◌else◌, false, nat_lt};
ghost use Rattle.cps_list.specs.Assembly.{Assembly};
ghost use Rattle.cps_compare.specs.ListedSides as listed;
ghost use Rattle.cps_compare.specs.Comparison.{IsFirst, IsLast, SomeGiven, NoneGiven};

use super::address_span::AddressSpan;
use super::booleans::{both, either};
use super::difference_rows::push_carets;
use super::listed_rows::{push_codes, push_lines, unknown_listed};
use super::survey::WordCounts;
use cps_claims::{ListedDigit, ListedWords, OwnReading, gives_listed, known_listed, listed_places};
use cps_list::View;
use std::alloc::{AllocError, Global};

/// Past the last address.
const END: u32 = 0o1_000_000;

/// A listing of this program, and that of a source.
#[derive(Drop)]
pub struct ListedSides {
    pub reading: OwnReading,
    /// The digits of the source's listing.
    pub deck: ListedWords,
    /// Whether all codes must be given.
    pub whole: bool,
}

impl ListedSides {
    ghost use Rattle.cps_compare.specs.ListedSides.{listed_findings, listed_rows, place_rows};
    ghost use Rattle.cps_compare.specs.Code.Kept.{AreListed};
    ghost use Rattle.cps_compare.specs.Code.Surveys.{AreCounts};

    /// The first address that is compared. None: no digit of the text can be read.
    pub fn first(&self) -> Option<u32>
        ensures { (assembly : Assembly) (sides : listed.ListedSides) → AreListed self.now assembly sides
            → MatchOption result (NoneGiven (listed_findings sides)) (IsFirst (listed_findings sides).is_compared) }
    {
        if self.gives_any() {
            self.first_compared()
        } else {
            None
        }
    }

    /// The last address that is compared. None: no digit of the text can be read.
    pub fn last(&self) -> Option<u32>
        ensures last { (assembly : Assembly) (sides : listed.ListedSides) → AreListed self.now assembly sides
            → MatchOption result (NoneGiven (listed_findings sides)) (IsLast (listed_findings sides).is_compared) }
        ensures few { IfSome result (λ address. address < 2 ^ 18) }
    {
        if self.gives_any() {
            self.last_compared()
        } else {
            None
        }
    }

    /// Whether the text has a digit that can be read between two addresses.
    pub fn gives_some(&self, span: AddressSpan) -> bool
        ensures { (assembly : Assembly) (sides : listed.ListedSides) → AreListed self.now assembly sides
            → SomeGiven (listed_findings sides) span.low span.high result }
    {
        for address in u64::from(span.low)..u64::from(span.high) + 1 {
            if self.gives(address as u32) {
                return true;
            }
        }
        false
    }

    /// Whether the text has a digit that can be read.
    fn gives_any(&self) -> bool
        ensures { (assembly : Assembly) (sides : listed.ListedSides) → AreListed self.now assembly sides
            → result ≡ false → NoneGiven (listed_findings sides) }
    {
        let span = AddressSpan {
            low: 0,
            high: END - 1,
        };
        self.gives_some(span)
    }

    fn first_compared(&self) -> Option<u32>
        ensures { (assembly : Assembly) (sides : listed.ListedSides) → AreListed self.now assembly sides
            → MatchOption result (NoneGiven (listed_findings sides)) (IsFirst (listed_findings sides).is_compared) }
    {
        for address in 0..END {
            if self.is_compared(address) {
                return Some(address);
            }
        }
        None
    }

    fn last_compared(&self) -> Option<u32>
        ensures last { (assembly : Assembly) (sides : listed.ListedSides) → AreListed self.now assembly sides
            → MatchOption result (NoneGiven (listed_findings sides)) (IsLast (listed_findings sides).is_compared) }
        ensures few { IfSome result (λ address. address < 2 ^ 18) }
    {
        for address in (0..END).rev() {
            if self.is_compared(address) {
                return Some(address);
            }
        }
        None
    }

    /// Whether the text has a digit at an address that can be read.
    fn gives(&self, address: u32) -> bool
        ensures { (assembly : Assembly) (sides : listed.ListedSides) → AreListed self.now assembly sides
            → result ≡ (listed_findings sides).is_given address }
    {
        gives_listed(self.reading.words.at(address))
    }

    fn is_compared(&self, address: u32) -> bool
        ensures { (assembly : Assembly) (sides : listed.ListedSides) → AreListed self.now assembly sides
            → result ≡ (listed_findings sides).is_compared address }
    {
        either(
            self.gives(address),
            both(self.whole, is_listed(self.deck.at(address))),
        )
    }

    /// Counts what the text gives at an address.
    pub fn count(&self, alloc: Global, address: u32) -> Result<WordCounts, AllocError>
        ensures { (assembly : Assembly) (sides : listed.ListedSides) → AreListed self.now assembly sides
            → IfOk result (AreCounts (listed_findings sides) address) }
    {
        let text = self.reading.words.at(address);
        let deck = self.deck.at(address);
        let places = listed_places(alloc, self.whole, deck, text)?;
        let is_given = gives_listed(text);
        let is_shown = is_listed(text);
        let stands = is_listed(deck);
        Ok(WordCounts {
            known: known_listed(text) as u32,
            is_given,
            unknown: unknown_listed(text) as u32,
            denied: 0,
            is_absent: both(stands, !is_shown),
            is_in_part: both(is_shown, text.len() < deck.len()),
            is_compared: either(is_given, both(self.whole, stands)),
            differs: has_places(&places),
        })
    }

    /// Tells what differs at an address.
    pub fn tell<V: View>(
        &self,
        view: &V,
        address: u32,
        text: &mut Vec<u8>,
    ) -> Result<(), AllocError>
        ensures { (sides : listed.ListedSides) → AreListed self.now (V.assembly view.now) sides
            → OnOk result (text.new.items ≡ text.old.items ++ listed_rows sides address) }
    {
        let deck = self.deck.at(address);
        push_codes(text, address, deck, self.reading.words.at(address))?;
        if is_listed(deck) {
            self.tell_places(view, address, text)?;
        }
        Ok(())
    }

    /// Tells the digits that differ at an address, and the lines that list them.
    fn tell_places<V: View>(
        &self,
        view: &V,
        address: u32,
        text: &mut Vec<u8>,
    ) -> Result<(), AllocError>
        ensures { (sides : listed.ListedSides) → AreListed self.now (V.assembly view.now) sides
            → OnOk result (text.new.items ≡ text.old.items ++ place_rows sides address) }
    {
        let deck = self.deck.at(address);
        let given = self.reading.words.at(address);
        let places = listed_places(*text.allocator(), self.whole, deck, given)?;
        push_carets(text, is_listed(given), &places)?;
        push_lines(text, view, address, deck, &places)?;
        Ok(())
    }
}

fn is_listed(digits: &[ListedDigit]) -> bool
    ensures { result ≡ listed.is_listed digits.now }
{
    !digits.is_empty()
}

fn has_places(places: &[usize]) -> bool
    ensures { result ≡ nat_lt 0 (length places.now) }
{
    !places.is_empty()
}

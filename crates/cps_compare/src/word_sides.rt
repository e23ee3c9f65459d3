//! An octal text of words and a source, side by side.
ghost use Rattle.std.specs.Prelude.{◌≡◌, ℕ, ◌++◌, ◌<◌, ◌≤◌, ◌^◌, List, true, length, option_map, None, Some, if◌then◌else◌, IfOk, IfSome, OnOk, MatchOption};
ghost use Rattle.cps_list.specs.Assembly.{Assembly};
ghost use Rattle.cps_claims.specs.Counts as counts;
ghost use Rattle.cps_claims.specs.Shown.{kept_digit};
ghost use Rattle.cps_compare.specs.Told as told;
ghost use Rattle.cps_compare.specs.Comparison.{IsFirst, IsLast};

use super::booleans::{both, either};
use super::deck_words::DeckWords;
use super::difference::{lacks_in, places_of, show_word};
use super::difference_rows::{push_carets, push_makers, push_words};
use super::given_word::count_given;
use super::survey::WordCounts;
use super::telling::Telling;
use cps_claims::{ClaimedWord, OctalReading};
use cps_expr::Machine;
use cps_list::View;
use std::alloc::AllocError;

/// An octal text of words and a source.
#[derive(Drop)]
pub struct WordSides {
    pub machine: Machine,
    pub reading: OctalReading,
    pub deck: DeckWords,
    /// Whether each word must be given, and whole.
    pub whole: bool,
}

impl WordSides {
    ghost use Rattle.cps_compare.specs.Told.{is_compared, rows_at, digit_rows, findings_of};
    ghost use Rattle.cps_compare.specs.Code.Kept.{AreWords};
    ghost use Rattle.cps_compare.specs.Code.Surveys.{AreCounts};

    /// The first address that is compared. None: no digit of the text can be read.
    pub fn first(&self) -> Option<u32>
        ensures { (assembly : Assembly) (sides : told.Sides) → AreWords self.now assembly sides
            → MatchOption result (counts.GivesNone sides.claims) (IsFirst (is_compared sides)) }
    {
        match self.reading.words.first() {
            Some(first) => Some(self.first_of(first)),
            None => None,
        }
    }

    /// The last address that is compared. None: no digit of the text can be read.
    pub fn last(&self) -> Option<u32>
        ensures last { (assembly : Assembly) (sides : told.Sides) → AreWords self.now assembly sides
            → MatchOption result (counts.GivesNone sides.claims) (IsLast (is_compared sides)) }
        ensures few { IfSome result (λ address. address < 2 ^ 18) }
    {
        match self.reading.words.last() {
            Some(last) => Some(self.last_of(last)),
            None => None,
        }
    }

    /// The first address that is compared, where this is the first with a digit that can be read.
    fn first_of(&self, first: u32) -> u32
        ensures { (assembly : Assembly) (sides : told.Sides) → AreWords self.now assembly sides → counts.IsFirst sides.claims first
            → IsFirst (is_compared sides) result }
    {
        match self.deck.first(self.machine) {
            Some(word) if self.whole && word < first => word,
            _ => first,
        }
    }

    /// The last address that is compared, where this is the last with a digit that can be read.
    fn last_of(&self, last: u32) -> u32
        requires { last < 2 ^ 18 }
        ensures last { (assembly : Assembly) (sides : told.Sides) → AreWords self.now assembly sides → counts.IsLast sides.claims last
            → IsLast (is_compared sides) result }
        ensures few { result < 2 ^ 18 }
    {
        match self.deck.last(self.machine) {
            Some(word) if self.whole && word > last => word,
            _ => last,
        }
    }

    /// Counts what an octal text gives of the word at an address.
    pub fn count(&self, address: u32, digits: &mut Vec<u8>) -> Result<WordCounts, AllocError>
        ensures { (assembly : Assembly) (sides : told.Sides) → AreWords self.now assembly sides → IfOk result (AreCounts (findings_of sides) address) }
    {
        if self.show(address, digits)? {
            Ok(self.counts_beside(address, Some(digits)))
        } else {
            Ok(self.counts_beside(address, None))
        }
    }

    /// The same, beside the source's word there.
    fn counts_beside(&self, address: u32, word: Option<&[u8]>) -> WordCounts
        requires { IfSome word (λ word. length word.now ≤ 20) }
        ensures { (assembly : Assembly) (sides : told.Sides) → AreWords self.now assembly sides
            → sides.words address ≡ option_map (λ word. word.now) word.entry → AreCounts (findings_of sides) address result }
    {
        let given = self.reading.words.word(address);
        let counts = count_given(&given);
        let is_given = self.reading.words.gives(address);
        let is_shown = counts.shown > 0;
        let lacks = lacks_in(word, counts.shown);
        let stands = word.is_some();
        let differs = self.reading.words.differs(address, word);
        WordCounts {
            known: u32::from(counts.known),
            is_given,
            unknown: u32::from(counts.unknown),
            denied: u32::from(counts.denied),
            is_absent: both(stands, !is_shown),
            is_in_part: both(is_shown, lacks),
            is_compared: either(is_given, both(self.whole, stands)),
            differs: either(differs, both(self.whole, lacks)),
        }
    }

    /// Tells the word at an address.
    pub fn tell<V: View>(
        &self,
        view: &V,
        address: u32,
        telling: &mut Telling,
    ) -> Result<(), AllocError>
        ensures { (sides : told.Sides) → AreWords self.now (V.assembly view.now) sides
            → OnOk result (telling.new.text.items ≡ telling.old.text.items ++ rows_at sides address) }
    {
        let given = self.reading.words.word(address);
        if self.show(address, &mut telling.digits)? {
            push_words(&mut telling.text, address, Some(&telling.digits), &given)?;
            self.tell_digits(view, address, &given, telling)?;
        } else {
            push_words(&mut telling.text, address, None, &given)?;
        }
        Ok(())
    }

    /// Tells which digits of a word differ, and what made them. The word's digits are those in `telling`.
    fn tell_digits<V: View>(
        &self,
        view: &V,
        address: u32,
        given: &ClaimedWord,
        telling: &mut Telling,
    ) -> Result<(), AllocError>
        requires { length telling.old.digits.items ≤ 20 }
        ensures { (sides : told.Sides) → AreWords self.now (V.assembly view.now) sides → kept_digit given.now ≡ told.given_for sides address
            → OnOk result (telling.new.text.items ≡ telling.old.text.items ++ digit_rows sides address telling.old.digits.items) }
    {
        let shown = count_given(given).shown;
        let places = places_of(&telling.digits, given, shown, self.whole);
        push_carets(&mut telling.text, shown > 0, &places)?;
        push_makers(&mut telling.text, view, &self.deck.makers, address, &places)?;
        Ok(())
    }

    /// Whether a word stands at an address. Its digits are put in the place of what `digits` has.
    fn show(&self, address: u32, digits: &mut Vec<u8>) -> Result<bool, AllocError>
        ensures few { IfOk result (λ stands. stands ≡ true → length digits.new.items ≤ 20) }
        ensures word { (assembly : Assembly) (sides : told.Sides) → AreWords self.now assembly sides
            → IfOk result (λ stands. sides.words address ≡ (if stands then Some digits.new.items else None)) }
    {
        let Some(word) = self.deck.word(self.machine, address) else {
            return Ok(false);
        };
        show_word(digits, self.machine, word)?;
        Ok(true)
    }
}

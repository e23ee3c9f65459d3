//! An octal text and a source, side by side.
ghost use Rattle.std.specs.Prelude.{◌≡◌, ◌++◌, ◌<◌, ◌≤◌, ◌^◌, List, ℕ, flat_map, IfOk, IfSome, OnOk, MatchOption};
ghost use Rattle.cps_list.specs.Assembly.{Assembly};
ghost use Rattle.cps_claims.specs.Reading.{IsReading};
ghost use Rattle.cps_compare.specs.Findings.{Findings};
ghost use Rattle.cps_compare.specs.Comparison.{IsFirst, IsLast, SomeGiven, NoneGiven};

use super::address_span::AddressSpan;
use super::compared_word::{ComparedWord, first_run};
use super::listed_sides::ListedSides;
use super::survey::{Survey, Tallies, WordCounts};
use super::telling::{Telling, push_rest};
use super::word_sides::WordSides;
use cps_claims::RowKinds;
use cps_list::View;
use std::alloc::{AllocError, Global};

/// Of more words that differ one after another only the first are told.
const LONGEST_RUN: usize = 5;

/// How many of them are.
const TOLD_OF_RUN: usize = 4;

/// An octal text and a source, as the text is read.
#[derive(Drop)]
pub enum Sides {
    Words(WordSides),
    /// The text is a listing of this program.
    Listed(ListedSides),
}

impl Sides {
    ghost use Rattle.cps_compare.specs.Runs.{addresses, run_rows, runs_of};
    ghost use Rattle.cps_compare.specs.Code.Kept.{AreKept};
    ghost use Rattle.cps_compare.specs.Code.Runs.{AreCompared, addresses_in};
    ghost use Rattle.cps_compare.specs.Code.Surveys.{AreCounts, AreFew, IsSurvey};

    /// What the rows of the text are.
    pub fn rows(&self) -> &RowKinds
        ensures { (assembly : Assembly) (found : Findings) → AreKept self.now assembly found → IsReading found.rows result.now }
    {
        match self {
            Sides::Words(sides) => &sides.reading.rows,
            Sides::Listed(sides) => &sides.reading.rows,
        }
    }

    /// The first address that is compared. None: no digit of the text can be read.
    pub fn first(&self) -> Option<u32>
        ensures { (assembly : Assembly) (found : Findings) → AreKept self.now assembly found
            → MatchOption result (NoneGiven found) (IsFirst found.is_compared) }
    {
        match self {
            Sides::Words(sides) => sides.first(),
            Sides::Listed(sides) => sides.first(),
        }
    }

    /// The last address that is compared. None: no digit of the text can be read.
    pub fn last(&self) -> Option<u32>
        ensures last { (assembly : Assembly) (found : Findings) → AreKept self.now assembly found
            → MatchOption result (NoneGiven found) (IsLast found.is_compared) }
        ensures few { IfSome result (λ address. address < 2 ^ 18) }
    {
        match self {
            Sides::Words(sides) => sides.last(),
            Sides::Listed(sides) => sides.last(),
        }
    }

    /// Whether the text has a digit that can be read between two addresses.
    pub fn gives_some(&self, span: AddressSpan) -> bool
        ensures { (assembly : Assembly) (found : Findings) → AreKept self.now assembly found → SomeGiven found span.low span.high result }
    {
        match self {
            Sides::Words(sides) => sides.reading.words.gives_some(span.low, span.high),
            Sides::Listed(sides) => sides.gives_some(span),
        }
    }

    /// Goes through the words from one address to another.
    pub fn survey(&self, alloc: Global, span: AddressSpan) -> Result<Survey, AllocError>
        requires { span.high < 2 ^ 18 }
        ensures survey { (assembly : Assembly) (found : Findings) → AreKept self.now assembly found
            → IfOk result (IsSurvey found (addresses span.low span.high)) }
        ensures few { IfOk result (λ survey. AreFew survey.tallies (2 ^ 18)) }
    {
        let mut words = Vec::new(alloc);
        let mut tallies = Tallies::new();
        let mut digits = Vec::new(alloc);
        for address in span.low..span.high + 1 {
            let counts = self.count(address, &mut digits)?;
            tallies.add(address, counts);
            if counts.is_compared {
                let differs = counts.differs;
                words.push(ComparedWord { address, differs })?;
            }
        }
        Ok(Survey { words, tallies })
    }

    /// Counts what an octal text gives at an address. `digits` is room for a word.
    fn count(&self, address: u32, digits: &mut Vec<u8>) -> Result<WordCounts, AllocError>
        ensures { (assembly : Assembly) (found : Findings) → AreKept self.now assembly found → IfOk result (AreCounts found address) }
    {
        match self {
            Sides::Words(sides) => sides.count(address, digits),
            Sides::Listed(sides) => sides.count(*digits.allocator(), address),
        }
    }

    /// Tells the words that differ, of those that are compared.
    pub fn tell_runs<V: View>(
        &self,
        view: &V,
        all: bool,
        words: &[ComparedWord],
        telling: &mut Telling,
    ) -> Result<(), AllocError>
        ensures { (found : Findings) (among : List ℕ) → AreKept self.now (V.assembly view.now) found → AreCompared found among words.now
            → OnOk result (telling.new.text.items ≡ telling.old.text.items
            ++ flat_map (run_rows found all) (runs_of found among)) }
    {
        let mut rest = Some(words);
        while let Some(left) = rest {
            let (run, behind) = first_run(left);
            self.tell_run(view, all, run, telling)?;
            rest = behind;
        }
        Ok(())
    }

    /// Tells words that differ one after another.
    fn tell_run<V: View>(
        &self,
        view: &V,
        all: bool,
        run: &[ComparedWord],
        telling: &mut Telling,
    ) -> Result<(), AllocError>
        ensures { (found : Findings) → AreKept self.now (V.assembly view.now) found
            → OnOk result (telling.new.text.items ≡ telling.old.text.items ++ run_rows found all (addresses_in run.now)) }
    {
        if all || run.len() <= LONGEST_RUN {
            return self.tell_words(view, run, telling);
        }
        let (front, rest) = run.split_at(TOLD_OF_RUN);
        self.tell_words(view, front, telling)?;
        push_rest(&mut telling.text, rest)?;
        Ok(())
    }

    /// Tells each of these words.
    fn tell_words<V: View>(
        &self,
        view: &V,
        words: &[ComparedWord],
        telling: &mut Telling,
    ) -> Result<(), AllocError>
        ensures { (found : Findings) → AreKept self.now (V.assembly view.now) found
            → OnOk result (telling.new.text.items ≡ telling.old.text.items ++ flat_map found.told (addresses_in words.now)) }
    {
        for word in words {
            self.tell(view, word.address, telling)?;
        }
        Ok(())
    }

    /// Tells what differs at an address.
    fn tell<V: View>(&self, view: &V, address: u32, telling: &mut Telling) -> Result<(), AllocError>
        ensures { (found : Findings) → AreKept self.now (V.assembly view.now) found
            → OnOk result (telling.new.text.items ≡ telling.old.text.items ++ found.told address) }
    {
        match self {
            Sides::Words(sides) => sides.tell(view, address, telling),
            Sides::Listed(sides) => sides.tell(view, address, &mut telling.text),
        }
    }
}

//! What is counted from one address to another.
ghost use Rattle.std.specs.Prelude.{◌≡◌, ◌+◌, ◌<◌, ◌≤◌, ◌^◌, ◌++◌, ◌∷◌, [], ℕ, List, None, Some, nat_lt, if◌then◌else◌};
ghost use Rattle.std.specs.Option.{option_or};
ghost use Rattle.cps_compare.specs.Summary.{one_if};

use super::compared_word::ComparedWord;

/// How many there are of something, and at which address the first is.
#[derive(Clone, Copy)]
pub struct Tally {
    pub count: u64,
    pub first: Option<u32>,
}

impl Tally {
    ghost use Rattle.cps_compare.specs.Code.Surveys.{IsTally};

    /// None.
    pub fn new() -> Tally
        ensures tally { (count : ℕ → ℕ) → IsTally count [] result }
        ensures none { result.count ≡ 0 }
    {
        Tally {
            count: 0,
            first: None,
        }
    }

    /// So many more, at an address.
    pub fn add(&mut self, address: u32, count: u32)
        requires { self.old.count < 2 ^ 60 }
        ensures tally { (counts : ℕ → ℕ) (among : List ℕ) → IsTally counts among self.old → count ≡ counts address
            → IsTally counts (among ++ address ∷ []) self.new }
        ensures few { self.new.count ≡ self.old.count + count }
    {
        self.first = first_with(self.first, address, count);
        self.count += u64::from(count);
    }
}

/// The first address with some, where so many are at one more.
fn first_with(first: Option<u32>, address: u32, count: u32) -> Option<u32>
    ensures { result ≡ option_or first (if nat_lt 0 count then Some address else None) }
{
    match first {
        Some(_) => first,
        None if count > 0 => Some(address),
        None => None,
    }
}

/// What is counted at an address.
#[derive(Clone, Copy)]
pub struct WordCounts {
    /// Digits that can be read.
    pub known: u32,
    /// Whether there are some.
    pub is_given: bool,
    /// Digits that can't be read.
    pub unknown: u32,
    /// Digits that are given twice, with two values.
    pub denied: u32,
    /// Whether the source has a word of which nothing is given.
    pub is_absent: bool,
    /// Whether the source has a word that is given, but not whole.
    pub is_in_part: bool,
    /// Whether the word is compared.
    pub is_compared: bool,
    /// Whether it differs.
    pub differs: bool,
}

/// What is counted of the words from one address to another.
#[derive(Clone, Copy)]
pub struct Tallies {
    /// Digits that can be read.
    pub known: Tally,
    /// Words that have some.
    pub given: Tally,
    /// Digits that can't be read.
    pub unknown: Tally,
    /// Digits that are given twice, with two values.
    pub denied: Tally,
    /// Words of the source of which nothing is given.
    pub absent: Tally,
    /// Words that are given, but not whole.
    pub in_part: Tally,
    /// Words that are compared.
    pub compared: Tally,
    /// Words that differ.
    pub differing: Tally,
}

impl Tallies {
    ghost use Rattle.cps_compare.specs.Findings.{Findings};
    ghost use Rattle.cps_compare.specs.Code.Surveys.{AreTallies, AreCounts, AreFew};

    /// Nothing is counted.
    pub fn new() -> Tallies
        ensures tallies { (found : Findings) → AreTallies found [] result }
        ensures few { AreFew result 0 }
    {
        Tallies {
            known: Tally::new(),
            given: Tally::new(),
            unknown: Tally::new(),
            denied: Tally::new(),
            absent: Tally::new(),
            in_part: Tally::new(),
            compared: Tally::new(),
            differing: Tally::new(),
        }
    }

    /// Counts the word at an address.
    pub fn add(&mut self, address: u32, counts: WordCounts)
        requires { AreFew self.old (2 ^ 20) }
        ensures tallies { (found : Findings) (among : List ℕ) → AreTallies found among self.old → AreCounts found address counts
            → AreTallies found (among ++ address ∷ []) self.new }
        ensures few { (among : ℕ) → AreFew self.old among → AreFew self.new (among + 1) }
    {
        self.known.add(address, counts.known);
        self.given.add(address, one_if(counts.is_given));
        self.unknown.add(address, counts.unknown);
        self.denied.add(address, counts.denied);
        self.absent.add(address, one_if(counts.is_absent));
        self.in_part.add(address, one_if(counts.is_in_part));
        self.compared.add(address, one_if(counts.is_compared));
        self.differing.add(address, one_if(counts.differs));
    }
}

/// What stands from one address to another.
#[derive(Drop)]
pub struct Survey {
    /// The words that are compared, by rising addresses.
    pub words: Vec<ComparedWord>,
    pub tallies: Tallies,
}

fn one_if(test: bool) -> u32
    ensures { result ≡ one_if test }
{
    if test { 1 } else { 0 }
}

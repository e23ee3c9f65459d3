//! Counting the steps of an assembly.
ghost use Rattle.std.specs.Prelude.{◌≡◌};

use std::marker::Model;

/// What is counted.
#[derive(Clone, Copy, PartialEq, Eq)]
pub enum Tally {
    /// Steps of pass one: one a line.
    Ones,
    /// Steps of pass two: one a line.
    Twos,
    /// Comparisons of what a line asked, or of the final values that it names, with what stands there now.
    Looked,
}

/// How many steps were made. A count stays at its greatest value. A second counter comes of `Work::new` alone.
#[derive(PartialEq, Eq, Drop)]
pub struct Work {
    ones: u64,
    twos: u64,
    looked: u64,
}

impl Model for Work {
    ghost use Rattle.cps_state.specs.Work.{Counts};

    ghost Value = { Counts };

    ghost view = { λ work. record { ones = work.ones; twos = work.twos; looked = work.looked } };

    ghost inverse = { λ counts. record { ones = counts.ones; twos = counts.twos; looked = counts.looked } };
}

impl Work {
    ghost use Rattle.cps_state.specs.Work.{no_work, raised};

    /// No step.
    pub fn new() -> Work
        ensures { result ≡ no_work }
    {
        Work {
            ones: 0,
            twos: 0,
            looked: 0,
        }
    }

    /// The steps of pass one.
    pub fn ones(&self) -> u64
        ensures { result ≡ self.now.ones }
    {
        self.ones
    }

    /// The steps of pass two.
    pub fn twos(&self) -> u64
        ensures { result ≡ self.now.twos }
    {
        self.twos
    }

    /// The comparisons.
    pub fn looked(&self) -> u64
        ensures { result ≡ self.now.looked }
    {
        self.looked
    }

    /// Counts one more.
    pub fn raise(&mut self, tally: Tally)
        ensures { self.new ≡ raised tally self.old }
    {
        match tally {
            Tally::Ones => self.ones = self.ones.saturating_add(1),
            Tally::Twos => self.twos = self.twos.saturating_add(1),
            Tally::Looked => self.looked = self.looked.saturating_add(1),
        }
    }
}

//! Causes of a line as they are told.
ghost use Rattle.std.specs.Prelude.{◌≡◌, [], All, IfOk, OnOk};
ghost use Rattle.cps_state.specs.Flags as flags;
ghost use Rattle.cps_cause.specs.Letters.{has, only};
ghost use Rattle.cps_cause.specs.Range.{IsRange};
ghost use Rattle.cps_cause.specs.Explaining.{flags_told};

use crate::cause::Cause;
use crate::columns::Columns;
use crate::diagnostic::Diagnostic;
use crate::letter::Letter;
use crate::origin::Origin;
use cps_expr::Radix;
use cps_state::{Flags, Shared};
use std::alloc::{AllocError, Global};
use std::marker::Model;

/// Causes of a line as they are told: none whose letter it hasn't, and no column past its end.
#[derive(Drop)]
pub struct Teller {
    wanted: Flags,
    len: usize,
    letters: Flags,
    told: Vec<Diagnostic>,
}

impl Model for Teller {
    ghost use Rattle.std.specs.Prelude.{◌≡◌, All};
    ghost use Rattle.cps_state.specs.Flags.{joined};
    ghost use Rattle.cps_cause.specs.Range.{IsRange};
    ghost use Rattle.cps_cause.specs.Explaining.{flags_told};
    ghost use Rattle.cps_cause.specs.Code.Telling.{Telling};

    ghost Value = { Telling };

    ghost view = { λ teller. record { wanted = teller.wanted; length = teller.len; told = teller.told.items } };

    ghost invariant = { λ teller. (teller.letters ≡ flags_told teller.told.items) × (joined teller.wanted teller.letters ≡ teller.wanted)
        × All (λ d. IsRange teller.len d.columns) teller.told.items };
}

impl Teller {
    /// Of a line of so many columns that has these flags. Nothing is told yet.
    pub fn new(alloc: Global, wanted: Flags, len: usize) -> Teller
        ensures { result ≡ record { wanted = wanted; length = len; told = [] } }
    {
        Teller {
            wanted,
            len,
            letters: Flags::none(),
            told: Vec::new(alloc),
        }
    }

    /// Tells a cause, if the line has its letter.
    pub fn tell(&mut self, found: Diagnostic) -> Result<(), AllocError>
        ensures wanted { self.new.wanted ≡ self.old.wanted }
        ensures length { self.new.length ≡ self.old.length }
    {
        let letter = found.cause.letter();
        if !letter.is_among(self.wanted) {
            return Ok(());
        }
        let mut told = found;
        told.columns = told.columns.within(self.len);
        self.told.push(told)?;
        self.letters = letter.added_to(self.letters);
        Ok(())
    }

    /// Tells a general cause of a letter that the line has and that has no cause.
    fn fill(&mut self, at: Columns, letter: Letter) -> Result<(), AllocError>
        ensures wanted { self.new.wanted ≡ self.old.wanted }
        ensures length { self.new.length ≡ self.old.length }
        ensures filled { OnOk result (flags_told self.new.told ≡ flags.joined (only letter (has letter self.old.wanted)) (flags_told self.old.told)) }
    {
        if !letter.is_among(self.wanted) || letter.is_among(self.letters) {
            return Ok(());
        }
        let columns = at.within(self.len);
        self.told.push(Diagnostic {
            columns,
            cause: Cause::General(letter),
            within: columns,
            statement: Shared::empty(),
            origin: Origin::Line,
            base: Radix::Decimal,
            times: 1,
        })?;
        self.letters = letter.added_to(self.letters);
        Ok(())
    }

    /// What is told, with a general cause for each letter of the line that has none. That shows at these columns.
    pub fn finish(self, at: Columns) -> Result<Vec<Diagnostic>, AllocError>
        ensures letters { IfOk result (λ told. flags_told told.items ≡ self.wanted) }
        ensures columns { IfOk result (λ told. All (λ d. IsRange self.length d.columns) told.items) }
    {
        let mut teller = self;
        teller.fill(at, Letter::A)?;
        teller.fill(at, Letter::D)?;
        teller.fill(at, Letter::E)?;
        teller.fill(at, Letter::L)?;
        teller.fill(at, Letter::O)?;
        teller.fill(at, Letter::T)?;
        teller.fill(at, Letter::U)?;
        teller.fill(at, Letter::V)?;
        let Teller { told, .. } = teller;
        Ok(told)
    }
}

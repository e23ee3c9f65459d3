//! The digits that a listing has at one address.
ghost use Rattle.std.specs.Prelude.{◌≡◌, [], ◌++◌, ◌≤◌, ◌<◌, ◌^◌, OnOk, length, vec_len};
ghost use Rattle.cps_claims.specs.Listed.{listed_by};

use super::listed_digit::ListedDigit;
use std::alloc::{AllocError, Global};

/// More digits at one address aren't kept.
const MOST_LISTED: usize = 0xffff_ffff;

/// The digits at one address.
#[derive(Drop)]
pub struct ListedWord {
    digits: Vec<ListedDigit>,
    ghost few: { vec_len digits ≤ 4294967295 },
}

impl ListedWord {
    /// No digits. Takes no memory yet.
    pub(crate) fn new(alloc: Global) -> ListedWord
        ensures { result.digits.items ≡ [] }
    {
        ListedWord {
            digits: Vec::new(alloc),
        }
    }

    /// Adds digits behind these. The error is that there was no memory, or that they would be more than 4,294,967,295.
    pub(crate) fn add(&mut self, by: u32, digits: &[u8]) -> Result<(), AllocError>
        ensures { OnOk result (self.new.digits.items ≡ self.old.digits.items ++ listed_by by digits.now) }
    {
        if digits.len() > MOST_LISTED - self.digits.len() {
            return Err(AllocError);
        }
        for digit in digits {
            let digit = *digit;
            self.digits.push(ListedDigit { digit, by })?;
        }
        Ok(())
    }

    /// The digits.
    pub(crate) fn digits(&self) -> &[ListedDigit]
        ensures digits { result.now ≡ self.now.digits.items }
        ensures few { length result.now < 2 ^ 32 }
    {
        &self.digits
    }
}

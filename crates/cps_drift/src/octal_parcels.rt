//! The parcels of an octal text, in stretches of words at addresses one behind another.
ghost use Rattle.std.specs.Prelude.{◌<◌};

use super::octal_parcel::OctalParcel;
use super::parcel::{parcel_digits, parcels_of};
use cps_claims::{ClaimedWord, ClaimedWords};
use cps_expr::Machine;
use std::alloc::{AllocError, Global};

/// The last address that a text may have.
const LAST_ADDRESS: u32 = 0o777_777;

/// The parcels of an octal text.
#[derive(Drop)]
pub struct OctalParcels {
    pub parcels: Vec<OctalParcel>,
    /// The end of each stretch: how many parcels stand up to there.
    pub ends: Vec<usize>,
}

impl OctalParcels {
    /// Of the words from one address to another, both counted.
    pub fn of(
        alloc: Global,
        machine: Machine,
        words: &ClaimedWords,
        low: u32,
        high: u32,
    ) -> Result<OctalParcels, AllocError> {
        let mut text = OctalParcels {
            parcels: Vec::new(alloc),
            ends: Vec::new(alloc),
        };
        for address in low..high.min(LAST_ADDRESS) + 1 {
            if words.gives(address) {
                text.push_word(machine, address, &words.word(address))?;
            } else {
                text.end_stretch()?;
            }
        }
        text.end_stretch()?;
        text.number_next();
        Ok(text)
    }

    /// Adds the whole parcels that the claimed digits of a word begin with.
    fn push_word(
        &mut self,
        machine: Machine,
        address: u32,
        word: &ClaimedWord,
    ) -> Result<(), AllocError> {
        for place in 0..parcels_of(machine) {
            let Some(parcel) = parcel_at(machine, address, word, place) else {
                return Ok(());
            };
            self.parcels.push(parcel)?;
        }
        Ok(())
    }

    /// Ends the stretch that was begun, if one was.
    fn end_stretch(&mut self) -> Result<(), AllocError> {
        let end = self.parcels.len();
        if self.ends.last().copied().unwrap_or(0) < end {
            self.ends.push(end)?;
        }
        Ok(())
    }

    /// For each parcel the next one that isn't known to do nothing.
    fn number_next(&mut self) {
        let mut next = self.parcels.len();
        for (at, parcel) in self.parcels.iter_mut().enumerate().rev() {
            if !parcel.does_nothing() {
                next = at;
            }
            parcel.next = next;
        }
    }
}

/// The parcel at a place of a word. None: not each of its digits is claimed.
fn parcel_at(
    machine: Machine,
    address: u32,
    word: &ClaimedWord,
    place: usize,
) -> Option<OctalParcel>
    requires { place < 4 }
{
    let mut parcel = OctalParcel {
        address,
        place: place as u8,
        number: 0,
        known: 0,
        row: word.first_row,
        next: 0,
    };
    let digits = usize::from(parcel_digits(machine));
    for behind in 0..digits {
        let digit = word.digits.get(place * digits + behind)?;
        if !digit.is_claimed() {
            return None;
        }
        let is_known = digit.is_known();
        parcel.number = (parcel.number << 3) | digit_if(is_known, digit.shown);
        parcel.known = (parcel.known << 3) | digit_if(is_known, b'7');
    }
    Some(parcel)
}

/// The number of an octal digit that is known, else 0.
fn digit_if(is_known: bool, digit: u8) -> u16 {
    if is_known { u16::from(digit & 7) } else { 0 }
}

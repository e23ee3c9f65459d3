//! The addresses that codes hold, and whether they moved along with what they point to.

use super::deck_code::{ADDRESS_BITS, DeckCode, NEAR_BITS, SECOND_BITS};
use super::moved_words::MovedWords;
use super::octal_parcel::JoinedParcels;
use cps_expr::Machine;

/// The octal digits of a word of the central processor.
const WORD_DIGITS: u32 = 20;

/// A code of a source beside the parcels of a text that agree with it.
#[derive(Clone, Copy)]
pub struct LaidPair {
    pub code: DeckCode,
    pub parcels: JoinedParcels,
    /// The address of the parcels' first word.
    pub address: u32,
}

/// How many addresses that a code holds are other ones in the text.
#[derive(Clone, Copy)]
pub struct HeldCounts {
    /// Those that moved as far as what stands at the address, or as the code's own word.
    pub along: u32,
    /// The others.
    pub wrong: u32,
}

impl HeldCounts {
    fn none() -> HeldCounts {
        HeldCounts { along: 0, wrong: 0 }
    }

    /// One more address: that of the text, and that of the source.
    fn put(&mut self, pair: &LaidPair, moved: &MovedWords, text: i64, deck: i64) {
        let shift = text.saturating_sub(deck);
        if shift == 0 {
            return;
        }
        if shift == pair.shift() || moved.shift_at(deck) == Some(shift) {
            self.along = self.along.saturating_add(1);
        } else {
            self.wrong = self.wrong.saturating_add(1);
        }
    }
}

impl LaidPair {
    /// By how many words the text stands higher than the source.
    pub fn shift(&self) -> i64 {
        i64::from(self.address) - i64::from(self.code.address)
    }

    /// How many of its addresses are other ones in the text.
    pub fn held(&self, machine: Machine, moved: &MovedWords) -> HeldCounts {
        let mut counts = HeldCounts::none();
        if self.code.address_bits == 0 {
            return counts;
        }
        match machine {
            Machine::Cp => self.count_central(&mut counts, moved),
            Machine::Pp => self.count_peripheral(&mut counts, moved),
        }
        counts
    }

    /// The addresses of 18 bits.
    fn count_central(&self, counts: &mut HeldCounts, moved: &MovedWords) {
        let mut free = 0;
        for digit in 0..WORD_DIGITS {
            let behind = 3 * digit;
            if free <= digit && (self.code.address_bits >> behind) & 1 == 1 {
                free = digit + 6;
                if (self.parcels.known >> behind) & ADDRESS_BITS == ADDRESS_BITS {
                    let text = (self.parcels.number >> behind) & ADDRESS_BITS;
                    let deck = (self.code.number >> behind) & ADDRESS_BITS;
                    counts.put(self, moved, text as i64, deck as i64);
                }
            }
        }
    }

    /// The second word, or the d of a near jump, which counts from the jump.
    fn count_peripheral(&self, counts: &mut HeldCounts, moved: &MovedWords) {
        let bits = self.code.address_bits;
        if self.parcels.known & bits != bits {
            return;
        }
        let (text, deck) = (self.parcels.number & bits, self.code.number & bits);
        if bits == NEAR_BITS {
            let (text, deck) = (distance(text), distance(deck));
            let text = i64::from(self.address).saturating_add(text);
            let deck = i64::from(self.code.address).saturating_add(deck);
            counts.put(self, moved, text, deck);
        } else if bits == SECOND_BITS {
            counts.put(self, moved, text as i64, deck as i64);
        }
    }
}

/// How far a near jump goes: 1 to 37 forward, 40 to 76 back, in octal.
fn distance(d: u64) -> i64 {
    let d = (d & NEAR_BITS) as i64;
    if d < 0o40 { d } else { d - 0o77 }
}

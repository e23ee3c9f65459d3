//! A code of a source: an instruction, or a word that isn't made of instructions.

use super::parcel::NOTHING;

/// The bits of an address in a code of the central processor.
pub const ADDRESS_BITS: u64 = 0o777_777;

/// The bits of the word behind a peripheral instruction's first, which may be an address.
pub const SECOND_BITS: u64 = 0o7777;

/// The bits of the d of a peripheral jump to near words.
pub const NEAR_BITS: u64 = 0o77;

/// A code of a source.
#[derive(Clone, Copy)]
pub struct DeckCode {
    /// Its bits, one parcel behind another.
    pub number: u64,
    /// Which of them hold addresses. They are no part of what is compared.
    pub address_bits: u64,
    /// The address of its word, of a peripheral instruction its first one.
    pub address: u32,
    /// The line that made its first digit; lines count from 1. 0: a literal, or nobody.
    pub line: u32,
    /// How many parcels it has: 1, 2 or 4.
    pub count: u8,
    /// How many parcels stand before it in its word.
    pub place: u8,
}

impl DeckCode {
    /// Whether parcels that do nothing are passed before it. They aren't before a word that begins so itself.
    pub fn passes_nothing(&self) -> bool {
        let first = match self.count {
            1 => self.number,
            2 => self.number >> 15,
            _ => self.number >> 45,
        };
        first != u64::from(NOTHING)
    }

    /// Whether it has the same bits as another code.
    pub fn has_same_bits(&self, other: &DeckCode) -> bool {
        self.number == other.number
            && self.address_bits == other.address_bits
            && self.count == other.count
    }
}

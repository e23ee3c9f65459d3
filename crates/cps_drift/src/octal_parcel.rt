//! A parcel of an octal text.

use super::parcel::NOTHING;

/// The known bits of a parcel each digit of which can be read.
const ALL_KNOWN: u16 = 0o77777;

/// A parcel that an octal text claims.
#[derive(Clone, Copy)]
pub struct OctalParcel {
    /// The address of its word.
    pub address: u32,
    /// How many parcels stand before it in its word.
    pub place: u8,
    /// Its bits; those that can't be read are zeros.
    pub number: u16,
    /// The bits that can be read.
    pub known: u16,
    /// The first row of the text that claims a digit of its word; rows count from 1.
    pub row: usize,
    /// The number of the first parcel of the text, this one or one behind it, that isn't known to do nothing.
    pub next: usize,
}

impl OctalParcel {
    /// Whether it is known to do nothing.
    pub fn does_nothing(&self) -> bool {
        self.number == NOTHING && self.known == ALL_KNOWN
    }
}

/// The bits of parcels one behind another.
#[derive(Clone, Copy)]
pub struct JoinedParcels {
    pub number: u64,
    /// The bits that can be read.
    pub known: u64,
}

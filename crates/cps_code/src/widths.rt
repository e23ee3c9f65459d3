//! How many bits the machine's words and their parts have.

/// The bits of a word.
pub const WORD: u8 = 60;

/// The bits of a parcel.
pub const PARCEL: u8 = 15;

/// The bits of the constant of an instruction.
pub const CONSTANT: u8 = 18;

/// The bits of the count of an instruction.
pub const COUNT: u8 = 6;

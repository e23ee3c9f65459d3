ghost use Rattle.std.specs.Prelude.{◌≡◌, ◌<◌};
ghost use Rattle.cps_code.specs.Bits.{word_bits};

use super::widths::WORD;

/// Where a program stands: a word, the bits that are used in it (0 to 59), and whether a forcing is pending,
/// so that what comes next begins a word.
#[derive(Clone, Copy, PartialEq, Eq)]
pub struct Place {
    pub word: u32,
    pub used: u8,
    pub is_pending: bool,
    ghost in_word: { used < word_bits },
}

impl Place {
    ghost use Rattle.cps_code.specs.Place.{place_at};

    /// The place after so many bits, through all words.
    pub fn behind(bits: u32, is_pending: bool) -> Place
        ensures { result ≡ place_at bits is_pending }
    {
        Place {
            word: bits / u32::from(WORD),
            used: (bits % u32::from(WORD)) as u8,
            is_pending,
        }
    }
}

/// What a location field asks of the place: nothing, a new word (a symbol or `+`), or that a pending forcing
/// be cancelled (`-`).
#[derive(Clone, Copy, PartialEq, Eq)]
pub enum Force {
    Free,
    NewWord,
    Cancel,
}

/// What stands in the bits that are skipped in the word that is left: `width` bits from bit `first` on.
#[derive(Clone, Copy, PartialEq, Eq)]
pub struct Filling {
    pub first: u8,
    pub width: u8,
    pub number: u64,
}

/// Where an instruction begins, the place after it, and what fills the bits that it skips.
#[derive(Clone, Copy, PartialEq, Eq)]
pub struct PlacedInstruction {
    pub start: Place,
    pub after: Place,
    pub filling: Option<Filling>,
}

ghost use Rattle.std.specs.Prelude.{◌+◌, ◌^◌, ◌<◌, ◌≤◌};
ghost use Rattle.cps_code.specs.Bits.{word_bits};

/// Bits to be put into words: the `width` low bits of `number`, from bit `first` of a word on (the leftmost bit
/// is 0), the same in `times` words from `address` on.
#[derive(Clone, Copy, PartialEq, Eq)]
pub struct Piece {
    pub address: u32,
    pub first: u8,
    pub width: u8,
    pub number: u64,
    pub times: u32,
    ghost in_word: { first + width ≤ word_bits },
    ghost has_bits: { 0 < width },
    ghost fits_width: { number < 2 ^ width },
    ghost has_words: { 0 < times },
    ghost ends_low: { address + times < 2 ^ 32 },
}

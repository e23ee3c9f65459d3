//! Why a value has flag T.

use crate::wording::{Wording, push_bound, push_number, push_value};
use std::alloc::AllocError;

/// The bits of a central processor's word.
const WORD_BITS: u8 = 60;

/// A value that its bits don't hold.
#[derive(Clone, Copy, PartialEq, Eq)]
pub struct CutFault {
    pub value: i64,
    /// The bits, from 1 to 60.
    pub width: u8,
}

impl CutFault {
    /// Appends the words.
    pub(crate) fn push_words(self, text: &mut Wording) -> Result<(), AllocError> {
        let width = i64::from(self.width);
        let bits: &[u8] = if width == 1 { b" bit (" } else { b" bits (" };
        push_value(text, b"the value ", self.value, b" doesn't fit ")?;
        push_number(text, b"", width, bits)?;
        push_bound(text, b"", 0i64.saturating_sub(least(self.width)), b" to ")?;
        push_bound(
            text,
            b"",
            most(self.width),
            b"); what is past them is cut off",
        )
    }
}

/// The greatest number of so many bits.
fn most(width: u8) -> i64 {
    let mut ones: i64 = 0;
    for _bit in 0..width.min(WORD_BITS) {
        ones = ones.saturating_mul(2).saturating_add(1);
    }
    ones
}

/// The greatest magnitude of a number below 0 in so many bits.
fn least(width: u8) -> i64 {
    most(width.saturating_sub(1))
}

//! The columns of a card, with a mask of those that are filled.
ghost use Rattle.std.specs.Prelude.{ℕ, List, Bool, ◌≡◌, ◌+◌, ◌^◌, ◌≤◌, ◌<◌, length, take, drop, map};
ghost use Rattle.std.specs.List.{list_all, position_or_len};
ghost use Rattle.std.specs.Simd.Lanes.{mask_l};
ghost use Rattle.cps_text.specs.Card.{filled_from, blank_from, field_at};
ghost use Rattle.cps_text.specs.Code.MaskedCard.{IsMasked, AreMasks};
ghost use Rattle.cps_text.specs.Text.{is_blank};

use crate::places::{field_from, filled_from, from};
use std::simd::prelude::*;

/// The most columns that a mask has; a longer card is read character by character.
const MASK_COLUMNS: usize = 64;

/// The columns of a card. A bit stands for a column, the lowest for the first; behind a card's end columns count as blank.
#[derive(Clone, Copy)]
pub(crate) struct MaskedCard<'a> {
    pub(crate) text: &'a [u8],
    filled: u64,
    blank: u64,
}

impl<'a> MaskedCard<'a> {
    /// The columns of a card with their masks.
    #[inline(always)]
    pub(crate) fn of(text: &'a [u8]) -> MaskedCard<'a>
        ensures masked { IsMasked result }
        ensures text { result.text.now ≡ text.now }
    {
        let mut columns = [b' '; MASK_COLUMNS];
        if text.len() <= MASK_COLUMNS {
            columns[..text.len()].copy_from_slice(text);
        }
        let (filled, blank) = masks_of(columns);
        MaskedCard {
            text,
            filled,
            blank,
        }
    }

    /// Whether all columns are blank.
    #[inline(always)]
    pub(crate) fn is_blank(self) -> bool
        requires { IsMasked self }
        ensures { result ≡ list_all is_blank self.entry.text.now }
    {
        self.filled_from(0) == self.text.len()
    }

    /// The first place, from 0, from one on that isn't blank; the end where there is none.
    #[inline(always)]
    pub(crate) fn filled_from(self, at: usize) -> usize
        requires masked { IsMasked self }
        requires near { at < 2 ^ 63 }
        ensures column { result ≡ filled_from self.entry.text.now at }
        ensures near { result < 2 ^ 63 }
    {
        if self.text.len() > MASK_COLUMNS {
            return filled_from(self.text, at);
        }
        first_set(self.filled, at, self.text.len())
    }

    /// The characters from a place on, up to a blank, and where they end.
    #[inline(always)]
    pub(crate) fn field_from(self, at: usize) -> (&'a [u8], usize)
        requires masked { IsMasked self }
        requires near { at < 2 ^ 63 }
        ensures field { result.0.now ≡ field_at self.entry.text.now at }
        ensures end { result.1 ≡ blank_from self.entry.text.now at }
        ensures near { result.1 < 2 ^ 63 }
    {
        if self.text.len() > MASK_COLUMNS {
            return field_from(self.text, at);
        }
        let end = first_set(self.blank, at, self.text.len());
        (&from(self.text, at)[..end - at], end)
    }
}

/// The masks of columns: those that are filled, and those that are blank.
#[inline(always)]
fn masks_of(columns: [u8; MASK_COLUMNS]) -> (u64, u64)
    ensures { AreMasks columns result.0 result.1 }
{
    let lanes = u8x64::from_array(columns);
    let blank = u8x64::splat(b' ');
    (
        lanes.simd_ne(blank).to_bitmask(),
        lanes.simd_eq(blank).to_bitmask(),
    )
}

/// The first place from one on whose bit is set, among so many; behind these the place itself, and the number of places where no bit is set.
#[inline(always)]
fn first_set(bits: u64, at: usize, places: usize) -> usize
    requires { places ≤ 64 }
    ensures place { (p : ℕ → Bool) (columns : List ℕ) → bits ≡ mask_l (map p columns) → length columns ≡ 64
        → result ≡ at + position_or_len p (drop at (take places columns)) }
    ensures near { at < 2 ^ 63 → result < 2 ^ 63 }
    ensures behind { at ≤ result }
{
    if at >= places {
        return at;
    }
    let rest = bits >> at;
    places.min(at + rest.trailing_zeros() as usize)
}

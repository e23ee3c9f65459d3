//! How far the words of a source moved.

use std::alloc::{AllocError, Global};

/// By how many words the text stands higher than the source, by the address in the source.
#[derive(Drop)]
pub struct MovedWords {
    shifts: Vec<Option<i64>>,
}

impl MovedWords {
    /// Of words up to an address, which isn't counted. Nothing is known of them yet.
    pub fn new(alloc: Global, end: usize) -> Result<MovedWords, AllocError> {
        let mut shifts = Vec::new(alloc);
        shifts.resize(end, None)?;
        Ok(MovedWords { shifts })
    }

    /// What is known first of a word counts.
    pub fn put(&mut self, address: i64, shift: i64) {
        let Ok(at) = usize::try_from(address) else {
            return;
        };
        if let Some(slot) = self.shifts.get_mut(at) {
            if slot.is_none() {
                *slot = Some(shift);
            }
        }
    }

    /// Whether a word of which something is known moved.
    pub fn has_moved(&self) -> bool {
        for shift in &self.shifts {
            if let Some(shift) = shift {
                if *shift != 0 {
                    return true;
                }
            }
        }
        false
    }

    /// A word of which nothing is known moved as the one before.
    pub fn fill(&mut self) {
        let mut last = None;
        for slot in &mut self.shifts {
            match slot {
                Some(shift) => last = Some(*shift),
                None => *slot = last,
            }
        }
    }

    /// How far the word at an address of the source moved; behind the last word, as that one.
    pub fn shift_at(&self, address: i64) -> Option<i64> {
        let at = usize::try_from(address).ok()?;
        let at = at.min(self.shifts.len().saturating_sub(1));
        self.shifts.get(at).copied().flatten()
    }
}

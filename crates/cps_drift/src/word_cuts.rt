//! How the words of a source are cut into codes, by address.

use super::word_cut::WordCut;
use cps_code::Piece;
use std::alloc::{AllocError, Global};

/// How the words of a source are cut into codes, from address 0 on.
#[derive(Drop)]
pub struct WordCuts {
    cuts: Vec<WordCut>,
}

impl WordCuts {
    /// No word. Takes no memory yet.
    pub fn new(alloc: Global) -> WordCuts {
        WordCuts {
            cuts: Vec::new(alloc),
        }
    }

    /// How the word at an address is cut.
    pub fn get(&self, address: u32) -> WordCut {
        match self.cuts.get(address as usize) {
            Some(cut) => *cut,
            None => WordCut::new(),
        }
    }

    /// Puts a piece of a line over what stands. Lines count from 1; 0 is a literal.
    pub fn put(&mut self, piece: Piece, line: u32) -> Result<(), AllocError> {
        let first = piece.address as usize;
        let end = first + piece.times as usize;
        self.make_room(end)?;
        for address in first..end {
            if let Some(cut) = self.cuts.get_mut(address) {
                cut.put(piece, line);
            }
        }
        Ok(())
    }

    /// The word at an address is the second one of a peripheral instruction.
    pub fn mark_second(&mut self, address: u64) {
        if let Ok(at) = usize::try_from(address) {
            if let Some(cut) = self.cuts.get_mut(at) {
                cut.is_second = true;
            }
        }
    }

    fn make_room(&mut self, end: usize) -> Result<(), AllocError> {
        if self.cuts.len() < end {
            self.cuts.resize(end, WordCut::new())?;
        }
        Ok(())
    }
}

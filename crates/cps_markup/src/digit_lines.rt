//! The lines that made the digits of words.

use std::alloc::{AllocError, Global};

/// The octal digits of a word, and the bits of each.
const WORD_DIGITS: usize = 20;

const DIGIT_BITS: u8 = 3;

/// By each address the numbers of the lines that made the octal digits of its word, 0 where none did. What is made last is put first.
#[derive(Drop)]
pub struct DigitLines {
    lines: Vec<u32>,
    /// By each address one from which on no word is left out that isn't whole: its own, if its word isn't.
    open: Vec<u32>,
    word_bits: u8,
}

/// Bits of words: in each of so many from an address on, so many from one on.
#[derive(Clone, Copy)]
pub struct MadeBits {
    pub address: u32,
    pub words: u32,
    pub first: u8,
    pub width: u8,
}

impl DigitLines {
    /// Nobody made anything, in words of so many bits. Takes no memory.
    pub fn new(alloc: Global, word_bits: u8) -> DigitLines {
        DigitLines {
            lines: Vec::new(alloc),
            open: Vec::new(alloc),
            word_bits,
        }
    }

    /// Has a line make bits, under what stands there. Words that are whole are passed over, however many they are.
    pub fn put(&mut self, line: u32, made: MadeBits) -> Result<(), AllocError> {
        let end = made.address.saturating_add(made.words);
        self.reach(end)?;
        let is_whole = made.width == self.word_bits;
        let mut address = self.open_from(made.address);
        for _ in 0..made.words {
            if address >= end {
                return Ok(());
            }
            self.put_digits(line, address, made);
            let behind = address.saturating_add(1);
            if is_whole {
                self.close(address);
            }
            address = self.open_from(behind);
        }
        Ok(())
    }

    /// No line made the word at an address.
    pub fn leave(&mut self, address: u32) -> Result<(), AllocError> {
        self.reach(address.saturating_add(1))?;
        self.close(address);
        Ok(())
    }

    /// Makes room for words before an address.
    fn reach(&mut self, end: u32) -> Result<(), AllocError> {
        let room = WORD_DIGITS.saturating_mul(end as usize);
        if self.lines.len() < room {
            self.lines.resize(room, 0)?;
        }
        for address in self.open.len()..end as usize {
            self.open.push(address as u32)?;
        }
        Ok(())
    }

    /// The word at an address is whole.
    fn close(&mut self, address: u32) {
        if let Some(slot) = self.open.get_mut(address as usize) {
            *slot = address.saturating_add(1);
        }
    }

    /// The first address from one on whose word isn't whole. Each second step on the way is shortened to the next but one.
    fn open_from(&mut self, address: u32) -> u32 {
        let mut at = address;
        for _ in 0..self.open.len() {
            let next = self.step_from(at);
            if next == at {
                return at;
            }
            let behind = self.step_from(next);
            if let Some(slot) = self.open.get_mut(at as usize) {
                *slot = behind;
            }
            at = behind;
        }
        at
    }

    fn step_from(&self, address: u32) -> u32 {
        match self.open.get(address as usize) {
            Some(next) => *next,
            None => address,
        }
    }

    /// The digits of a word that no line made yet.
    fn put_digits(&mut self, line: u32, address: u32, made: MadeBits) {
        let word = WORD_DIGITS.saturating_mul(address as usize);
        let from = usize::from(made.first / DIGIT_BITS);
        let to = usize::from(made.first.saturating_add(made.width).div_ceil(DIGIT_BITS));
        for digit in from..to {
            if let Some(slot) = self.lines.get_mut(word.saturating_add(digit)) {
                if *slot == 0 {
                    *slot = line;
                }
            }
        }
    }

    /// Those of the word at an address, none where nobody made anything there or behind it.
    pub fn of_word(&self, address: u32) -> &[u32] {
        let before = WORD_DIGITS.saturating_mul(address as usize);
        let (_, rest) = self.lines.split_at(before.min(self.lines.len()));
        rest.split_at(WORD_DIGITS.min(rest.len())).0
    }
}

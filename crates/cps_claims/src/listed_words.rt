//! The digits that a listing has at each address.
ghost use Rattle.std.specs.Prelude.{◌≡◌, ℕ, List, [], ◌<◌, ◌≤◌, ◌^◌, OnOk, length, vec_len, max};

use super::listed_digit::ListedDigit;
use super::listed_word::ListedWord;
use super::row::MOST_WORDS;
use std::alloc::{AllocError, Global};

/// The digits that a listing has at each address, from address 0 on.
#[derive(Drop)]
pub struct ListedWords {
    words: Vec<ListedWord>,
    ghost few: { vec_len words ≤ 262144 },
}

impl ListedWords {
    ghost use Rattle.cps_claims.specs.Listed.{ListedCode, listed_at};
    ghost use Rattle.cps_claims.specs.Code.Listed.{digits_at, Lists, AddsCode};

    /// No digits. Takes no memory yet.
    pub fn new(alloc: Global) -> ListedWords
        ensures { Lists result [] }
    {
        ListedWords {
            words: Vec::new(alloc),
        }
    }

    /// Adds the digits of a code at an address, behind those that stand there. The error is that there was no memory; then some of the digits may be kept.
    pub fn add(&mut self, by: u32, address: u32, digits: &[u8]) -> Result<(), AllocError>
        requires { address < MOST_WORDS }
        ensures { OnOk result (AddsCode (record { by = by; address = address; digits = digits.now }) self.old self.new) }
    {
        let at = address as usize;
        Self::make_room(&mut self.words, at + 1)?;
        self.words[at].add(by, digits)?;
        Ok(())
    }

    /// The digits at an address.
    pub fn at(&self, address: u32) -> &[ListedDigit]
        ensures digits { (codes : List ListedCode) → Lists self.now codes → result.now ≡ listed_at codes address }
        ensures few { length result.now < 2 ^ 32 }
    {
        match self.words.get(address as usize) {
            Some(word) => word.digits(),
            None => &[],
        }
    }

    /// Adds addresses without digits up to an end.
    fn make_room(words: &mut Vec<ListedWord>, end: usize) -> Result<(), AllocError>
        ensures room { OnOk result (end ≤ vec_len words.new) }
        ensures same { (address : ℕ) → digits_at words.new.items address ≡ digits_at words.old.items address }
        ensures few { vec_len words.new ≤ max (vec_len words.old) end }
    {
        while words.len() < end {
            let alloc = *words.allocator();
            words.push(ListedWord::new(alloc))?;
        }
        Ok(())
    }
}

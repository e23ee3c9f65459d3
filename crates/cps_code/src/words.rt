ghost use Rattle.std.specs.Prelude.{◌≡◌, ◌+◌, ◌-◌, ◌^◌, ◌<◌, ◌≤◌, [], ◌∷◌, ◌++◌, List, Option, ℕ, OnOk, OnErr, length, if◌then◌else◌, ◌&&◌, nat_le, nat_lt, vec_len};
ghost use Rattle.cps_code.specs.Image.{piece_of, word_at, packed_word, Deposits, ArePacked};
ghost use Rattle.cps_code.specs.Image as image;
ghost use Rattle.cps_code.specs.Code.Slots.{AreWords};
ghost use Rattle.cps_code.specs.Bits.{word_bits, bit_from_left};

use super::piece::Piece;
use crate::widths::WORD;
use std::alloc::{AllocError, Global};
use std::marker::Model;

/// The words of a program, by their addresses.
#[derive(Drop)]
pub struct Words {
    slots: Vec<Option<u64>>,
}

impl Model for Words {
    ghost use Rattle.std.specs.Prelude.{List, Option, ℕ};
    ghost use Rattle.cps_code.specs.Code.Slots.{AreWords};

    ghost Value = { List (Option ℕ) };

    ghost view = { λ words. words.slots.items };

    ghost invariant = { λ words. AreWords words.slots.items };
}

impl Words {
    /// No word at all.
    pub fn new(alloc: Global) -> Words
        ensures { ArePacked [] result }
    {
        Words {
            slots: Vec::new(alloc),
        }
    }

    /// The word at an address, if there is one.
    pub fn get(&self, address: u32) -> Option<u64>
        ensures value { result ≡ word_at self.now address }
        ensures packed { (pieces : List image.Piece) → ArePacked pieces self.now → result ≡ packed_word pieces address }
    {
        slot_at(&self.slots, address)
    }

    /// The address past the last slot: no word stands there or beyond.
    pub fn end(&self) -> usize
        ensures { result ≡ length self.now }
    {
        self.slots.len()
    }

    /// Puts a piece over what stands.
    #[inline(always)]
    pub fn deposit(&mut self, piece: Piece) -> Result<(), AllocError>
        ensures ok { OnOk result (Deposits self.old (piece_of piece) self.new) }
        ensures packed { (pieces : List image.Piece) → ArePacked pieces self.old → OnOk result (ArePacked (pieces ++ piece_of piece ∷ []) self.new) }
        ensures err { OnErr result (self.new ≡ self.old) }
    {
        make_room(
            &mut self.slots,
            piece.address as usize + piece.times as usize,
        )?;
        put_over(&mut self.slots, piece);
        Ok(())
    }
}

/// What stands in a slot, None past the end.
fn slot_at(slots: &[Option<u64>], address: u32) -> Option<u64>
    ensures { result ≡ word_at slots.now address }
{
    slots.get(address as usize).copied().flatten()
}

/// Adds empty slots up to an end.
fn make_room(slots: &mut Vec<Option<u64>>, end: usize) -> Result<(), AllocError>
    ensures room { OnOk result (end ≤ vec_len slots.new) }
    ensures same { (address : ℕ) → word_at slots.new.items address ≡ word_at slots.old.items address }
    ensures err { OnErr result (slots.new.items ≡ slots.old.items) }
{
    if slots.len() < end {
        slots.resize(end, None)?;
    }
    Ok(())
}

/// Puts a piece over the words of its slots.
fn put_over(slots: &mut [Option<u64>], piece: Piece)
    requires room { piece.address + piece.times ≤ length slots.old }
    requires words { AreWords slots.old }
    ensures deposits { Deposits slots.old (piece_of piece) slots.new }
    ensures words { AreWords slots.new }
{
    let first = piece.address as usize;
    for slot in first..first + piece.times as usize {
        let word = slots[slot].unwrap_or(0);
        slots[slot] = Some(merged(word, piece));
    }
}

/// A word with the piece's bits over its own.
fn merged(word: u64, piece: Piece) -> u64
    requires { word < 2 ^ word_bits }
    ensures bits { (at : ℕ) → at < word_bits → bit_from_left word_bits result at
        ≡ (if nat_le piece.first at && nat_lt at (piece.first + piece.width)
        then bit_from_left piece.width piece.number (at - piece.first) else bit_from_left word_bits word at) }
    ensures below { result < 2 ^ word_bits }
{
    let below = WORD - piece.first - piece.width;
    let high = word >> (below + piece.width);
    let low = word & ((1 << below) - 1);
    (((high << piece.width) | piece.number) << below) | low
}

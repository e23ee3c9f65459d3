//! The makers of all digits of a source.
ghost use Rattle.std.specs.Prelude.{◌≡◌, ◌∷◌, [], ◌++◌, ◌+◌, ◌*◌, ◌<◌, ◌≤◌, ◌&&◌, ℕ, List, length, nat_le, nat_lt, OnOk, if◌then◌else◌, vec_len};
ghost use Rattle.cps_code.specs.Image.{piece_of};
ghost use Rattle.cps_compare.specs.Makers.{Signed, signed_by};
ghost use Rattle.cps_compare.specs.Code.Deck.{AreMade, maker_at, slot_at};

use super::maker::Maker;
use cps_claims::MOST_DIGITS;
use cps_code::Piece;
use std::alloc::{AllocError, Global};
use std::marker::Model;

/// The bits of an octal digit.
const DIGIT_BITS: u8 = 3;

/// What made each octal digit of each word, from address 0 on.
#[derive(Drop)]
pub struct Makers {
    slots: Vec<Maker>,
}

impl Model for Makers {
    ghost use Rattle.std.specs.Prelude.{List};
    ghost use Rattle.cps_compare.specs.declared.maker.Maker.{Maker};

    ghost Value = { List Maker };

    ghost view = { λ makers. makers.slots.items };
}

impl Makers {
    /// Nobody made anything. Takes no memory yet.
    pub fn new(alloc: Global) -> Makers
        ensures { AreMade [] result }
    {
        Makers {
            slots: Vec::new(alloc),
        }
    }

    /// What made a digit of the word at an address.
    pub fn get(&self, address: u32, digit: usize) -> Maker
        ensures { result ≡ maker_at self.now address digit }
    {
        if digit >= MOST_DIGITS {
            return Maker::Nobody;
        }
        let slot = MOST_DIGITS * address as usize + digit;
        match self.slots.get(slot) {
            Some(maker) => *maker,
            None => Maker::Nobody,
        }
    }

    /// Has somebody make a piece, over what stands.
    pub fn mark(&mut self, maker: Maker, piece: Piece) -> Result<(), AllocError>
        ensures { (all : List Signed) → AreMade all self.old
            → OnOk result (AreMade (all ++ signed_by maker (piece_of piece) ∷ []) self.new) }
    {
        let end = piece.address as usize + piece.times as usize;
        make_room(&mut self.slots, MOST_DIGITS * end)?;
        mark_words(&mut self.slots, maker, piece);
        Ok(())
    }
}

/// Adds slots of nobody up to an end.
fn make_room(slots: &mut Vec<Maker>, end: usize) -> Result<(), AllocError>
    ensures room { OnOk result (end ≤ vec_len slots.new) }
    ensures same { (slot : ℕ) → slot_at slots.new.items slot ≡ slot_at slots.old.items slot }
{
    if slots.len() < end {
        slots.resize(end, Maker::Nobody)?;
    }
    Ok(())
}

/// Marks the digits of a piece in each of its words.
fn mark_words(slots: &mut [Maker], maker: Maker, piece: Piece)
    requires { 20 * (piece.address + piece.times) ≤ length slots.old }
    ensures { (all : List Signed) → AreMade all slots.old → AreMade (all ++ signed_by maker (piece_of piece) ∷ []) slots.new }
{
    let from = usize::from(piece.first / DIGIT_BITS);
    let to = usize::from((piece.first + piece.width).div_ceil(DIGIT_BITS));
    let first = piece.address as usize;
    for address in first..first + piece.times as usize {
        let slot = MOST_DIGITS * address;
        mark_slots(slots, maker, slot + from, slot + to);
    }
}

/// Marks the slots from one up to another.
fn mark_slots(slots: &mut [Maker], maker: Maker, from: usize, to: usize)
    requires ordered { from ≤ to }
    requires there { to ≤ length slots.old }
    ensures { (slot : ℕ) → slot_at slots.new slot ≡ (if nat_le from slot && nat_lt slot to then maker else slot_at slots.old slot) }
{
    for slot in from..to {
        slots[slot] = maker;
    }
}

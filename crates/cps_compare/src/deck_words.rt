//! The words of a source, and what made their digits.
ghost use Rattle.std.specs.Prelude.{◌≡◌, ◌∷◌, [], ◌<◌, ◌%◌, ◌^◌, ℕ, List, IfOk, IfSome, OnOk, MatchOption, is_some, map};
ghost use Rattle.cps_expr.specs.Item.{bits_of};
ghost use Rattle.cps_code.specs.Image as image;
ghost use Rattle.cps_code.specs.Image.{ArePacked, piece_of};
ghost use Rattle.cps_state.specs.Machines.{limit};
ghost use Rattle.cps_list.specs.Binary as texts;
ghost use Rattle.cps_compare.specs.Makers.{signed_by, signed_of};
ghost use Rattle.cps_compare.specs.Differences.{word_of};
ghost use Rattle.cps_compare.specs.Comparison.{IsFirst, IsLast};
ghost use Rattle.cps_compare.specs.Code.Deck.{AddsPieces, HasNoWord, IsDeck, PutsOver};

use super::maker::Maker;
use super::makers::Makers;
use cps_code::{Piece, Words};
use cps_expr::Machine;
use cps_final::{Finals, Gathered};
use cps_list::View;
use cps_state::{limit_of, word_bits};
use std::alloc::{AllocError, Global};

/// The words of a source, and what made their digits.
#[derive(Drop)]
pub struct DeckWords {
    pub words: Words,
    pub makers: Makers,
}

impl DeckWords {
    ghost use Rattle.cps_compare.specs.Makers.{signed_of, signed_by};
    ghost use Rattle.cps_compare.specs.Code.Deck.{IsDeck, PutsOver};

    /// Of an assembled source.
    pub fn of<V: View>(alloc: Global, view: &V) -> Result<DeckWords, AllocError>
        ensures { IfOk result (λ deck. IsDeck (signed_of (V.assembly view.now)) deck.words deck.makers) }
    {
        let mut deck = DeckWords::new(alloc);
        for before in 0..view.count() {
            let Some(outcome) = view.outcome(before + 1) else {
                unreachable!();
            };
            deck.add(Maker::Line(before + 1), outcome.pieces())?;
        }
        let pool = pool_pieces(alloc, view.finals())?;
        deck.add(Maker::Literal, &pool)?;
        Ok(deck)
    }

    /// The word at an address; none stands past the machine's limit.
    pub fn word(&self, machine: Machine, address: u32) -> Option<u64>
        ensures { (pieces : List image.Piece) → ArePacked pieces self.now.words → result ≡ word_of machine pieces address }
    {
        if address < limit_of(machine) {
            self.words.get(address)
        } else {
            None
        }
    }

    /// The first address at which a word stands.
    pub fn first(&self, machine: Machine) -> Option<u32>
        ensures { (pieces : List image.Piece) → ArePacked pieces self.now.words
            → MatchOption result (HasNoWord (word_of machine pieces)) (IsFirst (λ address. is_some (word_of machine pieces address))) }
    {
        for address in 0..limit_of(machine) {
            if self.word(machine, address).is_some() {
                return Some(address);
            }
        }
        None
    }

    /// The last address at which a word stands.
    pub fn last(&self, machine: Machine) -> Option<u32>
        ensures last { (pieces : List image.Piece) → ArePacked pieces self.now.words
            → MatchOption result (HasNoWord (word_of machine pieces)) (IsLast (λ address. is_some (word_of machine pieces address))) }
        ensures few { IfSome result (λ address. address < 2 ^ 18) }
    {
        for address in (0..limit_of(machine)).rev() {
            if self.word(machine, address).is_some() {
                return Some(address);
            }
        }
        None
    }

    /// No word.
    fn new(alloc: Global) -> DeckWords
        ensures { IsDeck [] result.words result.makers }
    {
        DeckWords {
            words: Words::new(alloc),
            makers: Makers::new(alloc),
        }
    }

    /// Puts pieces that somebody made over what stands.
    fn add(&mut self, maker: Maker, pieces: &[Piece]) -> Result<(), AllocError>
        ensures { OnOk result (PutsOver (map (signed_by maker) (map piece_of pieces.now)) self.old self.new) }
    {
        for piece in pieces {
            self.words.deposit(*piece)?;
            self.makers.mark(maker, *piece)?;
        }
        Ok(())
    }
}

/// The literals at their final addresses.
fn pool_pieces(alloc: Global, finals: &Finals) -> Result<Vec<Piece>, AllocError>
    ensures { IfOk result (λ pieces. map piece_of pieces.items ≡ texts.pool_pieces (⟦<Finals as Gathered>⟧.gathered finals.now)) }
{
    let mut pieces = Vec::new(alloc);
    for word in finals.pool() {
        push_literal(&mut pieces, finals, *word)?;
    }
    Ok(pieces)
}

/// A literal at its final address, if that is below the machine's limit.
fn push_literal(pieces: &mut Vec<Piece>, finals: &Finals, word: u64) -> Result<(), AllocError>
    ensures { OnOk result (AddsPieces (texts.literal_piece (⟦<Finals as Gathered>⟧.gathered finals.now) word) pieces.old.items pieces.new.items) }
{
    let machine = finals.machine();
    let address = finals.literal_address(word);
    if address < u64::from(limit_of(machine)) {
        pieces.push(word_piece(machine, address as u32, word))?;
    }
    Ok(())
}

/// One word of a machine at an address: the low bits of a number.
fn word_piece(machine: Machine, address: u32, number: u64) -> Piece
    requires { address < limit machine }
    ensures { piece_of result
        ≡ record { address = address; first = 0; width = bits_of machine; number = number % 2 ^ bits_of machine; times = 1 } }
{
    let width = word_bits(machine);
    Piece {
        address,
        first: 0,
        width,
        number: number % (1 << width),
        times: 1,
    }
}

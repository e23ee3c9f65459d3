//! Bits in the words of a block in pass two.
ghost use Rattle.std.specs.Prelude.{◌≡◌, [], ◌∷◌, ◌++◌, ◌<◌, ◌≤◌, ◌%◌, ◌^◌, map, flat_map, OnOk};
ghost use Rattle.cps_code.specs.Image.{piece_of};
ghost use Rattle.cps_expr.specs.Item.{bits_of};
ghost use Rattle.cps_final.specs.Pieces as bits;

use cps_code::Piece;
use cps_expr::Machine;
use cps_state::{Made, WORD, limit_of, word_bits};
use std::alloc::AllocError;

/// The `width` low bits of `number`, from a place of a block on. They may reach into the next words.
#[derive(Clone, Copy)]
pub struct BitRun {
    pub machine: Machine,
    pub at: u32,
    pub width: u8,
    pub number: u64,
    ghost in_word: { at % 60 < bits_of machine },
    ghost has_bits: { 0 < width },
    ghost few: { width ≤ 60 },
}

impl BitRun {
    /// The bits before it in the word where it begins.
    fn first(self) -> u8
        ensures first { result ≡ self.at % 60 }
        ensures in_word { result < bits_of self.machine }
    {
        (self.at % WORD) as u8
    }

    /// How many words it touches.
    fn words(self) -> u8
        ensures { result ≡ bits.words_touched self.machine self.at self.width }
    {
        (self.first() + self.width).div_ceil(word_bits(self.machine))
    }

    /// Its bits in the word that comes so many words later.
    fn piece_in(self, later: u8) -> Piece
        requires { later < bits.words_touched self.machine self.at self.width }
        ensures { piece_of result ≡ bits.piece_in self.machine self.at self.width self.number later }
    {
        let bits = word_bits(self.machine);
        let word = later * bits;
        let first = self.first();
        let end = first + self.width;
        let from = first.max(word);
        let to = end.min(word + bits);
        Piece {
            address: self.at / WORD + u32::from(later),
            first: from - word,
            width: to - from,
            number: (self.number >> (end - to)) % (1 << (to - from)),
            times: 1,
        }
    }
}

/// The bits before the contents of a statement: what fills those that were skipped, and words of zeros.
pub fn push_skipped(pieces: &mut Vec<Piece>, base: u64, made: &Made) -> Result<(), AllocError>
    requires { base < 2 ^ 60 }
    ensures { OnOk result (map piece_of pieces.new.items ≡ map piece_of pieces.old.items
        ++ flat_map (bits.placed made.now.machine base) (made.now.filling ++ bits.zeros_at made.now.machine made.now.start made.now.zeros)) }
{
    push_filling(pieces, base, made)?;
    push_zeros(pieces, base, made)
}

/// What fills the bits that were skipped.
fn push_filling(pieces: &mut Vec<Piece>, base: u64, made: &Made) -> Result<(), AllocError>
    requires { base < 2 ^ 60 }
    ensures { OnOk result (map piece_of pieces.new.items ≡ map piece_of pieces.old.items ++ flat_map (bits.placed made.now.machine base) made.now.filling) }
{
    match made.filling() {
        Some(piece) => push_placed(pieces, made.machine(), base, piece),
        None => Ok(()),
    }
}

/// Words of zeros. More than the machine has would be cut in any case.
fn push_zeros(pieces: &mut Vec<Piece>, base: u64, made: &Made) -> Result<(), AllocError>
    requires { base < 2 ^ 60 }
    ensures { OnOk result (map piece_of pieces.new.items ≡ map piece_of pieces.old.items
        ++ flat_map (bits.placed made.now.machine base) (bits.zeros_at made.now.machine made.now.start made.now.zeros)) }
{
    let machine = made.machine();
    if made.zeros() == 0 {
        return Ok(());
    }
    let zeros = Piece {
        address: made.start() / WORD,
        first: 0,
        width: word_bits(machine),
        number: 0,
        times: made.zeros().min(limit_of(machine)),
    };
    push_placed(pieces, machine, base, zeros)
}

/// Bits in each word that they touch.
pub fn push_run(pieces: &mut Vec<Piece>, base: u64, run: BitRun) -> Result<(), AllocError>
    requires { base < 2 ^ 60 }
    ensures { OnOk result (map piece_of pieces.new.items ≡ map piece_of pieces.old.items
        ++ flat_map (bits.placed run.machine base) (bits.pieces_at run.machine run.at run.width run.number)) }
{
    for later in 0..run.words() {
        push_placed(pieces, run.machine, base, run.piece_in(later))?;
    }
    Ok(())
}

/// A peripheral processor's word that was begun is filled with zeros.
pub fn push_last_word(
    pieces: &mut Vec<Piece>,
    machine: Machine,
    base: u64,
    at: u32,
) -> Result<(), AllocError>
    requires low { base < 2 ^ 60 }
    requires in_word { at % 60 < bits_of machine }
    ensures { OnOk result (map piece_of pieces.new.items ≡ map piece_of pieces.old.items ++ flat_map (bits.placed machine base) (bits.last_word machine at)) }
{
    let used = (at % WORD) as u8;
    if machine == Machine::Cp || used == 0 {
        return Ok(());
    }
    let rest = Piece {
        address: at / WORD,
        first: used,
        width: word_bits(machine) - used,
        number: 0,
        times: 1,
    };
    push_placed(pieces, machine, base, rest)
}

/// Bits of a block at their final address, as far as they lie below the machine's limit.
fn push_placed(
    pieces: &mut Vec<Piece>,
    machine: Machine,
    base: u64,
    piece: Piece,
) -> Result<(), AllocError>
    requires { base < 2 ^ 60 }
    ensures { OnOk result (map piece_of pieces.new.items ≡ map piece_of pieces.old.items ++ flat_map (bits.placed machine base) (piece_of piece ∷ [])) }
{
    let limit = limit_of(machine);
    let address = base + u64::from(piece.address);
    if address < u64::from(limit) {
        let address = address as u32;
        pieces.push(Piece {
            address,
            first: piece.first,
            width: piece.width,
            number: piece.number,
            times: piece.times.min(limit - address),
        })?;
    }
    Ok(())
}

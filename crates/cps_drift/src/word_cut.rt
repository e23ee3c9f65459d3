//! How a word of the central processor is cut into codes, by the pieces that were put into it.

use super::deck_code::ADDRESS_BITS;
use super::parcel::WORD_PARCELS;
use cps_code::Piece;

/// The bits of a word.
const WORD_BITS: u8 = 60;

/// The bits of a parcel.
const PARCEL_BITS: u8 = 15;

/// What a piece is to a word.
#[derive(Clone, Copy)]
enum PieceKind {
    /// Codes of one parcel each.
    Parcels,
    /// A code of two parcels.
    Long,
    /// No instruction.
    Other,
}

/// How a word is cut into codes.
#[derive(Clone, Copy)]
pub struct WordCut {
    /// For each parcel the line that made its first digit. Lines count from 1; 0 is a literal, or nobody.
    pub lines: [u32; WORD_PARCELS],
    /// Whether a code begins at a parcel.
    pub begins: [bool; WORD_PARCELS],
    /// Whether an instruction stands in a parcel.
    pub is_code: [bool; WORD_PARCELS],
    /// Whether something else stands in the word.
    has_other: bool,
    /// Whether it is the second word of a peripheral instruction.
    pub is_second: bool,
    /// The bits of the word that may hold addresses, if it isn't made of instructions.
    pub address_bits: u64,
}

impl WordCut {
    /// Nothing was put into it.
    pub fn new() -> WordCut {
        WordCut {
            lines: [0; WORD_PARCELS],
            begins: [false; WORD_PARCELS],
            is_code: [false; WORD_PARCELS],
            has_other: false,
            is_second: false,
            address_bits: 0,
        }
    }

    /// Whether the word is one code.
    pub fn is_whole(&self) -> bool {
        self.has_other || self.is_code == [false; WORD_PARCELS]
    }

    /// Puts a piece of a line over what stands.
    pub fn put(&mut self, piece: Piece, line: u32) {
        self.sign(piece, line);
        self.mark_address(piece);
        let first = usize::from(piece.first / PARCEL_BITS);
        let count = usize::from(piece.width / PARCEL_BITS);
        match kind_of(piece) {
            PieceKind::Parcels => self.put_code(first, count, 1),
            PieceKind::Long => self.put_code(first, count, 2),
            PieceKind::Other => {
                self.has_other = true;
                self.begins = [false; WORD_PARCELS];
                self.is_code = [false; WORD_PARCELS];
            }
        }
    }

    /// The parcels whose first digit has bits of a piece are of its line.
    fn sign(&mut self, piece: Piece, line: u32) {
        let end = piece.first.saturating_add(piece.width);
        for (parcel, signed) in self.lines.iter_mut().enumerate() {
            let at = PARCEL_BITS.saturating_mul(parcel as u8);
            if piece.first < at.saturating_add(3) && at < end {
                *signed = line;
            }
        }
    }

    /// A piece of 18 or 30 bits that begins with a digit may hold an address.
    fn mark_address(&mut self, piece: Piece) {
        if piece.width == WORD_BITS {
            self.address_bits = 0;
        }
        if piece.first % 3 == 0 && (piece.width == 18 || piece.width == 30) {
            let end = piece.first.saturating_add(piece.width);
            self.address_bits |= ADDRESS_BITS << WORD_BITS.saturating_sub(end);
        }
    }

    /// Puts codes of one or two parcels each over what stands. What is left of a code of two begins anew.
    fn put_code(&mut self, first: usize, count: usize, each: usize) {
        let end = first.saturating_add(count);
        for parcel in 0..WORD_PARCELS {
            if first <= parcel && parcel < end {
                self.is_code[parcel] = true;
                self.begins[parcel] = each == 1 || parcel == first;
            } else if parcel == end && self.is_code[parcel] {
                self.begins[parcel] = true;
            }
        }
        if self.is_code == [true; WORD_PARCELS] {
            self.has_other = false;
        }
    }
}

/// What a piece is. A long one with the operation 00 is an address in a word of data, but for zeros.
fn kind_of(piece: Piece) -> PieceKind {
    if piece.first % PARCEL_BITS != 0 {
        return PieceKind::Other;
    }
    match (piece.width, piece.number) {
        (15, _) | (30, 0o46000_46000) | (45, 0o46000_46000_46000) => PieceKind::Parcels,
        (30, number) if number == 0 || number >> 24 != 0 => PieceKind::Long,
        _ => PieceKind::Other,
    }
}

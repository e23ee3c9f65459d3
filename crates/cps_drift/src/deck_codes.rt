//! The codes of a source, by rising addresses.
ghost use Rattle.std.specs.Prelude.{◌<◌};

use super::deck_code::{ADDRESS_BITS, DeckCode, NEAR_BITS, SECOND_BITS};
use super::deck_pieces::DeckPieces;
use super::parcel::{NOTHING, WORD_PARCELS};
use super::word_cut::WordCut;
use cps_expr::Machine;
use cps_list::View;
use cps_state::limit_of;
use std::alloc::{AllocError, Global};

/// The codes of a source.
#[derive(Drop)]
pub struct DeckCodes {
    codes: Vec<DeckCode>,
    /// For each address how many codes stand before it.
    before: Vec<usize>,
}

impl DeckCodes {
    /// Of an assembled source.
    pub fn of<V: View>(alloc: Global, view: &V) -> Result<DeckCodes, AllocError> {
        let machine = view.finals().machine();
        let deck = DeckPieces::of(alloc, view)?;
        let mut codes = DeckCodes {
            codes: Vec::new(alloc),
            before: Vec::new(alloc),
        };
        let end = deck.words.end().min(limit_of(machine) as usize) as u32;
        for address in 0..end {
            codes.before.push(codes.codes.len())?;
            if let Some(word) = deck.words.get(address) {
                codes.push_word(machine, address, word, &deck.cuts.get(address))?;
            }
        }
        Ok(codes)
    }

    /// All codes, in their order.
    pub fn codes(&self) -> &[DeckCode] {
        &self.codes
    }

    /// The address behind the last word.
    pub fn end(&self) -> usize {
        self.before.len()
    }

    /// The number of the first code whose address isn't below another one. Codes count from 0.
    pub fn first_from(&self, address: i64) -> usize {
        if address < 0 {
            return 0;
        }
        let found = usize::try_from(address).ok();
        let Some(before) = found.and_then(|at| self.before.get(at)) else {
            return self.codes.len();
        };
        *before
    }

    /// Adds the codes of a word.
    fn push_word(
        &mut self,
        machine: Machine,
        address: u32,
        word: u64,
        cut: &WordCut,
    ) -> Result<(), AllocError> {
        match machine {
            Machine::Cp if cut.is_whole() => self.push(whole_code(address, word, cut)),
            Machine::Cp => self.push_parcels(address, word, cut),
            Machine::Pp => self.push_peripheral(address, word >> 48, cut),
        }
    }

    /// Adds the instructions of a word, but those that do nothing.
    fn push_parcels(&mut self, address: u32, word: u64, cut: &WordCut) -> Result<(), AllocError> {
        for place in 0..WORD_PARCELS {
            if cut.begins[place] {
                let code = instruction(address, word, cut, place);
                if code.count == 2 || code.number != u64::from(NOTHING) {
                    self.push(code)?;
                }
            }
        }
        Ok(())
    }

    /// Adds a word of a peripheral processor, or joins it to the one before whose second word it is.
    fn push_peripheral(
        &mut self,
        address: u32,
        word: u64,
        cut: &WordCut,
    ) -> Result<(), AllocError> {
        let code = peripheral_code(address, word, cut.lines[0]);
        if let (true, Some(last)) = (cut.is_second, self.codes.last_mut()) {
            if last.count == 1 && last.address.checked_add(1) == Some(address) {
                last.number = (last.number << 12) | word;
                last.address_bits = SECOND_BITS;
                last.count = 2;
                return Ok(());
            }
        }
        self.push(code)
    }

    fn push(&mut self, code: DeckCode) -> Result<(), AllocError> {
        self.codes.push(code)?;
        Ok(())
    }
}

/// A word that isn't made of instructions.
fn whole_code(address: u32, word: u64, cut: &WordCut) -> DeckCode {
    DeckCode {
        number: word,
        address_bits: cut.address_bits,
        address,
        line: cut.lines[0],
        count: 4,
        place: 0,
    }
}

/// The instruction that begins at a parcel of a word. In one of two parcels the last 18 bits hold an address, but for the operation 00.
fn instruction(address: u32, word: u64, cut: &WordCut, place: usize) -> DeckCode
    requires { place < WORD_PARCELS }
{
    let mut code = DeckCode {
        number: (word >> bits_behind(place)) % (1 << 15),
        address_bits: 0,
        address,
        line: cut.lines[place],
        count: 1,
        place: place as u8,
    };
    if goes_on(cut, place + 1) {
        code.number = (word >> bits_behind(place + 1)) % (1 << 30);
        code.count = 2;
        if code.number >> 24 != 0 {
            code.address_bits = ADDRESS_BITS;
        }
    }
    code
}

/// Whether the instruction before a parcel goes on in it.
fn goes_on(cut: &WordCut, parcel: usize) -> bool {
    parcel < WORD_PARCELS && cut.is_code[parcel] && !cut.begins[parcel]
}

/// The bits of a word behind a parcel.
fn bits_behind(place: usize) -> u32
    ensures { result < 64 }
{
    match place {
        0 => 45,
        1 => 30,
        2 => 15,
        _ => 0,
    }
}

/// A word of a peripheral processor. The d of the operations 03 to 07 is a distance to an address.
fn peripheral_code(address: u32, word: u64, line: u32) -> DeckCode {
    let is_near = (0o03..=0o07).contains(&(word >> 6));
    DeckCode {
        number: word,
        address_bits: if is_near { NEAR_BITS } else { 0 },
        address,
        line,
        count: 1,
        place: 0,
    }
}

//! The bits of a source, and how they are cut into codes.
ghost use Rattle.std.specs.Prelude.{◌<◌};
ghost use Rattle.cps_state.specs.Machines.{limit};

use super::word_cuts::WordCuts;
use cps_code::{Piece, Words};
use cps_expr::Machine;
use cps_final::{Finals, Row};
use cps_list::View;
use cps_state::{limit_of, word_bits};
use std::alloc::{AllocError, Global};

/// The words of a source, and how they are cut into codes.
#[derive(Drop)]
pub struct DeckPieces {
    pub words: Words,
    pub cuts: WordCuts,
}

impl DeckPieces {
    /// Of an assembled source.
    pub fn of<V: View>(alloc: Global, view: &V) -> Result<DeckPieces, AllocError> {
        let mut deck = DeckPieces {
            words: Words::new(alloc),
            cuts: WordCuts::new(alloc),
        };
        for before in 0..view.count() {
            if let Some(outcome) = view.outcome(before + 1) {
                deck.put_line(before + 1, outcome.pieces(), outcome.rows())?;
            }
        }
        deck.put_pool(view.finals())?;
        Ok(deck)
    }

    /// Puts the pieces of a line over what stands.
    fn put_line(&mut self, line: u32, pieces: &[Piece], rows: &[Row]) -> Result<(), AllocError> {
        for piece in pieces {
            self.put(*piece, line)?;
        }
        for row in rows {
            if let (Some(_), Some(address)) = (row.second.digits(), row.location) {
                self.cuts.mark_second(address.saturating_add(1));
            }
        }
        Ok(())
    }

    fn put(&mut self, piece: Piece, line: u32) -> Result<(), AllocError> {
        self.words.deposit(piece)?;
        self.cuts.put(piece, line)
    }

    /// Puts the literals over what stands, those whose addresses are below the machine's limit.
    fn put_pool(&mut self, finals: &Finals) -> Result<(), AllocError> {
        let machine = finals.machine();
        for word in finals.pool() {
            let address = finals.literal_address(*word);
            if address < u64::from(limit_of(machine)) {
                self.put(word_piece(machine, address as u32, *word), 0)?;
            }
        }
        Ok(())
    }
}

/// One word of a machine at an address: the low bits of a number.
fn word_piece(machine: Machine, address: u32, number: u64) -> Piece
    requires { address < limit machine }
{
    let width = word_bits(machine);
    Piece {
        address,
        first: 0,
        width,
        number: number % (1 << width),
        times: 1,
    }
}

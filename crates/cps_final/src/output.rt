//! The rows and the bits of a line.
ghost use Rattle.std.specs.Prelude.{◌≡◌, [], map, IfOk, OnOk};
ghost use Rattle.cps_code.specs.Image.{piece_of};
ghost use Rattle.cps_final.specs.Finals.{final_value};
ghost use Rattle.cps_final.specs.Outcome.{output_of};

use crate::finals::{Finals, Gathered};
use crate::room::{count_pieces, count_rows};
use crate::row::Row;
use crate::statement::push_statement;
use cps_code::Piece;
use cps_state::Item;
use std::alloc::{AllocError, Global};
use std::marker::Model;

/// The rows and the bits that pass two makes of a line. Those of one line can be put in the place of another's.
#[derive(Drop)]
pub struct Output {
    rows: Vec<Row>,
    pieces: Vec<Piece>,
}

impl Model for Output {
    ghost use Rattle.std.specs.Prelude.{map};
    ghost use Rattle.cps_code.specs.Image.{piece_of};
    ghost use Rattle.cps_final.specs.Outcome.{Output};

    ghost Value = { Output };

    ghost view = { λ output. record { rows = output.rows.items; pieces = map piece_of output.pieces.items } };
}

impl Output {
    /// Of a line without a row. Takes no memory yet.
    pub fn new(alloc: Global) -> Output
        ensures { result ≡ record { rows = []; pieces = [] } }
    {
        Output {
            rows: Vec::new(alloc),
            pieces: Vec::new(alloc),
        }
    }

    /// Of a line without a row, with room for the rows and the bits of a line with these statements.
    pub(crate) fn with_room(alloc: Global, items: &[Item]) -> Result<Output, AllocError>
        ensures { IfOk result (λ output. output ≡ record { rows = []; pieces = [] }) }
    {
        let rows = Vec::with_capacity(alloc, count_rows(items))?;
        let pieces = Vec::with_capacity(alloc, count_pieces(items))?;
        Ok(Output { rows, pieces })
    }

    /// Puts the rows and the bits of a line with these statements in the place of what stood here.
    pub fn replace(&mut self, items: &[Item], finals: &Finals) -> Result<(), AllocError>
        ensures { OnOk result (self.new ≡ output_of (final_value (⟦<Finals as Gathered>⟧.gathered finals.now)) items.now) }
    {
        self.rows.clear();
        self.pieces.clear();
        for item in items {
            push_statement(&mut self.rows, &mut self.pieces, item, finals)?;
        }
        Ok(())
    }

    /// The rows and the bits.
    pub(crate) fn into_parts(self) -> (Vec<Row>, Vec<Piece>)
        ensures rows { result.0.items ≡ self.rows }
        ensures pieces { map piece_of result.1.items ≡ self.pieces }
    {
        let Output { rows, pieces } = self;
        (rows, pieces)
    }

    /// The rows, in their order.
    pub fn rows(&self) -> &[Row]
        ensures { result.now ≡ self.now.rows }
    {
        self.rows.as_slice()
    }

    /// The bits, in their order.
    pub fn pieces(&self) -> &[Piece]
        ensures { map piece_of result.now ≡ self.now.pieces }
    {
        self.pieces.as_slice()
    }
}

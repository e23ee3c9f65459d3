//! The rows and the bits of a statement in pass two.
ghost use Rattle.std.specs.Prelude.{◌≡◌, ◌++◌, false, map, flat_map, OnOk};
ghost use Rattle.cps_code.specs.Image.{piece_of};
ghost use Rattle.cps_final.specs.Pieces as bits;
ghost use Rattle.cps_final.specs.Places.{with_places};
ghost use Rattle.cps_final.specs.Resolving.{resolved, view_of};
ghost use Rattle.cps_final.specs.Rows as shown;

use crate::finals::Finals;
use crate::pieces::{BitRun, push_last_word, push_run, push_skipped};
use crate::placed_statement::PlacedStatement;
use crate::row::Row;
use crate::rows::{flags_row, push_row, row_at, statement_row};
use crate::valued::{PlacedContent, value_content};
use cps_code::Piece;
use cps_state::{Flags, Item, behind};
use std::alloc::AllocError;

/// The rows and the bits of a statement.
pub fn push_statement(
    rows: &mut Vec<Row>,
    pieces: &mut Vec<Piece>,
    item: &Item,
    finals: &Finals,
) -> Result<(), AllocError>
    ensures rows { OnOk result (rows.new.items ≡ rows.old.items ++ shown.rows_of (resolved finals.now) item.now) }
    ensures pieces { OnOk result (map piece_of pieces.new.items ≡ map piece_of pieces.old.items ++ bits.pieces_of (resolved finals.now) item.now) }
{
    let made = &item.made;
    let statement = PlacedStatement::of(item, finals);
    let base = statement.base();
    push_skipped(pieces, base, made)?;
    if made.only_flags() {
        push_row(rows, item, flags_row(item, finals))
    } else if made.contents().is_empty() {
        push_row(rows, item, statement_row(item, finals))?;
        push_last_word(pieces, made.machine(), base, made.start())
    } else {
        push_contents(rows, pieces, item, &statement)
    }
}

/// A row and the bits of each content, one after another.
fn push_contents(
    rows: &mut Vec<Row>,
    pieces: &mut Vec<Piece>,
    item: &Item,
    statement: &PlacedStatement,
) -> Result<(), AllocError>
    requires same { (view_of statement.now).machine ≡ item.now.made.machine }
    requires are_bits { item.now.made.only_flags ≡ false }
    ensures rows { OnOk result (rows.new.items ≡ rows.old.items ++ map (shown.row_of item.now)
        (shown.content_rows (view_of statement.now) item.now.made.flags (with_places (view_of statement.now).machine item.now.made.start item.now.made.contents))) }
    ensures pieces { OnOk result (map piece_of pieces.new.items ≡ map piece_of pieces.old.items
        ++ flat_map (bits.placed (view_of statement.now).machine (view_of statement.now).base) (bits.content_pieces (view_of statement.now) item.now.made.start item.now.made.contents)) }
{
    let made = &item.made;
    let machine = statement.machine();
    let base = statement.base();
    let mut flags = made.flags();
    let mut is_later = false;
    let mut at = made.start();
    for content in made.contents() {
        let width = content.width();
        let valued = value_content(content, statement);
        let number = valued.number;
        let placed = PlacedContent {
            content,
            at,
            valued,
        };
        let row = row_at(statement, flags, is_later, placed);
        push_row(rows, item, row)?;
        let run = BitRun {
            machine,
            at,
            width,
            number,
        };
        push_run(pieces, base, run)?;
        flags = Flags::none();
        is_later = true;
        at = behind(machine, at, width);
    }
    push_last_word(pieces, machine, base, at)
}

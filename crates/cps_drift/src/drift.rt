//! An octal text laid beside a source, and what is told of it.
ghost use Rattle.std.specs.Prelude.{IfOk};
ghost use Rattle.cps_drift.specs.Drift.{IsDriftText};

use super::alignment::Alignment;
use super::deck_codes::DeckCodes;
use super::drift_report::report;
use super::laid_sides::LaidSides;
use super::moved_words::MovedWords;
use super::octal_parcels::OctalParcels;
use cps_claims::ClaimedWords;
use cps_list::View;
use std::alloc::{AllocError, Global};

/// Tells where code moved: an octal text is laid beside an assembled source by what the codes are, and not by their addresses, which are
/// left out of them. The words of the text are those from address `low` to `high`, both counted.
///
/// The text has at most 26 rows: what one side has and the other hasn't, or both have otherwise; from which address on the octal text
/// stands how many words higher or lower than the source; codes whose addresses didn't move along; how many rows are left out; and how
/// many codes agree. Addresses and codes are in octal, and rows and lines count from 1. It is empty where nothing moved, or fewer than
/// half of the codes agree. Only the form of the rows is proved. The error is that there was no memory.
pub fn drift_rows<V: View>(
    alloc: Global,
    view: &V,
    words: &ClaimedWords,
    low: u32,
    high: u32,
) -> Result<Vec<u8>, AllocError>
    ensures { IfOk result (λ text. IsDriftText text.items) }
{
    let machine = view.finals().machine();
    let deck = DeckCodes::of(alloc, view)?;
    let text = OctalParcels::of(alloc, machine, words, low, high)?;
    let alignment = Alignment::of(alloc, machine, &text, &deck)?;
    let sides = LaidSides {
        machine,
        parcels: &text.parcels,
        codes: deck.codes(),
        parts: &alignment.parts,
    };
    let mut moved = MovedWords::new(alloc, deck.end())?;
    sides.note_moved(&mut moved);
    let has_moved = moved.has_moved();
    moved.fill();
    let counts = sides.counts(&moved);
    if (has_moved || counts.is_uneven) && counts.is_laid() {
        report(alloc, &sides, &moved, counts)
    } else {
        Ok(Vec::new(alloc))
    }
}

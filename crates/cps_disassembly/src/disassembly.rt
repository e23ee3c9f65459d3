//! The disassembly as a whole.
ghost use Rattle.std.specs.Prelude.{◌≡◌, ℕ, List, slice_get};
ghost use Rattle.cps_claims.specs.Code.Held.{Holds};
ghost use Rattle.cps_disassembly.specs.declared.selection.Selection.{Selection};
ghost use Rattle.cps_disassembly.specs.Makes.{claims_of};
ghost use Rattle.cps_disassembly.specs.Disassembly.{Disassembles};
ghost use Rattle.cps_disassembly.specs.Code.Kept.{Attempts, IsWanted, why_unread};

use super::disassembly_fault::DisassemblyFault;
use super::ladder::{Attempt, climb};
use super::selection::Selection;
use super::wanted::{Wanted, fault_in};
use cps_claims::{ClaimedWords, OctalReading, RowKinds, read_octal};
use cps_draft::{Hints, Knowledge, UnreadRows, find_ident};
use cps_state::Hashing;
use cps_text::limits::MOST_LINES;
use std::alloc::Global;

/// Makes a source for the words of an octal text: its lines, each ended by a newline.
///
/// The hints, and a name that the text has in its first row, only change how the source looks. Each draft is assembled, and its words are
/// compared with the octal text at each address that there is, before it is answered.
pub fn disassemble(
    alloc: Global,
    hashing: Hashing,
    octal: &[u8],
    selection: Selection,
    hints: &Hints,
) -> Result<Vec<u8>, DisassemblyFault>
    ensures { Disassembles selection octal.now result }
{
    let Ok(reading) = read_octal(alloc, octal, selection.layout()) else {
        return Err(DisassemblyFault::Memory);
    };
    let OctalReading { words, rows } = reading;
    if rows.counts.read == 0 {
        return Err(why_no_row(&rows));
    }
    let known = Knowledge {
        hints,
        ident: find_ident(octal),
        unread: unread_rows(&rows),
    };
    select_words(alloc, hashing, words, selection, known)
}

/// Makes a source for the words that are claimed and selected.
fn select_words(
    alloc: Global,
    hashing: Hashing,
    claims: ClaimedWords,
    selection: Selection,
    known: Knowledge<'_>,
) -> Result<Vec<u8>, DisassemblyFault>
    ensures { (octal : List ℕ) → Holds claims (claims_of selection octal) → Disassembles selection octal result }
{
    match Wanted::of(alloc, claims, selection) {
        Ok(wanted) => make_source(alloc, hashing, &wanted, known),
        Err(_) => Err(DisassemblyFault::Memory),
    }
}

/// Makes a source for the words that are wanted.
fn make_source(
    alloc: Global,
    hashing: Hashing,
    wanted: &Wanted,
    known: Knowledge<'_>,
) -> Result<Vec<u8>, DisassemblyFault>
    ensures { (octal : List ℕ) → IsWanted wanted.now.selection (claims_of wanted.now.selection octal) wanted.now
        → Disassembles wanted.now.selection octal result }
{
    if let Some(fault) = fault_in(wanted) {
        return Err(fault);
    }
    match climb(alloc, hashing, wanted, known) {
        Ok(attempt) => answer(attempt),
        Err(_) => Err(DisassemblyFault::Memory),
    }
}

/// What is answered of the last draft.
fn answer(attempt: Attempt) -> Result<Vec<u8>, DisassemblyFault>
    ensures { (selection : Selection) (octal : List ℕ) → Attempts selection octal attempt → Disassembles selection octal result }
{
    match attempt {
        Attempt::Made(text) => Ok(text),
        Attempt::Unfit(lines) if lines > MOST_LINES => Err(DisassemblyFault::TooManyLines(lines)),
        _ => Err(DisassemblyFault::NotMade),
    }
}

/// The rows that aren't read.
fn unread_rows(rows: &RowKinds) -> Option<UnreadRows> {
    let first = rows.unread.first()?;
    Some(UnreadRows {
        count: rows.unread.len(),
        first: first.number,
    })
}

/// Why no row of an octal text is read.
fn why_no_row(rows: &RowKinds) -> DisassemblyFault
    ensures { result ≡ why_unread (slice_get rows.now.unread.items 0) }
{
    match rows.unread.first() {
        Some(row) => DisassemblyFault::Unread(row.number, row.reason),
        None => DisassemblyFault::NoRow,
    }
}

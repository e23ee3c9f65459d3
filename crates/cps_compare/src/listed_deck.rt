//! The digits that the listing of a source has at each address.
ghost use Rattle.std.specs.Prelude.{◌≡◌, List, ◌++◌, ◌%◌, ◌^◌, IfOk, OnOk, flat_map};
ghost use Rattle.cps_list.specs.Listing.{code_text};
ghost use Rattle.cps_claims.specs.Listed.{ListedCode};
ghost use Rattle.cps_claims.specs.Code.Listed.{Lists};
ghost use Rattle.cps_compare.specs.ListedSides.{line_codes, row_codes};

use cps_claims::ListedWords;
use cps_final::{OctalDigits, Row};
use cps_list::View;
use cps_text::push_octal;
use std::alloc::{AllocError, Global};

/// A listing shows so many addresses: six octal digits.
const ADDRESSES: u64 = 0o1_000_000;

/// The digits that the listing of an assembled source has at each address.
pub fn list_deck<V: View>(alloc: Global, view: &V) -> Result<ListedWords, AllocError>
    ensures { IfOk result (λ deck. Lists deck (line_codes 1 (V.assembly view.now).outcomes)) }
{
    let mut deck = ListedWords::new(alloc);
    let mut digits = Vec::new(alloc);
    for before in 0..view.count() {
        let Some(outcome) = view.outcome(before + 1) else {
            unreachable!();
        };
        list_rows(&mut deck, before + 1, outcome.rows(), &mut digits)?;
    }
    Ok(deck)
}

/// Adds the codes of the rows of a line.
fn list_rows(
    deck: &mut ListedWords,
    number: u32,
    rows: &[Row],
    digits: &mut Vec<u8>,
) -> Result<(), AllocError>
    ensures { (codes : List ListedCode) → Lists deck.old codes → OnOk result (Lists deck.new (codes ++ flat_map (row_codes number) rows.now)) }
{
    for row in rows {
        list_row(deck, number, row, digits)?;
    }
    Ok(())
}

/// Adds the code of a row, if it has one and an address.
fn list_row(
    deck: &mut ListedWords,
    number: u32,
    row: &Row,
    digits: &mut Vec<u8>,
) -> Result<(), AllocError>
    ensures { (codes : List ListedCode) → Lists deck.old codes → OnOk result (Lists deck.new (codes ++ row_codes number row.now)) }
{
    let Some(at) = row.location else {
        return Ok(());
    };
    let Some(code) = row.code.digits() else {
        return Ok(());
    };
    digits.clear();
    push_octal(digits, code.number, code.count)?;
    push_second(digits, row.second.digits())?;
    deck.add(number, (at % ADDRESSES) as u32, digits)
}

/// The digits of the second word of an instruction.
fn push_second(digits: &mut Vec<u8>, second: Option<OctalDigits>) -> Result<(), AllocError>
    ensures { OnOk result (digits.new.items ≡ digits.old.items ++ code_text second) }
{
    match second {
        Some(second) => push_octal(digits, second.number, second.count),
        None => Ok(()),
    }
}

//! A listing of this program, row after row.
ghost use Rattle.std.specs.Prelude.{◌≡◌, List, [], ◌++◌, ◌+◌, ◌^◌, ◌<◌, IfOk, OnOk};
ghost use Rattle.cps_claims.specs.Listed.{ListedCode, own_rows, code_of, codes_from};
ghost use Rattle.cps_claims.specs.Reading.{IsReading};
ghost use Rattle.cps_claims.specs.Code.Found.{row_with};
ghost use Rattle.cps_claims.specs.Code.Listed.{IsBelow, Lists, HasRead, AddsOwnRow};
ghost use Rattle.cps_claims.specs.Code.States.{total};

use super::layout::WordOffset;
use super::listed_words::ListedWords;
use super::own_row::read_own_row;
use super::reading::{RowKinds, first_row};
use super::row::RowReading;
use std::alloc::{AllocError, Global};

/// More rows aren't read.
const MOST_ROWS: u32 = u32::MAX;

/// What was read of a listing of this program.
#[derive(Drop)]
pub struct OwnReading {
    /// The digits that the rows list.
    pub words: ListedWords,
    pub rows: RowKinds,
}

impl OwnReading {
    /// No row is read yet. Takes no memory.
    fn new(alloc: Global) -> OwnReading
        ensures read { HasRead [] result }
        ensures total { total result.rows.counts ≡ 0 }
    {
        OwnReading {
            words: ListedWords::new(alloc),
            rows: RowKinds::new(alloc),
        }
    }

    /// Adds the row of a number, which has these digits.
    fn add(&mut self, number: u32, row: RowReading, digits: &[u8]) -> Result<(), AllocError>
        requires few { total self.old.rows.counts < 2 ^ 63 }
        requires below { IsBelow row }
        ensures row { OnOk result (AddsOwnRow number (row_with digits.now row) self.old self.new) }
        ensures one { OnOk result (total self.new.rows.counts ≡ total self.old.rows.counts + 1) }
    {
        self.rows.add(number as usize, row)?;
        add_code(&mut self.words, number, row, digits)?;
        Ok(())
    }
}

/// Adds the code of a row that is read.
fn add_code(
    words: &mut ListedWords,
    number: u32,
    row: RowReading,
    digits: &[u8],
) -> Result<(), AllocError>
    requires { IsBelow row }
    ensures { (codes : List ListedCode) → Lists words.old codes → OnOk result (Lists words.new (codes ++ code_of number (row_with digits.now row))) }
{
    match row {
        RowReading::Read { address, .. } => words.add(number, address, digits),
        _ => Ok(()),
    }
}

/// Reads a listing of this program: what each row is, and which digits it lists. Rows end in newlines; behind a last newline stands one row
/// more, which is blank. The error is that there was no memory, or that it has more than 4,294,967,295 rows, or digits
/// at one address.
pub fn read_own(alloc: Global, text: &[u8], offset: WordOffset) -> Result<OwnReading, AllocError>
    ensures rows { IfOk result (λ reading. IsReading (own_rows offset text.now) reading.rows) }
    ensures words { IfOk result (λ reading. Lists reading.words (codes_from 1 (own_rows offset text.now))) }
{
    let mut reading = OwnReading::new(alloc);
    let mut digits = Vec::new(alloc);
    let mut number: u32 = 0;
    let mut rest = Some(text);
    while let Some(left) = rest {
        let (row, behind) = first_row(left);
        let found = read_own_row(offset, row, &mut digits)?;
        if number == MOST_ROWS {
            return Err(AllocError);
        }
        number += 1;
        reading.add(number, found, &digits)?;
        rest = behind;
    }
    Ok(reading)
}

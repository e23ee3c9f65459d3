//! An octal text, row after row.
ghost use Rattle.std.specs.Prelude.{◌≡◌, ℕ, List, ◌∷◌, [], ◌+◌, ◌^◌, ◌<◌, ◌≤◌, IfOk, IfSome, OnOk, length};
ghost use Rattle.std.specs.List.{position, slice_split};
ghost use Rattle.std.specs.Option.{option_map_or, option_or};
ghost use Rattle.cps_claims.specs.Columns.{columns_read};
ghost use Rattle.cps_claims.specs.Parts.{parts_of};
ghost use Rattle.cps_claims.specs.Rows as rows;
ghost use Rattle.cps_claims.specs.Claims.{claims_in};
ghost use Rattle.cps_claims.specs.Reading.{IsReading};
ghost use Rattle.cps_claims.specs.Code.Held.{Holds};
ghost use Rattle.cps_claims.specs.Code.Found.{row_with, IsWithin, rows_left, reached};
ghost use Rattle.cps_claims.specs.Code.States as states;

use super::claimed_words::{ClaimedWords, RowClaim};
use super::layout::{OctalLayout, WordForm, cut_row};
use super::reason::UnreadReason;
use super::row::{RowReading, read_row};
use super::stand::RowStand;
use std::alloc::{AllocError, Global};

/// How many rows of a text are of each kind.
#[derive(Clone, Copy)]
pub struct RowCounts {
    pub read: usize,
    pub blank: usize,
    pub other: usize,
    pub unread: usize,
}

/// A row that isn't read. Rows count from 1 on.
#[derive(Clone, Copy)]
pub struct UnreadRow {
    pub number: usize,
    pub reason: UnreadReason,
}

/// What the rows of a text are.
#[derive(Drop)]
pub struct RowKinds {
    pub counts: RowCounts,
    /// The number of the first row of other text.
    pub first_other: Option<usize>,
    /// The rows that aren't read, in order.
    pub unread: Vec<UnreadRow>,
}

impl RowKinds {
    /// No row yet. Takes no memory.
    pub(crate) fn new(alloc: Global) -> RowKinds
        ensures { states.kinds_of result ≡ states.no_kinds }
    {
        RowKinds {
            counts: RowCounts {
                read: 0,
                blank: 0,
                other: 0,
                unread: 0,
            },
            first_other: None,
            unread: Vec::new(alloc),
        }
    }

    /// Adds what the row of a number is.
    pub(crate) fn add(&mut self, number: usize, row: RowReading) -> Result<(), AllocError>
        requires few { states.total self.old.counts < 2 ^ 63 }
        ensures kinds { (digits : List ℕ) → OnOk result (states.kinds_of self.new
            ≡ states.with_kind number (states.kinds_of self.old) (row_with digits row)) }
        ensures one { OnOk result (states.total self.new.counts ≡ states.total self.old.counts + 1) }
    {
        match row {
            RowReading::Read { .. } => self.counts.read += 1,
            RowReading::Blank => self.counts.blank += 1,
            RowReading::Other => {
                self.counts.other += 1;
                self.first_other = first_of(self.first_other, number);
            }
            RowReading::Unread(reason) => {
                self.counts.unread += 1;
                self.unread.push(UnreadRow { number, reason })?;
            }
        }
        Ok(())
    }
}

/// What was read of an octal text.
#[derive(Drop)]
pub struct OctalReading {
    /// The digits that are claimed.
    pub words: ClaimedWords,
    pub rows: RowKinds,
}

impl OctalReading {
    /// No row is read yet. Takes no memory.
    fn new(alloc: Global) -> OctalReading
        ensures { states.state_of result ≡ states.at_first }
    {
        OctalReading {
            words: ClaimedWords::new(alloc),
            rows: RowKinds::new(alloc),
        }
    }

    /// Adds what the row of a number is.
    fn add(
        &mut self,
        form: WordForm,
        number: usize,
        row: RowReading,
        digits: &[u8],
    ) -> Result<(), AllocError>
        requires few { states.total self.old.rows.counts < 2 ^ 63 }
        requires within { IsWithin form digits.now row }
        ensures state { OnOk result (states.AddsRow form number (row_with digits.now row) self.old self.new) }
        ensures one { OnOk result (states.total self.new.rows.counts ≡ states.total self.old.rows.counts + 1) }
    {
        self.rows.add(number, row)?;
        if let RowReading::Read { address, place } = row {
            let claim = RowClaim {
                row: number,
                address,
                place,
            };
            self.words.add(form, claim, digits)?;
        }
        Ok(())
    }
}

fn first_of(first: Option<usize>, number: usize) -> Option<usize>
    ensures { result ≡ option_or first (Some number) }
{
    match first {
        Some(first) => Some(first),
        None => Some(number),
    }
}

/// Reads row after row.
#[derive(Drop)]
struct OctalReader {
    layout: OctalLayout,
    stand: RowStand,
    /// How many rows are behind it.
    number: usize,
    /// The digits of the last row that is read; none behind one that isn't read.
    digits: Vec<u8>,
    reading: OctalReading,
}

impl OctalReader {
    fn new(alloc: Global, layout: OctalLayout) -> OctalReader
        ensures layout { result.layout ≡ layout }
        ensures stand { result.stand ≡ rows.at_first }
        ensures number { result.number ≡ 0 }
        ensures digits { result.digits.items ≡ [] }
        ensures state { states.state_of result.reading ≡ states.at_first }
    {
        OctalReader {
            layout,
            stand: RowStand {
                place: None,
                column: None,
                lost: None,
                repeated: 0,
            },
            number: 0,
            digits: Vec::new(alloc),
            reading: OctalReading::new(alloc),
        }
    }

    /// Reads one row more, by what stands behind it too.
    fn read(&mut self, row: &[u8], behind: Option<&[u8]>) -> Result<(), AllocError>
        requires few { self.old.number < 2 ^ 63 }
        requires total { states.total self.old.reading.rows.counts ≡ self.old.number }
        requires near { reached self.old.stand < 2 ^ 40 }
        ensures row { OnOk result (states.Reads self.old row.now (rows_left behind.entry) self.new) }
        ensures total { OnOk result (states.total self.new.reading.rows.counts ≡ self.new.number) }
        ensures near { OnOk result (reached self.new.stand < 2 ^ 40) }
    {
        let cut = cut_row(row, self.layout.columns);
        let (found, stand) = read_row(self.layout, self.stand, cut, behind, &mut self.digits)?;
        self.number += 1;
        self.stand = stand;
        self.reading
            .add(self.layout.form, self.number, found, &self.digits)?;
        if let RowReading::Unread(_) = found {
            self.digits.clear();
        }
        Ok(())
    }
}

/// Reads an octal text: what each row is, and what it claims. Rows end in newlines; behind a last newline
/// stands one row more, which is blank. The rules are our own. The error is that there was no memory.
pub fn read_octal(
    alloc: Global,
    text: &[u8],
    layout: OctalLayout,
) -> Result<OctalReading, AllocError>
    ensures reading { IfOk result (λ reading. IsReading (rows.rows_in layout text.now) reading.rows) }
    ensures words { IfOk result (λ reading. Holds reading.words (claims_in layout text.now)) }
{
    let mut reader = OctalReader::new(alloc, layout);
    let mut rest = Some(text);
    while let Some(left) = rest {
        let (row, behind) = first_row(left);
        reader.read(row, behind)?;
        rest = behind;
    }
    Ok(reader.reading)
}

/// The first row of a text, and what stands behind it.
pub fn first_row(text: &[u8]) -> (&[u8], Option<&[u8]>)
    ensures rows { slice_split rows.is_newline text.now
        ≡ result.0.now ∷ option_map_or (λ rest. slice_split rows.is_newline rest.now) result.1 [] }
    ensures shorter { IfSome result.1 (λ rest. length rest.now < length text.now) }
{
    match newline_at(text) {
        Some(at) => (&text[..at], Some(&text[at + 1..])),
        None => (text, None),
    }
}

fn newline_at(text: &[u8]) -> Option<usize>
    ensures place { result ≡ position rows.is_newline text.now }
    ensures within { IfSome result (λ at. at < length text.now) }
{
    text.iter().position(|byte| *byte == b'\n')
}

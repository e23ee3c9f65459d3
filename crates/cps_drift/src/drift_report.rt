//! The rows of a report.
ghost use Rattle.std.specs.Prelude.{OnOk, IfOk};
ghost use Rattle.cps_drift.specs.Drift.{IsDriftText};
ghost use Rattle.cps_drift.specs.Code.Rows.{IsPlain};

use super::laid_codes::LaidCodes;
use super::laid_sides::{LaidCounts, LaidSides};
use super::moved_words::MovedWords;
use super::row_text::{push_counts, push_more, push_shift};
use std::alloc::{AllocError, Global};

/// The most rows that are told; the others are counted.
const MOST_ROWS: usize = 24;

/// The rows that are told.
#[derive(Drop)]
pub struct DriftReport {
    text: Vec<u8>,
    /// The row that is being made, without what all rows begin with.
    row: Vec<u8>,
    /// How many rows there are to be told.
    count: usize,
}

/// What is told of two sides as they are laid.
pub fn report(
    alloc: Global,
    sides: &LaidSides,
    moved: &MovedWords,
    counts: LaidCounts,
) -> Result<Vec<u8>, AllocError>
    ensures { IfOk result (λ text. IsDriftText text.items) }
{
    let mut report = DriftReport {
        text: Vec::new(alloc),
        row: Vec::new(alloc),
        count: 0,
    };
    report.tell_parts(sides)?;
    report.tell_wrong(sides, moved)?;
    report.tell_counts(counts)?;
    Ok(report.text)
}

impl DriftReport {
    /// The places where the sides don't agree, and those from which on the text stands otherwise than before.
    fn tell_parts(&mut self, sides: &LaidSides) -> Result<(), AllocError>
        requires { IsDriftText self.old.text.items }
        ensures { OnOk result (IsDriftText self.new.text.items) }
    {
        let mut shift = 0;
        for part in sides.parts {
            if !part.is_pair {
                self.tell_codes(&sides.laid_codes(part))?;
            } else if let Some((address, now)) = sides.shift_at(part) {
                if now != shift {
                    shift = now;
                    self.tell_shift(address, shift)?;
                }
            }
        }
        Ok(())
    }

    fn tell_codes(&mut self, laid: &LaidCodes) -> Result<(), AllocError>
        requires { IsDriftText self.old.text.items }
        ensures { OnOk result (IsDriftText self.new.text.items) }
    {
        if !laid.is_told() {
            return Ok(());
        }
        self.row.clear();
        if self.count < MOST_ROWS {
            laid.push_row(&mut self.row)?;
        }
        self.end_row()
    }

    fn tell_shift(&mut self, address: u32, shift: i64) -> Result<(), AllocError>
        requires { IsDriftText self.old.text.items }
        ensures { OnOk result (IsDriftText self.new.text.items) }
    {
        self.row.clear();
        push_shift(&mut self.row, address, shift)?;
        self.end_row()
    }

    /// The codes that agree but hold another address.
    fn tell_wrong(&mut self, sides: &LaidSides, moved: &MovedWords) -> Result<(), AllocError>
        requires { IsDriftText self.old.text.items }
        ensures { OnOk result (IsDriftText self.new.text.items) }
    {
        for part in sides.parts {
            if part.is_pair && sides.holds_wrong(part, moved) {
                self.tell_codes(&sides.laid_codes(part))?;
            }
        }
        Ok(())
    }

    /// How many rows are left out, and how many codes agree.
    fn tell_counts(&mut self, counts: LaidCounts) -> Result<(), AllocError>
        requires { IsDriftText self.old.text.items }
        ensures { OnOk result (IsDriftText self.new.text.items) }
    {
        if self.count > MOST_ROWS {
            self.row.clear();
            push_more(&mut self.row, self.count - MOST_ROWS)?;
            push_row(&mut self.text, &self.row)?;
        }
        self.row.clear();
        push_counts(&mut self.row, counts)?;
        push_row(&mut self.text, &self.row)
    }

    /// The row that was made is told, if there is room for one more.
    fn end_row(&mut self) -> Result<(), AllocError>
        requires text { IsDriftText self.old.text.items }
        requires plain { IsPlain self.old.row.items }
        ensures { OnOk result (IsDriftText self.new.text.items) }
    {
        if self.count < MOST_ROWS {
            push_row(&mut self.text, &self.row)?;
        }
        self.count = self.count.saturating_add(1);
        Ok(())
    }
}

/// Appends a row.
fn push_row(text: &mut Vec<u8>, row: &[u8]) -> Result<(), AllocError>
    requires text { IsDriftText text.old.items }
    requires plain { IsPlain row.now }
    ensures { OnOk result (IsDriftText text.new.items) }
{
    text.extend_from_slice(b"drift: ")?;
    text.extend_from_slice(row)?;
    text.push(b'\n')?;
    Ok(())
}

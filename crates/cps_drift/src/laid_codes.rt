//! Parcels of a text beside codes of a source, as they are told.
ghost use Rattle.std.specs.Prelude.{OnOk};
ghost use Rattle.cps_drift.specs.Code.Rows.{StaysPlain};

use super::deck_code::DeckCode;
use super::octal_parcel::OctalParcel;
use super::row_text::{push_address, push_code, push_line, push_number, push_parcel, push_words};
use cps_expr::Machine;
use std::alloc::AllocError;

/// The most parcels of a side that are shown.
const MOST_SHOWN: usize = 8;

/// Parcels of a text beside codes of a source. They may differ, or one side may have none.
#[derive(Clone, Copy)]
pub struct LaidCodes<'a> {
    pub machine: Machine,
    /// Whether they agree, but for addresses. Then parcels that do nothing are told too.
    pub is_pair: bool,
    pub parcels: &'a [OctalParcel],
    pub codes: &'a [DeckCode],
}

impl LaidCodes<'_> {
    /// Whether a parcel of the text is told.
    fn tells(&self, parcel: &OctalParcel) -> bool {
        self.is_pair || !parcel.does_nothing()
    }

    /// How many parcels of the text are told.
    pub fn parcel_count(&self) -> usize {
        let mut count: usize = 0;
        for parcel in self.parcels {
            if self.tells(parcel) {
                count = count.saturating_add(1);
            }
        }
        count
    }

    /// How many parcels the codes of the source have.
    pub fn code_parcels(&self) -> usize {
        let mut count: usize = 0;
        for code in self.codes {
            count = count.saturating_add(usize::from(code.count));
        }
        count
    }

    /// Whether one side has something to be told.
    pub fn is_told(&self) -> bool {
        !self.codes.is_empty() || self.first_parcel().is_some()
    }

    /// The first parcel of the text that is told.
    fn first_parcel(&self) -> Option<&OctalParcel> {
        for parcel in self.parcels {
            if self.tells(parcel) {
                return Some(parcel);
            }
        }
        None
    }

    /// Appends what stands on the two sides, or on one of them.
    pub fn push_row(&self, row: &mut Vec<u8>) -> Result<(), AllocError>
        ensures { OnOk result (StaysPlain row.old.items row.new.items) }
    {
        match (self.first_parcel(), self.codes.first()) {
            (Some(parcel), Some(code)) => self.push_both(row, parcel.address, code),
            (Some(parcel), None) => self.push_text(row, parcel),
            (None, Some(code)) => self.push_deck(row, code),
            (None, None) => Ok(()),
        }
    }

    /// Appends what stands on the two sides, from an address of the text and a code of the source on.
    pub fn push_both(
        &self,
        row: &mut Vec<u8>,
        address: u32,
        code: &DeckCode,
    ) -> Result<(), AllocError>
        ensures { OnOk result (StaysPlain row.old.items row.new.items) }
    {
        push_address(row, address)?;
        push_words(row, b" octal ")?;
        self.push_parcels(row)?;
        push_words(row, b", deck ")?;
        self.push_codes(row)?;
        push_line(row, code.line)
    }

    /// Appends what only the text has, from a parcel on.
    fn push_text(&self, row: &mut Vec<u8>, parcel: &OctalParcel) -> Result<(), AllocError>
        ensures { OnOk result (StaysPlain row.old.items row.new.items) }
    {
        push_address(row, parcel.address)?;
        push_words(row, b" only OCTAL has ")?;
        self.push_parcels(row)?;
        push_words(row, b" (row ")?;
        push_number(row, parcel.row)?;
        push_words(row, b")")
    }

    /// Appends what only the source has, from a code on.
    fn push_deck(&self, row: &mut Vec<u8>, code: &DeckCode) -> Result<(), AllocError>
        ensures { OnOk result (StaysPlain row.old.items row.new.items) }
    {
        push_address(row, code.address)?;
        push_words(row, b" only the deck has ")?;
        self.push_codes(row)?;
        push_line(row, code.line)
    }

    /// Appends the first parcels of the text that are told.
    fn push_parcels(&self, row: &mut Vec<u8>) -> Result<(), AllocError>
        ensures { OnOk result (StaysPlain row.old.items row.new.items) }
    {
        let mut shown: usize = 0;
        for parcel in self.parcels {
            if self.tells(parcel) {
                if shown == MOST_SHOWN {
                    return push_words(row, b" ..");
                }
                push_parcel(row, self.machine, parcel)?;
                shown = shown.saturating_add(1);
            }
        }
        Ok(())
    }

    /// Appends the first codes of the source.
    fn push_codes(&self, row: &mut Vec<u8>) -> Result<(), AllocError>
        ensures { OnOk result (StaysPlain row.old.items row.new.items) }
    {
        let mut shown: usize = 0;
        for code in self.codes {
            shown = shown.saturating_add(usize::from(code.count));
            if shown > MOST_SHOWN {
                return push_words(row, b" ..");
            }
            push_code(row, self.machine, code)?;
        }
        Ok(())
    }
}

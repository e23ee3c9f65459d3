//! A row of this program's own listing.
ghost use Rattle.std.specs.Prelude.{◌≡◌, ◌<◌, ◌+◌, ◌&&◌, IfOk, OnOk, IfSome, length, Some, filter, not};
ghost use Rattle.std.specs.List.{list_all};
ghost use Rattle.cps_claims.specs.Columns.{columns_read};
ghost use Rattle.cps_claims.specs.Parts as parts;
ghost use Rattle.cps_claims.specs.Listed as listed;
ghost use Rattle.cps_claims.specs.Code.Found.{row_with};
ghost use Rattle.cps_claims.specs.Code.Listed.{IsBelow};

use super::layout::{ReadColumns, WordOffset, cut_row};
use super::part::{are_blank, are_digits, is_blank, number_in};
use super::reason::UnreadReason;
use super::row::{RowReading, meant};
use std::alloc::AllocError;

/// The columns of the address.
const ADDRESS: ReadColumns = ReadColumns {
    first: 10,
    last: 15,
};

/// The columns of the code, and those beside it.
const CODE: ReadColumns = ReadColumns {
    first: 17,
    last: 36,
};

const BEFORE_CODE: ReadColumns = ReadColumns {
    first: 16,
    last: 16,
};

const BEHIND_CODE: ReadColumns = ReadColumns {
    first: 37,
    last: 37,
};

/// Reads a row. The digits of its code take the place of what `digits` has.
pub fn read_own_row(
    offset: WordOffset,
    row: &[u8],
    digits: &mut Vec<u8>,
) -> Result<RowReading, AllocError>
    ensures row { IfOk result (λ found. row_with digits.new.items found ≡ listed.own_row offset row.now) }
    ensures below { IfOk result IsBelow }
{
    put_digits(digits, cut_row(row, Some(CODE)))?;
    Ok(row_of(offset, row, digits))
}

/// What a row is, by the digits of its code.
fn row_of(offset: WordOffset, row: &[u8], digits: &[u8]) -> RowReading
    requires { digits.now ≡ listed.code_digits row.now }
    ensures row { row_with digits.now result ≡ listed.own_row offset row.now }
    ensures below { IsBelow result }
{
    let address = cut_row(row, Some(ADDRESS));
    if are_blank(row) {
        RowReading::Blank
    } else if are_blank(address) || digits.is_empty() {
        RowReading::Other
    } else {
        code_row(offset, row, digits)
    }
}

/// What a row with an address and a code is.
fn code_row(offset: WordOffset, row: &[u8], digits: &[u8]) -> RowReading
    requires { digits.now ≡ listed.code_digits row.now }
    ensures row { row_with digits.now result ≡ listed.code_row offset row.now }
    ensures below { IsBelow result }
{
    let Some(address) = number_in(cut_row(row, Some(ADDRESS))) else {
        return RowReading::Unread(UnreadReason::NoAddress);
    };
    if !are_digits(digits) || !stands_apart(row) {
        return RowReading::Unread(UnreadReason::DamagedDigits);
    }
    match meant(offset, u64::from(address), 1) {
        Some(address) => RowReading::Read { address, place: 0 },
        None => RowReading::Unread(UnreadReason::NoSuchAddress),
    }
}

/// Whether the columns beside the code are blank.
fn stands_apart(row: &[u8]) -> bool
    ensures { result ≡ listed.stands_apart row.now }
{
    are_blank(cut_row(row, Some(BEFORE_CODE))) && are_blank(cut_row(row, Some(BEHIND_CODE)))
}

/// Puts the bytes of a code that aren't blanks in the place of what `digits` has.
fn put_digits(digits: &mut Vec<u8>, code: &[u8]) -> Result<(), AllocError>
    ensures { OnOk result (digits.new.items ≡ filter (λ byte. not (parts.is_blank byte)) code.now) }
{
    digits.clear();
    for byte in code {
        if !is_blank(*byte) {
            digits.push(*byte)?;
        }
    }
    Ok(())
}

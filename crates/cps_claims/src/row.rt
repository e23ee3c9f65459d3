//! What a row of an octal text is.
ghost use Rattle.std.specs.Prelude.{◌≡◌, ◌+◌, ◌^◌, ◌<◌, ◌≤◌, IfOk, IfSome, length, true, false, ℕ, List, ◌==◌, is_some, if◌then◌else◌};
ghost use Rattle.std.specs.Option.{option_map_or};
ghost use Rattle.cps_claims.specs.Rows as rows;
ghost use Rattle.cps_claims.specs.Words as words;
ghost use Rattle.cps_claims.specs.Code.Walk.{parts_left};
ghost use Rattle.cps_claims.specs.Code.Found.{Finds, row_found, has_digits, reached, IsWithin, address_behind};
ghost use Rattle.cps_claims.specs.Parts.{parts_of};
ghost use Rattle.cps_claims.specs.declared.layout.WordForm.{WordForm};

use super::groups::read_digits;
use super::layout::{OctalLayout, WordOffset, is_dump, word_size};
use super::part::{RowRest, address_in, are_digits, looks_like_digits};
use super::reason::UnreadReason;
use super::repetition::{is_repetition, read_repetition};
use super::stand::{RowStand, WordPlace};
use std::alloc::AllocError;

/// Addresses have six octal digits.
pub const MOST_WORDS: usize = 262_144;

/// The most digits of an address.
const ADDRESS_DIGITS: usize = 6;

/// What a row is.
#[derive(Clone, Copy)]
pub enum RowReading {
    /// Its digits are claimed, from a place of the word at an address on. The first place is 0.
    Read { address: u32, place: usize },
    /// It has nothing but blanks.
    Blank,
    /// It has other text.
    Other,
    /// It may have digits, but it can't be told which.
    Unread(UnreadReason),
}

/// Reads a row, by where the rows above it stand, and by what stands behind it: tells what it is, and where it stands then. Its digits
/// take the place of what `digits` has, which is the digits of the last row that is read.
pub fn read_row(
    layout: OctalLayout,
    stand: RowStand,
    row: &[u8],
    behind: Option<&[u8]>,
    digits: &mut Vec<u8>,
) -> Result<(RowReading, RowStand), AllocError>
    requires near { reached stand < 2 ^ 40 }
    ensures row { Finds result digits.new.items (rows.row_among layout stand digits.old.items (parts_of row.now) (address_behind layout behind.entry)) }
    ensures kept { IfOk result (λ found. has_digits found.0 ≡ false → digits.new.items ≡ digits.old.items) }
    ensures near { IfOk result (λ found. reached found.1 < 2 ^ 40) }
    ensures within { IfOk result (λ found. IsWithin layout.form digits.new.items found.0) }
{
    let whole = RowRest::of(row);
    let Some((part, rest)) = whole.next() else {
        return Ok((RowReading::Blank, stand));
    };
    if is_dump(layout.format) && is_repetition(part, rest) {
        return read_repetition(layout, stand, behind, digits);
    }
    if goes_on(stand, part.column, part.text) {
        return read_digit_row(layout, stand, whole, digits);
    }
    match address_in(part.text) {
        Some(address) => read_behind_address(layout, stand, u64::from(address), rest, digits),
        None => Ok(text_row(stand, part.text)),
    }
}

/// Reads a row of digits without an address.
fn read_digit_row(
    layout: OctalLayout,
    stand: RowStand,
    rest: RowRest<'_>,
    digits: &mut Vec<u8>,
) -> Result<(RowReading, RowStand), AllocError>
    requires near { reached stand < 2 ^ 40 }
    ensures row { Finds result digits.new.items (rows.digit_row layout stand (parts_left rest.entry)) }
    ensures digits { IfOk result (λ found. has_digits found.0 ≡ true) }
    ensures near { IfOk result (λ found. reached found.1 < 2 ^ 40) }
    ensures within { IfOk result (λ found. IsWithin layout.form digits.new.items found.0) }
{
    let fault = read_digits(layout, rest, digits)?;
    match fault {
        Some(reason) => Ok(unread_at(stand, None, reason)),
        None => Ok(going_on(layout, stand, digits)),
    }
}

/// Reads what stands behind an address.
fn read_behind_address(
    layout: OctalLayout,
    stand: RowStand,
    address: u64,
    rest: RowRest<'_>,
    digits: &mut Vec<u8>,
) -> Result<(RowReading, RowStand), AllocError>
    requires near { reached stand < 2 ^ 40 }
    ensures row { Finds result digits.new.items (rows.behind_address layout stand address (parts_left rest.entry)) }
    ensures kept { IfOk result (λ found. has_digits found.0 ≡ false → digits.new.items ≡ digits.old.items) }
    ensures near { IfOk result (λ found. reached found.1 < 2 ^ 40) }
    ensures within { IfOk result (λ found. IsWithin layout.form digits.new.items found.0) }
{
    let Some((part, _)) = rest.next() else {
        return Ok((RowReading::Other, stand));
    };
    let begun = begun_at(stand, part.column);
    if are_digits(part.text) {
        return read_address_row(layout, begun, address, rest, digits);
    }
    if looks_like_digits(part.text) {
        return Ok(unread_at(begun, Some(address), UnreadReason::DamagedDigits));
    }
    Ok((RowReading::Other, stand))
}

/// Reads the digits behind an address.
fn read_address_row(
    layout: OctalLayout,
    stand: RowStand,
    address: u64,
    rest: RowRest<'_>,
    digits: &mut Vec<u8>,
) -> Result<(RowReading, RowStand), AllocError>
    ensures row { Finds result digits.new.items (rows.address_row layout stand address (parts_left rest.entry)) }
    ensures digits { IfOk result (λ found. has_digits found.0 ≡ true) }
    ensures near { IfOk result (λ found. reached found.1 < 2 ^ 40) }
    ensures within { IfOk result (λ found. IsWithin layout.form digits.new.items found.0) }
{
    let fault = read_digits(layout, rest, digits)?;
    match fault {
        Some(reason) => Ok(unread_at(stand, Some(address), reason)),
        None => Ok(beginning(layout, stand, address, digits)),
    }
}

/// What a row is that begins with neither digits that go on nor an address.
fn text_row(stand: RowStand, text: &[u8]) -> (RowReading, RowStand)
    requires near { reached stand < 2 ^ 40 }
    ensures row { (column : ℕ) (digits : List ℕ) → row_found digits result
        ≡ rows.text_row stand (record { column = column; text = text.now }) }
    ensures near { reached result.1 < 2 ^ 40 }
    ensures within { (form : WordForm) (digits : List ℕ) → IsWithin form digits result.0 }
{
    if looks_like_digits(text) {
        unread_at(stand, None, UnreadReason::NoAddress)
    } else {
        (RowReading::Other, stand)
    }
}

/// Whether a row that begins with this part, in this column, goes on behind the row above.
fn goes_on(stand: RowStand, column: u128, text: &[u8]) -> bool
    ensures { result ≡ rows.goes_on stand (record { column = column; text = text.now }) }
{
    are_digits(text) && (text.len() > ADDRESS_DIGITS || is_digit_column(stand, column))
}

fn is_digit_column(stand: RowStand, column: u128) -> bool
    ensures { result ≡ option_map_or (λ other. other == column) stand.column false }
{
    match stand.column {
        Some(other) => other == column,
        None => false,
    }
}

/// A row that goes on behind the row above.
fn going_on(layout: OctalLayout, stand: RowStand, digits: &[u8]) -> (RowReading, RowStand)
    requires near { reached stand < 2 ^ 40 }
    ensures row { row_found digits.now result ≡ rows.going_on layout stand digits.now }
    ensures digits { has_digits result.0 ≡ true }
    ensures near { reached result.1 < 2 ^ 40 }
    ensures within { IsWithin layout.form digits.now result.0 }
{
    let Some(place) = stand.place else {
        return unread_at(stand, None, nowhere(stand));
    };
    let size = word_size(layout.form);
    if is_dump(layout.format) && place.count == size {
        claimed(layout, stand, place.address + 1, 0, digits)
    } else if fits(size, place.count, digits.len()) {
        claimed(layout, stand, place.address, place.count, digits)
    } else {
        unread_at(stand, None, UnreadReason::NoAddress)
    }
}

/// Why a row goes on nowhere.
fn nowhere(stand: RowStand) -> UnreadReason
    ensures { result ≡ (if is_some stand.lost then UnreadReason.BehindUnread else UnreadReason.NoAddress) }
{
    match stand.lost {
        Some(_) => UnreadReason::BehindUnread,
        None => UnreadReason::NoAddress,
    }
}

/// A row that begins at an address.
fn beginning(
    layout: OctalLayout,
    stand: RowStand,
    address: u64,
    digits: &[u8],
) -> (RowReading, RowStand)
    ensures row { row_found digits.now result ≡ rows.beginning layout stand address digits.now }
    ensures digits { has_digits result.0 ≡ true }
    ensures near { reached result.1 < 2 ^ 40 }
    ensures within { IsWithin layout.form digits.now result.0 }
{
    let size = word_size(layout.form);
    if is_lost(stand, address) && digits.len() < size {
        return unread_at(stand, Some(address), UnreadReason::BehindUnread);
    }
    let place = first_place(size, stand, address, digits.len());
    claimed(layout, stand, address, place, digits)
}

fn is_lost(stand: RowStand, address: u64) -> bool
    ensures { result ≡ rows.is_lost stand address }
{
    match stand.lost {
        Some(lost) => lost == address,
        None => false,
    }
}

/// Where the digits of a row with an address begin, if it has so many.
fn first_place(size: usize, stand: RowStand, address: u64, count: usize) -> usize
    ensures place { result ≡ rows.first_place size stand address count }
    ensures few { result ≤ size }
{
    match stand.place {
        Some(place) if place.address == address && fits(size, place.count, count) => place.count,
        _ => 0,
    }
}

/// Digits that are claimed, from a place of the word at an address of the text on.
pub fn claimed(
    layout: OctalLayout,
    stand: RowStand,
    address: u64,
    place: usize,
    digits: &[u8],
) -> (RowReading, RowStand)
    requires { place ≤ 20 }
    ensures row { row_found digits.now result ≡ rows.claimed layout stand address place digits.now }
    ensures digits { has_digits result.0 ≡ true }
    ensures near { reached result.1 < 2 ^ 40 }
    ensures within { IsWithin layout.form digits.now result.0 }
{
    let size = word_size(layout.form);
    let count = place + digits.len();
    let words = words_in(size, count);
    match meant(layout.offset, address, words) {
        Some(at) => {
            let last = WordPlace {
                address: (address + words as u64).saturating_sub(1),
                count: in_last(size, count),
            };
            let stand = RowStand {
                place: Some(last),
                column: stand.column,
                lost: None,
                repeated: stand.repeated,
            };
            (RowReading::Read { address: at, place }, stand)
        }
        None => unread_at(stand, Some(address), UnreadReason::NoSuchAddress),
    }
}

/// The address that is meant by one of the text, if so many words from there on have addresses.
pub fn meant(offset: WordOffset, address: u64, count: usize) -> Option<u32>
    ensures at { result ≡ rows.meant offset address count }
    ensures few { IfSome result (λ at. at + count ≤ MOST_WORDS) }
    ensures small { IfSome result (λ at. address < 2 ^ 33) }
{
    let at = moved(offset, address)?;
    if count > MOST_WORDS || at > (MOST_WORDS - count) as u128 {
        return None;
    }
    Some(at as u32)
}

fn moved(offset: WordOffset, address: u64) -> Option<u128>
    ensures at { result ≡ words.moved offset address }
    ensures near { IfSome result (λ at. address < at + 2 ^ 32) }
{
    let address = u128::from(address);
    match offset {
        WordOffset::Up(count) => Some(address + u128::from(count)),
        WordOffset::Down(count) => address.checked_sub(u128::from(count)),
    }
}

/// A row that isn't read, of which the address may be known.
pub fn unread_at(
    stand: RowStand,
    address: Option<u64>,
    reason: UnreadReason,
) -> (RowReading, RowStand)
    ensures row { (digits : List ℕ) → row_found digits result ≡ rows.unread_at stand address reason }
    ensures digits { has_digits result.0 ≡ true }
    ensures near { reached result.1 < 2 ^ 40 }
    ensures within { (form : WordForm) (digits : List ℕ) → IsWithin form digits result.0 }
{
    let left = RowStand {
        place: None,
        column: stand.column,
        lost: lost_at(stand, address),
        repeated: stand.repeated,
    };
    (RowReading::Unread(reason), left)
}

/// The address behind which nothing goes on.
fn lost_at(stand: RowStand, address: Option<u64>) -> Option<u64>
    ensures { result ≡ rows.lost_at stand address }
{
    match (address, stand.place) {
        (Some(address), _) => Some(address),
        (None, Some(place)) => Some(place.address),
        (None, None) => stand.lost,
    }
}

fn begun_at(stand: RowStand, column: u128) -> RowStand
    ensures { result ≡ rows.begun_at stand column }
{
    RowStand {
        place: stand.place,
        column: Some(column),
        lost: stand.lost,
        repeated: stand.repeated,
    }
}

/// Whether a word that has so many digits has room for more.
pub fn fits(size: usize, count: usize, more: usize) -> bool
    ensures { result ≡ rows.fits size count more }
{
    count <= size && more <= size - count
}

/// How many words digits reach into.
fn words_in(size: usize, count: usize) -> usize
    requires some { 0 < size }
    requires few { count + size < 2 ^ 64 }
    ensures { result ≡ rows.words_in size count }
{
    (count + size - 1) / size
}

/// How many digits the last of these words has.
fn in_last(size: usize, count: usize) -> usize
    requires { 0 < size }
    ensures { result ≡ rows.in_last size count }
{
    let over = count % size;
    if over == 0 { size } else { over }
}

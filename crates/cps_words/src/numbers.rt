//! The addresses, the offsets and the columns that words name.
ghost use Rattle.std.specs.Prelude.{◌≡◌, ◌<◌, ◌≤◌, ◌^◌, IfSome, length, option_map};
ghost use Rattle.std.specs.List.{list_all};
ghost use Rattle.std.specs.Char.{is_digit};
ghost use Rattle.cps_words.specs.Values as values;

use cps_claims::{ReadColumns, WordOffset};

/// The most digits of an address.
const ADDRESS_DIGITS: usize = 6;

/// The most digits of a column.
const COLUMN_DIGITS: usize = 5;

/// The address that a word names: 1 to 6 octal digits.
pub fn read_address(word: &str) -> Option<u32>
    ensures address { result ≡ values.address_named word.now }
    ensures low { IfSome result (λ address. address < 2 ^ 18) }
{
    read_number(word, 8, ADDRESS_DIGITS)
}

/// How far a word says that addresses are moved: 1 to 6 octal digits, which a minus takes away; a plus may stand before them.
pub fn read_offset(word: &str) -> Option<WordOffset>
    ensures { result ≡ values.offset_named word.now }
{
    match word.strip_prefix('-') {
        Some(digits) => read_address(digits).map(WordOffset::Down),
        None => match word.strip_prefix('+') {
            Some(digits) => read_added(digits),
            None => read_added(word),
        },
    }
}

/// The offset that digits without a sign write.
fn read_added(word: &str) -> Option<WordOffset>
    ensures { result ≡ option_map (λ count. WordOffset.Up count) (values.address_named word.now) }
{
    read_address(word).map(WordOffset::Up)
}

/// The columns that a word names: a first and a last one with a minus between them, or one alone.
pub fn read_columns(word: &str) -> Option<ReadColumns>
    ensures { result ≡ values.columns_named word.now }
{
    match halves_of(word) {
        Some((first, last)) => columns_between(read_column(first), read_column(last)),
        None => columns_between(read_column(word), read_column(word)),
    }
}

/// What stands before and behind the first minus of a word.
pub fn halves_of(word: &str) -> Option<(&str, &str)>
    ensures { option_map (λ halves. (halves.0.now, halves.1.now)) result ≡ values.halves_of word.now }
{
    word.split_once('-')
}

fn columns_between(first: Option<u32>, last: Option<u32>) -> Option<ReadColumns>
    ensures { result ≡ values.columns_between first last }
{
    match (first, last) {
        (Some(first), Some(last)) if 1 <= first && first <= last => Some(ReadColumns {
            first: first as usize,
            last: last as usize,
        }),
        _ => None,
    }
}

fn read_column(word: &str) -> Option<u32>
    ensures { result ≡ values.column_named word.now }
{
    read_number(word, 10, COLUMN_DIGITS)
}

/// The number that a word writes in digits of a radix, of which it may have so many.
fn read_number(word: &str, radix: u32, most: usize) -> Option<u32>
    requires radix { (2 ≤ radix) × (radix ≤ 36) }
    requires small { radix ^ most < 2 ^ 32 }
    ensures number { result ≡ values.number_named radix most word.now }
    ensures below { IfSome result (λ number. number < radix ^ most) }
{
    let digits = word.as_bytes();
    if digits.is_empty() || digits.len() > most || !are_digits(digits, radix) {
        return None;
    }
    u32::from_str_radix(word, radix).ok()
}

fn are_digits(bytes: &[u8], radix: u32) -> bool
    requires { (2 ≤ radix) × (radix ≤ 36) }
    ensures { result ≡ list_all (λ digit. is_digit digit radix) bytes.now }
{
    bytes.iter().all(|byte| char::from(*byte).is_digit(radix))
}

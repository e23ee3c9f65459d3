//! What an octal text claims, and when a source agrees with it. The rules are our own.
//!
//! - `claimed_word.rt`: the digits that are claimed for a word
//! - `claimed_words.rt`: the digits that are claimed, by address
//! - `groups.rt`: the digits of a row
//! - `layout.rt`: how an octal text is laid out
//! - `listed_digit.rt`: where two listings differ at an address
//! - `listed_word.rt`: the digits that a listing has at one address
//! - `listed_words.rt`: the same, by address
//! - `own_reading.rt`: a listing of this program, row after row
//! - `own_row.rt`: what a row of it is
//! - `part.rt`: the parts of a row
//! - `reading.rt`: a text, row after row
//! - `reason.rt`: why a row isn't read
//! - `repetition.rt`: words that stand again
//! - `row.rt`: what a row is
//! - `stand.rt`: where the rows stand
#![tactic(auto)]

ghost use Rattle.cps_claims.specs.Agreement.{NoWordDiffersSoAllAgree, EachRowIsOne, EachRowIsCounted};
ghost use Rattle.cps_claims.specs.ListedPlaces.{NoPlaceDiffersSoEachDigitIsListed};

mod claimed_word;
mod claimed_words;
mod groups;
mod layout;
mod listed_digit;
mod listed_word;
mod listed_words;
mod own_reading;
mod own_row;
mod part;
mod reading;
mod reason;
mod repetition;
mod row;
mod stand;

pub use claimed_word::{ClaimedDigit, ClaimedWord, MOST_DIGITS};
pub use claimed_words::ClaimedWords;
pub use layout::{OctalFormat, OctalLayout, ReadColumns, WordForm, WordOffset, word_size};
pub use listed_digit::{ListedDigit, gives_listed, known_listed, listed_places, push_listed};
pub use listed_words::ListedWords;
pub use own_reading::{OwnReading, read_own};
pub use reading::{OctalReading, RowCounts, RowKinds, UnreadRow, read_octal};
pub use reason::{ReasonWords, UnreadReason};

/// Where no word differs each known claim agrees with the deck.
pub fn no_word_differs_so_all_agree()
    ensures { NoWordDiffersSoAllAgree }
{}

/// Each row of a text is read, blank, of other text, or not read.
pub fn each_row_is_one()
    ensures { EachRowIsOne }
{}

/// The rows that are read, blank, of other text, and not read, are all rows.
pub fn each_row_is_counted()
    ensures { EachRowIsCounted }
{}

/// Where no place of two listings differs, each digit of the text's that can be read stands in the source's.
pub fn no_place_differs_so_each_digit_is_listed()
    ensures { NoPlaceDiffersSoEachDigitIsListed }
{}

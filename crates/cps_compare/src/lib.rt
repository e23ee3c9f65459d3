//! A comparison of an octal listing or dump with the words of an assembled source: which words differ, in which digits, and which lines made these.
//!
//! - `address_span.rt`: the addresses that are compared
//! - `booleans.rt`: what two tests say together
//! - `compare_fault.rt`: why an octal text isn't compared with a source
//! - `compare_format.rt`: how the rows of an octal text are read
//! - `compare_options.rt`: what the words of a comparison ask
//! - `compared_word.rt`: words that are compared, in runs that differ
//! - `comparison.rt`: the comparison as a whole
//! - `deck_words.rt`: the words of a source, and what made their digits
//! - `difference.rt`: which digits of a word differ
//! - `difference_rows.rt`: the rows that tell a word that differs
//! - `given_word.rt`: what an octal text gives of a word
//! - `listed_deck.rt`: the digits of a source's listing, by address
//! - `listed_rows.rt`: the rows that tell how two listings differ
//! - `listed_sides.rt`: a listing of this program beside the source's
//! - `maker.rt`: what made digits of a word
//! - `makers.rt`: the makers of all digits
//! - `octal_fault.rt`: why a comparison of two inputs ends without its text
//! - `running.rt`: the run of a comparison: two inputs are read, and what is told is written
//! - `setup.rt`: what a comparison is set up with
//! - `sides.rt`: an octal text and a source, side by side
//! - `statements.rt`: the statements of an expansion at an address
//! - `survey.rt`: what is counted from one address to another
//! - `telling.rt`: the rows that tell how much was compared
//! - `wide_rows.rt`: rows that may be wider than those of a listing
//! - `word_sides.rt`: an octal text of words beside a source
#![tactic(auto)]

ghost use Rattle.cps_compare.specs.Comparison.{NoWordDiffersSoEachDigitAgrees, NoCodeDiffersSoEachDigitIsListed};

mod address_span;
mod booleans;
mod compare_fault;
mod compare_format;
mod compare_options;
mod compared_word;
mod comparison;
mod deck_words;
mod difference;
mod difference_rows;
mod given_word;
mod listed_deck;
mod listed_rows;
mod listed_sides;
mod maker;
mod makers;
mod octal_fault;
mod running;
mod setup;
mod sides;
mod statements;
mod survey;
mod telling;
mod wide_rows;
mod word_sides;

pub use compare_fault::CompareFault;
pub use compare_format::CompareFormat;
pub use compare_options::CompareOptions;
pub use comparison::{Comparison, compare};
pub use deck_words::DeckWords;
pub use difference::show_word;
pub use maker::Maker;
pub use makers::Makers;
pub use octal_fault::OctalFault;
pub use running::compare_inputs;
pub use setup::Setup;

/// Where no word between two addresses differs, each digit that can be read and is claimed there is the source's.
pub fn no_word_differs_so_each_digit_agrees()
    ensures { NoWordDiffersSoEachDigitAgrees }
{}

/// Where no codes between two addresses differ, each digit of a listing that can be read stands there in the source's own listing.
pub fn no_code_differs_so_each_digit_is_listed()
    ensures { NoCodeDiffersSoEachDigitIsListed }
{}

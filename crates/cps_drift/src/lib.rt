//! Where code moved: an octal text laid beside an assembled source by what the codes are. What is told is a help, and only tested; proved is
//! that it is safe, that it ends, and the form of the text.
//!
//! - `alignment.rt`: which parcels of the text stand beside which codes
//! - `beginning.rt`: where in the source a stretch of the text begins
//! - `deck_code.rt`: a code of the source
//! - `deck_codes.rt`: the codes of the source
//! - `deck_pieces.rt`: the bits of the source
//! - `drift.rt`: the whole
//! - `drift_report.rt`: the rows of a report
//! - `held_address.rt`: addresses that moved along
//! - `laid_codes.rt`: parcels beside codes, as they are told
//! - `laid_sides.rt`: the two sides as they are laid, and how many codes agree
//! - `laying.rt`: the two sides from a place of each on
//! - `moved_words.rt`: how far the words of the source moved
//! - `octal_parcel.rt`: a parcel of the text
//! - `octal_parcels.rt`: the parcels of the text
//! - `parcel.rt`: the sizes of parcels
//! - `row_text.rt`: what rows are made of
//! - `search.rt`: the search for places where the sides agree again
//! - `word_cut.rt`: how a word is cut into codes
//! - `word_cuts.rt`: how words are cut, by address
#![tactic(auto)]

mod alignment;
mod beginning;
mod deck_code;
mod deck_codes;
mod deck_pieces;
mod drift;
mod drift_report;
mod held_address;
mod laid_codes;
mod laid_sides;
mod laying;
mod moved_words;
mod octal_parcel;
mod octal_parcels;
mod parcel;
mod row_text;
mod search;
mod word_cut;
mod word_cuts;

pub use drift::drift_rows;

//! An assembled source as a page: one file of HTML, which says the four texts, marked up, and tells beside them why and what.
//!
//! - `beside.rt`: what a page tells beside the texts
//! - `causes.rt`: the causes of flags, as notes
//! - `code_rows.rt`: the rows of the listing that have codes, by their addresses
//! - `entries.rt`: the symbols to which links can lead
//! - `expansion.rt`: a line of the listing, with what it expands to
//! - `flags.rt`: the rows of the flags text
//! - `frame.rt`: what stands around the title and the sections
//! - `listed_rows.rt`: rows of the listing
//! - `listing.rt`: the section of the listing
//! - `makers.rt`: the lines that made the digits of words
//! - `named_blocks.rt`: the named blocks to which links can lead
//! - `page.rt`: the page
//! - `sections.rt`: the sections
//! - `statement_fields.rt`: the fields of a statement that has a code
//! - `summary.rt`: what a page is of
//! - `tables.rt`: tables beside the texts
//! - `telling.rt`: what is told beside the rows of a text, as these are gone through
//! - `word_notes.rt`: what is told beside a word
//! - `words.rt`: the words to which links can lead
#![tactic(auto)]

mod beside;
mod causes;
mod code_rows;
mod entries;
mod expansion;
mod flags;
mod frame;
mod listed_rows;
mod listing;
mod makers;
mod named_blocks;
mod page;
mod sections;
mod statement_fields;
mod summary;
mod tables;
mod telling;
mod word_notes;
mod words;

pub use beside::{Beside, Block, BlockName, Cause, CodeNote, Form, OperandColumns};
pub use cps_markup::{LineLook, MeantColumns};
pub use frame::{BACK, FRONT, MIDDLE};
pub use page::{Frame, make_page, make_page_of};
pub use statement_fields::code_fields;

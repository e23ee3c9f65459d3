//! The four texts of an assembled source, and their writing: the listing, the binary text, the cross-reference of its symbols, and its flagged lines.
//!
//! - `binary.rt`: the binary text
//! - `columns.rt`: rows, laid out in columns
//! - `flagged.rt`: the flags text
//! - `front.rt`: what stands before the line, written over blanks
//! - `listing.rt`: the rows of the listing
//! - `mention.rt`: symbols with the lines that define and read them
//! - `part.rt`: the calls that make or write a text
//! - `printout.rt`: the texts of a source, made in one walk over its lines
//! - `symbols.rt`: the cross-reference
//! - `view.rt`: the trait of an assembled source
//! - `writing.rt`: the loop that writes
#![tactic(auto)]

mod binary;
mod columns;
mod flagged;
mod front;
mod listing;
mod mention;
mod part;
mod printout;
mod symbols;
mod view;
mod writing;

pub use columns::{fill_columns, push_decimal};
pub use listing::push_rows;
pub use mention::{Mention, list_mentions, push_mentions};
pub use part::{
    Part, make_text, write_all_parts, write_binary, write_flags, write_listing, write_part,
    write_symbols,
};
pub use printout::Printout;
pub use symbols::{push_symbol, push_value, symbol_value};
pub use view::View;
pub use writing::{ListFault, write_text};

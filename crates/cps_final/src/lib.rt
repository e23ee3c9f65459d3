//! Pass two: the final values of symbols, blocks and literals; the rows and the pieces that a line has under them; and whether a line does
//! the same under others.
//!
//! - `blocks.rt`: the sizes of blocks
//! - `both.rt`: two layouts of final values, compared at what a line names
//! - `changes.rt`: changed keys of a state, and what stands there; a state takes them over and gives what stood there
//! - `ends.rt`: final values before an edit and after it, compared at what a line names
//! - `finals.rt`: final values
//! - `finals_patch.rt`: what an edit changes of final values
//! - `former_finals.rt`: final values as they were before a patch
//! - `kept_list.rt`: rows or pieces, where a single one is kept in place
//! - `kept_names.rt`: names, where a single one is kept in place
//! - `laws.rt`: laws of what lines leave of changed keys
//! - `line_names.rt`: the symbols that a line defines, and those that it reads
//! - `line_symbols.rt`: the symbols of one line after another, in the same lists
//! - `literals.rt`: the literal words of statements
//! - `name_lists.rt`: the symbols of a line that is kept
//! - `named_finals.rt`: the names of a run of lines for pass two, each once
//! - `names_once.rt`: names of one line after another, each once
//! - `naming.rt`: the trait of a test of names, and the walk over what statements name
//! - `octal_digits.rt`: digits that a row may show
//! - `outcome.rt`: the step: the outcome of a line
//! - `output.rt`: the rows and pieces of a line
//! - `outside.rt`: what a run of lines asks of the state before it
//! - `pieces.rt`: bits in words at their final addresses
//! - `placed_statement.rt`: a statement with the final values and its address
//! - `room.rt`: how much room the rows and pieces of a line take
//! - `row.rt`: a row of the listing, before it is laid out
//! - `rows.rt`: the rows of a statement
//! - `run_asks.rt`: what is kept of a run of lines
//! - `same.rt`: what a line asked, compared with what stands now
//! - `statement.rt`: one walk over the contents of a statement, for rows and pieces
//! - `storage.rt`: where blocks and literals stand
//! - `symbols.rt`: what symbols stand for in a statement at its final address
//! - `valued.rt`: contents as numbers and flags
#![tactic(auto)]

mod blocks;
mod both;
mod changes;
mod ends;
mod finals;
mod finals_patch;
mod former_finals;
mod kept_list;
mod kept_names;
pub mod laws;
mod line_names;
mod line_symbols;
mod literals;
mod name_lists;
mod named_finals;
mod names_once;
mod naming;
mod octal_digits;
mod outcome;
mod output;
mod outside;
mod pieces;
mod placed_statement;
mod room;
mod row;
mod rows;
mod run_asks;
mod same;
mod statement;
mod storage;
mod symbols;
mod valued;

pub use both::same_finals;
pub use changes::Changes;
pub use ends::{Ends, ends_agree};
pub use finals::{Finals, Gather, Gathered};
pub use finals_patch::FinalsPatch;
pub use line_symbols::LineSymbols;
pub use named_finals::NamedFinals;
pub use naming::{Naming, all_pass};
pub use octal_digits::OctalDigits;
pub use outcome::{Outcome, flags_of, step_two};
pub use output::Output;
pub use placed_statement::PlacedStatement;
pub use row::Row;
pub use run_asks::RunAsks;
pub use same::{is_same_answer, same_answers, still_holds};
pub use storage::Storage;

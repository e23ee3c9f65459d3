//! What is told to a person at a terminal: a check of a source, line by line in the form that editors take, and the manual's words on a flag, a
//! statement or an instruction.
//!
//! - `central.rt`: what is told of instructions of the central processor
//! - `central_row.rt`: a row of an instruction of the central processor
//! - `check_options.rt`: how a check tells
//! - `checking.rt`: a check as a whole
//! - `codes.rt`: what is told of octal codes
//! - `fault.rt`: why a source is not checked, or what is told of it not written
//! - `fields.rt`: the rows of operations whose operands stand between commas
//! - `fitting.rt`: the rows of the central processor that have a code
//! - `flags.rt`: what is told of the letters of flags
//! - `front.rt`: the front of an instruction's row, laid out in columns
//! - `heads.rt`: what a report begins with
//! - `instruction.rt`: what is told of instructions of either machine
//! - `known_places.rt`: in which lines stands what words speak of
//! - `laws.rt`: what holds of what a check tells of a source
//! - `limits.rt`: how much is shown
//! - `line_telling.rt`: what is told of lines, one after another
//! - `manual.rt`: what is told of any word
//! - `names.rt`: names of instructions, as their rows have them
//! - `notes.rt`: notes: what may stand in a line and is often not meant so
//! - `operations.rt`: the operations of both machines
//! - `peripheral.rt`: what is told of instructions of a peripheral processor
//! - `report_kind.rt`: what a report tells
//! - `rows.rt`: the rows that show where in a line something is
//! - `sentences.rt`: what instructions do
//! - `statements.rt`: what is told of statements
//! - `sums.rt`: the rows of operations whose operand is a sum
//! - `telling.rt`: what is told of a text
//! - `told_line.rt`: a line of which something is told
#![tactic(auto)]

mod central;
mod central_row;
mod check_options;
mod checking;
mod codes;
mod fault;
mod fields;
mod fitting;
mod flags;
mod front;
mod heads;
mod instruction;
mod known_places;
mod laws;
mod limits;
mod line_telling;
mod manual;
mod names;
mod notes;
mod operations;
mod peripheral;
mod report_kind;
mod rows;
mod sentences;
mod statements;
mod sums;
mod telling;
mod told_line;

pub use check_options::CheckOptions;
pub use checking::check;
pub use fault::CheckFault;
pub use known_places::{KnownPlaces, ends_program, start_of};
pub use laws::a_check_agrees_with_batch;
pub use manual::manual_text;
pub use notes::{Note, Remark, notes_within, stands_behind_end};

//! Pass one: what a line does in the state that the lines before it left, with all statements that it stands for.
//!
//! - `asking.rt`: values at keys
//! - `context.rt`: a statement before its operands: the control and the location field
//! - `ends.rt`: END on a source line
//! - `expansion.rt`: the statements of a line, each followed by those that it opens
//! - `fields.rt`: VFD
//! - `head.rt`: IDENT, ABS, PERIPH, BASE, and the end of the head
//! - `holding.rt`: the values that SET gave to the symbols of contents
//! - `instructions.rt`: instructions of both machines
//! - `keeping.rt`: lines that are kept: bodies of macros, and lines of DUP
//! - `leaving.rt`: another block in use, for ORG and USE
//! - `lines.rt`: the LOCAL lines of a body, and the lines after them
//! - `located.rt`: location fields, and the symbols that they define
//! - `macros.rt`: MACRO, and calls of macros
//! - `making.rt`: statements that make nothing but flags
//! - `names.rt`: the LOCAL lines of a call, and the generated names
//! - `numbers.rt`: numbers that a statement takes in pass one
//! - `opened.rt`: what a statement opens: lines so many times, or a body with LOCAL lines
//! - `origin.rt`: ORG
//! - `places.rt`: the place of the block in use, and what fills the bits before it
//! - `placing.rt`: what all placing statements share
//! - `ranges.rt`: the IFs, ELSE and ENDIF
//! - `reading.rt`: reading a statement, for a machine and in a base of numbers
//! - `repeating.rt`: DUP and ENDD
//! - `reserving.rt`: BSS and BSSZ
//! - `scope.rt`: a source line, or a statement of an expansion with a mode of its own
//! - `seen.rt`: what is looked at in a line that is not assembled
//! - `skipping.rt`: lines that are skipped
//! - `statement.rt`: one statement, by the mode
//! - `statements.rt`: the function of each row of the statement table
//! - `step.rt`: the step: the trace of a line
//! - `symbols.rt`: EQU, `=` and SET
//! - `treating.rt`: carrying out what becomes of a line that is not assembled
//! - `treatment.rt`: what becomes of a line that is not assembled
//! - `uses.rt`: USE
//! - `value_now.rt`: values in pass one
//! - `watcher.rt`: what is told what pass one of a line does
//! - `words.rt`: CON, DATA and DIS
#![tactic(auto)]

mod asking;
mod context;
mod ends;
mod expansion;
mod fields;
mod head;
mod holding;
mod instructions;
mod keeping;
mod leaving;
mod lines;
mod located;
mod macros;
mod making;
mod names;
mod numbers;
mod opened;
mod origin;
mod places;
mod placing;
mod ranges;
mod reading;
mod repeating;
mod reserving;
mod scope;
mod seen;
mod skipping;
mod statement;
mod statements;
mod step;
mod symbols;
mod treating;
mod treatment;
mod uses;
mod value_now;
mod watcher;
mod words;

pub use expansion::watch_line;
pub use macros::insert_all;
pub use names::name_all;
pub use opened::{Body, Opened, Repeated};
pub use reading::{Location, Reading, read_location, read_operation};
pub use scope::{Own, Scope};
pub use statement::step_statement;
pub use step::{step_one, step_over, step_unasked};
pub use watcher::Watcher;

//! What a page tells beside the texts of a source: the causes of its flags, what its instructions do, where its blocks stand, and how its lines look.
//! It is told to be read, and no contract says anything of it.
//!
//! - `blocks.rt`: where the blocks of a source stand
//! - `causes.rt`: why lines are flagged
//! - `codes.rt`: what is told of the codes in the rows of the listing
//! - `forms.rt`: the forms of the instructions that occur
//! - `looks.rt`: how the rows of lines look
//! - `manual_rows.rt`: the forms of an operation, read from what the manual tells of it
//! - `telling.rt`: all that is told
//! - `word_operands.rt`: the operands of a statement of words or fields
#![tactic(auto)]

mod blocks;
mod causes;
mod codes;
mod forms;
mod looks;
mod manual_rows;
mod telling;
mod word_operands;

pub use telling::tell_beside;

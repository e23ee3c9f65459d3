//! Why a line is flagged: the causes of its flags, found from its trace and the final values, where each shows, and the words that tell it.
//!
//! - `asks.rt`: what a line asked, as what answers it again
//! - `calls.rt`: arguments of calls
//! - `card.rt`: the fields of a statement, and where they stand
//! - `cause.rt`: a cause of a flag, and its letter
//! - `causes.rt`: the causes of a statement's flags
//! - `characters.rt`: operands of DIS that can't be read
//! - `columns.rt`: columns of a text
//! - `cut_fault.rt`: T
//! - `definition_fault.rt`: D
//! - `demands.rt`: what a statement takes of the values of its operands
//! - `diagnostic.rt`: a cause, and where it shows
//! - `explaining.rt`: the causes of a line's flags
//! - `expressions.rt`: whether a text is an expression, and why it is none
//! - `findings.rt`: causes as they are found, statement by statement
//! - `forms.rt`: operands of instructions that can't be read
//! - `hints.rt`: what may be meant in the place of what a cause quotes
//! - `items.rt`: data items that can't be read
//! - `left_out.rt`: operations that COMPASS has and this assembler leaves out
//! - `letter.rt`: the letters of flags
//! - `limit_fault.rt`: E, limits
//! - `location_fault.rt`: L
//! - `locations.rt`: location fields and operation fields
//! - `misreading.rt`: why a text is no expression
//! - `near.rt`: names that may be meant in the place of one that stands for nothing
//! - `no_symbol.rt`: why a text is no symbol
//! - `open_now.rt`: how much is open behind lines
//! - `opener.rt`: which line opened what is open
//! - `operand_fault.rt`: A, operands that can't be read
//! - `operands.rt`: the operands of a statement, and where they stand
//! - `operation_fault.rt`: O
//! - `origin.rt`: where a statement of an expansion is written
//! - `places.rt`: what other lines say, when the words of a cause are made
//! - `quotation.rt`: what words quote of a statement
//! - `showing.rt`: where in a line shows what is found in the statements that it opens
//! - `slips.rt`: the names that a slip makes another of
//! - `statement.rt`: a flagged statement, as causes are looked for in it
//! - `structure.rt`: where statements stand, and limits of what is open
//! - `structure_fault.rt`: E, where statements stand
//! - `symbol_fault.rt`: U
//! - `symbols_now.rt`: what symbols stand for where a statement is read
//! - `teller.rt`: causes as they are told, none of another letter than the line has
//! - `unreadable.rt`: operands of the statement table that can't be read
//! - `value_fault.rt`: A, values
//! - `values_later.rt`: values under the final values
//! - `values_now.rt`: values that a statement takes as it is read
//! - `walk.rt`: the statements of a line once more, over what the line asked
//! - `width_fault.rt`: V
//! - `wording.rt`: words that tell something, in one row
#![tactic(auto)]

mod asks;
mod calls;
mod card;
mod cause;
mod causes;
mod characters;
mod columns;
mod cut_fault;
mod definition_fault;
mod demands;
mod diagnostic;
mod explaining;
mod expressions;
mod findings;
mod forms;
mod hints;
mod items;
mod left_out;
mod letter;
mod limit_fault;
mod location_fault;
mod locations;
mod misreading;
mod near;
mod no_symbol;
mod open_now;
mod opener;
mod operand_fault;
mod operands;
mod operation_fault;
mod origin;
mod places;
mod quotation;
mod showing;
mod slips;
mod statement;
mod structure;
mod structure_fault;
mod symbol_fault;
mod symbols_now;
mod teller;
mod unreadable;
mod value_fault;
mod values_later;
mod values_now;
mod walk;
mod width_fault;
mod wording;

pub use card::{Card, filled_columns, filled_len};
pub use columns::Columns;
pub use diagnostic::Diagnostic;
pub use explaining::{explain, explain_end};
pub use left_out::LeftOut;
pub use letter::Letter;
pub use opener::{LinesAbove, line_of_opener, opener_of};
pub use origin::{BodyLine, Origin};
pub use places::Places;
pub use quotation::Quotation;
pub use wording::{Wording, push_cleaned};

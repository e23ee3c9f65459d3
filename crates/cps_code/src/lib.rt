//! Instructions of both machines: the tables that list them, the forms of statements, and the words that codes with filled holes make.
//!
//! - `builtin.rt`: the operations that no macro may be named after
//! - `digits.rt`: the digits that f, i, j and k stand for in a row of the central processor
//! - `fields.rt`: the row of the central processor that fits operands between commas
//! - `filled.rt`: a code with values in its holes
//! - `filling_holes.rt`: putting values, counts and distances into holes
//! - `form.rt`: a form of the central processor: a code of 15 or 30 bits with holes
//! - `forms.rt`: the form of a statement of the central processor
//! - `hole.rt`: a hole, and the operand that fills it
//! - `layout.rt`: how an instruction of a peripheral processor is laid out, and what it reads
//! - `literal.rt`: literals, and operands that may be literals
//! - `operation.rt`: the central processor's operation of a name
//! - `operation_table.rt`: the central processor's rows of each operation, by first letter
//! - `peripheral_form.rt`: a form of a peripheral processor: a code of 12 or 24 bits with holes
//! - `peripheral_forms.rt`: the form of a statement of a peripheral processor
//! - `peripheral_operation.rt`: a peripheral processor's operation of a name
//! - `peripheral_table.rt`: a peripheral processor's row of each operation, by first letter
//! - `piece.rt`: bits to be put into words
//! - `place.rt`: a place: a word, the bits used in it, and whether a forcing is pending
//! - `placing.rt`: the least place where bits may begin
//! - `reads.rt`: operands of a peripheral processor that may be literals
//! - `register.rt`: registers as terms of a sum
//! - `set.rt`: the digits of a set instruction, by the registers of its sum
//! - `sum.rt`: a sum, cut into registers and an expression
//! - `summed.rt`: an operand that is a literal or a sum
//! - `widths.rt`: the widths of words and of their parts
//! - `words.rt`: words by their addresses
#![tactic(auto)]

mod builtin;
mod digits;
mod fields;
mod filled;
mod filling_holes;
mod form;
mod forms;
mod hole;
mod layout;
mod literal;
mod operation;
mod operation_table;
mod peripheral_form;
mod peripheral_forms;
mod peripheral_operation;
mod peripheral_table;
mod piece;
mod place;
mod placing;
mod reads;
mod register;
mod set;
mod sum;
mod summed;
mod widths;
mod words;

pub use builtin::is_builtin;
pub use filled::Filled;
pub use filling_holes::{bits_of_value, complement, fits_width};
pub use form::CpForm;
pub use forms::{FormFault, cp_form};
pub use hole::{Hole, HoleKind, Operand};
pub use literal::read_operand;
pub use operation::{FieldForm, Forms, is_operation, named_operation};
pub use peripheral_form::PpForm;
pub use peripheral_forms::pp_form;
pub use piece::Piece;
pub use place::{Filling, Force, Place, PlacedInstruction};
pub use placing::place_next;
pub use words::Words;

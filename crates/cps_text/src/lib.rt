//! Lines of a source, their fields and operands, symbols, the text of macros, and readers and
//! writers whose calls are counted.
//!
//! - `argument.rt`: one argument of a macro call
//! - `argument_list.rt`: the arguments of a macro call
//! - `card.rt`: a line, cut into its fields
//! - `character.rt`: characters and their display code
//! - `counted.rt`: readers and writers that count their calls, failures and bytes
//! - `data_item.rt`: data items of characters
//! - `insertion.rt`: arguments and generated names, put into a line of a macro's body
//! - `limits.rt`: the limits of a source and of an assembly, each once
//! - `line.rt`: a line of a source
//! - `masked_card.rt`: the columns of a card, with a mask of those that are filled
//! - `name.rt`: symbols and generated names
//! - `name_number.rt`: names as numbers, by which maps find them
//! - `octal.rt`: numbers in octal
//! - `operand.rt`: the first operand of a text
//! - `operand_list.rt`: operands, one after another
//! - `part.rt`: the parts of a text between commas
//! - `places.rt`: where blanks and other characters stand in a text
//! - `run.rt`: the first run of a text: letters, digits and points
//! - `statement.rt`: a statement of an expansion, which may hold `~`
//! - `substitutes.rt`: what stands for the names of a body in a call, with an index for many
//! - `tail.rt`: the operands of a variable field
#![tactic(auto)]

mod argument;
mod argument_list;
mod card;
mod character;
mod counted;
mod data_item;
mod insertion;
pub mod limits;
mod line;
mod masked_card;
mod name;
mod name_number;
mod octal;
mod operand;
mod operand_list;
mod part;
mod places;
mod run;
mod statement;
mod substitutes;
mod tail;

pub use argument_list::{ArgFault, arguments};
pub use card::{Fields, StatementFields, card_in, read_fields};
pub use character::{capital, display};
pub use counted::Counted;
pub use data_item::{CP_CHARACTERS, PP_CHARACTERS, Side, TextItem};
pub use insertion::{PairList, Substitution, insert_by, insert_text};
pub use line::{Line, LineFault};
pub use name::Name;
pub use octal::{push_octal, write_octal};
pub use operand_list::Operands;
pub use run::run_end;
pub use statement::Statement;
pub use substitutes::{Substitute, Substitutes};
pub use tail::operands;

//! Numbers, expressions and their values, data items, and the statement table.
//!
//! - `condition.rt`: operands of the IFs and of DUP
//! - `dis_text.rt`: the characters of DIS
//! - `expr.rt`: an expression
//! - `field.rt`: a field of VFD
//! - `item.rt`: a data item
//! - `item_number.rt`: data items that are numbers
//! - `item_text.rt`: data items of characters
//! - `machine.rt`: the two machines
//! - `named_operand.rt`: operands of IDENT, BASE and USE
//! - `names.rt`: the trait of what names stand for
//! - `number.rt`: numbers
//! - `operation.rt`: the operations of the statement table, found by their first letter
//! - `packing.rt`: display codes, packed into a word
//! - `parameters.rt`: the names of MACRO and of LOCAL
//! - `pseudo.rt`: a row: what the operands of an operation say
//! - `radix.rt`: the base of numbers
//! - `reads.rt`: readings of operands that are expressions
//! - `row_counter.rt`: whether `*` stands in a row
//! - `row_names.rt`: the names that a row reads
//! - `sequence.rt`: lists in a row
//! - `short_list.rt`: lists that mostly have one item
//! - `signs.rt`: a text, cut into its signed terms
//! - `statement.rt`: a statement with its row
//! - `statement_table.rt`: which reading belongs to which operation
//! - `term.rt`: the value of a term
//! - `term_text.rt`: reading a term
//! - `terms.rt`: the terms of an expression, as they are kept
//! - `text.rt`: texts that are compared
//! - `value.rt`: the arithmetic of values, in blocks and out of them
//! - `words.rt`: the words of DATA
#![tactic(auto)]

mod condition;
mod dis_text;
mod expr;
mod field;
mod item;
mod item_number;
mod item_text;
mod machine;
mod named_operand;
mod names;
mod number;
mod operation;
mod packing;
mod parameters;
mod pseudo;
mod radix;
mod reads;
mod row_counter;
mod row_names;
mod sequence;
mod short_list;
mod signs;
mod statement;
mod statement_table;
mod term;
mod term_text;
mod terms;
mod text;
mod value;
mod words;

pub use expr::{Expr, ExprFault, Valued};
pub use item::read_item;
pub use machine::Machine;
pub use names::Names;
pub use operation::{Operation, Relation};
pub use packing::pack_characters;
pub use parameters::read_locals;
pub use pseudo::{Block, DisText, Field, Pseudo, Repetition, SymbolTest, ValueTest};
pub use radix::Radix;
pub use reads::{paired, read_expression, read_last, read_only};
pub use sequence::Sequence;
pub use signs::{leading_sign, sign_at};
pub use statement::{Stmt, StmtFault};
pub use statement_table::Stated;
pub use value::{Value, is_same_name, place_among};

//! Where a source writes names, and what each means there, by what the assembler did with its line.
//!
//! That a mention stands where it is told, and that what stands there writes its name, is proved. What it means is tested. A rename is made of edits that are a
//! guess; that the source which they leave is the same but for what its symbols are called is proved, where `is_same_but` says so.
//!
//! - `agreeing.rt`: mentions that say all that the cross-reference has
//! - `bodies.rt`: the bodies that a source writes
//! - `calling.rt`: what symbols are called in a source that was changed
//! - `caret.rt`: where an editor's caret stands
//! - `changed_line.rt`: a line with another name in some of its columns
//! - `checking.rt`: mentions that stand where they are told
//! - `definitions.rt`: where symbols and blocks are defined, as far as lines are looked at
//! - `expansion.rt`: an expansion whose statements are gone through
//! - `field_columns.rt`: the columns in which a source's fields stand
//! - `formatted_line.rt`: a line with its fields in columns
//! - `formatting.rt`: the edits that put the fields of lines into columns
//! - `kept_body.rt`: lines that are kept for a body, with what wrote them
//! - `line_edit.rt`: an edit of a line of a source
//! - `line_fields.rt`: the fields of a statement as they move
//! - `line_gaps.rt`: the blanks between the fields of a line
//! - `macro_names.rt`: the names of a macro
//! - `macro_text.rt`: a macro as its source writes it
//! - `meaning.rt`: what a name means
//! - `mention.rt`: a name, where it is written, and what it means there
//! - `mentions.rt`: the mentions of a source
//! - `name_place.rt`: what stands at a place of a source
//! - `naming.rt`: whether a source's names mean the same after a rename
//! - `new_name.rt`: whether something may be called by a name
//! - `opening.rt`: what a statement opens, with what wrote it
//! - `operands.rt`: the parts of a statement that may write names
//! - `placed_text.rt`: a part of a statement, and where it stands
//! - `rename_fault.rt`: why a rename is refused
//! - `renaming.rt`: what a rename asks for, and the edits that make it
//! - `role.rt`: what a line does with a name
//! - `same_but.rt`: whether a source is another but for what its symbols are called
//! - `spacing.rt`: what stays of a line while its blanks change
//! - `spot.rt`: where a name stands
//! - `spots.rt`: the spots of a meaning
//! - `statement.rt`: what a statement does with the names that its fields write
//! - `statement_text.rt`: a statement's text, and what wrote each of its characters
//! - `stepper.rt`: statements, each stepped in the state that those before it left
//! - `stretch.rt`: columns of a line of a source
//! - `teller.rt`: telling what statements do with names
//! - `told.rt`: the mentions of a source as they are found
//! - `treatment.rt`: what is done with a statement
//! - `walk.rt`: the statements of a source once more
//! - `written_names.rt`: the names that a source writes, with those that mean nothing and the bodies around them
#![tactic(auto)]

ghost use Rattle.cps_mention.specs.CallLines.{WhatIsPutIsInserted};

mod agreeing;
mod bodies;
mod calling;
mod caret;
mod changed_line;
mod checking;
mod definitions;
mod expansion;
mod field_columns;
mod formatted_line;
mod formatting;
mod kept_body;
mod line_edit;
mod line_fields;
mod line_gaps;
mod macro_names;
mod macro_text;
mod meaning;
mod mention;
mod mentions;
mod name_place;
mod naming;
mod new_name;
mod opening;
mod operands;
mod placed_text;
mod rename_fault;
mod renaming;
mod role;
mod same_but;
mod spacing;
mod spot;
mod spots;
mod statement;
mod statement_text;
mod stepper;
mod stretch;
mod teller;
mod told;
mod treatment;
mod walk;
mod written_names;

pub use agreeing::agreeing_mentions;
pub use calling::Calling;
pub use caret::Caret;
pub use formatting::{LineRange, format_edits};
pub use line_edit::LineEdit;
pub use meaning::Meaning;
pub use mention::Mention;
pub use mentions::mentions_in;
pub use name_place::{NamePlace, name_at};
pub use naming::line_named_otherwise;
pub use rename_fault::RenameFault;
pub use renaming::{Renaming, rename_edits};
pub use role::Role;
pub use same_but::{is_same_but, line_that_changed};
pub use spacing::is_same_unblanked;
pub use spot::{Spot, SpotKind};
pub use spots::{counted, keep_definitions, spots_of};
pub use stretch::Stretch;
pub use written_names::WrittenNames;

/// What a call puts into a line of a body, with what wrote it, is what the assembler puts in.
pub fn what_is_put_is_inserted()
    ensures { WhatIsPutIsInserted }
{}

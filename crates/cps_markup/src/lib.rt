//! An assembled source as a page: markup, which says rows of a text and leads to its places.
//!
//! - `attribute.rt`: the begins and ends of elements
//! - `digit_lines.rt`: the lines that made the digits of words
//! - `escaping.rt`: text, with those characters by name that begin markup
//! - `escaping_laws.rt`: what holds of text in markup
//! - `line_fields.rt`: the fields of a line, as they are painted
//! - `line_look.rt`: how the rows of a line look
//! - `link.rt`: links, each of which leads somewhere
//! - `meant_columns.rt`: what is meant in a line
//! - `operand_style.rt`: how the operands of an instruction look
//! - `painting.rt`: how rows are painted
//! - `place.rt`: what a link leads to
//! - `place_laws.rt`: what holds of the identifiers of places
//! - `row_form.rt`: the form of a row's instruction
//! - `rows.rt`: rows of a text
//! - `stretch.rt`: a row, part by part
//! - `style.rt`: how a part of a row looks
//! - `tag.rt`: the kinds of elements
//! - `targets.rt`: the lines, symbols, words and blocks to which links can lead
#![tactic(auto)]

mod attribute;
mod digit_lines;
mod escaping;
mod escaping_laws;
mod line_fields;
mod line_look;
mod link;
mod meant_columns;
mod operand_style;
mod painting;
mod place;
mod place_laws;
mod row_form;
mod rows;
mod stretch;
mod style;
mod tag;
mod targets;

pub use attribute::{Attribute, push_closing, push_opening};
pub use digit_lines::{DigitLines, MadeBits};
pub use escaping::push_text;
pub use escaping_laws::{a_text_is_read_back, no_text_is_markup};
pub use line_fields::LineFields;
pub use line_look::LineLook;
pub use link::{push_note, push_note_at};
pub use meant_columns::MeantColumns;
pub use painting::has_code;
pub use place::{PageSection, Place};
pub use place_laws::identifiers_differ;
pub use row_form::RowForm;
pub use rows::{push_group, push_noted_group, push_rows, row_length};
pub use stretch::{ShownRow, octal_in, push_row};
pub use style::Style;
pub use tag::Tag;
pub use targets::{Entry, Targets, WordEntry, is_among};

//! What is read: the bytes of an input, the lines of a source, and the card that any line stands for, with what is wrong in it.
//!
//! - `begun_line.rt`: a line, as its bytes come
//! - `cards.rt`: the card that a line stands for
//! - `character_fault.rt`: what is wrong in columns of a line, and the words that tell it
//! - `faults.rt`: all that is wrong in a line
//! - `hex.rt`: numbers in hexadecimal
//! - `input.rt`: bytes, cut into lines
//! - `input_fault.rt`: why an input is not read, or its lines are no source
//! - `intake.rt`: lines as they come, checked and kept
//! - `kept_bytes.rt`: bytes as they come, kept
//! - `line_end.rt`: the ends of lines
//! - `line_text.rt`: lines, one behind another in one text
//! - `lines.rt`: a text, cut into lines
//! - `parts.rt`: parts, one behind another in one list
//! - `reading.rt`: reading an input to its end
//! - `shown.rt`: what a terminal is shown of a line
//! - `taker.rt`: what takes the bytes of an input
#![tactic(auto)]

mod begun_line;
mod cards;
mod character_fault;
mod faults;
mod hex;
mod input;
mod input_fault;
mod intake;
mod kept_bytes;
mod line_end;
mod line_text;
mod lines;
mod parts;
mod reading;
mod shown;
mod taker;

pub use begun_line::BegunLine;
pub use cards::{card_of, make_cards};
pub use character_fault::CharacterFault;
pub use faults::faults_of;
pub use input_fault::InputFault;
pub use line_end::{newline_at, without_return};
pub use line_text::LineText;
pub use lines::{cut_lines, source_lines};
pub use parts::part_at;
pub use reading::{lines_of, read_bytes, read_lines, read_text};
pub use shown::{push_shown, shown_width};

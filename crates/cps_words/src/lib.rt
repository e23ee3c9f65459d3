//! The words of a call of the program: what they ask, or why they ask nothing; and texts, written into the files that are named there.
//!
//! - `command_line.rt`: the command line, as `clap` has it
//! - `comparand.rt`: what a source is compared with
//! - `compare_options.rt`: what the options of `compare` ask
//! - `disassemble_options.rt`: what the options of `disassemble` ask
//! - `export.rt`: what is made of a source
//! - `export_fault.rt`: why not all is made of a source that is wanted
//! - `exporting.rt`: a source that is read whole, assembled, and written into files
//! - `fault.rt`: why texts aren't in their files
//! - `help.rt`: the command `help`
//! - `helps.rt`: what the helps say
//! - `hint_words.rt`: what the options of `disassemble` say of the words
//! - `limit_options.rt`: the options that `compare` and `disassemble` have
//! - `lists.rt`: the addresses and the ranges that lists name
//! - `message.rt`: texts, as a message shows them
//! - `names.rt`: names of an export that lead to one file
//! - `numbers.rt`: the addresses, the offsets and the columns that words name
//! - `output_options.rt`: which texts the options of `batch` want in files
//! - `outputs.rt`: which texts are wanted, and in which files
//! - `request.rt`: the words of a call, read
//! - `targets.rt`: what puts files in their places
//! - `unread.rt`: why words ask nothing, and what is said of that
//! - `values.rt`: what the values of options and operands name
//! - `writing.rt`: the calls that write the texts of an assembled source and place the files
#![tactic(auto)]

mod command_line;
mod comparand;
mod compare_options;
mod disassemble_options;
mod export;
mod export_fault;
mod exporting;
mod fault;
mod help;
mod helps;
mod hint_words;
mod limit_options;
mod lists;
mod message;
mod names;
mod numbers;
mod output_options;
mod outputs;
mod request;
mod targets;
mod unread;
mod values;
mod writing;

pub use comparand::Comparand;
pub use export::Export;
pub use export_fault::ExportFault;
pub use exporting::export_source;
pub use hint_words::HintWords;
pub use lists::{read_addresses, read_ranges};
pub use message::shown;
pub use names::{Clash, find_clash, is_open_already};
pub use outputs::Outputs;
pub use request::{Call, Request, read_words};
pub use targets::Targets;
pub use unread::Unread;
pub use writing::write_outputs;

//! What the program does: a script of edits and queries, and a call of the program by its words.
//!
//! - `command.rt`: a line of a script, read
//! - `comparing.rt`: a comparison of an octal text with a source
//! - `disassembling.rt`: a source for the words of an octal text
//! - `exporting.rt`: a source, written into files
//! - `faults.rt`: what is told of a source that isn't assembled
//! - `hints.rt`: what a call says of the words of an octal text
//! - `host.rt`: what a call runs on
//! - `reply.rt`: replies
//! - `replying.rt`: obeying a command, and writing the reply
//! - `running.rt`: what is asked of one input, done
//! - `script.rt`: the loop over the bytes of a script
//! - `sessions.rt`: a session, with the lines that it begins with
//! - `sources.rt`: the files that a call names
//! - `telling.rt`: what a call tells
//! - `words.rt`: what the words of a call ask, done
//! - `writing.rt`: the loop that writes a reply
#![tactic(auto)]

mod command;
mod comparing;
mod disassembling;
mod exporting;
mod faults;
mod hints;
mod host;
mod reply;
mod replying;
mod running;
mod script;
mod sessions;
mod sources;
mod telling;
mod words;
mod writing;

pub use host::Host;
pub use script::run_script;
pub use sources::Sources;
pub use words::{run_call, run_words};
pub use writing::RunFault;

//! What two-pass assembly makes of a source, and what an edit is: the lines that it puts, takes away or moves, and those that it disturbs.
//!
//! - `exchange.rt`: an exchange, the one that undoes it, and a list of which two runs change places
//! - `flagged.rt`: how many lines are flagged
//! - `laws.rt`: laws of exchanged lists
//! - `pass_one.rt`: pass one of all lines of a source, and what stands after the last
//! - `pass_two.rt`: pass two of lines
#![tactic(auto)]

mod exchange;
mod flagged;
pub mod laws;
mod pass_one;
mod pass_two;

pub use exchange::Exchange;
pub use flagged::flagged_lines;
pub use pass_one::PassOne;
pub use pass_two::step_two_all;

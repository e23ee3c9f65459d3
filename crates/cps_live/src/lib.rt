//! A session: a source that is edited, where an edit makes anew what it disturbs and no more.
//!
//! - `append.rt`: a line behind the last
//! - `chunk_list.rt`: the chunks of a source, kept up to date
//! - `differences.rt`: which labels have other final values
//! - `entering.rt`: the lines that a source begins with
//! - `exchange.rt`: two runs of lines that change places
//! - `first_pass.rt`: pass one of an edit
//! - `kept_source.rt`: what is kept of a source, and its edits
//! - `laws.rt`: the law of the division of lines that a source begins with
//! - `lists.rt`: items in the place of others
//! - `moved_pass.rt`: pass one of a move
//! - `names_read.rt`: which symbols lines read, in a set that only grows
//! - `news.rt`: what a pass makes anew
//! - `redone.rt`: what an edit made anew
//! - `second_pass.rt`: pass two of an edit, chunk by chunk
//! - `session.rt`: the edits and texts of a session
//! - `storage.rt`: where blocks and literals stand behind an edit
#![tactic(auto)]

mod append;
mod chunk_list;
mod differences;
mod entering;
mod exchange;
mod first_pass;
mod kept_source;
pub mod laws;
mod lists;
mod moved_pass;
mod names_read;
mod news;
mod redone;
mod second_pass;
mod session;
mod storage;

pub use kept_source::KeptSource;
pub use redone::Redone;
pub use session::{EditFault, Session};

//! Chunks of a source's lines: how an edit divides a source anew, and how chunks and lines that were there before are gone over again. Some functions
//! have no body, and their contracts are laws.
//!
//! - `change_log.rt`: changed keys, as lines are gone through
//! - `chunk.rt`: a chunk, its marks, and what is gathered of it
//! - `chunks.rt`: laws of the chunks that an edit leaves
//! - `course_laws.rt`: laws of all courses, and of where a statement stands
//! - `deletion.rt`: what a deletion makes of the chunks
//! - `division_laws.rt`: laws of the lengths of chunks after an edit
//! - `edits.rt`: laws of the lines that an edit leaves, and one for each pass
//! - `exchange.rt`: the chunks where two runs of lines have changed places
//! - `growing_chunks.rt`: what lines make of chunks that come one behind the other
//! - `key_filter.rt`: a filter of keys
//! - `lines.rt`: laws of source lines
//! - `moved.rt`: the chunks of a source of which two runs of lines have changed places, made from the old ones
//! - `place.rt`: the chunk of a line
//! - `put.rt`: the chunks where lines have come in the place of others
//! - `redo.rt`: pass two over lines that were there before an edit
//! - `replay.rt`: pass one over lines that were there before an edit
//! - `runs.rt`: runs of lines, by which chunks are passed
//! - `same.rt`: whether what lines asked still stands
//! - `sought_keys.rt`: keys that are sought in many filters
//! - `sparse.rt`: items at some places of a list
//! - `state_before.rt`: what stands in front of a line, sought backwards
//! - `states.rt`: what stands in front of a line
//! - `staying.rt`: how many chunks at either end stay
//! - `storing.rt`: where blocks and literals stand behind an edit
//! - `touched_laws.rt`: laws of the lines that both passes compare, of an edit and of a move
//! - `walk.rt`: pass one over a source in chunks
#![tactic(auto)]

mod change_log;
mod chunk;
pub mod chunks;
pub mod course_laws;
mod deletion;
pub mod division_laws;
pub mod edits;
mod exchange;
mod growing_chunks;
mod key_filter;
pub mod lines;
mod moved;
mod place;
mod put;
mod redo;
mod replay;
pub mod runs;
mod same;
mod sought_keys;
mod sparse;
mod state_before;
mod states;
mod staying;
mod storing;
pub mod touched_laws;
mod walk;

pub use chunk::Chunk;
pub use exchange::{RecutChunk, recut_exchange};
pub use key_filter::{KeyFilter, mark_of};
pub use moved::chunks_moved;
pub use put::{ChunkSplice, FULL};
pub use redo::Redo;
pub use replay::Replay;
pub use sought_keys::SoughtKeys;
pub use sparse::{SparseItem, put_all};
pub use storing::{leave_same, store_all, store_renewed};
pub use walk::{Baseline, Cursor, Destination, Span, Walk, part};

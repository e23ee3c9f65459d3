//! The state of an assembly, what a line asks of it and puts there, and what pass one hands to
//! pass two.
//!
//! - `answers.rt`: what an answer says; with none, what stands before the first line
//! - `contents.rt`: the contents of a statement, where a single one is kept in place
//! - `flags.rt`: flags, and their letters
//! - `hashing.rt`: how maps hash, by a number that the program draws
//! - `instruction.rt`: instructions of either machine
//! - `item.rt`: an item: a statement with its depth, its text, its block and what it made
//! - `key.rt`: keys and answers, and the modes
//! - `log.rt`: what a line asked and put, and what is known of a key
//! - `lookup.rt`: the trait of what answers keys
//! - `machines.rt`: the words of the two machines
//! - `made.rt`: what a statement made: contents, zeros, fillings, flags
//! - `other_answers.rt`: what stands at the keys at which nothing may stand too
//! - `recorder.rt`: what a line has done so far, over the state that answers it
//! - `scratch.rt`: lists that one line hands on to the next
//! - `shared.rt`: lists that are shared and not changed
//! - `shared_macro.rt`: a macro in an answer
//! - `shared_mode.rt`: a mode in an answer
//! - `state.rt`: the state: the last put at each key
//! - `trace.rt`: a trace: what a line asked, put, made and read
//! - `uses.rt`: the blocks that USE left
//! - `work.rt`: counts of steps and comparisons
#![tactic(auto)]

mod answers;
mod contents;
mod flags;
mod hashing;
mod instruction;
mod item;
mod key;
mod log;
mod lookup;
mod machines;
mod made;
mod other_answers;
mod recorder;
mod scratch;
mod shared;
mod shared_macro;
mod shared_mode;
mod state;
mod trace;
mod uses;
mod work;

pub use answers::{
    control_of, count_of, is_no_range, is_normal, is_open, is_place, macro_of, mode_of, place_of,
    ranges_of, text_of, uses_of, value_of,
};
pub use contents::Contents;
pub use flags::Flags;
pub use hashing::Hashing;
pub use instruction::InstructionForm;
pub use item::{Item, Stand};
pub use key::{
    Answer, Asked, Control, DupBody, Extent, Head, KeptLines, Key, Macro, MacroBody, Mode,
    OpenRange, Phase, Put, Skip, is_same_block,
};
pub use lookup::Lookup;
pub use machines::{WORD, behind, limit_of, word_bits};
pub use made::{Begun, Content, Made, SetValue, Shown, end_of, field_hole};
pub use recorder::Recorder;
pub use scratch::Scratch;
pub use shared::Shared;
pub use shared_macro::SharedMacro;
pub use shared_mode::SharedMode;
pub use state::State;
pub use trace::Trace;
pub use uses::uses_with;
pub use work::{Tally, Work};

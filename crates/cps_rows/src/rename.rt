//! Renames of names of a source.
//!
//! - `certified.rt`: whether a source is the same but for a name
//! - `renamed.rt`: the lines that a rename changes, or why it is refused
pub mod certified;
pub mod renamed;

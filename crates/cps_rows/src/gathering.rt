//! Tests of what is gathered of a chunk, by rows of worked examples.
//!
//! - `finals_rows.rt`: whether a line names what has the same final values in two sources
//! - `given.rt`: lines of a source, and the chunk of them
//! - `names_rows.rt`: how many names a run of lines has
//! - `run_rows.rt`: how many keys a run of lines asks, and in which states these have the same answers

mod finals_rows;
mod given;
mod names_rows;
mod run_rows;

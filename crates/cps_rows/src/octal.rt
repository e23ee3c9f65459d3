//! Tests of a comparison with an octal text, by rows of worked examples.
//!
//! - `assertions.rt`: assertions
//! - `device_rows.rt`: reads and writes that fail
//! - `dump_rows.rt`: dumps
//! - `fault_rows.rt`: why nothing is compared
//! - `given_rows.rt`: words of which several rows have digits, and digits that nobody can read
//! - `limit_rows.rt`: addresses, columns and an offset that are asked for
//! - `own_rows.rt`: listings of this program
//! - `row_rows.rt`: rows of octal texts in their forms
//! - `run_rows.rt`: words that differ one after another, and all that may be told
//! - `running.rt`: the run of a comparison
//! - `whole_rows.rt`: sources of which each word must be given
//! - `word_rows.rt`: words that differ, and what made their digits

mod assertions;
mod device_rows;
mod dump_rows;
mod fault_rows;
mod given_rows;
mod limit_rows;
mod own_rows;
mod row_rows;
mod run_rows;
mod running;
mod whole_rows;
mod word_rows;

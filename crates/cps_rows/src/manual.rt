//! Tests of what is told of words, by rows of worked examples.
//!
//! - `assertions.rt`: assertions
//! - `code_rows.rt`: octal codes of both machines
//! - `instruction_rows.rt`: instructions of both machines
//! - `sentence_rows.rt`: letters of flags, statements, and words of which nothing is told

mod assertions;
mod code_rows;
mod instruction_rows;
mod sentence_rows;

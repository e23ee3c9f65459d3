//! Tests of what is told of flagged lines, by rows of worked examples.
//!
//! - `assertions.rt`: assertions
//! - `expansion_rows.rt`: where causes in expansions show
//! - `operand_rows.rt`: A, operands that can't be read
//! - `place_rows.rt`: where the causes of all other letters show in a line
//! - `told.rt`: what is told of the lines of a source
//! - `word_rows.rt`: words

mod assertions;
mod expansion_rows;
mod operand_rows;
mod place_rows;
mod told;
mod word_rows;

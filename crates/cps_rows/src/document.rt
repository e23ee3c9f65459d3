//! Tests of a document that an editor has open, by rows of worked examples.
//!
//! - `assertions.rt`: assertions
//! - `change_rows.rt`: changes of a document

mod assertions;
mod change_rows;

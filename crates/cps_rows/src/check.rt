//! Tests of what a check tells, by rows of worked examples.
//!
//! - `assertions.rt`: assertions
//! - `device_rows.rt`: inputs that fail, and outputs
//! - `line_rows.rt`: what is told of lines
//! - `note_rows.rt`: notes
//! - `running.rt`: a run of a check
//! - `source_rows.rt`: what is told of a source as a whole

mod assertions;
mod device_rows;
mod line_rows;
mod note_rows;
mod running;
mod source_rows;

//! Tests of what a server for editors stands on, by rows of worked examples.
//!
//! - `assertions.rt`: assertions
//! - `change_rows.rt`: changes of a text
//! - `frame_rows.rt`: messages of a stream
//! - `line_rows.rt`: the lines of a text
//! - `place_rows.rt`: places in a line, as bytes and as units
//! - `rpc_rows.rt`: what messages ask, and messages that are sent
//! - `serving_rows.rt`: what a server says

mod assertions;
mod change_rows;
mod frame_rows;
mod line_rows;
mod place_rows;
mod rpc_rows;
mod serving_rows;

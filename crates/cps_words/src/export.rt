//! What is made of a source.

use crate::outputs::Outputs;
use cps_list::Part;
use cps_state::Hashing;

/// What is made of a source: texts in files, and a part that is written, None where none is.
#[derive(Clone, Copy)]
pub struct Export<'a> {
    pub hashing: Hashing,
    /// The name of the source's file, None for standard input.
    pub source: Option<&'a str>,
    pub outputs: Outputs<'a>,
    pub part: Option<Part>,
}

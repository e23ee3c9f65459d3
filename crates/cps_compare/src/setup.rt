//! What a comparison is set up with.

use crate::compare_options::CompareOptions;
use cps_state::Hashing;

/// What a comparison is set up with, besides its inputs.
#[derive(Clone, Copy)]
pub struct Setup {
    pub hashing: Hashing,
    /// What the words of the call ask.
    pub options: CompareOptions,
}

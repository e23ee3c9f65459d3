//! What a call of the program runs on.

use cps_state::Hashing;
use std::alloc::Global;

/// What a call runs on: its memory, how its maps hash, and the files that it may name.
#[derive(Drop)]
pub struct Host<S> {
    pub alloc: Global,
    pub hashing: Hashing,
    pub files: S,
}

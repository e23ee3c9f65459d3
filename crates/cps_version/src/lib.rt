//! The version of the assembler.
//!
//! - `version.rt`: the version
#![tactic(auto)]

mod version;

pub use version::VERSION;

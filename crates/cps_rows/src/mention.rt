//! The mentions of a source.
//!
//! - `agreement.rt`: beside its cross-reference
//! - `large.rt`: of one of 9,999 lines
//! - `told.rt`: as a text
pub mod agreement;
pub mod large;
pub mod told;

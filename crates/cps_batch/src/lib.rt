//! Batch assembly: a source is read to the end of its input, assembled whole, and shown in one of its texts.
//!
//! - `assembling.rt`: batch assembly as a whole
//! - `fault.rt`: why a source is not assembled, or its texts not written
//! - `kept_lines.rt`: the statements of lines, kept for pass two
//! - `passes.rt`: both passes over the lines
//! - `source.rt`: the source
//! - `source_words.rt`: the words of a source, without its texts
#![tactic(auto)]

mod assembling;
mod fault;
mod kept_lines;
mod passes;
mod source;
mod source_words;

pub use assembling::batch;
pub use fault::BatchFault;
pub use passes::make_words;
pub use source::Source;
pub use source_words::SourceWords;

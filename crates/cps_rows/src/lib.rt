//! Tests of the calls of all crates but `cps_tool`, by rows of worked examples, and the readers and writers of tests: slow ones, failing ones, endless
//! ones.
//!
//! - `assembling.rt`: batch assembly of a source
//! - `assertions.rt`: assertions that are proved once
//! - `cause.rt`: what is told of flagged lines
//! - `check.rt`: what a check tells
//! - `chunk_rows.rt`: sources of some chunks, which edits split, shorten and join
//! - `claim_rows.rt`: what the rows of an octal text are, and which digits they claim
//! - `code_rows.rt`: codes of the central processor, and words
//! - `disassembly_rows.rt`: sources that are made for octal texts
//! - `document.rt`: a document that an editor has open
//! - `draft_rows.rt`: drafts of sources
//! - `drift_rows.rt`: where code moved
//! - `edit_rows.rt`: edits of a session
//! - `enter_rows.rt`: sessions that begin with lines
//! - `expression_rows.rt`: expressions and data items
//! - `failing.rt`: a device that fails at one call
//! - `format_rows.rt`: lines of which the fields go into columns
//! - `gathering.rt`: what is gathered of a chunk
//! - `given.rt`: names and lines that tests are given
//! - `input_rows.rt`: what is wrong with the lines of a source that is read
//! - `lines_again.rt`: lines that are put and gathered, once more where memory was refused
//! - `manual.rt`: what is told of words
//! - `many_edits.rt`: a thousand edits of a few lines, and a thousand of some chunks of lines
//! - `octal.rt`: a comparison with an octal text
//! - `mention.rt`: the mentions of a source, as a text and beside its cross-reference
//! - `mention_rows.rt`: where sources write names, and what these mean there
//! - `mentions_again.rt`: where sources write names, once more where memory was refused
//! - `order.rt`: a reader and a writer that tell in which order they are called
//! - `output.rt`: texts that go into files, where one call of the files fails
//! - `page_rows.rt`: pages of sources
//! - `part_rows.rt`: the texts of a session
//! - `pass_rows.rt`: pass one, line by line
//! - `peripheral_rows.rt`: codes of a peripheral processor
//! - `put_rows.rt`: several lines in the place of others
//! - `readers.rt`: readers
//! - `rename.rt`: renames of names of a source
//! - `rename_rows.rt`: the lines that a rename changes, and why it is refused
//! - `same_value.rt`: names that all stand for the same
//! - `statement_rows.rt`: rows of statements
//! - `text_assertions.rt`: assertions of texts, proved once
//! - `text_rows.rt`: the text of macros, characters and fields
//! - `words_again.rt`: words and octal numbers, once more where memory was refused
//! - `writers.rt`: writers
#![tactic(auto)]

#[cfg(test)]
mod assembling;
#[cfg(test)]
mod assertions;
#[cfg(test)]
mod cause;
#[cfg(test)]
mod check;
#[cfg(test)]
mod chunk_rows;
#[cfg(test)]
mod claim_rows;
#[cfg(test)]
mod code_rows;
#[cfg(test)]
mod disassembly_rows;
#[cfg(test)]
mod document;
#[cfg(test)]
mod draft_rows;
#[cfg(test)]
mod drift_rows;
#[cfg(test)]
mod edit_rows;
#[cfg(test)]
mod enter_rows;
#[cfg(test)]
mod expression_rows;
mod failing;
#[cfg(test)]
mod format_rows;
#[cfg(test)]
mod gathering;
#[cfg(test)]
mod given;
#[cfg(test)]
mod input_rows;
#[cfg(test)]
mod lines_again;
#[cfg(test)]
mod manual;
#[cfg(test)]
mod many_edits;
#[cfg(test)]
mod mention;
#[cfg(test)]
mod mention_rows;
#[cfg(test)]
mod mentions_again;
#[cfg(test)]
mod octal;
mod order;
#[cfg(test)]
mod output;
#[cfg(test)]
mod page_rows;
#[cfg(test)]
mod part_rows;
#[cfg(test)]
mod pass_rows;
#[cfg(test)]
mod peripheral_rows;
#[cfg(test)]
mod put_rows;
mod readers;
#[cfg(test)]
mod rename;
#[cfg(test)]
mod rename_rows;
#[cfg(test)]
mod same_value;
#[cfg(test)]
mod statement_rows;
#[cfg(test)]
mod text_assertions;
#[cfg(test)]
mod text_rows;
#[cfg(test)]
mod words_again;
mod writers;

pub use failing::FailsAt;
pub use order::{Noting, TellingWriter};
pub use readers::{Endless, Resuming, SlowReader};
pub use writers::{Idle, SlowWriter, Tallying};

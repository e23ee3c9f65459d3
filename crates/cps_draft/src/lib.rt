//! A draft of a source for the words of an octal text. What is code, what is data and what has a name is guessed. Nothing is promised of
//! a draft but that it is made, or memory refused: who takes it assembles it, and compares.
//!
//! - `central.rt`: instructions of the central processor, from their codes
//! - `characters.rt`: the characters of a word
//! - `classes.rt`: what the words are: code, data, text, addresses
//! - `code_lines.rt`: the lines of code
//! - `coding.rt`: which words are code
//! - `control.rt`: where execution goes
//! - `cost.rt`: what words cost as code and as data, in bits: the less they cost, the likelier they are it
//! - `data_lines.rt`: the lines of data
//! - `draft.rt`: a draft of a source
//! - `drafting.rt`: the lines of a draft, word after word
//! - `guess.rt`: what is guessed of the words of an image
//! - `hints.rt`: what a person knows of the words
//! - `image.rt`: the words that an octal text gives
//! - `instruction.rt`: an instruction, as a line shows it
//! - `known_names.rt`: the names that a person knows
//! - `lines.rt`: the lines of a draft, as they are written
//! - `name_rows.rt`: the names that rows of a text tell
//! - `names.rt`: the names of addresses
//! - `number.rt`: numbers of a draft
//! - `operands.rt`: the operands of instructions
//! - `path.rt`: the cheapest way to say a run of words as code and data
//! - `peripheral.rt`: instructions of a peripheral processor, from their codes
//! - `pointers.rt`: which words of data are addresses
//! - `reading.rt`: the instructions of a word of the central processor
//! - `references.rt`: the addresses that instructions have
//! - `starts.rt`: where something begins
//! - `text_lines.rt`: the lines of text
//! - `texts.rt`: which words are text
//! - `told.rt`: what a person told of the words
#![tactic(auto)]

mod central;
mod characters;
mod classes;
mod code_lines;
mod coding;
mod control;
mod cost;
mod data_lines;
mod draft;
mod drafting;
mod guess;
mod hints;
mod image;
mod instruction;
mod known_names;
mod lines;
mod name_rows;
mod names;
mod number;
mod operands;
mod path;
mod peripheral;
mod pointers;
mod reading;
mod references;
mod starts;
mod text_lines;
mod texts;
mod told;

pub use draft::{Draft, make_draft};
pub use hints::{AddressRange, Boldness, GivenWord, Hints, Knowledge, KnownName, UnreadRows};
pub use name_rows::{find_ident, read_names};

//! A name, where it is written, and what it means there.

use crate::meaning::Meaning;
use crate::role::Role;
use crate::stretch::Stretch;

/// A name, where a source writes it, and what it means there.
#[derive(Drop)]
pub struct Mention {
    /// The columns that write it: one stretch, or several where `_` or an argument joins its parts.
    pub written: Vec<Stretch>,
    pub meaning: Meaning,
    pub role: Role,
    /// Whether the assembler did it. Else lines are skipped there, nothing opens the body, the operands can't be read, or the program has ended.
    pub is_done: bool,
    /// The lines, from 1, by which it was done, in their order.
    pub by: Vec<u32>,
    /// Where that was defined whose value counted, each once.
    pub from: Vec<Stretch>,
}

//! A word of a line, by its columns.

use crate::token::{Nature, TokenKind};

/// A word of a line, from a column up to another. They count from 0.
#[derive(Clone, Copy)]
pub struct LineWord {
    pub first: usize,
    pub end: usize,
    pub nature: Nature,
}

impl LineWord {
    /// Of columns that no name makes.
    pub fn of(first: usize, end: usize, kind: TokenKind) -> LineWord {
        LineWord {
            first,
            end,
            nature: Nature::of(kind),
        }
    }
}

//! What the words of a comparison ask.

use super::compare_format::CompareFormat;
use cps_claims::{ReadColumns, WordOffset};

/// What the words of a comparison ask.
#[derive(Clone, Copy)]
pub struct CompareOptions {
    /// How the rows of the octal text are read.
    pub format: CompareFormat,
    /// None: all columns are read. This program's own listing has its own ones.
    pub columns: Option<ReadColumns>,
    /// How far each address of the octal text is moved.
    pub offset: WordOffset,
    /// The first address. None: the first that is compared.
    pub from: Option<u32>,
    /// The last address. None: the last that is compared.
    pub to: Option<u32>,
    /// Whether each word of the source between the limits must be given, and whole.
    pub whole: bool,
    /// Whether each word that differs is told, and each row that isn't read.
    pub all: bool,
}

//! How the rows of a line look.

/// How the rows of a line look.
#[derive(Clone, Copy, PartialEq, Eq)]
pub enum LineLook {
    Plain,
    /// It stands in a named block.
    InBlock,
    Skipped,
}

//! Positions in a text.

/// A position in a text, between two characters. One that stands nowhere has a meaning too: behind a line's end it is that
/// end, before a carriage return there, and behind the last line it is the text's end.
#[derive(Clone, Copy, Debug, PartialEq, Eq)]
pub struct Position {
    /// The line, from 0.
    pub line: u32,
    /// The units before it in the line.
    pub character: u32,
}

/// The part of a text between two positions. An end that stands before the start counts as the start.
#[derive(Clone, Copy, Debug, PartialEq, Eq)]
pub struct Range {
    /// Where it begins.
    pub start: Position,
    /// Where it ends: what stands there is no part of it.
    pub end: Position,
}

//! What a line does with a name.

/// What a line does with a name.
#[derive(Clone, Copy, Debug, PartialEq, Eq, PartialOrd, Ord)]
pub enum Role {
    /// A symbol gets a value, a macro its body, a program its name, a call a parameter or a local name; a block is in use for the first time.
    Defines,
    /// Its value is read, or a body has it put in.
    Reads,
    /// A macro is called.
    Calls,
    /// A block is in use once more.
    Uses,
    /// It would be defined, but it has a value already.
    Clashes,
}

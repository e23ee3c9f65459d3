//! The version.

/// The version of the assembler, as `compass --version` prints it and a server tells it to an editor.
pub const VERSION: &str = "0.9.0";

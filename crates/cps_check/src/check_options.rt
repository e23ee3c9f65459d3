//! How a check tells.

/// How a check tells: under which name, and whether notes too.
#[derive(Clone, Copy)]
pub struct CheckOptions<'a> {
    /// The name of the source, with which each report begins.
    pub name: &'a [u8],
    /// Whether notes are left out.
    pub errors_only: bool,
}

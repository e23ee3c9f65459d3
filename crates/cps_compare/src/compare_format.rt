//! How the rows of an octal text are read.

use cps_claims::OctalFormat;

/// How the rows of an octal text are read.
#[derive(Clone, Copy, Debug, PartialEq, Eq)]
pub enum CompareFormat {
    /// They have words of the machine.
    Words(OctalFormat),
    /// They are those of this program's own listing, which rounds fields up to digits. So the source's listing is compared, and not its words.
    Own,
}

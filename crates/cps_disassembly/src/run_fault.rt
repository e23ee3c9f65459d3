//! Why a run of a disassembly ends without its source.

use super::disassembly_fault::DisassemblyFault;
use thiserror::Error;

/// Why a run of a disassembly ends without its source.
#[derive(Clone, Copy, Debug, PartialEq, Eq, Error)]
pub enum RunFault {
    /// A read of the octal text failed, or it had not ended after 16,777,216 reads.
    #[error("OCTAL: read fault")]
    ReadFault,
    /// No source is made of the text.
    #[error("{0}")]
    NoSource(DisassemblyFault),
    /// A write failed, or took none of the bytes it was given.
    #[error("write fault")]
    WriteFault,
}

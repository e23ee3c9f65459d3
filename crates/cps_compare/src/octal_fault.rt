//! Why nothing is compared, or what is told not written.

use super::compare_fault::CompareFault;
use cps_input::InputFault;
use thiserror::Error;

/// Why a comparison ends without its text.
#[derive(Clone, Copy, Debug, PartialEq, Eq, Error)]
pub enum OctalFault {
    /// A read of the octal text failed, or it had not ended after 16,777,216 reads. The source is not read.
    #[error("OCTAL: read fault")]
    ReadFault,
    /// The source can't be read to its end, or its lines are none of a source.
    #[error("FILE: {0}")]
    Source(InputFault),
    /// Nothing is wrong with the lines of the source, and nothing is compared.
    #[error("{0}")]
    Compare(CompareFault),
    /// A write failed, or took none of the bytes it was given.
    #[error("write fault")]
    WriteFault,
}

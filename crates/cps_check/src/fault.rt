//! Why a source is not checked, or what is told of it not written.
ghost use Rattle.std.specs.Prelude.{◌≡◌};
ghost use Rattle.cps_check.specs.Check as checks;

use cps_input::InputFault;
use thiserror::Error;

/// Why a check ends without its text.
#[derive(Clone, Copy, Debug, PartialEq, Eq, Error)]
pub enum CheckFault {
    /// A read failed, or the input had not ended after 16,777,216 reads.
    #[error("read fault")]
    ReadFault,
    /// There was no memory. Nothing is written.
    #[error("no memory")]
    Memory,
    /// A write failed, or took none of the bytes it was given.
    #[error("write fault")]
    WriteFault,
}

impl CheckFault {
    /// Why an input is not given.
    pub(crate) fn of_input(fault: InputFault) -> CheckFault
        ensures { result ≡ checks.of_input fault }
    {
        match fault {
            InputFault::Memory => CheckFault::Memory,
            _ => CheckFault::ReadFault,
        }
    }
}

//! Why a server ends early.
ghost use Rattle.std.specs.Prelude.{◌≡◌};

use crate::stream::StreamFault;
use cps_list::ListFault;
use std::alloc::AllocError;
use thiserror::Error;

/// Why a server ends before its input or its service does.
#[derive(Clone, Copy, Debug, PartialEq, Eq, Error)]
pub enum ServerFault {
    /// What has come begins with no message, and never will.
    #[error("bad header")]
    BadHeader,
    /// A read failed, or the input had not ended after 2^64 - 1 reads.
    #[error("read fault")]
    ReadFault,
    /// A write failed, or took none of the bytes that it was given.
    #[error("write fault")]
    WriteFault,
    /// There was no memory for what a read gave, for a message, or for its answer.
    #[error("no memory")]
    Memory,
}

impl From<StreamFault> for ServerFault {
    ghost use Rattle.cps_rpc.specs.Faults.{of_stream};

    ghost from_gives = { λ fault gives. gives ≡ of_stream fault };

    fn from(fault: StreamFault) -> ServerFault {
        match fault {
            StreamFault::BadHeader => ServerFault::BadHeader,
            StreamFault::Memory => ServerFault::Memory,
        }
    }
}

impl From<ListFault> for ServerFault {
    ghost use Rattle.cps_rpc.specs.Faults.{of_writing};

    ghost from_gives = { λ fault gives. gives ≡ of_writing fault };

    fn from(fault: ListFault) -> ServerFault {
        match fault {
            ListFault::WriteFault => ServerFault::WriteFault,
            ListFault::Memory => ServerFault::Memory,
        }
    }
}

impl From<AllocError> for ServerFault {
    ghost use Rattle.cps_rpc.specs.declared.fault.ServerFault.TheVariants.{Memory};

    ghost from_gives = { λ _ gives. gives ≡ Memory };

    fn from(_error: AllocError) -> ServerFault {
        ServerFault::Memory
    }
}

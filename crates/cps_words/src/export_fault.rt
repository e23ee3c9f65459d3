//! Why not all is made of a source that is wanted.

use crate::fault::OutputFault;
use cps_batch::BatchFault;
use cps_input::InputFault;
use std::alloc::{AllocError, Global};

/// Why not all is made of a source that is wanted.
#[derive(Drop)]
pub enum ExportFault<'a> {
    /// The source can't be read to its end, or its lines are none of a source. No file was placed.
    Source(InputFault),
    /// Nothing is wrong with the lines of the source, and there was no memory. No file was placed.
    Memory,
    /// A text isn't in its file. No part was written.
    Output(OutputFault<'a>),
    /// A write of the part failed, or took none of the bytes it was given. All files were placed.
    WriteFault,
}

impl ExportFault<'_> {
    /// What is told of the fault, with no newline. Control characters of a file's name stand in it as they are.
    pub fn text(&self, alloc: Global) -> Result<String, AllocError> {
        match self {
            ExportFault::Source(fault) => format!(in alloc; "{}", BatchFault::of_input(*fault)),
            ExportFault::Memory => String::from_str(alloc, "no memory"),
            ExportFault::Output(fault) => fault.text(alloc),
            ExportFault::WriteFault => String::from_str(alloc, "write fault"),
        }
    }
}

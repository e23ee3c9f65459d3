//! Why texts aren't in their files.
use std::alloc::{AllocError, Global};
use std::io;

/// Why texts aren't in their files.
#[derive(Drop)]
pub enum OutputFault<'a> {
    /// There was no memory for a text, or to make a file. No file was placed.
    Memory,
    /// The file of that name can't be made, for that reason. No file was placed.
    Uncreated(&'a str, io::Error),
    /// The text of the file of that name can't be written, for that reason. No file was placed.
    Unwritten(&'a str, io::Error),
    /// The file of that name can't be put in its place, for that reason. The files before it were placed.
    Unplaced(&'a str, io::Error),
}

impl OutputFault<'_> {
    /// What is told of the fault, with no newline. Control characters of a name stand in it as they are.
    pub fn text(&self, alloc: Global) -> Result<String, AllocError> {
        match self {
            OutputFault::Memory => String::from_str(alloc, "no memory"),
            OutputFault::Uncreated(name, error)
            | OutputFault::Unwritten(name, error)
            | OutputFault::Unplaced(name, error) => unwritten_text(alloc, name, error),
        }
    }
}

fn unwritten_text(alloc: Global, name: &str, error: &io::Error) -> Result<String, AllocError> {
    let reason = reason_of(alloc, error)?;
    format!(in alloc; "cannot write {name}: {reason}")
}

/// The machine's reason, without its number.
pub fn reason_of(alloc: Global, error: &io::Error) -> Result<String, AllocError> {
    let text = format!(in alloc; "{error}")?;
    let reason = text.split(" (os error ").next().unwrap_or("");
    String::from_str(alloc, reason)
}

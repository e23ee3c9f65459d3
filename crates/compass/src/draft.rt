//! Files of the machine that aren't in their places yet.
use super::successor::Successor;
use cps_words::is_open_already;
use std::fs::{File, OpenOptions};
use std::io::{ErrorKind, Write};
use std::{fs, io};

/// The names of standard output.
const OUTPUT: [&str; 3] = ["/dev/stdout", "/dev/fd/1", "/proc/self/fd/1"];

/// A file that isn't in its place yet; or what is no regular file, which is written in its place.
#[derive(Drop)]
pub enum DiskDraft<'a> {
    Successor(Successor),
    /// A device or a pipe, or what a process has open already.
    InPlace(File),
    /// Standard output, which goes on where it is.
    Output(&'a HostRuntime),
}

impl<'a> DiskDraft<'a> {
    /// Makes a draft of the file of that name. A file that stands must be one that may be written, and no directory.
    pub fn new(rt: &'a HostRuntime, name: &str) -> io::Result<DiskDraft<'a>> {
        if OUTPUT.contains(&name) {
            return Ok(DiskDraft::Output(rt));
        }
        match fs::metadata(rt, name) {
            Ok(standing) if standing.is_file() && !is_open_already(name) => {
                Ok(DiskDraft::Successor(Successor::over(rt, name, &standing)?))
            }
            Ok(_) => Ok(DiskDraft::InPlace(open_at_end(rt, name)?)),
            Err(error) if error.kind() == ErrorKind::NotFound && is_free(rt, name) => {
                Ok(DiskDraft::Successor(Successor::new(rt, name)?))
            }
            Err(error) => Err(error),
        }
    }

    /// Puts it in its place. What can't be put there is discarded.
    pub fn place(self, rt: &HostRuntime) -> io::Result<()> {
        match self {
            DiskDraft::Successor(file) => file.place(rt),
            DiskDraft::InPlace(_) | DiskDraft::Output(_) => Ok(()),
        }
    }

    /// Takes it away. What was written in its place stays.
    pub fn discard(self, rt: &HostRuntime) {
        if let DiskDraft::Successor(file) = self {
            file.remove(rt);
        }
    }
}

impl Write for DiskDraft<'_> {
    fn write(&mut self, buf: &[u8]) -> io::Result<usize> {
        match self {
            DiskDraft::Successor(file) => file.write(buf),
            DiskDraft::InPlace(file) => file.write(buf),
            DiskDraft::Output(rt) => io::writer(*rt).write(buf),
        }
    }

    /// Sees that a file is kept at a power failure too.
    fn flush(&mut self) -> io::Result<()> {
        match self {
            DiskDraft::Successor(file) => file.flush(),
            DiskDraft::InPlace(_) | DiskDraft::Output(_) => Ok(()),
        }
    }
}

/// Opens what is written behind what it has. The machine refuses a directory.
fn open_at_end(rt: &HostRuntime, name: &str) -> io::Result<File> {
    OpenOptions::new().append(true).open(rt, name)
}

/// Whether nothing stands under a name, and no link to nothing either.
fn is_free(rt: &HostRuntime, name: &str) -> bool {
    !name.is_empty() && fs::symlink_metadata(rt, name).is_err()
}

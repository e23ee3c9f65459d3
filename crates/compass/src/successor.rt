//! Files that stand beside those whose places they take.
use std::fs::{File, Metadata, OpenOptions};
use std::io::{ErrorKind, Write};
use std::os::fd::AsFd;
use std::os::unix::fs::{MetadataExt, fchown};
use std::{fs, io};

/// How many may stand beside one file.
const MOST: u32 = 9;

/// A file that stands beside the one whose place it takes.
#[derive(Drop)]
pub struct Successor {
    file: File,
    path: String,
    /// The path of the one whose place it takes.
    target: String,
}

impl Successor {
    /// Makes a file beside that of a path, under the first of its names that is free.
    pub fn new(rt: &HostRuntime, target: &str) -> io::Result<Successor> {
        for number in 1..MOST {
            match Successor::numbered(rt, target, number) {
                Err(error) if error.kind() == ErrorKind::AlreadyExists => {}
                made => return made,
            }
        }
        Successor::numbered(rt, target, MOST)
    }

    fn numbered(rt: &HostRuntime, target: &str, number: u32) -> io::Result<Successor> {
        let path = format!(in rt.alloc(); "{target}.compass-{number}")?;
        let target = String::from_str(rt.alloc(), target)?;
        let file = File::create_new(rt, path.as_str())?;
        Ok(Successor { file, path, target })
    }

    /// Makes a file beside one that may be written, at the end of its links. It has the same permissions before it has a byte.
    pub fn over(rt: &HostRuntime, name: &str, standing: &Metadata) -> io::Result<Successor> {
        let writable = OpenOptions::new().write(true).open(rt, name)?;
        drop(writable);
        let target = fs::canonicalize(rt, name)?;
        let successor = Successor::new(rt, target.as_str())?;
        match successor.permit_as(standing) {
            Ok(()) => Ok(successor),
            Err(error) => {
                successor.remove(rt);
                Err(error)
            }
        }
    }

    /// Gives it the permissions of a file, and its owner where the machine allows that.
    fn permit_as(&self, standing: &Metadata) -> io::Result<()> {
        let _ = fchown(
            self.file.as_fd(),
            Some(standing.uid()),
            Some(standing.gid()),
        );
        self.file.set_permissions(standing.permissions())
    }

    /// Puts it in the place of the other file. Where it can't be put there it is removed.
    pub fn place(self, rt: &HostRuntime) -> io::Result<()> {
        let placed = fs::rename(rt, self.path.as_str(), self.target.as_str());
        if placed.is_err() {
            self.remove(rt);
        }
        placed
    }

    pub fn remove(self, rt: &HostRuntime) {
        let _ = fs::remove_file(rt, self.path.as_str());
    }
}

impl Write for Successor {
    fn write(&mut self, buf: &[u8]) -> io::Result<usize> {
        self.file.write(buf)
    }

    /// Sees that what it has is kept at a power failure too.
    fn flush(&mut self) -> io::Result<()> {
        self.file.sync_all()
    }
}

//! A reader and a writer that together tell in which order they are called.
use std::cell::Cell;
use std::io;
use std::io::{ErrorKind, Read, Write};

/// A reader that gives one line a call, and notes how many bytes were written before each call. It fails where a line is longer
/// than what is asked for.
#[derive(Drop)]
pub struct Noting<'a> {
    pub lines: &'a [&'a [u8]],
    /// Counted by a writer.
    pub written: &'a Cell<usize>,
    pub seen: Vec<usize>,
}

impl Read for Noting<'_> {
    fn read(&mut self, buf: &mut [u8]) -> io::Result<usize> {
        self.seen.push(self.written.get())?;
        let [line, rest @ ..] = self.lines else {
            return Ok(0);
        };
        if line.len() > buf.len() {
            return Err(io::Error::from(ErrorKind::InvalidInput));
        }
        self.lines = rest;
        buf[..line.len()].copy_from_slice(line);
        Ok(line.len())
    }
}

/// A writer that tells how many bytes it took.
#[derive(Drop)]
pub struct TellingWriter<'a> {
    pub written: &'a Cell<usize>,
}

impl Write for TellingWriter<'_> {
    fn write(&mut self, buf: &[u8]) -> io::Result<usize> {
        let before = self.written.get();
        self.written.set(before.saturating_add(buf.len()));
        Ok(buf.len())
    }

    fn flush(&mut self) -> io::Result<()> {
        Ok(())
    }
}

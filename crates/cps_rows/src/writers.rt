//! Writers that are slow or full, and one that keeps nothing.
ghost use Rattle.std.specs.Prelude.{Some};

use std::io;
use std::io::{ErrorKind, Write};

/// A writer that takes one byte a call, and fails where its room is used up.
#[derive(Drop)]
pub struct SlowWriter {
    pub taken: Vec<u8>,
    /// How many bytes it still takes.
    pub room: usize,
}

impl Write for SlowWriter {
    ghost contents = { λ writer. Some writer.taken.items };

    fn write(&mut self, buf: &[u8]) -> io::Result<usize> {
        if self.room == 0 {
            return Err(io::Error::from(ErrorKind::BrokenPipe));
        }
        if buf.is_empty() {
            return Ok(0);
        }
        self.room -= 1;
        self.taken.push(buf[0])?;
        Ok(1)
    }

    fn flush(&mut self) -> io::Result<()> {
        Ok(())
    }
}

/// A writer that takes nothing.
#[derive(Drop)]
pub struct Idle;

impl Write for Idle {
    fn write(&mut self, _buf: &[u8]) -> io::Result<usize> {
        Ok(0)
    }

    fn flush(&mut self) -> io::Result<()> {
        Ok(())
    }
}

/// A writer that takes all, and keeps how often it was this text, and how often another one.
#[derive(Drop)]
pub struct Tallying<'a> {
    pub text: &'a [u8],
    pub times: u64,
    pub others: u64,
}

impl Write for Tallying<'_> {
    fn write(&mut self, buf: &[u8]) -> io::Result<usize> {
        if buf == self.text {
            self.times = self.times.saturating_add(1);
        } else {
            self.others = self.others.saturating_add(1);
        }
        Ok(buf.len())
    }

    fn flush(&mut self) -> io::Result<()> {
        Ok(())
    }
}

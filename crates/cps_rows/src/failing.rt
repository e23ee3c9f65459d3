//! A device that fails at one call.
ghost use Rattle.std.specs.Prelude.{◌≡◌};

use std::io;
use std::io::{ErrorKind, Read, Write};

/// A reader or writer that gives or takes one byte a call, fails at one call, and counts its calls and failures itself.
#[derive(Drop)]
pub struct FailsAt<'a> {
    pub rest: &'a [u8],
    /// The number of the call that fails, from 1; none where it is 0.
    pub failing: u64,
    pub calls: u64,
    pub failures: u64,
}

impl FailsAt<'_> {
    /// With these bytes to be read, before its first call.
    pub fn new(rest: &[u8], failing: u64) -> FailsAt<'_>
        ensures { result ≡ record { rest = rest.entry; failing = failing; calls = 0; failures = 0 } }
    {
        FailsAt {
            rest,
            failing,
            calls: 0,
            failures: 0,
        }
    }

    /// Counts a call, which fails where it is the failing one.
    fn call(&mut self) -> io::Result<()>
        ensures { self.new.rest ≡ self.old.rest }
    {
        self.calls = self.calls.saturating_add(1);
        if self.calls == self.failing {
            self.failures = self.failures.saturating_add(1);
            return Err(io::Error::from(ErrorKind::BrokenPipe));
        }
        Ok(())
    }
}

impl Read for FailsAt<'_> {
    ghost use Rattle.std.specs.Prelude.{Some};

    ghost remaining = { λ reader. Some reader.rest.now };

    fn read(&mut self, buf: &mut [u8]) -> io::Result<usize> {
        self.call()?;
        let room = buf.len().min(1);
        self.rest.read(&mut buf[..room])
    }
}

impl Write for FailsAt<'_> {
    fn write(&mut self, buf: &[u8]) -> io::Result<usize> {
        self.call()?;
        Ok(buf.len().min(1))
    }

    fn flush(&mut self) -> io::Result<()> {
        Ok(())
    }
}

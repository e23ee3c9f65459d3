//! Readers that are slow, that fail, that would go on, or that never end.
ghost use Rattle.std.specs.Prelude.{Some};

use std::io;
use std::io::{ErrorKind, Read};

/// A reader that gives one byte a call, and after the last one fails or ends.
#[derive(Drop)]
pub struct SlowReader<'a> {
    pub rest: &'a [u8],
    pub fails: bool,
}

impl Read for SlowReader<'_> {
    ghost remaining = { λ reader. Some reader.rest.now };

    fn read(&mut self, buf: &mut [u8]) -> io::Result<usize> {
        if self.fails && self.rest.is_empty() {
            return Err(io::Error::from(ErrorKind::BrokenPipe));
        }
        let room = buf.len().min(1);
        self.rest.read(&mut buf[..room])
    }
}

/// A reader that gives a text at once, then ends, and after its end would give the text again. It fails where the text is longer
/// than what is asked for.
#[derive(Drop)]
pub struct Resuming<'a> {
    pub text: &'a [u8],
    pub has_given: bool,
}

impl Read for Resuming<'_> {
    fn read(&mut self, buf: &mut [u8]) -> io::Result<usize> {
        self.has_given = !self.has_given;
        if !self.has_given {
            return Ok(0);
        }
        if self.text.len() > buf.len() {
            return Err(io::Error::from(ErrorKind::InvalidInput));
        }
        buf[..self.text.len()].copy_from_slice(self.text);
        Ok(self.text.len())
    }
}

/// A reader that gives the same byte at each call, one at a time and without end.
#[derive(Drop)]
pub struct Endless {
    pub byte: u8,
}

impl Read for Endless {
    fn read(&mut self, buf: &mut [u8]) -> io::Result<usize> {
        match buf {
            [] => Ok(0),
            [first, ..] => {
                *first = self.byte;
                Ok(1)
            }
        }
    }
}

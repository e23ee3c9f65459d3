//! Readers and writers whose calls are counted.
ghost use Rattle.std.specs.Prelude.{◌≡◌, ◌<◌, ◌≤◌, ◌⊎◌, ◌↔◌, IsNone, IfSome, IsErr, MatchOption, MatchResult, unwrap_or, take, length};
ghost use Rattle.std.specs.Io.KnownBytes.{Keeps, Appends, Consumes, IsAtEnd};
ghost use Rattle.cps_text.specs.Counted.{inner_of, failures_of, calls_of, moved_of, idle_of, raised, raised_on_none, raised_on_zero};

use std::io;
use std::io::{Read, Write};

/// A reader or a writer whose calls and failures are counted. A count stays at its greatest value.
#[derive(Drop)]
pub struct Counted<T> {
    inner: T,
    failures: u64,
    calls: u64,
    moved: usize,
    idle: u64,
}

impl<T> Counted<T> {
    /// With each count at 0.
    pub fn new(inner: T) -> Counted<T>
        ensures inner { inner_of result ≡ inner }
        ensures failures { failures_of result ≡ 0 }
        ensures calls { calls_of result ≡ 0 }
        ensures moved { moved_of result ≡ 0 }
        ensures idle { idle_of result ≡ 0 }
    {
        Counted {
            inner,
            failures: 0,
            calls: 0,
            moved: 0,
            idle: 0,
        }
    }

    /// How many calls failed.
    pub fn failures(&self) -> u64
        ensures { result ≡ failures_of self.now }
    {
        self.failures
    }

    /// How often it was read or written.
    pub fn calls(&self) -> u64
        ensures { result ≡ calls_of self.now }
    {
        self.calls
    }

    /// How many bytes the last call gave or took: 0 where it failed, and before the first call.
    pub fn moved(&self) -> usize
        ensures { result ≡ moved_of self.now }
    {
        self.moved
    }

    /// How many calls gave or took no byte: those that failed, and a reader's at its end.
    pub fn idle(&self) -> u64
        ensures { result ≡ idle_of self.now }
    {
        self.idle
    }

    /// The reader or writer itself.
    pub fn into_inner(self) -> T
        ensures { result ≡ inner_of self }
    {
        let Counted { inner, .. } = self;
        inner
    }

    /// Counts a call that gave or took some bytes, or failed.
    fn count_call(&mut self, moved: Option<usize>)
        ensures inner { inner_of self.new ≡ inner_of self.old }
        ensures failures { failures_of self.new ≡ raised_on_none moved (failures_of self.old) }
        ensures calls { calls_of self.new ≡ raised (calls_of self.old) }
        ensures moved { moved_of self.new ≡ unwrap_or moved 0 }
        ensures idle { idle_of self.new ≡ raised_on_zero (moved_of self.new) (idle_of self.old) }
    {
        self.calls = self.calls.saturating_add(1);
        match moved {
            Some(count) => self.moved = count,
            None => {
                self.failures = self.failures.saturating_add(1);
                self.moved = 0;
            }
        }
        if self.moved == 0 {
            self.idle = self.idle.saturating_add(1);
        }
    }
}

impl<R: Read> Counted<R> {
    /// Reads once. None where the reader answered an error; 0 bytes for a buffer that has room are the end.
    pub fn read(&mut self, buf: &mut [u8]) -> Option<usize>
        ensures bytes { MatchOption result
            (Keeps (R.remaining (inner_of self.old)) (R.remaining (inner_of self.new)))
            (λ n. Consumes (R.remaining (inner_of self.old)) (R.remaining (inner_of self.new)) (take n buf.new)) }
        ensures end { IfSome result (λ n. n ≡ 0 → 0 < length buf.new → IsAtEnd (R.remaining (inner_of self.new))) }
        ensures bound { IfSome result (λ n. n ≤ length buf.new) }
        ensures failures { failures_of self.new ≡ raised_on_none result (failures_of self.old) }
        ensures calls { calls_of self.new ≡ raised (calls_of self.old) }
        ensures moved { moved_of self.new ≡ unwrap_or result 0 }
        ensures idle { idle_of self.new ≡ raised_on_zero (moved_of self.new) (idle_of self.old) }
    {
        let given = count_given(self.inner.read(buf));
        self.count_call(given);
        given
    }
}

impl<W: Write> Counted<W> {
    /// Writes once. None where the writer answered an error, or took none of one or more bytes.
    pub fn write(&mut self, buf: &[u8]) -> Option<usize>
        ensures bytes { MatchOption result
            (Keeps (W.contents (inner_of self.old)) (W.contents (inner_of self.new)))
            (λ n. Appends (W.contents (inner_of self.old)) (W.contents (inner_of self.new)) (take n buf.now)) }
        ensures bound { IfSome result (λ n. n ≤ length buf.now) }
        ensures taken { IfSome result (λ n. 0 < length buf.now → 0 < n) }
        ensures failures { failures_of self.new ≡ raised_on_none result (failures_of self.old) }
        ensures calls { calls_of self.new ≡ raised (calls_of self.old) }
        ensures moved { moved_of self.new ≡ unwrap_or result 0 }
        ensures idle { idle_of self.new ≡ raised_on_zero (moved_of self.new) (idle_of self.old) }
    {
        let taken = count_taken(self.inner.write(buf), buf.len());
        self.count_call(taken);
        taken
    }
}

/// How many bytes a read gave, None exactly at an error.
fn count_given(answer: io::Result<usize>) -> Option<usize>
    ensures { MatchResult answer (λ count. result ≡ Some count) (λ _. result ≡ None) }
{
    match answer {
        Ok(count) => Some(count),
        Err(_) => None,
    }
}

/// How many bytes a write of `offered` bytes took, None exactly at an error or where it took none of one or more.
fn count_taken(answer: io::Result<usize>, offered: usize) -> Option<usize>
    ensures some { IfSome result (λ count. answer ≡ Ok count) }
    ensures none { IsNone result ↔ (IsErr answer ⊎ ((answer ≡ Ok 0) × (0 < offered))) }
{
    match answer {
        Ok(count) if count > 0 || offered == 0 => Some(count),
        _ => None,
    }
}

//! Files in memory, of which all is known.
use cps_words::Targets;
use std::alloc::Global;
use std::cell::Cell;
use std::io;
use std::io::Write;

/// The number that Linux has for a full disk.
const NO_SPACE: i32 = 28;

/// How often files were called, and which call fails.
#[derive(Drop)]
pub struct Calls {
    made: Cell<u64>,
    failing: u64,
}

impl Calls {
    /// Of which the one with that number fails, from 1; none where it is 0.
    pub fn failing_at(failing: u64) -> Calls {
        Calls {
            made: Cell::new(0),
            failing,
        }
    }

    /// Counts a call, which fails where its turn has come.
    fn call(&self) -> io::Result<()> {
        let made = self.made.get().saturating_add(1);
        self.made.set(made);
        if made == self.failing {
            return Err(io::Error::from_raw_os_error(NO_SPACE));
        }
        Ok(())
    }
}

/// A file that isn't in its place.
#[derive(Drop)]
pub struct ShelfDraft<'a> {
    calls: &'a Calls,
    bytes: Vec<u8>,
}

impl Write for ShelfDraft<'_> {
    ghost use Rattle.std.specs.Prelude.{Some};

    ghost contents = { λ draft. Some draft.bytes.items };

    fn write(&mut self, buf: &[u8]) -> io::Result<usize> {
        self.calls.call()?;
        self.bytes.extend_from_slice(buf)?;
        Ok(buf.len())
    }

    fn flush(&mut self) -> io::Result<()> {
        self.calls.call()
    }
}

/// A file in its place.
#[derive(Drop)]
pub struct PlacedFile {
    pub name: String,
    pub bytes: Vec<u8>,
}

/// Files in memory. What is placed of them and what waits is known, and so are the bytes of drafts: all that is said of `Targets` can be met.
#[derive(Drop)]
pub struct Shelf<'a> {
    alloc: Global,
    calls: &'a Calls,
    /// In the order in which they were placed.
    placed: Vec<PlacedFile>,
    /// How many drafts were neither placed nor discarded.
    waiting: u64,
}

impl<'a> Shelf<'a> {
    /// With no file.
    pub fn new(alloc: Global, calls: &'a Calls) -> Shelf<'a> {
        Shelf {
            alloc,
            calls,
            placed: Vec::new(alloc),
            waiting: 0,
        }
    }

    /// The files that were placed, and how many drafts wait.
    pub fn into_parts(self) -> (Vec<PlacedFile>, u64) {
        let Shelf {
            placed,
            waiting,
            ..
        } = self;
        (placed, waiting)
    }
}

impl<'a> Targets for Shelf<'a> {
    ghost use Rattle.std.specs.Prelude.{Some, bytes_eq, map, string_bytes};

    type Draft = ShelfDraft<'a>;

    ghost placed = { λ shelf.
        Some (map (λ file. record { name = string_bytes file.name; bytes = file.bytes.items }) shelf.placed.items) };

    ghost waiting = { λ shelf. Some shelf.waiting };

    // Each name leads to a file of its own.
    ghost same = { λ shelf one other. Some (bytes_eq one other) };

    fn is_same(&self, one: &str, other: &str) -> bool {
        one == other
    }

    fn create(&mut self, _name: &str) -> io::Result<ShelfDraft<'a>> {
        self.calls.call()?;
        if self.waiting == u64::MAX {
            return Err(io::Error::from_raw_os_error(NO_SPACE));
        }
        self.waiting += 1;
        Ok(ShelfDraft {
            calls: self.calls,
            bytes: Vec::new(self.alloc),
        })
    }

    fn place(&mut self, name: &str, draft: ShelfDraft<'a>) -> io::Result<()> {
        self.waiting = self.waiting.saturating_sub(1);
        self.calls.call()?;
        let ShelfDraft { bytes, .. } = draft;
        let name = String::from_str(self.alloc, name)?;
        self.placed.push(PlacedFile { name, bytes })?;
        Ok(())
    }

    fn discard(&mut self, _name: &str, draft: ShelfDraft<'a>) {
        self.waiting = self.waiting.saturating_sub(1);
        drop(draft);
    }
}

//! A chunk of a source: how many lines it has, and what is kept of them together.
ghost use Rattle.std.specs.Prelude.{◌≡◌, ◌+◌, ◌<◌, ◌++◌, ◌∷◌, ℕ, [], List, OnOk, is_some, slice_set, true};
ghost use Rattle.cps_state.specs.Course.{Trace as Did};
ghost use Rattle.cps_chunk.specs.Code.Chunk.{IsChunkOf, WasMarked};

use crate::key_filter::KeyFilter;
use crate::storing::store_all;
use cps_final::{NamedFinals, RunAsks, Storage};
use cps_state::{Hashing, Trace};
use std::alloc::{AllocError, Global};

/// Some lines one after another.
#[derive(Drop)]
pub struct Chunk {
    pub lines: usize,
    /// Marks of all keys that they put, and perhaps of others.
    pub puts: KeyFilter,
    /// Marks of all keys that they ask, and of all labels that they name, and perhaps of others.
    pub reads: KeyFilter,
    /// What they ask together, exactly, if that was gathered.
    pub run: Option<RunAsks>,
    /// What they name, likewise.
    pub names: Option<NamedFinals>,
    /// Where they alone put blocks and literals, and the name that they give the program, likewise.
    pub storage: Option<Storage>,
}

impl Chunk {
    /// Of lines that did this. Nothing is gathered of them, but marks.
    pub fn of(hashing: Hashing, traces: &[Trace]) -> Chunk
        ensures { IsChunkOf hashing traces.now result }
    {
        let mut chunk = Chunk {
            lines: 0,
            puts: KeyFilter::none(),
            reads: KeyFilter::none(),
            run: None,
            names: None,
            storage: None,
        };
        for trace in traces {
            chunk.grow(hashing, trace);
        }
        chunk
    }

    /// With one line more, behind the others. What was gathered is forgotten.
    pub fn grow(&mut self, hashing: Hashing, trace: &Trace)
        requires { self.old.lines < usize.MAX }
        ensures chunk { (ts : List Did) → IsChunkOf hashing ts self.old → IsChunkOf hashing (ts ++ trace.now ∷ []) self.new }
        ensures lines { self.new.lines ≡ self.old.lines + 1 }
    {
        self.lines += 1;
        self.mark(hashing, trace);
    }

    /// One of its lines does this now. What was gathered is forgotten, and the marks of what the line did before stay.
    pub fn mark(&mut self, hashing: Hashing, trace: &Trace)
        ensures lines { self.new.lines ≡ self.old.lines }
        ensures marked { WasMarked hashing trace.now self.old self.new }
        ensures chunk { (ts : List Did) (at : ℕ) → IsChunkOf hashing ts self.old → IsChunkOf hashing (slice_set ts at trace.now) self.new }
    {
        self.puts.mark_puts(hashing, trace);
        self.reads.mark_asks(hashing, trace);
        self.reads.mark_names(hashing, trace);
        self.run = None;
        self.names = None;
        self.storage = None;
    }

    /// Gathers what its lines ask together, if it was not.
    pub fn gather_run(
        &mut self,
        alloc: Global,
        hashing: Hashing,
        traces: &[Trace],
    ) -> Result<(), AllocError>
        requires { IsChunkOf hashing traces.now self.old }
        ensures chunk { IsChunkOf hashing traces.now self.new }
        ensures lines { self.new.lines ≡ self.old.lines }
        ensures gathered { OnOk result (is_some self.new.run ≡ true) }
    {
        if self.run.is_some() {
            return Ok(());
        }
        let run = RunAsks::of(alloc, hashing, traces)?;
        self.run = Some(run);
        Ok(())
    }

    /// Gathers what its lines name, likewise.
    pub fn gather_names(
        &mut self,
        alloc: Global,
        hashing: Hashing,
        traces: &[Trace],
    ) -> Result<(), AllocError>
        requires { IsChunkOf hashing traces.now self.old }
        ensures chunk { IsChunkOf hashing traces.now self.new }
        ensures lines { self.new.lines ≡ self.old.lines }
        ensures gathered { OnOk result (is_some self.new.names ≡ true) }
    {
        if self.names.is_some() {
            return Ok(());
        }
        let names = NamedFinals::of(alloc, hashing, traces)?;
        self.names = Some(names);
        Ok(())
    }

    /// Gathers where its lines put blocks and literals, likewise.
    pub fn gather_storage(
        &mut self,
        alloc: Global,
        hashing: Hashing,
        traces: &[Trace],
    ) -> Result<(), AllocError>
        requires { IsChunkOf hashing traces.now self.old }
        ensures chunk { IsChunkOf hashing traces.now self.new }
        ensures lines { self.new.lines ≡ self.old.lines }
        ensures gathered { OnOk result (is_some self.new.storage ≡ true) }
    {
        if self.storage.is_some() {
            return Ok(());
        }
        let mut storage = Storage::new(alloc, hashing);
        store_all(&mut storage, traces)?;
        self.storage = Some(storage);
        Ok(())
    }
}

//! What is kept of a source, and new lines in the place of others.
ghost use Rattle.std.specs.Prelude.{◌≡◌, ◌+◌, ◌<◌, ◌^◌, [], IfOk, OnOk, OnErr, vec_len};
ghost use Rattle.cps_chunk.specs.Code.Chunk.{lengths_of};
ghost use Rattle.cps_live.specs.Edits.{AreRedone};
ghost use Rattle.cps_live.specs.Code.Editing.{AreKept, ArePatchedEnds, AreNewTraces, AreOutcomesOf, HasPassedAgain, HasReadNews, HasRoomFor, HasRoomToPatch, IsSplice, IsEdited, IsFirstPass, IsKept, IsStill, IsStillWith, LooksOfFirst, LooksOfSplice, StepsOfFirst, StepsOfSplice, with_news, splice_of};
ghost use Rattle.cps_live.specs.Code.Redone.{ArePlacesOf};
ghost use Rattle.cps_live.specs.Code.Storing.{IsStorageOf};

use crate::chunk_list::{mark_all, put_chunks};
use crate::first_pass::FirstPass;
use crate::lists::{make_room_for, put_at};
use crate::names_read::NamesRead;
use crate::news::News;
use crate::redone::Redone;
use crate::second_pass::SecondPass;
use crate::storage::storage_behind;
use cps_chunk::{Baseline, Chunk, ChunkSplice};
use cps_edit::step_two_all;
use cps_final::{Ends, Finals, FinalsPatch, Outcome, Storage};
use cps_state::{Hashing, Scratch, State, Trace, Work};
use cps_text::Line;
use std::alloc::{AllocError, Global};
use std::mem::replace;

/// The lines of a source, what each did in pass one, what pass two makes of each, their chunks, and what stands behind the last line.
#[derive(Drop)]
pub struct KeptSource {
    pub alloc: Global,
    pub hashing: Hashing,
    /// What stands before the first line.
    pub first: State,
    pub lines: Vec<Line>,
    pub traces: Vec<Trace>,
    pub outcomes: Vec<Outcome>,
    pub chunks: Vec<Chunk>,
    pub finals: Finals,
    /// All symbols that the lines read, and perhaps others.
    pub read: NamesRead,
    /// The lists that the next line behind the last is stepped with.
    pub scratch: Scratch,
    /// What the line that was put behind the last changed there. The next one takes its room.
    pub patch: Option<Box<FinalsPatch>>,
}

/// What the passes make of an edit, and a list for the new chunks.
#[derive(Drop)]
struct NewParts {
    traces: News<Trace>,
    outcomes: News<Outcome>,
    chunks: Vec<Chunk>,
}

impl KeptSource {
    /// No line. Takes no memory.
    pub fn new(alloc: Global, hashing: Hashing) -> KeptSource
        ensures lines { result.lines.items ≡ [] }
        ensures chunks { result.chunks.items ≡ [] }
        ensures kept { IsKept result }
    {
        KeptSource {
            alloc,
            hashing,
            first: State::first(alloc, hashing),
            lines: Vec::new(alloc),
            traces: Vec::new(alloc),
            outcomes: Vec::new(alloc),
            chunks: Vec::new(alloc),
            finals: Finals::new(alloc, hashing),
            read: NamesRead::new(alloc, hashing),
            scratch: Scratch::new(alloc),
            patch: None,
        }
    }

    /// How many lines each chunk has.
    pub fn lengths(&self) -> Result<Vec<usize>, AllocError>
        ensures { IfOk result (λ lengths. lengths.items ≡ lengths_of self.now.chunks.items) }
    {
        let mut lengths = Vec::with_capacity(self.alloc, self.chunks.len())?;
        for chunk in &self.chunks {
            lengths.push(chunk.lines)?;
        }
        Ok(lengths)
    }

    /// Puts new lines in the place of others, and makes both passes of the edit. Tells what is made anew beside the new lines. Where there is no memory, the lines
    /// stay as they are, and so does what is kept of them.
    pub fn splice(&mut self, cut: ChunkSplice, work: &mut Work) -> Result<Redone, AllocError>
        requires kept { IsKept self.old }
        requires cut { IsSplice self.old.lines.items (lengths_of self.old.chunks.items) cut }
        requires few { vec_len self.old.lines + vec_len cut.lines < 2 ^ 63 }
        ensures kept { IsKept self.new }
        ensures ok { OnOk result (IsEdited cut self.old self.new) }
        ensures redone { IfOk result (λ redone. AreRedone self.old.outcomes.items (splice_of cut) self.new.outcomes.items redone.places.items) }
        ensures err { OnErr result (IsStill self.old self.new) }
        ensures steps { StepsOfSplice result self.old cut work.old work.new }
        ensures looked { LooksOfSplice self.old cut work.old work.new }
    {
        let pass = self.pass_one(&cut, work)?;
        let FirstPass { traces, changes } = pass;
        let storage = self.storage_of(&cut, &traces)?;
        let mut patch = FinalsPatch { changes, storage };
        let chunks = self.make_room(&patch, &cut)?;
        self.finals.exchange(&mut patch);
        match self.redo(&cut, &traces, &patch, work) {
            Ok(made) => {
                let (outcomes, redone) = made;
                drop(patch);
                let parts = NewParts {
                    traces,
                    outcomes,
                    chunks,
                };
                self.commit(cut, parts);
                Ok(redone)
            }
            Err(refused) => {
                self.finals.exchange(&mut patch);
                Err(refused)
            }
        }
    }

    /// The source as it stands.
    pub fn baseline(&self) -> Baseline<'_>
        ensures first { result.first.now ≡ self.now.first }
        ensures lines { result.lines.now ≡ self.now.lines.items }
        ensures traces { result.traces.now ≡ self.now.traces.items }
        ensures hashing { result.hashing ≡ self.now.hashing }
    {
        Baseline {
            alloc: self.alloc,
            hashing: self.hashing,
            first: &self.first,
            lines: &self.lines,
            traces: &self.traces,
        }
    }

    /// Pass one of an edit.
    fn pass_one(&mut self, cut: &ChunkSplice, work: &mut Work) -> Result<FirstPass, AllocError>
        requires kept { IsKept self.old }
        requires cut { IsSplice self.old.lines.items (lengths_of self.old.chunks.items) cut.now }
        ensures kept { IsKept self.new }
        ensures still { IsStill self.old self.new }
        ensures pass { IfOk result (IsFirstPass self.old.lines.items (splice_of cut.now)) }
        ensures steps { StepsOfFirst result self.old.lines.items cut.now work.old work.new }
        ensures looked { LooksOfFirst self.old.lines.items (lengths_of self.old.chunks.items) cut.now work.old work.new }
    {
        let base = Baseline {
            alloc: self.alloc,
            hashing: self.hashing,
            first: &self.first,
            lines: &self.lines,
            traces: &self.traces,
        };
        if cut.keep == self.lines.len() {
            return FirstPass::of_append(base, self.finals.state(), cut, work);
        }
        FirstPass::of_splice(base, &mut self.chunks, cut, work)
    }

    /// Where blocks and literals stand behind an edit, None where they stand as they stood. What chunks leave is gathered where it was not.
    fn storage_of(
        &mut self,
        cut: &ChunkSplice,
        traces: &News<Trace>,
    ) -> Result<Option<Storage>, AllocError>
        requires kept { IsKept self.old }
        requires cut { IsSplice self.old.lines.items (lengths_of self.old.chunks.items) cut.now }
        requires few { vec_len self.old.lines + vec_len cut.now.lines < 2 ^ 63 }
        requires traces { AreNewTraces self.old.lines.items (splice_of cut.now) traces.now }
        ensures kept { IsKept self.new }
        ensures still { IsStillWith self.old self.new }
        ensures storage { IfOk result (IsStorageOf self.old.lines.items (splice_of cut.now)) }
    {
        let base = Baseline {
            alloc: self.alloc,
            hashing: self.hashing,
            first: &self.first,
            lines: &self.lines,
            traces: &self.traces,
        };
        storage_behind(base, &mut self.chunks, self.finals.storage(), cut, traces)
    }

    /// Room for what an edit brings beyond what goes. Gives a list for its chunks.
    fn make_room(
        &mut self,
        patch: &FinalsPatch,
        cut: &ChunkSplice,
    ) -> Result<Vec<Chunk>, AllocError>
        requires kept { IsKept self.old }
        requires cut { IsSplice self.old.lines.items (lengths_of self.old.chunks.items) cut.now }
        ensures kept { IsKept self.new }
        ensures still { IsStill self.old self.new }
        ensures room { IfOk result (HasRoomFor self.new cut.now) }
        ensures finals { OnOk result (HasRoomToPatch self.new patch.now) }
    {
        let lines = cut.lines.len().saturating_sub(cut.from - cut.keep);
        let chunks = cut.lengths.len().saturating_sub(cut.end - cut.start);
        make_room_for(&mut self.lines, lines)?;
        make_room_for(&mut self.traces, lines)?;
        make_room_for(&mut self.outcomes, lines)?;
        make_room_for(&mut self.chunks, chunks)?;
        self.finals.make_room(patch)?;
        Vec::with_capacity(self.alloc, cut.lengths.len())
    }

    /// Pass two of an edit, under the final values behind it, and where it makes lines anew that were there before.
    fn redo(
        &mut self,
        cut: &ChunkSplice,
        traces: &News<Trace>,
        patch: &FinalsPatch,
        work: &mut Work,
    ) -> Result<(News<Outcome>, Redone), AllocError>
        requires kept { AreKept self.old }
        requires cut { IsSplice self.old.lines.items (lengths_of self.old.chunks.items) cut.now }
        requires few { vec_len self.old.lines + vec_len cut.now.lines < 2 ^ 63 }
        requires traces { AreNewTraces self.old.lines.items (splice_of cut.now) traces.now }
        requires ends { ArePatchedEnds self.old patch.now cut.now }
        ensures kept { AreKept self.new }
        ensures still { IsStillWith self.old self.new }
        ensures made { IfOk result (λ made. AreOutcomesOf self.old cut.now made.0) }
        ensures places { IfOk result (λ made. ArePlacesOf cut.now made.0 made.1) }
        ensures read { IfOk result (λ made. HasReadNews self.new.read made.0) }
        ensures work { HasPassedAgain result self.old cut.now work.old work.new }
    {
        let outcomes = self.pass_two(cut, traces, patch, work)?;
        let places = outcomes.places(self.alloc, cut.keep, cut.from)?;
        Ok((outcomes, Redone { places }))
    }

    /// Pass two of an edit, under the final values behind it.
    fn pass_two(
        &mut self,
        cut: &ChunkSplice,
        traces: &News<Trace>,
        patch: &FinalsPatch,
        work: &mut Work,
    ) -> Result<News<Outcome>, AllocError>
        requires kept { AreKept self.old }
        requires cut { IsSplice self.old.lines.items (lengths_of self.old.chunks.items) cut.now }
        requires traces { AreNewTraces self.old.lines.items (splice_of cut.now) traces.now }
        requires ends { ArePatchedEnds self.old patch.now cut.now }
        ensures kept { AreKept self.new }
        ensures still { IsStillWith self.old self.new }
        ensures made { IfOk result (AreOutcomesOf self.old cut.now) }
        ensures read { IfOk result (HasReadNews self.new.read) }
        ensures work { HasPassedAgain result self.old cut.now work.old work.new }
    {
        let base = Baseline {
            alloc: self.alloc,
            hashing: self.hashing,
            first: &self.first,
            lines: &self.lines,
            traces: &self.traces,
        };
        let ends = Ends {
            finals: &self.finals,
            patch,
        };
        let entered = step_two_all(self.alloc, &traces.entered, ends.finals, work)?;
        let mut pass = SecondPass::new(base, ends, &self.read)?;
        pass.go_around(&mut self.chunks, cut, &traces.renewed, work)?;
        let renewed = pass.into_news();
        self.read.add_all(&entered)?;
        self.read.add_renewed(&renewed)?;
        Ok(News { entered, renewed })
    }

    /// Puts all that comes with an edit in its place, where there is room for it.
    fn commit(&mut self, cut: ChunkSplice, parts: NewParts)
        requires kept { AreKept self.old }
        requires cut { IsSplice self.old.lines.items (lengths_of self.old.chunks.items) cut }
        requires traces { AreNewTraces self.old.lines.items (splice_of cut) parts.traces }
        requires outcomes { AreOutcomesOf self.old cut parts.outcomes }
        requires read { HasReadNews self.old.read parts.outcomes }
        requires room { HasRoomFor self.old cut parts.chunks }
        ensures kept { AreKept self.new }
        ensures edited { IsEdited cut self.old self.new }
        ensures outcomes { self.new.outcomes.items ≡ with_news cut parts.outcomes self.old.outcomes.items }
        ensures finals { self.new.finals ≡ self.old.finals }
    {
        let NewParts {
            traces,
            outcomes,
            chunks,
        } = parts;
        let mut cut = cut;
        let lines = replace(&mut cut.lines, Vec::new(self.alloc));
        mark_all(&mut self.chunks, self.hashing, &traces.renewed);
        put_at(&mut self.lines, cut.keep, cut.from, lines);
        traces.put(&mut self.traces, cut.keep, cut.from);
        outcomes.put(&mut self.outcomes, cut.keep, cut.from);
        put_chunks(&mut self.chunks, self.hashing, &cut, &self.traces, chunks);
    }
}

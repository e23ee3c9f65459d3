//! Two runs of lines that change places.
ghost use Rattle.std.specs.Prelude.{◌≡◌, ◌<◌, ◌^◌, IfOk, OnOk, OnErr, length, vec_len};
ghost use Rattle.cps_chunk.specs.Code.Chunk.{lengths_of};
ghost use Rattle.cps_edit.specs.Compares.{ComparesUpTo, Steps};
ghost use Rattle.cps_chunk.specs.Sparse.{AreWithin};
ghost use Rattle.cps_chunk.specs.Code.Moved.{replayed_moved};
ghost use Rattle.cps_live.specs.Code.Editing.{AreKept, HasRoomToPatch, IsKept, IsStill, IsStillWith};
ghost use Rattle.cps_live.specs.Code.NamesRead.{HasRead, items_of};
ghost use Rattle.cps_live.specs.Code.Exchanged.{AreMovedParts, HasPassedMoved, HasRuns, IsExchanged, IsMovedPass, IsMovedStorage, IsRecutMoved, LooksOfExchange, StepsOfExchange, looks_by, redone_by};

use crate::chunk_list::mark_all;
use crate::first_pass::FirstPass;
use crate::kept_source::KeptSource;
use crate::second_pass::SecondPass;
use crate::storage::storage_moved;
use cps_chunk::{Baseline, Chunk, RecutChunk, SparseItem, chunks_moved, put_all, recut_exchange};
use cps_edit::Exchange;
use cps_final::{Ends, FinalsPatch, Outcome, Storage};
use cps_state::{Trace, Work};
use std::alloc::AllocError;
use std::mem::replace;

/// What the passes make of a move, which chunks come, and a list for them.
#[derive(Drop)]
struct MovedParts {
    traces: Vec<SparseItem<Trace>>,
    outcomes: Vec<SparseItem<Outcome>>,
    pieces: Vec<RecutChunk>,
    chunks: Vec<Chunk>,
}

impl KeptSource {
    /// Puts each of two runs of lines in the place of the other, and makes both passes. Where there is no memory, the lines stay as they are, and so does what is
    /// kept of them.
    pub fn exchange(&mut self, exchange: Exchange, work: &mut Work) -> Result<(), AllocError>
        requires kept { IsKept self.old }
        requires few { vec_len self.old.lines < 2 ^ 63 }
        requires runs { HasRuns (vec_len self.old.lines) exchange }
        ensures kept { IsKept self.new }
        ensures moved { OnOk result (IsExchanged exchange self.old self.new) }
        ensures err { OnErr result (IsStill self.old self.new) }
        ensures steps { StepsOfExchange result exchange self.old work.old work.new }
        ensures looked { LooksOfExchange exchange self.old work.old work.new }
    {
        let pieces = self.pieces_of(exchange)?;
        let chunks = Vec::with_capacity(self.alloc, pieces.len())?;
        let pass = self.pass_one_moved(exchange, work)?;
        let FirstPass { traces, changes } = pass;
        let traces = traces.into_renewed();
        let storage = self.storage_of_move(exchange, &traces)?;
        let mut patch = FinalsPatch { changes, storage };
        self.make_room_to_patch(&patch)?;
        self.finals.exchange(&mut patch);
        match self.pass_again(&traces, &patch, work) {
            Ok(outcomes) => {
                drop(patch);
                let parts = MovedParts {
                    traces,
                    outcomes,
                    pieces,
                    chunks,
                };
                self.commit_moved(exchange, parts);
                Ok(())
            }
            Err(refused) => {
                self.finals.exchange(&mut patch);
                Err(refused)
            }
        }
    }

    /// The chunks of an exchange, and which of the old ones each is.
    fn pieces_of(&self, exchange: Exchange) -> Result<Vec<RecutChunk>, AllocError>
        requires kept { IsKept self.now }
        requires few { vec_len self.now.lines < 2 ^ 63 }
        requires runs { HasRuns (vec_len self.now.lines) exchange }
        ensures { IfOk result (λ pieces. IsRecutMoved self.now exchange pieces.items) }
    {
        let lengths = self.lengths()?;
        recut_exchange(self.alloc, &lengths, exchange)
    }

    /// Pass one of a move.
    fn pass_one_moved(
        &mut self,
        exchange: Exchange,
        work: &mut Work,
    ) -> Result<FirstPass, AllocError>
        requires kept { IsKept self.old }
        requires runs { HasRuns (vec_len self.old.lines) exchange }
        ensures kept { IsKept self.new }
        ensures still { IsStill self.old self.new }
        ensures pass { IfOk result (IsMovedPass self.old.lines.items exchange) }
        ensures passed { HasPassedMoved result self.old.lines.items exchange (lengths_of self.old.chunks.items) work.old work.new }
    {
        let base = Baseline {
            alloc: self.alloc,
            hashing: self.hashing,
            first: &self.first,
            lines: &self.lines,
            traces: &self.traces,
        };
        FirstPass::of_exchange(base, &mut self.chunks, exchange, work)
    }

    /// Where blocks and literals stand behind a move in which these lines do something new, None where they stand as they stood. What chunks leave is gathered
    /// where it was not.
    fn storage_of_move(
        &mut self,
        exchange: Exchange,
        traces: &[SparseItem<Trace>],
    ) -> Result<Option<Storage>, AllocError>
        requires kept { IsKept self.old }
        requires few { vec_len self.old.lines < 2 ^ 63 }
        requires runs { HasRuns (vec_len self.old.lines) exchange }
        requires traces { traces.now ≡ replayed_moved self.old.lines.items exchange }
        ensures kept { IsKept self.new }
        ensures still { IsStillWith self.old self.new }
        ensures storage { IfOk result (IsMovedStorage self.old.lines.items exchange) }
    {
        let base = Baseline {
            alloc: self.alloc,
            hashing: self.hashing,
            first: &self.first,
            lines: &self.lines,
            traces: &self.traces,
        };
        storage_moved(base, &mut self.chunks, exchange, traces)
    }

    /// Room for what a move changes behind the last line, once and back.
    fn make_room_to_patch(&mut self, patch: &FinalsPatch) -> Result<(), AllocError>
        requires { IsKept self.old }
        ensures kept { IsKept self.new }
        ensures still { IsStill self.old self.new }
        ensures room { OnOk result (HasRoomToPatch self.new patch.now) }
    {
        self.finals.make_room(patch)
    }

    /// Pass two over all lines, of which these do something new, under the final values that are kept.
    pub(crate) fn pass_again(
        &mut self,
        traces: &[SparseItem<Trace>],
        patch: &FinalsPatch,
        work: &mut Work,
    ) -> Result<Vec<SparseItem<Outcome>>, AllocError>
        requires kept { AreKept self.old }
        requires few { vec_len self.old.lines < 2 ^ 63 }
        requires news { AreWithin 0 (vec_len self.old.lines) traces.now }
        ensures kept { AreKept self.new }
        ensures still { IsStillWith self.old self.new }
        ensures made { IfOk result (λ made. made.items ≡ redone_by self.old patch.now traces.now) }
        ensures read { IfOk result (λ made. HasRead self.new.read (items_of made.items)) }
        ensures steps { Steps result work.old work.new 0 (length (redone_by self.old patch.now traces.now)) }
        ensures looked { ComparesUpTo work.old work.new (looks_by self.old patch.now traces.now) }
    {
        let base = Baseline {
            alloc: self.alloc,
            hashing: self.hashing,
            first: &self.first,
            lines: &self.lines,
            traces: &self.traces,
        };
        let ends = Ends {
            finals: &self.finals,
            patch,
        };
        let mut pass = SecondPass::new(base, ends, &self.read)?;
        pass.go_over_chunks(0, &mut self.chunks, traces, work)?;
        let renewed = pass.into_news();
        self.read.add_renewed(&renewed)?;
        Ok(renewed)
    }

    /// Puts all that comes with a move in its place. Takes no memory.
    fn commit_moved(&mut self, exchange: Exchange, parts: MovedParts)
        requires kept { AreKept self.old }
        requires runs { HasRuns (vec_len self.old.lines) exchange }
        requires parts { AreMovedParts self.old exchange parts }
        requires read { HasRead self.old.read (items_of parts.outcomes.items) }
        ensures kept { AreKept self.new }
        ensures moved { IsExchanged exchange self.old self.new }
        ensures finals { self.new.finals ≡ self.old.finals }
    {
        let MovedParts {
            traces,
            outcomes,
            pieces,
            chunks,
        } = parts;
        mark_all(&mut self.chunks, self.hashing, &traces);
        put_all(&mut self.traces, traces);
        put_all(&mut self.outcomes, outcomes);
        exchange.turn(&mut self.lines);
        exchange.turn(&mut self.traces);
        exchange.turn(&mut self.outcomes);
        let olds = replace(&mut self.chunks, Vec::new(self.alloc));
        self.chunks = chunks_moved(self.hashing, olds, &pieces, &self.traces, chunks);
    }
}

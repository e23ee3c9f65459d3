//! Pass one of an edit.
ghost use Rattle.std.specs.Prelude.{◌≡◌, IfOk, OnOk, length};
ghost use Rattle.cps_state.specs.Keys.{first_state};
ghost use Rattle.cps_edit.specs.Passes.{state_after, traces_from};
ghost use Rattle.cps_chunk.specs.Code.Chunk.{AreChunksOf, lengths_of};
ghost use Rattle.cps_chunk.specs.Replayed.{state_front};
ghost use Rattle.cps_chunk.specs.Code.Walk.{IsBaseline, IsStillWalk, IsWalk};
ghost use Rattle.cps_live.specs.Code.Editing.{IsSplice, IsFirstPass, LooksOfFirst, StepsOfFirst, splice_of, traces_of_new};
ghost use Rattle.cps_live.specs.Code.Exchanged.{HasPassedMoved, HasRuns, IsMovedPass};
ghost use Rattle.cps_live.specs.Code.FirstPass.{BeginsWalk, IsWalked};

use crate::moved_pass::go_over_moved;
use crate::news::News;
use cps_chunk::{Baseline, Chunk, ChunkSplice, Cursor, Replay, Walk};
use cps_edit::Exchange;
use cps_final::Changes;
use cps_state::{Lookup, State, Trace, Work};
use std::alloc::AllocError;
use std::mem::replace;

/// What pass one makes of an edit, and which keys are changed behind the last line.
#[derive(Drop)]
pub struct FirstPass {
    pub traces: News<Trace>,
    pub changes: Changes,
}

impl FirstPass {
    /// Of new lines in the place of others.
    pub fn of_splice(
        base: Baseline,
        chunks: &mut Vec<Chunk>,
        cut: &ChunkSplice,
        work: &mut Work,
    ) -> Result<FirstPass, AllocError>
        requires base { IsBaseline base }
        requires chunks { AreChunksOf base.hashing chunks.old.items base.traces.now }
        requires cut { IsSplice base.lines.now (lengths_of chunks.old.items) cut.now }
        ensures pass { IfOk result (IsFirstPass base.entry.lines.now (splice_of cut.now)) }
        ensures chunks { AreChunksOf base.entry.hashing chunks.new.items base.entry.traces.now }
        ensures lengths { lengths_of chunks.new.items ≡ lengths_of chunks.old.items }
        ensures steps { StepsOfFirst result base.entry.lines.now cut.now work.old work.new }
        ensures looked { LooksOfFirst base.entry.lines.now (lengths_of chunks.old.items) cut.now work.old work.new }
    {
        let olds = replace(chunks, Vec::new(base.alloc));
        let mut walk = Walk::new(base, olds);
        let entered = go_over(&mut walk, cut, work);
        let (olds, replay) = walk.into_parts();
        *chunks = olds;
        let entered = entered?;
        Ok(FirstPass::of_parts(entered, replay))
    }

    /// Of new lines behind the last, where that stands in front of them.
    pub fn of_append(
        base: Baseline,
        state: &State,
        cut: &ChunkSplice,
        work: &mut Work,
    ) -> Result<FirstPass, AllocError>
        requires state { ⟦<State as Lookup>⟧.answer state.now ≡ state_after first_state base.lines.now }
        requires last { (cut.now.keep ≡ length base.lines.now) × (cut.now.from ≡ length base.lines.now) }
        ensures pass { IfOk result (IsFirstPass base.entry.lines.now (splice_of cut.now)) }
        ensures steps { StepsOfFirst result base.entry.lines.now cut.now work.old work.new }
        ensures looked { work.new.looked ≡ work.old.looked }
    {
        let mut replay = Replay::new(base.alloc, base.hashing);
        let entered = replay.enter_all(&cut.lines, state, work)?;
        replay.close(&[], state)?;
        Ok(FirstPass::of_parts(entered, replay))
    }

    /// Of two runs of lines that change places.
    pub fn of_exchange(
        base: Baseline,
        chunks: &mut Vec<Chunk>,
        exchange: Exchange,
        work: &mut Work,
    ) -> Result<FirstPass, AllocError>
        requires base { IsBaseline base }
        requires chunks { AreChunksOf base.hashing chunks.old.items base.traces.now }
        requires runs { HasRuns (length base.lines.now) exchange }
        ensures pass { IfOk result (IsMovedPass base.entry.lines.now exchange) }
        ensures chunks { AreChunksOf base.entry.hashing chunks.new.items base.entry.traces.now }
        ensures lengths { lengths_of chunks.new.items ≡ lengths_of chunks.old.items }
        ensures passed { HasPassedMoved result base.entry.lines.now exchange (lengths_of chunks.old.items) work.old work.new }
    {
        let olds = replace(chunks, Vec::new(base.alloc));
        let mut walk = Walk::new(base, olds);
        let order = go_over_moved(&mut walk, exchange, work);
        let (olds, replay) = walk.into_parts();
        *chunks = olds;
        let order = order?;
        let mut pass = FirstPass::of_parts(Vec::new(base.alloc), replay);
        order.turn(&mut pass.traces.renewed);
        Ok(pass)
    }

    fn of_parts(entered: Vec<Trace>, replay: Replay) -> FirstPass
        ensures entered { result.traces.entered ≡ entered }
        ensures renewed { result.traces.renewed ≡ replay.news }
        ensures changes { result.changes ≡ replay.log.changes }
    {
        let (renewed, changes) = replay.into_parts();
        FirstPass {
            traces: News { entered, renewed },
            changes,
        }
    }
}

/// Goes over new lines, and all lines behind them. Gives what the new lines do.
fn go_over(walk: &mut Walk, cut: &ChunkSplice, work: &mut Work) -> Result<Vec<Trace>, AllocError>
    requires walk { IsWalk walk.old }
    requires begins { BeginsWalk walk.old }
    requires cut { IsSplice walk.old.base.lines.now (lengths_of walk.old.chunks.items) cut.now }
    ensures entered { IfOk result (λ entered. entered.items ≡ traces_of_new walk.old.base.lines.now cut.now) }
    ensures over { OnOk result (IsWalked walk.old walk.new (splice_of cut.now)) }
    ensures walk { IsStillWalk walk.old walk.new }
    ensures steps { StepsOfFirst result walk.old.base.lines.now cut.now work.old work.new }
    ensures looked { LooksOfFirst walk.old.base.lines.now (lengths_of walk.old.chunks.items) cut.now work.old work.new }
{
    let entered = walk.enter_all(cut.keep, &cut.lines, work)?;
    walk.close(cut.keep, cut.from)?;
    walk.go_over_lines(cut.from, cut.behind, work)?;
    let first = Cursor {
        chunk: cut.end,
        line: cut.behind,
    };
    let end = walk.end();
    walk.go_over_chunks(first, end.chunk, end.line, work)?;
    Ok(entered)
}

//! A line behind the last.
ghost use Rattle.std.specs.Prelude.{◌≡◌, ◌+◌, ◌<◌, ◌^◌, IfOk, OnOk, OnErr, vec_len};
ghost use Rattle.cps_state.specs.Work.{raised};
ghost use Rattle.cps_state.specs.declared.work.Tally.TheVariants.{Ones};
ghost use Rattle.cps_live.specs.Code.Append.{AreOutcomesBy, AreOutcomesWith, HasPassedWith, HasReadWith, HasRoomForOne, IsAppended, IsPatchOf, LooksOfAppend, StepsOfAppend, trace_behind};
ghost use Rattle.cps_live.specs.Code.Editing.{AreKept, HasRoomToPatch, IsKept, IsStill, IsStillWith};

use crate::chunk_list::grow_last;
use crate::kept_source::KeptSource;
use crate::lists::make_room_for;
use crate::storage::storage_with;
use cps_chunk::division_laws::an_insertion_divides_again;
use cps_chunk::{SparseItem, put_all};
use cps_final::{Changes, FinalsPatch, Outcome, step_two};
use cps_pass::step_over;
use cps_state::{Trace, Work};
use cps_text::Line;
use std::alloc::AllocError;
use std::mem::replace;

/// What pass two makes of a line behind the last, and of the lines in front of it that it disturbs.
#[derive(Drop)]
struct OutcomesWith {
    own: Outcome,
    renewed: Vec<SparseItem<Outcome>>,
}

impl KeptSource {
    /// Puts a line behind the last, and makes both passes of it. Where there is no memory, the lines stay as they are, and so does what is kept of them.
    pub fn append(&mut self, line: Line, work: &mut Work) -> Result<(), AllocError>
        requires kept { IsKept self.old }
        requires few { vec_len self.old.lines + 1 < 2 ^ 63 }
        ensures kept { IsKept self.new }
        ensures ok { OnOk result (IsAppended line self.old self.new) }
        ensures err { OnErr result (IsStill self.old self.new) }
        ensures steps { StepsOfAppend result self.old line work.old work.new }
        ensures looked { LooksOfAppend self.old line work.old work.new }
    {
        an_insertion_divides_again();
        let trace = self.step_behind(&line, work)?;
        let mut kept = self.patch_for(&trace)?;
        let patch = &mut *kept;
        self.make_room_for_one(patch)?;
        self.finals.exchange(patch);
        match self.pass_two_with(&trace, patch, work) {
            Ok(outcomes) => {
                self.commit_with(line, trace, outcomes);
                self.keep_patch(kept);
                Ok(())
            }
            Err(refused) => {
                self.finals.exchange(patch);
                Err(refused)
            }
        }
    }

    /// What the line does behind the last.
    fn step_behind(&mut self, line: &Line, work: &mut Work) -> Result<Trace, AllocError>
        requires kept { IsKept self.old }
        ensures kept { IsKept self.new }
        ensures still { IsStill self.old self.new }
        ensures trace { IfOk result (λ trace. trace ≡ trace_behind self.old line.now) }
        ensures step { work.new ≡ raised Ones work.old }
    {
        step_over(
            self.alloc,
            work,
            &mut self.scratch,
            line,
            self.finals.state(),
        )
    }

    /// What a line that does this changes behind the last, in the room of what the line before it changed.
    fn patch_for(&mut self, trace: &Trace) -> Result<Box<FinalsPatch>, AllocError>
        requires kept { IsKept self.old }
        ensures kept { IsKept self.new }
        ensures still { IsStill self.old self.new }
        ensures patch { IfOk result (λ patch. IsPatchOf self.old trace.now patch.value) }
    {
        let mut patch = self.take_patch()?;
        self.fill_patch(trace, &mut patch)?;
        Ok(patch)
    }

    /// The patch of the append before, for its room. Takes memory for the first.
    fn take_patch(&mut self) -> Result<Box<FinalsPatch>, AllocError>
        requires kept { IsKept self.old }
        ensures kept { IsKept self.new }
        ensures still { IsStill self.old self.new }
    {
        if let Some(patch) = replace(&mut self.patch, None) {
            return Ok(patch);
        }
        let patch = FinalsPatch {
            changes: Changes::new(self.alloc, self.hashing),
            storage: None,
        };
        Ok(Box::new(self.alloc, patch)?)
    }

    /// Puts what a line that does this changes behind the last in the place of what stood in a patch.
    fn fill_patch(&mut self, trace: &Trace, patch: &mut FinalsPatch) -> Result<(), AllocError>
        requires kept { IsKept self.old }
        ensures kept { IsKept self.new }
        ensures still { IsStill self.old self.new }
        ensures patch { OnOk result (IsPatchOf self.old trace.now patch.new) }
    {
        patch.storage = storage_with(self.finals.storage(), trace)?;
        patch.changes.clear();
        patch.changes.put_all(trace.puts())?;
        Ok(())
    }

    /// The next append takes the room of this patch.
    fn keep_patch(&mut self, patch: Box<FinalsPatch>)
        requires kept { IsKept self.old }
        ensures kept { IsKept self.new }
        ensures still { IsStill self.old self.new }
    {
        drop(replace(&mut self.patch, Some(patch)));
    }

    /// Room for a line more, and for what it changes behind the last, once and back.
    fn make_room_for_one(&mut self, patch: &FinalsPatch) -> Result<(), AllocError>
        requires kept { IsKept self.old }
        requires few { vec_len self.old.lines + 1 < 2 ^ 63 }
        ensures kept { IsKept self.new }
        ensures still { IsStill self.old self.new }
        ensures room { OnOk result (HasRoomForOne self.new) }
        ensures finals { OnOk result (HasRoomToPatch self.new patch.now) }
    {
        make_room_for(&mut self.lines, 1)?;
        make_room_for(&mut self.traces, 1)?;
        make_room_for(&mut self.outcomes, 1)?;
        make_room_for(&mut self.chunks, 1)?;
        self.finals.make_room(patch)
    }

    /// Pass two of the line, and of those in front of it, under the final values behind it.
    fn pass_two_with(
        &mut self,
        trace: &Trace,
        patch: &FinalsPatch,
        work: &mut Work,
    ) -> Result<OutcomesWith, AllocError>
        requires kept { AreKept self.old }
        requires few { vec_len self.old.lines < 2 ^ 63 }
        ensures kept { AreKept self.new }
        ensures still { IsStillWith self.old self.new }
        ensures made { IfOk result (AreOutcomesBy self.old patch.now trace.now) }
        ensures read { IfOk result (HasReadWith self.new.read) }
        ensures work { HasPassedWith result self.old patch.now work.old work.new }
    {
        let own = step_two(self.alloc, work, trace, &self.finals)?;
        let renewed = self.pass_again(&[], patch, work)?;
        self.read.add_one(&own)?;
        Ok(OutcomesWith { own, renewed })
    }

    /// Puts all that comes with the line in its place, where there is room for it.
    fn commit_with(&mut self, line: Line, trace: Trace, outcomes: OutcomesWith)
        requires kept { AreKept self.old }
        requires trace { trace ≡ trace_behind self.old line }
        requires made { AreOutcomesWith self.old line outcomes }
        requires read { HasReadWith self.old.read outcomes }
        requires room { HasRoomForOne self.old }
        ensures kept { AreKept self.new }
        ensures appended { IsAppended line self.old self.new }
        ensures finals { self.new.finals ≡ self.old.finals }
    {
        an_insertion_divides_again();
        let OutcomesWith { own, renewed } = outcomes;
        put_all(&mut self.outcomes, renewed);
        grow_last(&mut self.chunks, self.hashing, &trace);
        self.lines.push_reserved(line);
        self.traces.push_reserved(trace);
        self.outcomes.push_reserved(own);
    }
}

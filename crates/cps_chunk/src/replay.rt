//! Pass one of an edit: new lines, and lines that were there before.
ghost use Rattle.std.specs.Prelude.{◌≡◌, [], OnOk, IfOk, length};
ghost use Rattle.cps_state.specs.Keys.{overwritten};
ghost use Rattle.cps_state.specs.Work.{counted_on};
ghost use Rattle.cps_state.specs.declared.work.Tally.TheVariants.{Looked};
ghost use Rattle.cps_final.specs.Changes.{no_change, agreed};
ghost use Rattle.cps_final.specs.Code.Kept.{changes_in};
ghost use Rattle.cps_final.specs.Layout.{puts_of};
ghost use Rattle.cps_pass.specs.Expansion.{trace_of};
ghost use Rattle.cps_edit.specs.Compares.{Steps};
ghost use Rattle.cps_edit.specs.Passes.{after, traces_from};
ghost use Rattle.cps_edit.specs.Renewed.{WasMeant};
ghost use Rattle.cps_chunk.specs.Noted.{AreHeld, last_puts, stands};
ghost use Rattle.cps_chunk.specs.Code.Replay.{Closes, GoesBehind, Puts, PutsAlso, RenewsAlso, now_by, now_with, replayed_at};
ghost use Rattle.cps_chunk.specs.Replayed.{puts_at, steps_at};

use crate::change_log::ChangeLog;
use crate::same::still_stands;
use crate::sparse::SparseItem;
use crate::states::{FormerState, StateNow};
use cps_final::{Changes, still_holds};
use cps_pass::step_over;
use cps_state::{Hashing, Lookup, Scratch, Trace, Work};
use cps_text::Line;
use std::alloc::{AllocError, Global};
use std::slice::from_ref;

/// A line that was there before, with so many in front of it, and what it did.
#[derive(Clone, Copy)]
pub struct OldLine<'a> {
    pub at: usize,
    pub line: &'a Line,
    pub trace: &'a Trace,
}

/// Pass one of an edit, as far as it has come.
pub struct Replay {
    alloc: Global,
    log: ChangeLog,
    /// What those lines do now that are disturbed.
    news: Vec<SparseItem<Trace>>,
    /// The lists that the next line uses.
    scratch: Scratch,
}

// Written out: what holds one drops it by a call.
impl Drop for Replay {
    fn drop(self) {
        let Replay {
            alloc: _,
            log,
            news,
            scratch,
        } = self;
        drop(log);
        drop(news);
        drop(scratch);
    }
}

impl Replay {
    /// Nothing is changed. Takes no memory yet.
    pub fn new(alloc: Global, hashing: Hashing) -> Replay
        ensures changes { changes_in result.log.changes ≡ no_change }
        ensures present { changes_in result.log.present ≡ no_change }
        ensures news { result.news.items ≡ [] }
    {
        Replay {
            alloc,
            log: ChangeLog::new(alloc, hashing),
            news: Vec::new(alloc),
            scratch: Scratch::new(alloc),
        }
    }

    /// Goes over a line that was there before, where that stood in front of it then. If something that it asked has another answer now, it is stepped.
    pub fn go_over<L: Lookup>(
        &mut self,
        old: OldLine,
        past: &L,
        work: &mut Work,
    ) -> Result<(), AllocError>
        requires did { old.trace.now ≡ trace_of old.line.now (L.answer past.now) }
        requires present { changes_in self.old.log.present ≡ no_change }
        ensures news { OnOk result (RenewsAlso self.old self.new (replayed_at (now_by self.old.log (L.answer past.now)) old.entry)) }
        ensures state { OnOk result (GoesBehind self.old.log self.new.log (L.answer past.now) old.entry.line.now) }
        ensures present { OnOk result (changes_in self.new.log.present ≡ no_change) }
        ensures steps { Steps result work.old work.new (steps_at (now_by self.old.log (L.answer past.now)) old.entry.trace.now) 0 }
        ensures looked { work.new.looked ≡ counted_on work.old.looked 1 }
    {
        if still_stands(old.trace, self.log.changes(), work) {
            self.log.agree(old.trace.puts());
            return Ok(());
        }
        let known = FormerState {
            asks: old.trace.asks(),
            past,
        };
        let trace = self.step(old.line, &known, work)?;
        self.log.put(trace.puts())?;
        self.log.close(from_ref(old.trace), &known)?;
        self.news.push(SparseItem {
            at: old.at,
            item: trace,
        })?;
        Ok(())
    }

    /// What a new line does behind those so far, where that stood in front of the first new one before.
    pub fn enter<L: Lookup>(
        &mut self,
        line: &Line,
        past: &L,
        work: &mut Work,
    ) -> Result<Trace, AllocError>
        ensures trace { IfOk result (λ trace. trace ≡ trace_of line.now (now_with self.old.log (L.answer past.now))) }
        ensures puts { IfOk result (λ trace. Puts self.old.log self.new.log trace.puts) }
        ensures also { IfOk result (λ trace. PutsAlso self.old.log self.new.log trace.puts) }
        ensures state { OnOk result (now_with self.new.log (L.answer past.now) ≡ after (now_with self.old.log (L.answer past.now)) line.now) }
        ensures changes { self.new.log.changes ≡ self.old.log.changes }
        ensures news { self.new.news ≡ self.old.news }
        ensures steps { Steps result work.old work.new 1 0 }
        ensures looked { work.new.looked ≡ work.old.looked }
    {
        let trace = self.step(line, past, work)?;
        self.log.put(trace.puts())?;
        Ok(trace)
    }

    /// What new lines do, one after another, where that stood in front of the first of them before.
    pub fn enter_all<L: Lookup>(
        &mut self,
        lines: &[Line],
        past: &L,
        work: &mut Work,
    ) -> Result<Vec<Trace>, AllocError>
        requires present { changes_in self.old.log.present ≡ no_change }
        ensures traces { IfOk result (λ traces. traces.items ≡ traces_from (now_by self.old.log (L.answer past.now)) lines.now) }
        ensures puts { IfOk result (λ traces. changes_in self.new.log.present ≡ last_puts (puts_of traces.items)) }
        ensures changes { self.new.log.changes ≡ self.old.log.changes }
        ensures news { self.new.news ≡ self.old.news }
        ensures steps { Steps result work.old work.new (length lines.now) 0 }
        ensures looked { work.new.looked ≡ work.old.looked }
    {
        let mut traces = Vec::with_capacity(self.alloc, lines.len())?;
        for line in lines {
            let trace = self.enter(line, past, work)?;
            traces.push(trace)?;
        }
        Ok(traces)
    }

    /// The new lines end. In their place stood these, in front of which that stood.
    pub fn close<L: Lookup>(&mut self, gone: &[Trace], past: &L) -> Result<(), AllocError>
        requires held { AreHeld (L.answer past.now) gone.now }
        ensures changes { OnOk result (Closes self.old.log self.new.log (L.answer past.now) (puts_of gone.now)) }
        ensures present { OnOk result (changes_in self.new.log.present ≡ no_change) }
        ensures news { self.new.news ≡ self.old.news }
    {
        self.log.close(gone, past)
    }

    /// Goes over a line that was there before and stands behind those so far now, where that stood in front of the first new one before. If something that it
    /// asked has another answer now, it is stepped.
    pub fn carry<L: Lookup>(
        &mut self,
        old: OldLine,
        past: &L,
        work: &mut Work,
    ) -> Result<(), AllocError>
        requires meant { WasMeant old.line.now old.trace.now }
        ensures news { OnOk result (RenewsAlso self.old self.new (replayed_at (now_with self.old.log (L.answer past.now)) old.entry)) }
        ensures puts { OnOk result (PutsAlso self.old.log self.new.log (puts_at (now_with self.old.log (L.answer past.now)) old.entry.line.now)) }
        ensures steps { Steps result work.old work.new (steps_at (now_with self.old.log (L.answer past.now)) old.entry.trace.now) 0 }
        ensures looked { work.new.looked ≡ counted_on work.old.looked 1 }
    {
        if still_holds(old.trace, &self.now(past), work) {
            return self.log.put(old.trace.puts());
        }
        let trace = self.enter(old.line, past, work)?;
        self.news.push(SparseItem {
            at: old.at,
            item: trace,
        })?;
        Ok(())
    }

    /// What stands behind the lines so far, where that stood there before.
    pub fn now<'a, L: Lookup>(&'a self, past: &'a L) -> StateNow<'a, L>
        ensures { ⟦<StateNow<'a, L> as Lookup>⟧.answer result ≡ now_with self.now.log (L.answer past.now) }
    {
        StateNow {
            present: self.log.present(),
            changes: self.log.changes(),
            before: past,
        }
    }

    /// Lines that do what they did stand behind those so far now.
    pub fn carry_all(&mut self, traces: &[Trace]) -> Result<(), AllocError>
        ensures puts { OnOk result (PutsAlso self.old.log self.new.log (puts_of traces.now)) }
        ensures news { self.new.news ≡ self.old.news }
    {
        for trace in traces {
            self.log.put(trace.puts())?;
        }
        Ok(())
    }

    /// How many lines that were there before are made anew.
    pub fn made(&self) -> usize
        ensures { result ≡ length self.now.news.items }
    {
        self.news.len()
    }

    /// What a line does now, where that stood in front of it before.
    fn step<L: Lookup>(
        &mut self,
        line: &Line,
        before: &L,
        work: &mut Work,
    ) -> Result<Trace, AllocError>
        ensures trace { IfOk result (λ trace. trace ≡ trace_of line.now (now_with self.old.log (L.answer before.now))) }
        ensures log { self.new.log ≡ self.old.log }
        ensures news { self.new.news ≡ self.old.news }
        ensures steps { Steps result work.old work.new 1 0 }
        ensures looked { work.new.looked ≡ work.old.looked }
    {
        let now = StateNow {
            present: self.log.present(),
            changes: self.log.changes(),
            before,
        };
        step_over(self.alloc, work, &mut self.scratch, line, &now)
    }

    /// Goes over lines that put the same as before.
    pub fn agree_all(&mut self, traces: &[Trace])
        ensures changes { changes_in self.new.log.changes ≡ agreed (changes_in self.old.log.changes) (puts_of traces.now) }
        ensures present { self.new.log.present ≡ self.old.log.present }
        ensures news { self.new.news ≡ self.old.news }
    {
        for trace in traces {
            self.log.agree(trace.puts());
        }
    }

    /// Which keys are changed behind the lines so far.
    pub fn changes(&self) -> &Changes
        ensures { result.now ≡ self.now.log.changes }
    {
        self.log.changes()
    }

    /// What is made anew of lines that were there before, and which keys are changed behind the last.
    pub fn into_parts(self) -> (Vec<SparseItem<Trace>>, Changes)
        ensures news { result.0 ≡ self.news }
        ensures changes { result.1 ≡ self.log.changes }
    {
        let Replay {
            alloc: _,
            log,
            news,
            scratch,
        } = self;
        drop(scratch);
        (news, log.into_changes())
    }
}

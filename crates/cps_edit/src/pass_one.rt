//! Pass one of all lines of a source.
ghost use Rattle.std.specs.Prelude.{◌≡◌, [], IfOk, OnOk, length};
ghost use Rattle.cps_state.specs.Work.{raised};
ghost use Rattle.cps_state.specs.declared.work.Tally.TheVariants.{Ones};
ghost use Rattle.cps_final.specs.Finals.{Gathers, finals_of};
ghost use Rattle.cps_edit.specs.Assembly.{outcomes_under, traces_of};
ghost use Rattle.cps_edit.specs.Code.PassOne.{AreGathered, GathersLine};
ghost use Rattle.cps_edit.specs.Compares.{Steps};

use crate::pass_two::step_two_all;
use cps_final::{Finals, Gather, Gathered, Outcome};
use cps_pass::step_over;
use cps_state::{Hashing, Scratch, Trace, Work};
use cps_text::Line;
use std::alloc::{AllocError, Global};
use std::marker::Model;

/// What each line of a source does in pass one, and what stands after the last.
pub struct PassOne {
    traces: Vec<Trace>,
    gather: Gather,
}

// Written out: a derived drop is proved anew, with all that it goes through, at each place where a value is dropped.
impl Drop for PassOne {
    fn drop(self) {
        let PassOne { traces, gather } = self;
        drop(traces);
        drop(gather);
    }
}

impl Model for PassOne {
    ghost use Rattle.std.specs.Prelude.{List};
    ghost use Rattle.cps_state.specs.Course.{Trace};
    ghost use Rattle.cps_final.specs.Finals.{Gathers};

    ghost Value = { List Trace };

    ghost view = { λ one. one.traces.items };

    ghost invariant = { λ one. Gathers (⟦<Finals as Gathered>⟧.gathered one.gather) one.traces.items };
}

impl PassOne {
    /// Of these lines. Each is one step of pass one.
    pub fn of(
        alloc: Global,
        hashing: Hashing,
        lines: &[Line],
        work: &mut Work,
    ) -> Result<PassOne, AllocError>
        ensures one { IfOk result (λ one. one ≡ traces_of lines.now) }
        ensures steps { Steps result work.old work.new (length lines.now) 0 }
        ensures looked { work.new.looked ≡ work.old.looked }
    {
        let mut gather = Gather::new(alloc, hashing);
        let traces = step_all(alloc, &mut gather, lines, work)?;
        Ok(PassOne { traces, gather })
    }

    /// What each line does.
    pub fn traces(&self) -> &[Trace]
        ensures { result.now ≡ self.now }
    {
        self.traces.as_slice()
    }

    /// What stands after the last line.
    pub fn finals(&self) -> &Finals
        ensures { ⟦<Finals as Gathered>⟧.gathered result.now ≡ finals_of self.now }
    {
        &self.gather
    }

    /// What pass two makes of each line, under the final values. Each is one step of pass two.
    pub fn make_outcomes(&self, alloc: Global, work: &mut Work) -> Result<Vec<Outcome>, AllocError>
        ensures outcomes { IfOk result (λ outcomes. outcomes.items ≡ outcomes_under (finals_of self.now) self.now) }
        ensures steps { Steps result work.old work.new 0 (length self.now) }
        ensures looked { work.new.looked ≡ work.old.looked }
    {
        step_two_all(alloc, self.traces(), self.finals(), work)
    }

    /// What each line does, and what was gathered of the lines.
    pub fn into_parts(self) -> (Vec<Trace>, Gather)
        ensures traces { result.0.items ≡ self }
        ensures gather { Gathers (⟦<Finals as Gathered>⟧.gathered result.1) self }
    {
        let PassOne { traces, gather } = self;
        (traces, gather)
    }
}

/// What each line does, gathered one after another.
fn step_all(
    alloc: Global,
    gather: &mut Gather,
    lines: &[Line],
    work: &mut Work,
) -> Result<Vec<Trace>, AllocError>
    requires { AreGathered [] gather.old }
    ensures traces { IfOk result (λ traces. traces.items ≡ traces_of lines.now) }
    ensures gathered { OnOk result (AreGathered lines.now gather.new) }
    ensures steps { Steps result work.old work.new (length lines.now) 0 }
    ensures looked { work.new.looked ≡ work.old.looked }
{
    let mut traces = Vec::with_capacity(alloc, lines.len())?;
    let mut scratch = Scratch::new(alloc);
    for line in lines {
        let trace = step_next(alloc, &mut scratch, gather, line, work)?;
        traces.push(trace)?;
    }
    Ok(traces)
}

/// Pass one of the line after those that were gathered.
fn step_next(
    alloc: Global,
    scratch: &mut Scratch,
    gather: &mut Gather,
    line: &Line,
    work: &mut Work,
) -> Result<Trace, AllocError>
    ensures trace { IfOk result (λ trace. GathersLine line.now trace gather.old gather.new) }
    ensures step { work.new ≡ raised Ones work.old }
{
    let trace = step_over(alloc, work, scratch, line, gather.state())?;
    gather.add(&trace)?;
    Ok(trace)
}

//! Pass two of an edit over lines that were there before.
ghost use Rattle.std.specs.Prelude.{◌≡◌, ◌+◌, ◌<◌, ◌^◌, ◌∷◌, [], OnOk, is_some, length, if◌then◌else◌};
ghost use Rattle.std.specs.Option.{option_copied};
ghost use Rattle.cps_state.specs.Work.{counted_on, raised};
ghost use Rattle.cps_state.specs.declared.work.Tally.TheVariants.{Twos};
ghost use Rattle.cps_final.specs.Outcome.{outcome_of};
ghost use Rattle.cps_final.specs.Code.Ends.{now_of};
ghost use Rattle.cps_edit.specs.Compares.{ComparesUpTo, Steps};
ghost use Rattle.cps_chunk.specs.Code.Redo.{MakesAlso, behind, first_at, is_redone_under, new_at, redone_at, redone_under, steps_under};
ghost use Rattle.cps_chunk.specs.Sparse.{AreWithin};

use crate::sparse::SparseItem;
use cps_final::{Ends, Outcome, ends_agree, step_two};
use cps_state::{Trace, Work};
use std::alloc::{AllocError, Global};

/// Pass two of an edit, as far as it has come.
pub struct Redo<'a> {
    alloc: Global,
    ends: Ends<'a>,
    /// What it makes of those lines that are disturbed.
    news: Vec<SparseItem<Outcome>>,
}

// Written out: what holds one drops it by a call.
impl Drop for Redo<'_> {
    fn drop(self) {
        let Redo {
            alloc: _,
            ends: _,
            news,
        } = self;
        drop(news);
    }
}

impl<'a> Redo<'a> {
    /// Under these final values. Takes no memory yet.
    pub fn new(alloc: Global, ends: Ends<'a>) -> Redo<'a>
        ensures ends { result.ends ≡ ends.entry }
        ensures news { result.news.items ≡ [] }
    {
        Redo {
            alloc,
            ends,
            news: Vec::new(alloc),
        }
    }

    /// Goes over a line that was there before, with so many in front of it. If it does another thing in pass one, or names what has another final value now,
    /// pass two is made of it.
    pub fn go_over(
        &mut self,
        at: usize,
        old: &Trace,
        new: Option<&Trace>,
        work: &mut Work,
    ) -> Result<(), AllocError>
        ensures news { OnOk result (MakesAlso self.old self.new (redone_at self.old.ends at (option_copied new.entry) old.now)) }
        ensures ends { self.new.ends ≡ self.old.ends }
        ensures steps { Steps result work.old work.new 0 (steps_under self.old.ends (option_copied new.entry) old.now) }
        ensures looked { work.new.looked ≡ counted_on work.old.looked (if is_some (option_copied new.entry) then 0 else 1) }
    {
        match new {
            Some(trace) => self.make(at, trace, work),
            None => {
                if ends_agree(old, self.ends, work) {
                    return Ok(());
                }
                self.make(at, old, work)
            }
        }
    }

    /// Pass two of a line that does this, at its place.
    fn make(&mut self, at: usize, trace: &Trace, work: &mut Work) -> Result<(), AllocError>
        ensures news { OnOk result (MakesAlso self.old self.new (record { at = at; item = outcome_of (now_of self.old.ends) trace.now } ∷ [])) }
        ensures ends { self.new.ends ≡ self.old.ends }
        ensures step { work.new ≡ raised Twos work.old }
    {
        let outcome = step_two(self.alloc, work, trace, self.ends.finals)?;
        self.news.push(SparseItem { at, item: outcome })?;
        Ok(())
    }

    /// Goes over lines that were there before, the first of them with so many in front of it. The news are all that is new of these lines, in the order of
    /// their places; they are gone through beside the lines, and none is sought.
    pub fn go_over_all(
        &mut self,
        from: usize,
        olds: &[Trace],
        news: &[SparseItem<Trace>],
        work: &mut Work,
    ) -> Result<(), AllocError>
        requires room { from + length olds.now < 2 ^ 64 }
        requires within { AreWithin from (from + length olds.now) news.now }
        ensures news { OnOk result (MakesAlso self.old self.new (redone_under self.old.ends from news.now olds.now)) }
        ensures ends { self.new.ends ≡ self.old.ends }
        ensures steps { Steps result work.old work.new 0 (length (redone_under self.old.ends from news.now olds.now)) }
        ensures looked { ComparesUpTo work.old work.new (length olds.now) }
    {
        let mut left = news;
        for i in 0..olds.len() {
            let at = from + i;
            let (new, rest) = split_at_place(left, at);
            self.go_over(at, &olds[i], new, work)?;
            left = rest;
        }
        Ok(())
    }

    /// What is made anew.
    pub fn into_news(self) -> Vec<SparseItem<Outcome>>
        ensures { result ≡ self.entry.news }
    {
        let Redo {
            alloc: _,
            ends: _,
            news,
        } = self;
        news
    }
}

/// What is new at a place, of items of which none stands at an earlier one, and those behind it.
fn split_at_place(news: &[SparseItem<Trace>], at: usize) -> (Option<&Trace>, &[SparseItem<Trace>])
    ensures new { option_copied result.0 ≡ first_at at news.now }
    ensures rest { result.1.now ≡ behind at news.now }
{
    match news.split_first() {
        Some((new, rest)) if new.at == at => (Some(&new.item), rest),
        _ => (None, news),
    }
}

//! Changed keys, as lines are gone through.
ghost use Rattle.std.specs.Prelude.{◌≡◌, OnOk, IfOk, unwrap_or};
ghost use Rattle.std.specs.Option.{option_copied};
ghost use Rattle.cps_final.specs.Changes.{no_change, agreed};
ghost use Rattle.cps_final.specs.Code.Kept.{changes_in};
ghost use Rattle.cps_final.specs.Layout.{puts_of};
ghost use Rattle.cps_chunk.specs.Code.Compared.{with_puts};
ghost use Rattle.cps_chunk.specs.Noted.{AreHeld, last_puts};
ghost use Rattle.cps_chunk.specs.Code.Replay.{Closes, Puts, all_compared, compared_at, former_in, present_at, present_in, present_with};

use crate::states::{FormerState, Overlay};
use cps_final::{Changes, is_same_answer};
use cps_state::{Answer, Hashing, Key, Lookup, Put, Trace};
use std::alloc::{AllocError, Global};

/// The most keys for which a table is kept, to be filled again.
const FEW: usize = 64;

/// Which keys are changed, and what the lines that are gone through now put.
pub struct ChangeLog {
    alloc: Global,
    hashing: Hashing,
    /// Behind the lines so far.
    changes: Changes,
    /// What stands at the keys that the present lines put now or put before.
    present: Changes,
    /// What these lines put before.
    former: Changes,
}

// Written out: what holds a log drops it by a call.
impl Drop for ChangeLog {
    fn drop(self) {
        let ChangeLog {
            alloc: _,
            hashing: _,
            changes,
            present,
            former,
        } = self;
        drop(changes);
        drop(present);
        drop(former);
    }
}

impl ChangeLog {
    /// Nothing is changed. Takes no memory yet.
    pub fn new(alloc: Global, hashing: Hashing) -> ChangeLog
        ensures changes { changes_in result.changes ≡ no_change }
        ensures present { changes_in result.present ≡ no_change }
    {
        ChangeLog {
            alloc,
            hashing,
            changes: Changes::new(alloc, hashing),
            present: Changes::new(alloc, hashing),
            former: Changes::new(alloc, hashing),
        }
    }

    /// Which keys are changed behind the lines so far.
    pub fn changes(&self) -> &Changes
        ensures { result.now ≡ self.now.changes }
    {
        &self.changes
    }

    /// What the present lines put.
    pub fn present(&self) -> &Changes
        ensures { result.now ≡ self.now.present }
    {
        &self.present
    }

    /// Gives which keys are changed.
    pub fn into_changes(self) -> Changes
        ensures { result ≡ self.changes }
    {
        let ChangeLog {
            alloc: _,
            hashing: _,
            changes,
            present,
            former,
        } = self;
        drop(present);
        drop(former);
        changes
    }

    /// Goes over lines that put the same as before.
    pub fn agree(&mut self, puts: &[Put])
        ensures changes { changes_in self.new.changes ≡ agreed (changes_in self.old.changes) puts.now }
        ensures present { self.new.present ≡ self.old.present }
    {
        self.changes.agree(puts);
    }

    /// One of the present lines puts these.
    pub fn put(&mut self, puts: &[Put]) -> Result<(), AllocError>
        ensures present { OnOk result (present_in self.new ≡ with_puts (present_in self.old) puts.now) }
        ensures puts { OnOk result (Puts self.old self.new puts.now) }
        ensures changes { self.new.changes ≡ self.old.changes }
    {
        for put in puts {
            let answer = put.answer.share()?;
            self.present.set(put.key, Some(answer))?;
        }
        Ok(())
    }

    /// The present lines end. In their place stood these, in front of which that stood.
    pub fn close<L: Lookup>(&mut self, gone: &[Trace], before: &L) -> Result<(), AllocError>
        requires { AreHeld (L.answer before.now) gone.now }
        ensures changes { OnOk result (Closes self.old self.new (L.answer before.now) (puts_of gone.now)) }
        ensures present { OnOk result (present_in self.new ≡ no_change) }
    {
        self.take_all(gone, before)?;
        self.compare_all(before)?;
        empty(&mut self.present, self.alloc, self.hashing);
        Ok(())
    }

    /// What these lines put before; at keys that no present line puts stands what stood in front of them.
    fn take_all<L: Lookup>(&mut self, gone: &[Trace], before: &L) -> Result<(), AllocError>
        requires { AreHeld (L.answer before.now) gone.now }
        ensures present { OnOk result (present_in self.new ≡ present_with self.old (puts_of gone.now) (L.answer before.now)) }
        ensures former { OnOk result (former_in self.new ≡ last_puts (puts_of gone.now)) }
        ensures changes { self.new.changes ≡ self.old.changes }
    {
        empty(&mut self.former, self.alloc, self.hashing);
        for trace in gone {
            let known = FormerState {
                asks: trace.asks(),
                past: before,
            };
            self.take(trace.puts(), &known)?;
        }
        Ok(())
    }

    /// The same of what one line put, where that stood in front of it.
    fn take<L: Lookup>(&mut self, puts: &[Put], before: &L) -> Result<(), AllocError>
        ensures present { OnOk result (present_in self.new ≡ present_with self.old puts.now (L.answer before.now)) }
        ensures former { OnOk result (former_in self.new ≡ with_puts (former_in self.old) puts.now) }
        ensures changes { self.new.changes ≡ self.old.changes }
    {
        for put in puts {
            self.keep(&put.key, before)?;
            let answer = put.answer.share()?;
            self.former.set(put.key, Some(answer))?;
        }
        Ok(())
    }

    /// At a key that no present line puts stands what stood in front of them.
    fn keep<L: Lookup>(&mut self, key: &Key, before: &L) -> Result<(), AllocError>
        ensures present { OnOk result (present_in self.new ≡ present_at self.old key.now (L.answer before.now)) }
        ensures former { self.new.former ≡ self.old.former }
        ensures changes { self.new.changes ≡ self.old.changes }
    {
        if self.present.find(key).is_some() {
            return Ok(());
        }
        let now = Overlay {
            changes: &self.changes,
            before,
        };
        let answer = shared(now.ask(key))?;
        self.present.set(*key, answer)
    }

    /// Compares what stands now with what stood there, at the keys that the present lines put now or put before.
    fn compare_all<L: Lookup>(&mut self, before: &L) -> Result<(), AllocError>
        ensures { OnOk result (changes_in self.new.changes ≡ all_compared self.old (L.answer before.now)) }
    {
        for i in 0..self.present.count() {
            let key = self.present.key(i);
            self.compare(key, before)?;
        }
        Ok(())
    }

    /// The same at one of the keys.
    fn compare<L: Lookup>(&mut self, key: Key, before: &L) -> Result<(), AllocError>
        ensures changes { OnOk result (changes_in self.new.changes ≡ compared_at self.old (L.answer before.now) key) }
        ensures present { self.new.present ≡ self.old.present }
        ensures former { self.new.former ≡ self.old.former }
    {
        let then = Overlay {
            changes: &self.former,
            before,
        };
        let now = found(self.present.find(&key));
        if is_same_answer(now, then.ask(&key)) {
            self.changes.forget(&key);
            return Ok(());
        }
        let answer = shared(now)?;
        self.changes.set(key, answer)
    }
}

/// Takes all keys out. A table that has become large is let go: it would be gone over as a whole each time.
fn empty(changes: &mut Changes, alloc: Global, hashing: Hashing)
    ensures { changes_in changes.new ≡ no_change }
{
    if changes.count() > FEW {
        *changes = Changes::new(alloc, hashing);
        return;
    }
    changes.clear();
}

/// The same answer once more, or none.
fn shared(answer: Option<&Answer>) -> Result<Option<Answer>, AllocError>
    ensures { IfOk result (λ same. same ≡ option_copied answer.entry) }
{
    match answer {
        Some(answer) => Ok(Some(answer.share()?)),
        None => Ok(None),
    }
}

/// What was found at a key, or that nothing stands there.
fn found<'a>(answer: Option<&'a Option<Answer>>) -> Option<&'a Answer>
    ensures { option_copied result ≡ unwrap_or (option_copied answer.entry) None }
{
    match answer {
        Some(answer) => answer.as_ref(),
        None => None,
    }
}

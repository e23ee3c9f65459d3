//! Whether what lines asked still stands, where some keys are changed.
ghost use Rattle.std.specs.Prelude.{◌≡◌};
ghost use Rattle.cps_state.specs.Work.{raised};
ghost use Rattle.cps_state.specs.declared.work.Tally.TheVariants.{Looked};
ghost use Rattle.cps_final.specs.Code.Kept.{changes_in};
ghost use Rattle.cps_chunk.specs.Noted.{stands};

use cps_final::{Changes, is_same_answer};
use cps_state::{Asked, Tally, Trace, Work};

/// Whether each answer that a line had stands, so that the line does the same. It is one comparison, and takes no memory.
pub fn still_stands(trace: &Trace, changes: &Changes, work: &mut Work) -> bool
    ensures stands { result ≡ stands (changes_in changes.now) trace.now.asks }
    ensures looked { work.new ≡ raised Looked work.old }
{
    work.raise(Tally::Looked);
    same_answers_under(trace.asks(), changes)
}

/// Whether each answer that was had to some asks stands. It is counted nowhere, and takes no memory.
pub fn same_answers_under(asks: &[Asked], changes: &Changes) -> bool
    ensures { result ≡ stands (changes_in changes.now) asks.now }
{
    for asked in asks {
        if let Some(now) = changes.find(&asked.key) {
            if !is_same_answer(now.as_ref(), asked.answer.as_ref()) {
                return false;
            }
        }
    }
    true
}

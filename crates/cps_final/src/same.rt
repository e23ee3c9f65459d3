//! Whether what a line asked still stands.
ghost use Rattle.std.specs.Prelude.{◌≡◌, ◌↔◌, IsTrue};
ghost use Rattle.std.specs.Option.{option_copied, option_eq};
ghost use Rattle.cps_state.specs.Course.{Holds};
ghost use Rattle.cps_state.specs.Work.{raised};
ghost use Rattle.cps_state.specs.declared.work.Tally.TheVariants.{Looked};
ghost use Rattle.cps_final.specs.Holds.{holds, same_answer};

use cps_state::{Answer, Asked, Lookup, Tally, Trace, Work};

/// Whether each key that a line asked has the same answer in a state, so that the line does the same there. It is one comparison, and takes no memory.
pub fn still_holds<L: Lookup>(trace: &Trace, state: &L, work: &mut Work) -> bool
    ensures holds { result ≡ holds trace.now.asks (L.answer state.now) }
    ensures decides { IsTrue result ↔ Holds trace.now.asks (L.answer state.now) }
    ensures looked { work.new ≡ raised Looked work.old }
{
    work.raise(Tally::Looked);
    same_answers(trace.asks(), state)
}

/// Whether each of these keys has the same answer in a state. It is counted nowhere, and takes no memory.
pub fn same_answers<L: Lookup>(asks: &[Asked], state: &L) -> bool
    ensures { result ≡ holds asks.now (L.answer state.now) }
{
    for asked in asks {
        if !is_same_answer(state.ask(&asked.key), asked.answer.as_ref()) {
            return false;
        }
    }
    true
}

/// Whether two answers hold the same, however they are shared.
pub fn is_same_answer(a: Option<&Answer>, b: Option<&Answer>) -> bool
    ensures { result ≡ option_eq same_answer (option_copied a.entry) (option_copied b.entry) }
{
    match (a, b) {
        (Some(a), Some(b)) => *a == *b,
        (None, None) => true,
        _ => false,
    }
}

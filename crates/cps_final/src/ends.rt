//! The final values before an edit and after it, compared at what lines name.
ghost use Rattle.std.specs.Prelude.{◌≡◌, ◌↔◌, IsTrue};
ghost use Rattle.std.specs.Option.{option_eq};
ghost use Rattle.cps_state.specs.Work.{raised};
ghost use Rattle.cps_state.specs.declared.work.Tally.TheVariants.{Looked};
ghost use Rattle.cps_final.specs.Outcome.{AgreeOnNamed, outcome_of};
ghost use Rattle.cps_final.specs.Code.FormerFinals.{values_before};
ghost use Rattle.cps_final.specs.Agreeing.{same_named, same_value};
ghost use Rattle.cps_final.specs.Code.Ends.{was_of, now_of};

use crate::finals::Finals;
use crate::finals_patch::FinalsPatch;
use crate::former_finals::FormerFinals;
use crate::naming::{Naming, all_pass};
use cps_expr::Value;
use cps_state::{Tally, Trace, Work};
use cps_text::Name;

/// The final values after an edit, and what it gave back of those before it.
#[derive(Clone, Copy)]
pub struct Ends<'a> {
    pub finals: &'a Finals,
    pub patch: &'a FinalsPatch,
}

impl<'a> Naming for Ends<'a> {
    ghost use Rattle.cps_final.specs.Agreeing.{same_at};
    ghost use Rattle.cps_final.specs.Code.Ends.{was_of, now_of};

    ghost passes = { λ ends. same_at (was_of ends) (now_of ends) };

    fn label(&self, name: Name) -> bool {
        is_same(self.before().label(name), self.finals.label(name))
    }

    fn block(&self, name: Option<Name>) -> bool {
        is_same(self.before().base(name), self.finals.base(name))
    }

    fn literal(&self, word: u64) -> bool {
        is_same(self.before().literal(word), self.finals.literal(word))
    }
}

impl<'a> Ends<'a> {
    /// The final values before the edit.
    fn before(self) -> FormerFinals<'a>
        ensures { values_before result ≡ was_of self.entry }
    {
        FormerFinals {
            finals: self.finals,
            patch: self.patch,
        }
    }
}

/// Whether two values are the same, or neither is there.
pub(crate) fn is_same(a: Option<Value>, b: Option<Value>) -> bool
    ensures { result ≡ option_eq same_value a b }
{
    a == b
}

/// Whether the labels, the blocks and the literals that the statements of a line name have the same final values, so that pass two makes the same
/// of it. It is one comparison, and takes no memory.
pub fn ends_agree(trace: &Trace, ends: Ends, work: &mut Work) -> bool
    ensures same { result ≡ same_named (was_of ends.entry) (now_of ends.entry) trace.now.items }
    ensures decides { IsTrue result ↔ AgreeOnNamed (was_of ends.entry) (now_of ends.entry) trace.now }
    ensures alone { IsTrue result → outcome_of (was_of ends.entry) trace.now ≡ outcome_of (now_of ends.entry) trace.now }
    ensures looked { work.new ≡ raised Looked work.old }
{
    work.raise(Tally::Looked);
    all_pass(trace.items(), &ends)
}

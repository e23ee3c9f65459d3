//! Two layouts of final values, compared at what a line names.
ghost use Rattle.std.specs.Prelude.{◌≡◌, ◌↔◌, IsTrue};
ghost use Rattle.cps_state.specs.Work.{raised};
ghost use Rattle.cps_state.specs.declared.work.Tally.TheVariants.{Looked};
ghost use Rattle.cps_final.specs.Outcome.{AgreeOnNamed, outcome_of};
ghost use Rattle.cps_final.specs.Resolving.{resolved};

use crate::ends::is_same;
use crate::finals::Finals;
use crate::naming::{Naming, all_pass};
use cps_state::{Tally, Trace, Work};
use cps_text::Name;

/// The final values of two sources, or of one before and after an edit.
#[derive(Clone, Copy)]
struct Both<'a> {
    before: &'a Finals,
    after: &'a Finals,
}

impl<'a> Naming for Both<'a> {
    ghost use Rattle.cps_final.specs.Resolving.{resolved};
    ghost use Rattle.cps_final.specs.Agreeing.{same_at};

    ghost passes = { λ both. same_at (resolved both.before.now) (resolved both.after.now) };

    fn label(&self, name: Name) -> bool {
        is_same(self.before.label(name), self.after.label(name))
    }

    fn block(&self, name: Option<Name>) -> bool {
        is_same(self.before.base(name), self.after.base(name))
    }

    fn literal(&self, word: u64) -> bool {
        is_same(self.before.literal(word), self.after.literal(word))
    }
}

/// Whether the labels, the blocks and the literals that the statements of a line name have the same final values in both, so that pass two makes the same
/// of it under either. It is one comparison, and takes no memory.
pub fn same_finals(trace: &Trace, before: &Finals, after: &Finals, work: &mut Work) -> bool
    ensures decides { IsTrue result ↔ AgreeOnNamed (resolved before.now) (resolved after.now) trace.now }
    ensures alone { IsTrue result → outcome_of (resolved before.now) trace.now ≡ outcome_of (resolved after.now) trace.now }
    ensures looked { work.new ≡ raised Looked work.old }
{
    work.raise(Tally::Looked);
    all_pass(trace.items(), &Both { before, after })
}

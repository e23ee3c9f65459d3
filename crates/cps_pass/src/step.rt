//! Pass one of a line.
ghost use Rattle.std.specs.Prelude.{◌≡◌, IfOk, OnOk};
ghost use Rattle.cps_state.specs.Course.{Holds};
ghost use Rattle.cps_state.specs.Keys as keys;
ghost use Rattle.cps_state.specs.Code.Scratch.{StandsOn, statements_on};
ghost use Rattle.cps_state.specs.Work.{raised};
ghost use Rattle.cps_state.specs.declared.work.Tally.TheVariants as tally;
ghost use Rattle.cps_pass.specs.Bounded.{AreFew, EachOnce};
ghost use Rattle.cps_pass.specs.Expansion as expansion;

use crate::expansion::{trace_line, write_line};
use cps_state::{Lookup, Scratch, Tally, Trace, Work};
use cps_text::Line;
use std::alloc::{AllocError, Global};

/// What a line asks, puts and makes in a state, with the statements that it opens. A line that opens more than 20,000 statements, or one at a depth
/// above 10, is dropped: it has E, and puts the control alone. It is one step of pass one, also where memory is refused.
pub fn step_one<L: Lookup>(
    alloc: Global,
    work: &mut Work,
    line: &Line,
    state: &L,
) -> Result<Trace, AllocError>
    ensures trace { IfOk result (λ trace. trace ≡ expansion.trace_of line.now (L.answer state.now)) }
    // The line does the same in each state that agrees on what it asked.
    ensures asks_alone { IfOk result (λ trace. (other : keys.State) → Holds trace.asks other → trace ≡ expansion.trace_of line.now other) }
    // It has at most 20,000 statements besides the line's own, and none deeper than 10.
    ensures few { IfOk result (λ trace. AreFew trace.items) }
    // It asks each key once.
    ensures once { IfOk result (λ trace. EachOnce trace.asks) }
    ensures ones { work.new ≡ raised tally.Ones work.old }
{
    let mut scratch = Scratch::new(alloc);
    step_over(alloc, work, &mut scratch, line, state)
}

/// The same, over the lists of a scratch, whose room line after line takes.
pub fn step_over<L: Lookup>(
    alloc: Global,
    work: &mut Work,
    scratch: &mut Scratch,
    line: &Line,
    state: &L,
) -> Result<Trace, AllocError>
    ensures trace { IfOk result (λ trace. trace ≡ expansion.trace_of line.now (L.answer state.now)) }
    ensures ones { work.new ≡ raised tally.Ones work.old }
{
    work.raise(Tally::Ones);
    trace_line(alloc, scratch, line.bytes(), state)
}

/// The same for callers that don't want what the line asks: what it did stands on the scratch, behind all statements that were there.
pub fn step_unasked<L: Lookup>(
    alloc: Global,
    work: &mut Work,
    scratch: &mut Scratch,
    line: &[u8],
    state: &L,
) -> Result<(), AllocError>
    ensures line { OnOk result (StandsOn scratch.new (statements_on scratch.old) (expansion.trace_of line.now (L.answer state.now))) }
    ensures ones { work.new ≡ raised tally.Ones work.old }
{
    work.raise(Tally::Ones);
    write_line(alloc, scratch, line, state)
}

//! Pass two of lines.
ghost use Rattle.std.specs.Prelude.{◌≡◌, IfOk, length};
ghost use Rattle.cps_final.specs.Resolving.{resolved};
ghost use Rattle.cps_edit.specs.Compares.{Steps};
ghost use Rattle.cps_edit.specs.Passes.{outcomes_by};

use cps_final::{Finals, Outcome, step_two};
use cps_state::{Trace, Work};
use std::alloc::{AllocError, Global};

/// What pass two makes of lines that did this in pass one. Each is one step.
pub fn step_two_all(
    alloc: Global,
    traces: &[Trace],
    finals: &Finals,
    work: &mut Work,
) -> Result<Vec<Outcome>, AllocError>
    ensures outcomes { IfOk result (λ made. made.items ≡ outcomes_by (resolved finals.now) traces.now) }
    ensures steps { Steps result work.old work.new 0 (length traces.now) }
    ensures looked { work.new.looked ≡ work.old.looked }
{
    let mut all = Vec::with_capacity(alloc, traces.len())?;
    for trace in traces {
        let made = step_two(alloc, work, trace, finals)?;
        all.push(made)?;
    }
    Ok(all)
}

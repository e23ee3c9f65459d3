//! The causes of a line's flags.
ghost use Rattle.std.specs.Prelude.{◌≡◌, IfOk, IfSome, is_some};
ghost use Rattle.cps_cause.specs.declared.letter.Letter.TheVariants.{E};
ghost use Rattle.cps_cause.specs.Letters.{letter_of};
ghost use Rattle.cps_final.specs.Finals.{final_value, is_open_at_end};
ghost use Rattle.cps_final.specs.Outcome.{outcome_of};
ghost use Rattle.cps_cause.specs.Explaining.{Explains};

use crate::card::filled_columns;
use crate::cause::Cause;
use crate::diagnostic::Diagnostic;
use crate::showing::OpeningLine;
use crate::structure::open_in;
use crate::structure_fault::StructureFault;
use crate::teller::Teller;
use crate::walk::find_all;
use cps_final::{Finals, Gathered, Output, flags_of};
use cps_state::{Key, Lookup, Trace, mode_of};
use cps_text::Line;
use std::alloc::{AllocError, Global};

/// Why a line is flagged, from what it did in pass one and the final values of its source: its causes, by statement and column. Each letter of the line has
/// one, and no other letter has. It is told of any line, trace and values, also of such that don't belong together.
pub fn explain(
    alloc: Global,
    line: &Line,
    trace: &Trace,
    finals: &Finals,
) -> Result<Vec<Diagnostic>, AllocError>
    ensures { IfOk result (λ told. Explains line.now (outcome_of (final_value (⟦<Finals as Gathered>⟧.gathered finals.now)) trace.now).rows told.items) }
{
    let mut output = Output::new(alloc);
    output.replace(trace.items(), finals)?;
    let wanted = flags_of(output.rows());
    let mut teller = Teller::new(alloc, wanted, line.bytes().len());
    if wanted.has_flag() {
        let found = find_all(alloc, line, trace, finals)?;
        tell_all(&mut teller, &OpeningLine::of(line.bytes()), found)?;
    }
    teller.finish(filled_columns(line.bytes()))
}

/// What is open where a source ends, None where nothing is. It shows in the line that opened it.
pub fn explain_end(finals: &Finals) -> Result<Option<Cause>, AllocError>
    ensures open { IfOk result (λ cause. is_some cause ≡ is_open_at_end (⟦<Finals as Gathered>⟧.gathered finals.now)) }
    ensures letter { IfOk result (λ cause. IfSome cause (λ c. letter_of c ≡ E)) }
{
    if !finals.is_open_at_end() {
        return Ok(None);
    }
    let mode = mode_of(finals.state().ask(&Key::Control))?;
    let fault = StructureFault::SourceOpen(open_in(&mode));
    Ok(Some(Cause::Structure(fault)))
}

/// Tells what was found, each where it shows in the line.
fn tell_all(
    teller: &mut Teller,
    line: &OpeningLine<'_>,
    found: Vec<Diagnostic>,
) -> Result<(), AllocError>
    ensures wanted { teller.new.wanted ≡ teller.old.wanted }
    ensures length { teller.new.length ≡ teller.old.length }
{
    for diagnostic in found {
        let mut shown = diagnostic;
        shown.columns = line.columns_of(&shown);
        teller.tell(shown)?;
    }
    Ok(())
}

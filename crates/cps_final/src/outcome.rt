//! Pass two of a line.
ghost use Rattle.std.specs.Prelude.{◌≡◌, IfOk, map};
ghost use Rattle.cps_code.specs.Image.{piece_of};
ghost use Rattle.cps_state.specs.declared.work.Tally.TheVariants.{Twos};
ghost use Rattle.cps_state.specs.Work.{raised};
ghost use Rattle.cps_final.specs.Finals.{final_value};
ghost use Rattle.cps_final.specs.Outcome as outcome;
ghost use Rattle.cps_final.specs.Resolving.{resolved};

use crate::finals::{Finals, Gathered};
use crate::kept_list::KeptList;
use crate::kept_names::KeptNames;
use crate::name_lists::{list_defined, list_read};
use crate::output::Output;
use crate::row::Row;
use cps_code::Piece;
use cps_state::{Flags, Tally, Trace, Work};
use cps_text::Name;
use std::alloc::{AllocError, Global};
use std::marker::Model;

/// What pass two makes of a line: its rows, its bits, and the symbols that it defines and reads. It is one piece of memory, so that it moves cheaply.
#[derive(Drop)]
pub struct Outcome {
    kept: Box<KeptOutcome>,
}

/// An outcome, as it is kept.
#[derive(Drop)]
struct KeptOutcome {
    rows: KeptList<Row>,
    pieces: KeptList<Piece>,
    defined: KeptNames,
    read: KeptNames,
}

impl Model for Outcome {
    ghost use Rattle.std.specs.Prelude.{map};
    ghost use Rattle.cps_code.specs.Image.{piece_of};
    ghost use Rattle.cps_final.specs.Outcome.{Outcome};

    ghost Value = { Outcome };

    ghost view = { λ outcome. let kept = outcome.kept.value in record { rows = kept.rows; pieces = map piece_of kept.pieces; defined = kept.defined; read = kept.read } };
}

/// Pass two of a line. It counts as one step, whatever is answered.
pub fn step_two(
    alloc: Global,
    work: &mut Work,
    trace: &Trace,
    finals: &Finals,
) -> Result<Outcome, AllocError>
    ensures outcome { IfOk result (λ made. made ≡ outcome.outcome_of (final_value (⟦<Finals as Gathered>⟧.gathered finals.now)) trace.now) }
    ensures alone { IfOk result (λ made. (others : outcome.Resolved) → outcome.AgreeOnNamed others (final_value (⟦<Finals as Gathered>⟧.gathered finals.now)) trace.now
        → outcome.outcome_of others trace.now ≡ made) }
    ensures step { work.new ≡ raised Twos work.old }
{
    work.raise(Tally::Twos);
    make_outcome(alloc, trace, finals)
}

fn make_outcome(alloc: Global, trace: &Trace, finals: &Finals) -> Result<Outcome, AllocError>
    ensures outcome { IfOk result (λ made. made ≡ outcome.outcome_of (resolved finals.now) trace.now) }
    ensures alone { IfOk result (λ made. (others : outcome.Resolved) → outcome.AgreeOnNamed others (resolved finals.now) trace.now
        → outcome.outcome_of others trace.now ≡ made) }
{
    let items = trace.items();
    let mut output = Output::with_room(alloc, items)?;
    output.replace(items, finals)?;
    let defined = list_defined(alloc, finals.hashing(), trace)?;
    let read = list_read(alloc, finals.hashing(), trace)?;
    let made = Outcome::of(alloc, output, defined, read)?;
    Ok(made)
}

impl Outcome {
    /// Of these rows and bits and these symbols.
    fn of(
        alloc: Global,
        output: Output,
        defined: KeptNames,
        read: KeptNames,
    ) -> Result<Outcome, AllocError>
        ensures { IfOk result (λ made. made ≡ record { rows = output.rows; pieces = output.pieces; defined = defined; read = read }) }
    {
        let (rows, pieces) = output.into_parts();
        let kept = KeptOutcome {
            rows: KeptList::of(rows),
            pieces: KeptList::of(pieces),
            defined,
            read,
        };
        Ok(Outcome {
            kept: Box::new(alloc, kept)?,
        })
    }

    /// The rows, in their order.
    pub fn rows(&self) -> &[Row]
        ensures { result.now ≡ self.now.rows }
    {
        self.kept.rows.as_slice()
    }

    /// The bits, in their order.
    pub fn pieces(&self) -> &[Piece]
        ensures { map piece_of result.now ≡ self.now.pieces }
    {
        self.kept.pieces.as_slice()
    }

    /// The symbols that the line defines, each once.
    pub fn names_defined(&self) -> &[Name]
        ensures { result.now ≡ self.now.defined }
    {
        self.kept.defined.as_slice()
    }

    /// The symbols that the line reads, each once.
    pub fn names_read(&self) -> &[Name]
        ensures { result.now ≡ self.now.read }
    {
        self.kept.read.as_slice()
    }

    /// The flags of all rows.
    pub fn flags(&self) -> Flags
        ensures { result ≡ outcome.flags_of self.now.rows }
    {
        flags_of(self.rows())
    }
}

/// The flags of all rows of a line.
pub fn flags_of(rows: &[Row]) -> Flags
    ensures { result ≡ outcome.flags_of rows.now }
{
    let mut flags = Flags::none();
    for row in rows {
        flags = flags.joined(row.flags);
    }
    flags
}

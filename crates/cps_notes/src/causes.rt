//! Why lines are flagged.

use cps_batch::Source;
use cps_cause::{
    Card, Columns, Diagnostic, LinesAbove, Origin, Places, explain, explain_end, line_of_opener,
};
use cps_check::KnownPlaces;
use cps_expr::Radix;
use cps_final::Finals;
use cps_list::{View, push_decimal};
use cps_page::{Cause, MeantColumns};
use cps_state::{Flags, Shared, Trace};
use cps_text::Line;
use std::alloc::{AllocError, Global};

/// Causes of flags, and what each means in its statement.
#[derive(Drop)]
pub struct ToldCauses {
    pub told: Vec<Cause>,
    pub meant: Vec<MeantColumns>,
}

impl ToldCauses {
    fn add(&mut self, cause: Cause, columns: Columns) -> Result<(), AllocError> {
        self.meant.push(MeantColumns {
            before: columns.first.saturating_sub(1),
            behind: columns.last,
        })?;
        self.told.push(cause)?;
        Ok(())
    }
}

/// The causes of all flags, by their lines; the last is that of a range that is open at the end. A source without a flag isn't gone through.
pub fn list_causes(
    alloc: Global,
    source: &Source,
    traces: &[Trace],
) -> Result<ToldCauses, AllocError> {
    let mut causes = ToldCauses {
        told: Vec::new(alloc),
        meant: Vec::new(alloc),
    };
    if source.flagged_lines() == 0 {
        return Ok(causes);
    }
    list_of_lines(alloc, source, traces, &mut causes)?;
    list_of_end(alloc, source, traces, &mut causes)?;
    Ok(causes)
}

fn list_of_lines(
    alloc: Global,
    source: &Source,
    traces: &[Trace],
    causes: &mut ToldCauses,
) -> Result<(), AllocError> {
    let hashing = source.finals().hashing();
    let mut places = KnownPlaces::of(alloc, hashing, source.lines(), traces)?;
    let mut number: u32 = 0;
    for trace in traces {
        number = number.saturating_add(1);
        if let Some(line) = flagged_line(source, number) {
            let flagged = FlaggedLine {
                number,
                line,
                trace,
            };
            flagged.list(alloc, source.finals(), &places, causes)?;
        }
        places.pass(number, trace)?;
    }
    Ok(())
}

/// A line that has a flag.
#[derive(Clone, Copy)]
struct FlaggedLine<'a> {
    number: u32,
    line: &'a Line,
    /// What it did in pass one.
    trace: &'a Trace,
}

/// A line, if it has a flag.
fn flagged_line(source: &Source, number: u32) -> Option<&Line> {
    match source.outcome(number) {
        Some(outcome) if outcome.flags().has_flag() => source.line(number),
        _ => None,
    }
}

impl FlaggedLine<'_> {
    /// Lists the causes of the line.
    fn list<P: Places>(
        &self,
        alloc: Global,
        finals: &Finals,
        places: &P,
        causes: &mut ToldCauses,
    ) -> Result<(), AllocError> {
        let found = explain(alloc, self.line, self.trace, finals)?;
        for diagnostic in &found {
            let cause = cause_of(alloc, self.number, self.line.bytes(), diagnostic, places)?;
            causes.add(cause, diagnostic.within)?;
        }
        Ok(())
    }
}

/// A cause, as the page tells it.
fn cause_of<P: Places>(
    alloc: Global,
    number: u32,
    line: &[u8],
    found: &Diagnostic,
    places: &P,
) -> Result<Cause, AllocError> {
    let mut words = found.words(alloc, line, places)?.into_bytes();
    push_times(&mut words, found.times)?;
    let mut statement = Vec::new(alloc);
    statement.extend_from_slice(found.statement.as_slice())?;
    Ok(Cause {
        line: number,
        letter: letter_of(alloc, found)?,
        statement,
        words,
    })
}

/// The character of a cause's letter.
fn letter_of(alloc: Global, found: &Diagnostic) -> Result<u8, AllocError> {
    let mut letters = Vec::new(alloc);
    let letter = found.cause.letter();
    letter.added_to(Flags::none()).push_letters(&mut letters)?;
    match letters.first() {
        Some(character) => Ok(*character),
        None => Ok(b' '),
    }
}

/// Appends how often an equal cause comes in the line's expansion, where that is more than once.
fn push_times(words: &mut Vec<u8>, times: u32) -> Result<(), AllocError> {
    if times < 2 {
        return Ok(());
    }
    words.extend_from_slice(b" (")?;
    push_decimal(words, u64::from(times))?;
    words.extend_from_slice(b" times)")
}

/// Lists why a range is open at the end, if one is.
fn list_of_end(
    alloc: Global,
    source: &Source,
    traces: &[Trace],
    causes: &mut ToldCauses,
) -> Result<(), AllocError> {
    let Some(cause) = explain_end(source.finals())? else {
        return Ok(());
    };
    let Some(opener) = line_of_opener(traces) else {
        return Ok(());
    };
    let Some(line) = source.line(opener) else {
        return Ok(());
    };
    let columns = Card::of(line.bytes()).operation_or_all();
    let end = Diagnostic {
        columns,
        cause,
        within: columns,
        statement: Shared::empty(),
        origin: Origin::Line,
        base: Radix::Decimal,
        times: 1,
    };
    let behind = source.count().saturating_add(1);
    let places = LinesAbove { traces };
    causes.add(
        cause_of(alloc, behind, line.bytes(), &end, &places)?,
        columns,
    )?;
    Ok(())
}

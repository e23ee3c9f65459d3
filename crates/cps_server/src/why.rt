//! Why a line is flagged.
ghost use Rattle.std.specs.Prelude.{◌-◌, IfOk};
ghost use Rattle.cps_server.specs.Rows.{IsWhy};

use crate::document::Document;
use cps_cause::{Diagnostic, LinesAbove, explain};
use cps_list::View;
use std::alloc::{AllocError, Global};

/// The most causes that are told.
const MOST_CAUSES: u32 = 10;

/// Why the line of a number, from 1, has its flags: a row for each cause, behind the letter. Where it has none, no memory is taken.
pub fn why_of(alloc: Global, document: &Document, number: u32) -> Result<Vec<u8>, AllocError>
    ensures { IfOk result (λ why. IsWhy document.now (number - 1) why.items) }
{
    match document.session().outcome(number) {
        Some(outcome) => {
            if outcome.flags().has_flag() {
                causes_of(alloc, document, number)
            } else {
                Ok(Vec::new(alloc))
            }
        }
        None => Ok(Vec::new(alloc)),
    }
}

/// The causes of the flags of the line of a number.
fn causes_of(alloc: Global, document: &Document, number: u32) -> Result<Vec<u8>, AllocError> {
    let session = document.session();
    let at = number.saturating_sub(1) as usize;
    let traces = session.traces();
    match (session.line(number), traces.get(at)) {
        (Some(card), Some(trace)) => {
            let told = explain(alloc, card, trace, session.finals())?;
            let above = LinesAbove {
                traces: &traces[..at],
            };
            causes_text(alloc, card.bytes(), above, &told)
        }
        _ => Ok(Vec::new(alloc)),
    }
}

/// Causes as they are told, of which the first 10 are. One that follows itself, as that of each statement of an expansion, is told once.
fn causes_text(
    alloc: Global,
    line: &[u8],
    above: LinesAbove<'_>,
    told: &[Diagnostic],
) -> Result<Vec<u8>, AllocError> {
    let mut text = Vec::new(alloc);
    let mut last = Vec::new(alloc);
    let mut left = MOST_CAUSES;
    for diagnostic in told {
        let row = cause_row(alloc, line, above, diagnostic)?;
        if row == last {
            continue;
        }
        if left == 0 {
            text.extend_from_slice(b"..\n")?;
            return Ok(text);
        }
        left -= 1;
        text.extend_from_slice(&row)?;
        last = row;
    }
    Ok(text)
}

/// A cause behind its letter.
fn cause_row(
    alloc: Global,
    line: &[u8],
    above: LinesAbove<'_>,
    told: &Diagnostic,
) -> Result<Vec<u8>, AllocError> {
    let mut row = Vec::new(alloc);
    row.push(told.cause.letter().byte())?;
    row.extend_from_slice(b": ")?;
    let words = told.words(alloc, line, &above)?;
    row.extend_from_slice(words.as_slice())?;
    row.push(b'\n')?;
    Ok(row)
}

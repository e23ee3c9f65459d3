//! What is told of the lines of a source.
use cps_cause::{Diagnostic, LinesAbove, explain, explain_end, line_of_opener};
use cps_edit::PassOne;
use cps_state::{Hashing, Work};
use cps_text::Line;
use itoa::Buffer;
use std::alloc::{AllocError, Global};

/// A line of which it is told.
#[derive(Clone, Copy)]
struct ExplainedLine<'a> {
    /// From 1.
    number: usize,
    line: &'a [u8],
    above: LinesAbove<'a>,
}

/// Whether words are told beside columns and letters.
#[derive(Clone, Copy)]
pub enum CauseDetail {
    Places,
    Words,
}

/// What is told of all lines, a row for each cause: `LINE:FIRST-LAST LETTER`, and the words behind a blank. Where the source is open at its end,
/// `end E` and the number of the line that opened it.
pub fn told_of(alloc: Global, detail: CauseDetail, texts: &[&str]) -> Option<Vec<u8>> {
    let lines = lines_of(alloc, texts)?;
    let mut work = Work::new();
    let told = match PassOne::of(alloc, Hashing::by(1), &lines, &mut work) {
        Ok(one) => told_by(alloc, detail, &lines, &one).ok(),
        Err(_) => None,
    };
    drop(lines);
    told
}

fn lines_of(alloc: Global, texts: &[&str]) -> Option<Vec<Line>> {
    let mut lines = Vec::new(alloc);
    for text in texts {
        let line = Line::new(alloc, text.as_bytes()).ok()?;
        lines.push(line).ok()?;
    }
    Some(lines)
}

fn told_by(
    alloc: Global,
    detail: CauseDetail,
    lines: &[Line],
    one: &PassOne,
) -> Result<Vec<u8>, AllocError> {
    let mut text = Vec::new(alloc);
    for (at, trace) in one.traces().iter().enumerate() {
        if let Some(line) = lines.get(at) {
            let told = explain(alloc, line, trace, one.finals())?;
            let line = ExplainedLine {
                number: at.saturating_add(1),
                line: line.bytes(),
                above: LinesAbove {
                    traces: &one.traces()[..at],
                },
            };
            tell_all(alloc, &mut text, detail, line, &told)?;
        }
    }
    tell_end(&mut text, one)?;
    Ok(text)
}

fn tell_all(
    alloc: Global,
    text: &mut Vec<u8>,
    detail: CauseDetail,
    line: ExplainedLine<'_>,
    told: &[Diagnostic],
) -> Result<(), AllocError> {
    for diagnostic in told {
        tell(alloc, text, detail, line, diagnostic)?;
    }
    Ok(())
}

fn tell(
    alloc: Global,
    text: &mut Vec<u8>,
    detail: CauseDetail,
    line: ExplainedLine<'_>,
    diagnostic: &Diagnostic,
) -> Result<(), AllocError> {
    push_number(text, line.number)?;
    text.push(b':')?;
    push_number(text, diagnostic.columns.first)?;
    text.push(b'-')?;
    push_number(text, diagnostic.columns.last)?;
    text.push(b' ')?;
    text.push(diagnostic.cause.letter().byte())?;
    if let CauseDetail::Words = detail {
        text.push(b' ')?;
        let words = diagnostic.words(alloc, line.line, &line.above)?;
        text.extend_from_slice(words.as_slice())?;
    }
    text.push(b'\n')?;
    Ok(())
}

fn push_number(text: &mut Vec<u8>, number: usize) -> Result<(), AllocError> {
    text.extend_from_slice(Buffer::new().format(number).as_bytes())
}

fn tell_end(text: &mut Vec<u8>, one: &PassOne) -> Result<(), AllocError> {
    if explain_end(one.finals())?.is_none() {
        return Ok(());
    }
    text.extend_from_slice(b"end E")?;
    if let Some(number) = line_of_opener(one.traces()) {
        text.extend_from_slice(b" from line ")?;
        push_number(text, number as usize)?;
    }
    text.push(b'\n')?;
    Ok(())
}

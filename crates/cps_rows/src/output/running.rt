//! A source, and what becomes of its texts.
use super::shelf::{Calls, PlacedFile, Shelf};
use cps_batch::Source;
use cps_state::Hashing;
use cps_text::Line;
use cps_text::limits::MOST_LINES;
use cps_words::{Outputs, write_outputs};
use std::alloc::Global;
use std::process::Abort;

/// What stands for a page.
pub const PAGE: &[u8] = b"A PAGE\n";

/// What became of the texts of a source.
#[derive(Drop)]
pub struct OutputRun {
    /// What is told of the fault, None where there is none.
    pub told: Option<String>,
    pub placed: Vec<PlacedFile>,
    /// How many drafts wait at the end.
    pub waiting: u64,
}

/// Writes the texts of a source where one call of the files fails.
pub fn run(
    rt: &impl Abort,
    alloc: Global,
    source: &str,
    outputs: Outputs<'_>,
    failing: u64,
) -> OutputRun {
    let source = assemble(rt, alloc, source);
    let calls = Calls::failing_at(failing);
    let mut shelf = Shelf::new(alloc, &calls);
    let told = tell(rt, alloc, &mut shelf, &source, outputs);
    drop(source);
    let (placed, waiting) = shelf.into_parts();
    OutputRun {
        told,
        placed,
        waiting,
    }
}

/// What is told of the fault, None where there is none.
fn tell(
    rt: &impl Abort,
    alloc: Global,
    shelf: &mut Shelf<'_>,
    source: &Source,
    outputs: Outputs<'_>,
) -> Option<String> {
    match write_outputs(alloc, shelf, source, outputs, PAGE) {
        Ok(()) => None,
        Err(fault) => Some(fault.text(alloc).expect(rt, "memory")),
    }
}

fn assemble(rt: &impl Abort, alloc: Global, source: &str) -> Source {
    let mut lines = Vec::new(alloc);
    for text in source.lines() {
        let line = Line::new(alloc, text.as_bytes()).expect(rt, "a line");
        lines.push(line).expect(rt, "memory");
    }
    assert!(rt; lines.len() <= MOST_LINES as usize);
    Source::of(alloc, Hashing::by(1), lines).expect(rt, "memory")
}

//! What lines of a source did, and the chunk of them.
use cps_chunk::Chunk;
use cps_pass::step_one;
use cps_state::{Hashing, State, Trace, Work};
use cps_text::Line;
use std::alloc::{AllocError, Global};

fn take_line(alloc: Global, state: &mut State, traces: &mut Vec<Trace>, line: &Line) -> bool {
    match step_one(alloc, &mut Work::new(), line, state) {
        Ok(trace) => {
            let is_applied = state.apply(&trace).is_ok();
            traces.push(trace).is_ok() && is_applied
        }
        Err(_) => false,
    }
}

pub fn take_text(alloc: Global, state: &mut State, traces: &mut Vec<Trace>, text: &str) -> bool {
    match Line::new(alloc, text.as_bytes()) {
        Ok(line) => {
            let is_taken = take_line(alloc, state, traces, &line);
            drop(line);
            is_taken
        }
        Err(_) => false,
    }
}

/// The chunk of all these lines, with what they ask together.
pub fn gathered_chunk(
    alloc: Global,
    hashing: Hashing,
    traces: &[Trace],
) -> Result<Chunk, AllocError> {
    let mut chunk = Chunk::of(hashing, traces);
    chunk.gather_run(alloc, hashing, traces)?;
    Ok(chunk)
}

//! The chunk of a few lines: how many they are, how many keys their run asks, and in which states these have the same answers.
//! What a function holds is dropped by calls, whose proofs stand once.
use super::given::{gathered_chunk, take_text};
use cps_chunk::Chunk;
use cps_final::{RunAsks, same_answers};
use cps_state::{Hashing, Lookup, State, Trace};
use std::alloc::Global;

/// How many lines a chunk has, how many keys their run asks, and whether these have the same answers in the state in front of it and in the one behind it.
type ChunkFacts = (usize, usize, bool, bool);

fn facts_of(lines: usize, run: &RunAsks, front: &State, behind: &State) -> ChunkFacts {
    let asks = run.asks();
    (
        lines,
        asks.len(),
        same_answers(asks, front),
        same_answers(asks, behind),
    )
}

fn facts_in(chunk: &Chunk, front: &State, behind: &State) -> Option<ChunkFacts> {
    match &chunk.run {
        Some(run) => Some(facts_of(chunk.lines, run, front, behind)),
        None => None,
    }
}

fn find_facts(
    alloc: Global,
    traces: &[Trace],
    front: &State,
    behind: &State,
) -> Option<ChunkFacts> {
    match gathered_chunk(alloc, front.hashing(), traces) {
        Ok(chunk) => {
            let facts = facts_in(&chunk, front, behind);
            drop(chunk);
            facts
        }
        Err(_) => None,
    }
}

/// The run of these lines, the first of a source.
fn run_over(alloc: Global, lines: &[&str]) -> Option<ChunkFacts> {
    let front = State::first(alloc, Hashing::by(1));
    let mut state = State::first(alloc, Hashing::by(1));
    let mut traces = Vec::new(alloc);
    let mut is_taken = true;
    for text in lines {
        is_taken = take_text(alloc, &mut state, &mut traces, text) && is_taken;
    }
    let facts = find_facts(alloc, &traces, &front, &state);
    drop(traces);
    drop(state);
    drop(front);
    if is_taken { facts } else { None }
}

/// They ask six keys: the part of the program, the counter, and of A and of B the label and what SET gave. The second line asks three of these once more, the
/// third line two.
const LINES: [&str; 3] = [
    "A        CON     1",
    "B        CON     A",
    "         CON     2",
];

#[test]
fn asks_each_key_once(rt: HostRuntime) {
    let found = run_over(rt.alloc(), &LINES);
    assert_eq!(&rt; found, Some((3, 6, true, false)));
}

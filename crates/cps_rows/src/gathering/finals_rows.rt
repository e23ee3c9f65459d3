//! Whether a line names what has the same final values in two sources.
//! What a function holds is dropped by calls, whose proofs stand once.
use super::given::take_text;
use cps_final::{Finals, Gather, same_finals};
use cps_state::{Hashing, State, Trace, Work};
use std::alloc::Global;

/// What the lines of a source do.
fn traces_of(alloc: Global, lines: &[&str]) -> Option<Vec<Trace>> {
    let mut state = State::first(alloc, Hashing::by(1));
    let mut traces = Vec::new(alloc);
    let mut is_taken = true;
    for text in lines {
        is_taken = take_text(alloc, &mut state, &mut traces, text) && is_taken;
    }
    drop(state);
    if is_taken {
        return Some(traces);
    }
    drop(traces);
    None
}

/// What stands after them.
fn gathered(alloc: Global, traces: &[Trace]) -> Option<Gather> {
    let mut gather = Gather::new(alloc, Hashing::by(1));
    let mut is_added = true;
    for trace in traces {
        is_added = gather.add(trace).is_ok() && is_added;
    }
    if is_added {
        return Some(gather);
    }
    drop(gather);
    None
}

/// Of the last line: whether it is so, and how many comparisons were counted.
fn compare_last(traces: &[Trace], before: &Finals, after: &Finals) -> Option<(bool, u64)> {
    let last = traces.last()?;
    let mut work = Work::new();
    let is_same = same_finals(last, before, after, &mut work);
    Some((is_same, work.looked()))
}

fn compare_traces(alloc: Global, one: &[Trace], other: &[Trace]) -> Option<(bool, u64)> {
    let before = gathered(alloc, one)?;
    match gathered(alloc, other) {
        Some(after) => {
            let told = compare_last(one, &before, &after);
            drop(after);
            drop(before);
            told
        }
        None => {
            drop(before);
            None
        }
    }
}

/// Of the last line of the first of two sources.
fn compare(alloc: Global, one: &[&str], other: &[&str]) -> Option<(bool, u64)> {
    let first = traces_of(alloc, one)?;
    match traces_of(alloc, other) {
        Some(second) => {
            let told = compare_traces(alloc, &first, &second);
            drop(second);
            drop(first);
            told
        }
        None => {
            drop(first);
            None
        }
    }
}

/// A stands at 0 and B at 1; with a word more behind A, at 0 and at 2.
const AT_ONE: [&str; 3] = [
    "A        BSS     1",
    "B        BSS     1",
    "         CON     B",
];

const AT_TWO: [&str; 2] = ["A        BSS     2", "B        BSS     1"];

const OF_A: [&str; 3] = [
    "A        BSS     1",
    "B        BSS     1",
    "         CON     A",
];

#[test]
fn reads_a_label_that_moved(rt: HostRuntime) {
    let told = compare(rt.alloc(), &AT_ONE, &AT_TWO);
    assert_eq!(&rt; told, Some((false, 1)));
}

#[test]
fn reads_a_label_that_stayed(rt: HostRuntime) {
    let told = compare(rt.alloc(), &OF_A, &AT_TWO);
    assert_eq!(&rt; told, Some((true, 1)));
}

/// The literal stands behind the words of the nominal block: at 1, or at 2.
const ONE_WORD: [&str; 1] = ["         SA1     =5"];

const TWO_WORDS: [&str; 2] = ["A        BSS     1", "         SA1     =5"];

#[test]
fn has_a_literal_that_moved(rt: HostRuntime) {
    let told = compare(rt.alloc(), &ONE_WORD, &TWO_WORDS);
    assert_eq!(&rt; told, Some((false, 1)));
}

/// The block D begins behind the nominal one: at 1, or at 2.
const IN_D: [&str; 3] = [
    "A        BSS     1",
    "         USE     D",
    "         CON     1",
];

const D_LATER: [&str; 2] = ["A        BSS     2", "         USE     D"];

#[test]
fn stands_in_a_block_that_moved(rt: HostRuntime) {
    let told = compare(rt.alloc(), &IN_D, &D_LATER);
    assert_eq!(&rt; told, Some((false, 1)));
}

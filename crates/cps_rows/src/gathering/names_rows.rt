//! What a run of a few lines names: how many labels, blocks and literals.
//! What a function holds is dropped by calls, whose proofs stand once.
use super::given::take_text;
use cps_final::NamedFinals;
use cps_state::{Hashing, State, Trace};
use std::alloc::Global;

/// How many labels, blocks and literals a run names.
type NameCounts = [usize; 3];

fn counts_of(names: &NamedFinals) -> NameCounts {
    [
        names.labels().len(),
        names.blocks().len(),
        names.literals().len(),
    ]
}

fn count(alloc: Global, traces: &[Trace]) -> Option<NameCounts> {
    match NamedFinals::of(alloc, Hashing::by(1), traces) {
        Ok(names) => {
            let counts = counts_of(&names);
            drop(names);
            Some(counts)
        }
        Err(_) => None,
    }
}

/// Of the run of these lines, the first of a source.
fn counts_over(alloc: Global, lines: &[&str]) -> Option<NameCounts> {
    let mut state = State::first(alloc, Hashing::by(1));
    let mut traces = Vec::new(alloc);
    let mut is_taken = true;
    for text in lines {
        is_taken = take_text(alloc, &mut state, &mut traces, text) && is_taken;
    }
    let counts = count(alloc, &traces);
    drop(traces);
    drop(state);
    if is_taken { counts } else { None }
}

/// They read A and C, stand in the nominal block and in D, and have the literal 5.
const LINES: [&str; 6] = [
    "A        CON     1",
    "B        CON     A",
    "         SA1     =5",
    "         USE     D",
    "         SA2     =5",
    "         CON     A+C",
];

#[test]
fn names_each_once(rt: HostRuntime) {
    let counted = counts_over(rt.alloc(), &LINES);
    assert_eq!(&rt; counted, Some([2, 2, 1]));
}

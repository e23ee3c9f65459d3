//! Lines that are put into a state and gathered, each call once more where memory was refused to it: then it does what it would have
//! done. So the test stands whichever growth is refused, and `scripts/gate/refuse-memory --again` refuses each in turn.
//! What a function holds is dropped by calls, whose proofs stand once.
use super::text_assertions::assert_same;
use cps_final::Gather;
use cps_pass::step_one;
use cps_state::{Answer, Hashing, Key, Lookup, State, Trace, Work};
use cps_text::{Line, Name};
use std::alloc::Global;

/// Puts what a line did into the state, and adds it to what is gathered.
fn take_trace(state: &mut State, gather: &mut Gather, trace: &Trace) -> bool {
    let is_put = state.apply(trace).is_ok() || state.apply(trace).is_ok();
    let is_added = gather.add(trace).is_ok() || gather.add(trace).is_ok();
    is_put && is_added
}

/// What a line does in the state. None where there is no memory, and then nothing has changed.
fn take_line(alloc: Global, state: &mut State, gather: &mut Gather, line: &Line) -> Option<bool> {
    match step_one(alloc, &mut Work::new(), line, state) {
        Ok(trace) => {
            let is_taken = take_trace(state, gather, &trace);
            drop(trace);
            Some(is_taken)
        }
        Err(_) => None,
    }
}

fn take_text(alloc: Global, state: &mut State, gather: &mut Gather, text: &str) -> Option<bool> {
    match Line::new(alloc, text.as_bytes()) {
        Ok(line) => {
            let taken = take_line(alloc, state, gather, &line);
            drop(line);
            taken
        }
        Err(_) => None,
    }
}

/// Takes a text, once more where it wasn't.
fn take_again(alloc: Global, state: &mut State, gather: &mut Gather, text: &str) -> bool {
    match take_text(alloc, state, gather, text) {
        Some(is_taken) => is_taken,
        None => take_text(alloc, state, gather, text) == Some(true),
    }
}

/// What stands after some lines.
#[derive(Clone, Copy, PartialEq, Debug)]
struct GatherEnd {
    is_taken: bool,
    /// The place in the block W: its word, and the bits that are used in it.
    place: Option<(u32, u8)>,
    /// The last value of T in the state, and its final one.
    settings: [Option<i64>; 2],
    /// The final values of B and of the literals 1 and 2.
    finals: [Option<i64>; 3],
    literals: usize,
}

fn end_in(state: &State, gather: &Gather, is_taken: bool) -> Option<GatherEnd> {
    let block = Name::read(b"W")?;
    let label = Name::read(b"B")?;
    let setting = Name::read(b"T")?;
    Some(GatherEnd {
        is_taken,
        place: match state.ask(&Key::Counter(Some(block))) {
            Some(Answer::Counter(place)) => Some((place.word, place.used)),
            _ => None,
        },
        settings: [
            match state.ask(&Key::Setting(setting)) {
                Some(Answer::Value(value)) => Some(value.offset),
                _ => None,
            },
            gather.setting(setting).map(|value| value.offset),
        ],
        finals: [
            gather.label(label).map(|value| value.offset),
            gather.literal(1).map(|value| value.offset),
            gather.literal(2).map(|value| value.offset),
        ],
        literals: gather.pool().len(),
    })
}

/// The first instruction and the literals take three words, behind which the block W stands.
const LINES: [&str; 7] = [
    "         IDENT   P",
    "T        SET     5",
    "         SA1     =1",
    "T        SET     T+2",
    "         USE     W",
    "B        SA2     =2",
    "         SA3     =1",
];

fn reach(alloc: Global, lines: &[&str]) -> Option<GatherEnd> {
    let mut state = State::first(alloc, Hashing::by(1));
    let mut gather = Gather::new(alloc, Hashing::by(1));
    let mut is_taken = true;
    for text in lines {
        is_taken = take_again(alloc, &mut state, &mut gather, text) && is_taken;
    }
    let end = end_in(&state, &gather, is_taken);
    drop(gather);
    drop(state);
    end
}

#[test]
fn takes_lines_again(rt: HostRuntime) {
    let want = GatherEnd {
        is_taken: true,
        place: Some((1, 0)),
        settings: [Some(7), Some(7)],
        finals: [Some(3), Some(1), Some(2)],
        literals: 2,
    };
    assert_same(&rt, "what stands", &reach(rt.alloc(), &LINES), &Some(want));
}

//! Pass one of a source, line by line: the state before the first line, what each line puts there, and what it asks.
//! What a function holds is dropped by calls, whose proofs stand once.

use super::text_assertions::assert_same;
use cps_pass::step_one;
use cps_state::{Answer, Asked, Hashing, Item, Key, Lookup, State, Trace, Work};
use cps_text::{Line, Name};
use std::alloc::Global;
use std::collections::HashMap;
use std::hash::BuildHasher;

/// What stands at a few keys. Nothing stands at the others.
#[derive(Drop)]
struct Few {
    answers: HashMap<Key, Answer, Hashing>,
}

impl Lookup for Few {
    ghost use Rattle.std.specs.HashMap as hash;

    ghost answer = { λ few. hash.get ⟦<Key as PartialEq>⟧.eq few.answers };

    fn ask(&self, key: &Key) -> Option<&Answer> {
        self.answers.get(key)
    }

    fn hashing(&self) -> Hashing {
        *self.answers.hasher()
    }
}

/// Keeps what a line asked, and whether there was memory.
fn keep(few: &mut Few, asked: &Asked) -> bool {
    match &asked.answer {
        None => true,
        Some(answer) => match answer.share() {
            Ok(same) => few.answers.insert(asked.key, same).is_ok(),
            Err(_) => false,
        },
    }
}

fn keep_all(few: &mut Few, asks: &[Asked]) -> bool {
    let mut is_kept = true;
    for asked in asks {
        is_kept = keep(few, asked) && is_kept;
    }
    is_kept
}

/// Whether a line does the same where nothing stands but what it asked.
fn does_the_same(alloc: Global, line: &Line, trace: &Trace) -> bool {
    let mut few = Few {
        answers: HashMap::with_hasher(alloc, Hashing::by(2)),
    };
    let is_same = keep_all(&mut few, trace.asks()) && does_so_in(alloc, line, &few, trace);
    drop(few);
    is_same
}

/// Whether a line does this in a state.
fn does_so_in(alloc: Global, line: &Line, few: &Few, want: &Trace) -> bool {
    match step_one(alloc, &mut Work::new(), line, few) {
        Ok(trace) => {
            let is_same = is_same_trace(&trace, want);
            drop(trace);
            is_same
        }
        Err(_) => false,
    }
}

fn is_same_trace(one: &Trace, other: &Trace) -> bool {
    one.asks() == other.asks()
        && one.puts() == other.puts()
        && one.reads() == other.reads()
        && are_same_items(one.items(), other.items())
}

fn are_same_items(one: &[Item], other: &[Item]) -> bool {
    one.len() == other.len() && one.iter().zip(other).all(|(a, b)| is_same_item(a, b))
}

/// Whether two statements have the same depth and text, the same flags and place, and as many contents.
fn is_same_item(one: &Item, other: &Item) -> bool {
    one.depth == other.depth
        && one.text == other.text
        && one.made.flags() == other.made.flags()
        && one.made.start() == other.made.start()
        && one.made.contents().len() == other.made.contents().len()
}

/// Takes a line in a state, which is then that after the line. Whether it did the same where only what it asked stood.
fn take(alloc: Global, state: &mut State, line: &Line) -> bool {
    match step_one(alloc, &mut Work::new(), line, state) {
        Ok(trace) => {
            let is_same = does_the_same(alloc, line, &trace);
            let is_applied = state.apply(&trace).is_ok();
            drop(trace);
            is_same && is_applied
        }
        Err(_) => false,
    }
}

fn take_text(alloc: Global, state: &mut State, text: &str) -> bool {
    match Line::new(alloc, text.as_bytes()) {
        Ok(line) => take(alloc, state, &line),
        Err(_) => false,
    }
}

fn take_all(alloc: Global, state: &mut State, lines: &[&str]) -> bool {
    let mut is_alike = true;
    for text in lines {
        is_alike = take_text(alloc, state, text) && is_alike;
    }
    is_alike
}

/// What stands after some lines.
#[derive(Clone, Copy)]
struct PassEnd {
    /// Whether each line did the same where only what it asked stood.
    is_alike: bool,
    /// The symbol's value.
    value: Option<i64>,
    /// The word of the next bit, the bits that are used in it, and whether a forcing is pending.
    place: Option<(u32, u8, bool)>,
}

/// Pass one of lines, one after another, and what stands then.
fn pass_one(alloc: Global, lines: &[&str], symbol: &[u8]) -> PassEnd {
    let mut state = State::first(alloc, Hashing::by(1));
    let is_alike = take_all(alloc, &mut state, lines);
    let end = PassEnd {
        is_alike,
        value: value_in(&state, symbol),
        place: place_in(&state),
    };
    drop(state);
    end
}

fn value_in(state: &State, symbol: &[u8]) -> Option<i64> {
    match state.ask(&Key::Label(Name::read(symbol)?)) {
        Some(Answer::Value(value)) => Some(value.offset),
        _ => None,
    }
}

/// The place of the nominal block.
fn place_in(state: &State) -> Option<(u32, u8, bool)> {
    match state.ask(&Key::Counter(None)) {
        Some(Answer::Counter(place)) => Some((place.word, place.used, place.is_pending)),
        _ => None,
    }
}

const PROGRAM: [&str; 8] = [
    "         IDENT   T1",
    "         ABS",
    "         ORG     100B",
    "START    SA1     B1+3",
    "         SX6     X1",
    "         SA6     A1",
    "         EQ      START",
    "         END",
];

#[test]
fn puts_labels_and_places(rt: HostRuntime) {
    // How many lines, the value of START, and the place.
    const ROWS: [(usize, Option<i64>, (u32, u8, bool)); 6] = [
        (0, None, (0, 0, false)),
        (3, None, (0o100, 0, false)),
        (4, Some(0o100), (0o100, 30, false)),
        (6, Some(0o100), (0o101, 0, false)),
        (7, Some(0o100), (0o101, 30, true)),
        (8, Some(0o100), (0o102, 0, false)),
    ];
    for (count, value, place) in ROWS.iter() {
        let got = pass_one(rt.alloc(), &PROGRAM[..*count], b"START");
        assert_same(&rt, "each line alike", &got.is_alike, &true);
        assert_same(&rt, "START", &got.value, value);
        assert_same(&rt, "the place", &got.place, &Some(*place));
    }
}

/// A macro, a SET, a range and a DUP: what a line asks is enough for it.
#[test]
fn goes_by_what_it_asks(rt: HostRuntime) {
    const LINES: [&str; 13] = [
        "M        MACRO   P",
        "         CON     P,Q",
        "         ENDM",
        "S        SET     1",
        "A        M       S",
        "S        SET     S+1",
        "         IFEQ    S,2",
        "B        M       B",
        "         ELSE",
        "         USE     WORK",
        "         ENDIF",
        "         DUP     2,1",
        "         CON     S",
    ];
    let got = pass_one(rt.alloc(), &LINES, b"B");
    assert_same(&rt, "each line alike", &got.is_alike, &true);
    assert_same(&rt, "B", &got.value, &Some(2));
    assert_same(&rt, "the place", &got.place, &Some((6, 0, false)));
}

/// Two numbers hash a key otherwise, which no contract says.
#[test]
fn hashes_by_a_number(rt: HostRuntime) {
    let one = Hashing::by(1).hash_one(7u64);
    let other = Hashing::by(2).hash_one(7u64);
    assert_same(&rt, "alike", &(one == other), &false);
}

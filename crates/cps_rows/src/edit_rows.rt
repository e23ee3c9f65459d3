//! Edits of a session.
use super::text_assertions::assert_same;
use cps_live::{EditFault, Session};
use cps_state::{Hashing, Work};
use cps_text::Line;
use std::alloc::Global;
use std::process::Abort;

/// An edit of a session: of the lines after a number, at one, or from one to another, which a move puts after a third.
#[derive(Clone, Copy)]
pub enum Edit {
    Insert(u32, &'static [u8]),
    Replace(u32, &'static [u8]),
    Delete(u32, u32),
    Move(u32, u32, u32),
}

/// What comes of an edit. A text that is no line counts as one for which there is no memory.
pub fn carry_out(
    alloc: Global,
    session: &mut Session,
    work: &mut Work,
    edit: &Edit,
) -> Result<(), EditFault> {
    match edit {
        Edit::Insert(after, text) => insert(alloc, session, work, *after, text),
        Edit::Replace(at, text) => replace(alloc, session, work, *at, text),
        Edit::Delete(first, last) => session.delete(*first, *last, work),
        Edit::Move(first, last, after) => session.move_lines(*first, *last, *after, work),
    }
}

/// Inserts a line after a number.
pub fn insert(
    alloc: Global,
    session: &mut Session,
    work: &mut Work,
    after: u32,
    text: &[u8],
) -> Result<(), EditFault> {
    match Line::new(alloc, text) {
        Ok(line) => session.insert(after, line, work),
        Err(_) => Err(EditFault::Memory),
    }
}

fn replace(
    alloc: Global,
    session: &mut Session,
    work: &mut Work,
    at: u32,
    text: &[u8],
) -> Result<(), EditFault> {
    match Line::new(alloc, text) {
        Ok(line) => session.replace(at, line, work),
        Err(_) => Err(EditFault::Memory),
    }
}

/// An edit, what comes of it, and then the number of lines, the first of them, and the steps of each pass so far.
type EditRow = (
    Edit,
    Result<(), EditFault>,
    u32,
    Option<&'static [u8]>,
    [u64; 2],
);

/// Asserts what comes of an edit.
fn assert_edit(
    rt: &impl Abort,
    alloc: Global,
    session: &mut Session,
    work: &mut Work,
    row: &EditRow,
) {
    let (edit, end, count, first, steps) = row;
    let done = carry_out(alloc, session, work, edit);
    assert_same(rt, "what came of it", &done, end);
    assert_same(rt, "lines", &session.count(), count);
    assert_line(rt, session, 0, None);
    assert_line(rt, session, 1, *first);
    assert_line(rt, session, count.saturating_add(1), None);
    assert_same(rt, "steps", &[work.ones(), work.twos()], steps);
}

/// Asserts what a line of a source is, None where there is none.
fn assert_line(rt: &impl Abort, session: &Session, n: u32, want: Option<&[u8]>) {
    assert_eq!(rt; session.line(n).map(|line| line.bytes()), want, "line {n}");
}

/// Inserts a line so many times after the last one. Where there is no memory it is missing.
fn enter_times(alloc: Global, session: &mut Session, times: u32, text: &[u8]) {
    for _ in 0..times {
        let _ = insert(alloc, session, &mut Work::new(), session.count(), text);
    }
}

/// Asserts what comes of an edit, and that it makes at most so many comparisons.
fn assert_looks(rt: &impl Abort, alloc: Global, session: &mut Session, row: &EditRow, most: u64) {
    let mut work = Work::new();
    assert_edit(rt, alloc, session, &mut work, row);
    assert_same(rt, "looks", &work.looked().max(most), &most);
}

/// A session of a comment among 4,999 words: it is line 2,500.
fn many_words(alloc: Global) -> Session {
    let mut session = Session::new(alloc, Hashing::by(1));
    enter_times(alloc, &mut session, 2_499, WORD);
    enter_times(alloc, &mut session, 1, b"* one");
    enter_times(alloc, &mut session, 2_500, WORD);
    session
}

const WORD: &[u8] = b"   CON 1";

/// Among 5,000 lines a comment takes the place of another: one step of each pass. Then it goes elsewhere, which takes no step. Then the
/// first line and the last one come to name a symbol that a line between them gives a value, and another one: two steps more. Each
/// compares at most the lines of three chunks, in both passes.
#[test]
fn steps_few_of_many_lines(rt: HostRuntime) {
    const USE: &[u8] = b"   CON A";
    const ROWS: [EditRow; 6] = [
        (
            Edit::Replace(2_500, b"* two"),
            Ok(()),
            5_000,
            Some(WORD),
            [1, 1],
        ),
        (
            Edit::Move(2_500, 2_500, 10),
            Ok(()),
            5_000,
            Some(WORD),
            [0, 0],
        ),
        (Edit::Replace(1, USE), Ok(()), 5_000, Some(USE), [1, 1]),
        (Edit::Replace(5_000, USE), Ok(()), 5_000, Some(USE), [1, 1]),
        (
            Edit::Insert(2_500, b"A  EQU 1"),
            Ok(()),
            5_001,
            Some(USE),
            [1, 3],
        ),
        (
            Edit::Replace(2_501, b"A  EQU 2"),
            Ok(()),
            5_001,
            Some(USE),
            [1, 3],
        ),
    ];
    let mut session = many_words(rt.alloc());
    for row in ROWS.iter() {
        assert_looks(&rt, rt.alloc(), &mut session, row, 384);
    }
    drop(session);
}

//! Sources of some chunks of lines, which edits split, shorten and join: the texts of a session are those of batch assembly, and
//! an edit compares lines of few chunks.
use super::edit_rows::{Edit, carry_out};
use super::many_edits::{Numbers, assert_as_batch};
use super::text_assertions::assert_same;
use cps_live::Session;
use cps_state::{Hashing, Work};
use std::alloc::Global;
use std::process::Abort;

/// Makes edits in turn, so many in all, and asserts the texts after each.
fn assert_in_turn(
    rt: &impl Abort,
    alloc: Global,
    session: &mut Session,
    edits: &[Edit],
    times: usize,
) {
    for (at, edit) in edits.iter().cycle().take(times).enumerate() {
        let _ = carry_out(alloc, session, &mut Work::new(), edit);
        assert_as_batch(rt, alloc, at, session);
    }
}

/// Two hundred lines come at one place, one by one, and then go again.
#[test]
fn two_hundred_lines_come_and_go(rt: HostRuntime) {
    const FIRST: [Edit; 2] = [Edit::Insert(0, b"N SET 1"), Edit::Insert(1, b"L CON N")];
    const COME: [Edit; 4] = [
        Edit::Insert(1, b"*"),
        Edit::Insert(1, b"  NO"),
        Edit::Insert(1, b"*"),
        Edit::Insert(1, b"* TWO"),
    ];
    const GO: [Edit; 1] = [Edit::Delete(2, 2)];
    let mut session = Session::new(rt.alloc(), Hashing::by(1));
    assert_in_turn(&rt, rt.alloc(), &mut session, &FIRST, 2);
    assert_in_turn(&rt, rt.alloc(), &mut session, &COME, 200);
    assert_same(&rt, "lines", &session.count(), &202);
    assert_in_turn(&rt, rt.alloc(), &mut session, &GO, 200);
    assert_same(&rt, "lines", &session.count(), &2);
    drop(session);
}

/// An edit that is made so many times, and then how many lines each chunk has.
type ChunkRow = (u32, Edit, &'static [usize]);

/// Makes the edit of a row so many times, and asserts the chunks and the texts after the last one.
fn assert_edits(rt: &impl Abort, alloc: Global, at: usize, session: &mut Session, row: &ChunkRow) {
    let (times, edit, lengths) = row;
    for _ in 0..*times {
        let _ = carry_out(alloc, session, &mut Work::new(), edit);
    }
    let got = session.chunk_lengths().unwrap_or_else(|_| Vec::new(alloc));
    assert_same(rt, "chunks", &got.as_slice(), lengths);
    assert_as_batch(rt, alloc, at, session);
}

/// A full chunk is split at its front and in the middle, a chunk between two others grows and falls to nothing, others are
/// shortened from within, and join, lines go over their ends, and at last the source falls to nothing too.
#[test]
fn chunks_split_and_join(rt: HostRuntime) {
    const ROWS: [ChunkRow; 19] = [
        (64, Edit::Insert(0, b"  NO"), &[64]),
        (1, Edit::Insert(32, b"A CON A,B"), &[64, 1]),
        (1, Edit::Insert(0, b"* FRONT"), &[64, 2]),
        (62, Edit::Insert(65, b"N SET 1"), &[64, 64]),
        (1, Edit::Move(1, 1, 64), &[64, 64]),
        (1, Edit::Move(64, 64, 65), &[64, 64]),
        (1, Edit::Move(1, 10, 128), &[54, 64, 10]),
        (1, Edit::Move(119, 128, 0), &[64, 64]),
        (1, Edit::Insert(64, b"B  SX1 A"), &[64, 1, 64]),
        (1, Edit::Insert(64, b"  USE W"), &[64, 2, 64]),
        (1, Edit::Insert(130, b"* END"), &[64, 2, 64, 1]),
        (1, Edit::Replace(65, b"  CON =1"), &[64, 2, 64, 1]),
        (1, Edit::Delete(65, 66), &[64, 64, 1]),
        (1, Edit::Delete(33, 96), &[32, 33]),
        (1, Edit::Delete(33, 33), &[64]),
        (1, Edit::Insert(10, b"C CON A"), &[64, 1]),
        (1, Edit::Delete(2, 64), &[2]),
        (1, Edit::Delete(1, 2), &[]),
        (1, Edit::Insert(0, b"A CON A"), &[1]),
    ];
    let mut session = Session::new(rt.alloc(), Hashing::by(1));
    assert_rows(&rt, rt.alloc(), &mut session, &ROWS);
    drop(session);
}

fn assert_rows(rt: &impl Abort, alloc: Global, session: &mut Session, rows: &[ChunkRow]) {
    for (at, row) in rows.iter().enumerate() {
        assert_edits(rt, alloc, at, session, row);
    }
}

/// What edits enter: comments, and statements that others use little.
const LINES: [&[u8]; 8] = [
    b"*",
    b"* ANOTHER",
    b"  CON 1",
    b"  CON A",
    b"  SA1 =1",
    b"  SA1 =2",
    b"A EQU 1",
    b"A EQU 2",
];

fn line_of(numbers: &mut Numbers) -> &'static [u8] {
    let at = numbers.below(LINES.len() as u32) as usize;
    LINES.get(at).copied().unwrap_or(b"")
}

/// An edit anywhere in a source of so many lines. It may be one that is refused.
fn edit_of(numbers: &mut Numbers, count: u32) -> Edit {
    let after = numbers.below(count);
    let at = after.saturating_add(1);
    match numbers.below(4) {
        0 => Edit::Insert(after, line_of(numbers)),
        1 => Edit::Delete(at, at.saturating_add(numbers.below(3))),
        _ => Edit::Replace(at, line_of(numbers)),
    }
}

/// Makes an edit, and asserts that it compares no more than each line of two chunks, and of one more for each line that it steps
/// in pass two, once in either pass. It makes at most two chunks anew, and a chunk has at most 64 lines.
fn assert_looks(rt: &impl Abort, alloc: Global, session: &mut Session, edit: &Edit) {
    let mut work = Work::new();
    let _ = carry_out(alloc, session, &mut work, edit);
    let most = work.twos().saturating_add(2).saturating_mul(128);
    assert_same(rt, "looks", &work.looked().max(most), &most);
}

/// Enters so many lines at the end, and then makes so many edits anywhere.
fn assert_all_looks(
    rt: &impl Abort,
    alloc: Global,
    session: &mut Session,
    lines: usize,
    edits: usize,
) {
    let mut numbers = Numbers { last: 1 };
    for _ in 0..lines {
        let edit = Edit::Insert(session.count(), line_of(&mut numbers));
        assert_looks(rt, alloc, session, &edit);
    }
    for _ in 0..edits {
        let edit = edit_of(&mut numbers, session.count());
        assert_looks(rt, alloc, session, &edit);
    }
}

#[test]
fn edits_look_at_few_chunks(rt: HostRuntime) {
    let mut session = Session::new(rt.alloc(), Hashing::by(1));
    assert_all_looks(&rt, rt.alloc(), &mut session, 500, 100);
    assert_as_batch(&rt, rt.alloc(), 0, &session);
    drop(session);
}

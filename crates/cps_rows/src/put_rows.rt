//! Several lines in the place of others in one edit.
use super::many_edits::assert_as_batch;
use super::text_assertions::assert_same;
use cps_live::{EditFault, Session};
use cps_state::{Hashing, Work};
use cps_text::Line;
use std::alloc::{AllocError, Global};
use std::process::Abort;

/// So many lines, these over and over. Where there is no memory some are missing.
fn lines_of(alloc: Global, texts: &[&[u8]], count: usize) -> Result<Vec<Line>, AllocError> {
    let mut lines = Vec::new(alloc);
    for text in texts.iter().cycle().take(count) {
        if let Ok(line) = Line::new(alloc, text) {
            lines.push(line)?;
        }
    }
    Ok(lines)
}

/// So many of these lines, over and over, come in the place of those from a number to another. Then what comes of it, which is where other lines are made anew, how
/// many lines each chunk has, and the steps of each pass.
type PutRow = (
    u32,
    u32,
    &'static [&'static [u8]],
    usize,
    Result<&'static [usize], EditFault>,
    &'static [usize],
    [u64; 2],
);

const ADDRESS: &[u8] = b"         CON     A";

const ONE: &[u8] = b"A        EQU     1";

const TWO: &[u8] = b"A        EQU     2";

const COMMENT: &[u8] = b"*";

/// Makes the edit of a row, and asserts what comes of it.
fn assert_put(rt: &impl Abort, alloc: Global, at: usize, session: &mut Session, row: &PutRow) {
    let (first, last, texts, count, end, chunks, steps) = row;
    let lines = lines_of(alloc, texts, *count).unwrap_or_else(|_| Vec::new(alloc));
    let mut work = Work::new();
    let done = session.put(*first, *last, lines, &mut work);
    let told = match &done {
        Ok(redone) => Ok(redone.places.as_slice()),
        Err(fault) => Err(*fault),
    };
    assert_same(rt, "what came of it", &told, end);
    let got = session.chunk_lengths().unwrap_or_else(|_| Vec::new(alloc));
    assert_same(rt, "chunks", &got.as_slice(), chunks);
    assert_same(rt, "steps", &[work.ones(), work.twos()], steps);
    assert_as_batch(rt, alloc, at, session);
}

/// Lines come where there are none, in the place of fewer and of more, of as many, and of none; they are no lines, and the place is none. Each that comes is
/// stepped once, and one that names another value is stepped again in pass two.
#[test]
fn several_lines_come_at_once(rt: HostRuntime) {
    const NO_LINE: Result<&[usize], EditFault> = Err(EditFault::NoSuchLine);
    const ROWS: [PutRow; 14] = [
        (1, 0, &[ONE, ADDRESS, COMMENT], 3, Ok(&[]), &[3], [3, 3]),
        (2, 3, &[ADDRESS], 1, Ok(&[]), &[2], [1, 1]),
        (1, 1, &[COMMENT, TWO], 2, Ok(&[2]), &[3], [2, 3]),
        (1, 2, &[ONE], 1, Ok(&[1]), &[2], [1, 2]),
        (1, 1, &[TWO], 1, Ok(&[1]), &[2], [1, 2]),
        (3, 2, &[], 0, Ok(&[]), &[2], [0, 0]),
        (0, 0, &[COMMENT], 1, NO_LINE, &[2], [0, 0]),
        (3, 1, &[COMMENT], 1, NO_LINE, &[2], [0, 0]),
        (1, 3, &[COMMENT], 1, NO_LINE, &[2], [0, 0]),
        (4, 3, &[COMMENT], 1, NO_LINE, &[2], [0, 0]),
        (3, 2, &[COMMENT], 70, Ok(&[]), &[64, 8], [70, 70]),
        (11, 10, &[COMMENT], 70, Ok(&[]), &[64, 64, 14], [70, 70]),
        (2, 130, &[ADDRESS, COMMENT], 4, Ok(&[]), &[17], [4, 4]),
        (1, 17, &[], 0, Ok(&[]), &[], [0, 0]),
    ];
    let mut session = Session::new(rt.alloc(), Hashing::by(1));
    for (at, row) in ROWS.iter().enumerate() {
        assert_put(&rt, rt.alloc(), at, &mut session, row);
    }
    drop(session);
}

/// A source has room for 99,999 lines and no more.
#[test]
fn too_many_lines_are_refused_at_once(rt: HostRuntime) {
    const TOO_MANY: Result<&[usize], EditFault> = Err(EditFault::TooManyLines);
    const ROW: PutRow = (1, 0, &[COMMENT], 100_000, TOO_MANY, &[], [0, 0]);
    let mut session = Session::new(rt.alloc(), Hashing::by(1));
    assert_put(&rt, rt.alloc(), 0, &mut session, &ROW);
    drop(session);
}

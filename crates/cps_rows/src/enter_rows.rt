//! Sessions that begin with lines: texts, steps and chunks are those of the same lines entered one by one, and so are those of later
//! edits.
use super::edit_rows::{Edit, carry_out, insert};
use super::many_edits::assert_as_batch;
use super::text_assertions::assert_same;
use cps_live::Session;
use cps_state::{Hashing, Work};
use cps_text::Line;
use std::alloc::{AllocError, Global};
use std::process::Abort;

/// Lines of which each names, puts or opens something that another one does. They are entered ten times over.
const LINES: [&[u8]; 13] = [
    b"         USE     W",
    b"A        CON     B,=1",
    b"N        SET     N+1",
    b"         SA1     =2",
    b"M        MACRO   P",
    b"         CON     P,N",
    b"         ENDM",
    b"         M       A",
    b"         USE",
    b"         IF      DEF,B,1",
    b"K        EQU     2",
    b"B        BSS     K",
    b"         DUP     2,1",
];

const COUNT: usize = 130;

/// So many lines, these over and over. Where there is no memory some are missing.
fn lines_of(alloc: Global, count: usize) -> Result<Vec<Line>, AllocError> {
    let mut lines = Vec::new(alloc);
    for text in LINES.iter().cycle().take(count) {
        if let Ok(line) = Line::new(alloc, text) {
            lines.push(line)?;
        }
    }
    Ok(lines)
}

/// A session that begins with so many lines. Where there is no memory it has none.
fn at_once(alloc: Global, count: usize, work: &mut Work) -> Session {
    let lines = lines_of(alloc, count).unwrap_or_else(|_| Vec::new(alloc));
    if lines.len() > 99_999 {
        drop(lines);
        return Session::new(alloc, Hashing::by(1));
    }
    let entered = Session::enter(alloc, Hashing::by(1), lines, work);
    entered.unwrap_or_else(|_| Session::new(alloc, Hashing::by(1)))
}

/// Appends so many lines, one by one.
fn append_all(alloc: Global, session: &mut Session, count: usize) {
    for text in LINES.iter().cycle().take(count) {
        let _ = insert(alloc, session, &mut Work::new(), session.count(), text);
    }
}

/// Asserts how many lines each chunk has.
fn assert_chunks(rt: &impl Abort, alloc: Global, session: &Session, want: &[usize]) {
    let got = session.chunk_lengths().unwrap_or_else(|_| Vec::new(alloc));
    assert_same(rt, "chunks", &got.as_slice(), &want);
}

/// Asserts what a session is that begins with so many lines: each is stepped once in each pass, and none is compared.
fn assert_entered(rt: &impl Abort, alloc: Global, count: usize, chunks: &[usize]) {
    let mut work = Work::new();
    let session = at_once(alloc, count, &mut work);
    assert_chunks(rt, alloc, &session, chunks);
    assert_same(rt, "steps of pass one", &work.ones(), &(count as u64));
    assert_same(rt, "steps of pass two", &work.twos(), &(count as u64));
    assert_same(rt, "looks", &work.looked(), &0);
    assert_as_batch(rt, alloc, count, &session);
    drop(session);
}

#[test]
fn lines_are_entered_in_full_chunks(rt: HostRuntime) {
    const ROWS: [(usize, &[usize]); 6] = [
        (0, &[]),
        (1, &[1]),
        (63, &[63]),
        (64, &[64]),
        (65, &[64, 1]),
        (130, &[64, 64, 2]),
    ];
    for (count, chunks) in ROWS.iter() {
        assert_entered(&rt, rt.alloc(), *count, chunks);
    }
}

/// Makes an edit in two sessions, and asserts that it ends the same in both, makes the same steps, and leaves the same chunks; and the texts of the first.
fn assert_alike(
    rt: &impl Abort,
    alloc: Global,
    one: &mut Session,
    other: &mut Session,
    edit: &Edit,
) {
    let mut first = Work::new();
    let mut second = Work::new();
    let end = carry_out(alloc, one, &mut first, edit);
    assert_same(
        rt,
        "the end",
        &end,
        &carry_out(alloc, other, &mut second, edit),
    );
    assert_same(
        rt,
        "steps",
        &[first.ones(), first.twos()],
        &[second.ones(), second.twos()],
    );
    let chunks = other.chunk_lengths().unwrap_or_else(|_| Vec::new(alloc));
    assert_chunks(rt, alloc, one, &chunks);
    assert_as_batch(rt, alloc, 0, one);
}

/// Edits of either session: appends first, then in the midst, and an append behind them.
const EDITS: [Edit; 9] = [
    Edit::Insert(130, b"C        CON     =2"),
    Edit::Insert(131, b"D        CON     C"),
    Edit::Replace(11, b"K        EQU     3"),
    Edit::Insert(64, b"* COMMENT"),
    Edit::Delete(60, 70),
    Edit::Move(2, 3, 100),
    Edit::Replace(200, b"* NO SUCH LINE"),
    Edit::Insert(0, b"         IDENT   T"),
    Edit::Insert(123, b"         END"),
];

#[test]
fn edits_go_as_in_lines_entered_one_by_one(rt: HostRuntime) {
    let mut one = at_once(rt.alloc(), COUNT, &mut Work::new());
    let mut other = Session::new(rt.alloc(), Hashing::by(1));
    append_all(rt.alloc(), &mut other, COUNT);
    for edit in EDITS.iter() {
        assert_alike(&rt, rt.alloc(), &mut one, &mut other, edit);
    }
    assert_same(&rt, "lines", &one.count(), &124);
    drop(one);
    drop(other);
}

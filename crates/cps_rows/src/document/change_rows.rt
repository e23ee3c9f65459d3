//! Changes of a document: its source after each, which the session has as cards.
use super::assertions::{assert_row, assert_same, push_ended};
use cps_live::Session;
use cps_rpc::{Encoding, Position, Range};
use cps_server::Document;
use cps_state::Hashing;
use std::alloc::Global;
use std::process::Abort;

/// What a document is: the session's lines, each with a bar behind it; how many lines the text has, and how many of the session's lines are flagged.
type DocumentState = (&'static str, [usize; 2]);

/// The line and character where a range begins and where it ends, or None for all of the text; the new text; and what the document is then.
type DocumentRow = (Option<[u32; 4]>, &'static [u8], DocumentState);

/// The range from a line and character to others.
fn range_of(places: [u32; 4]) -> Range {
    let [line, character, end_line, end_character] = places;
    Range {
        start: Position { line, character },
        end: Position {
            line: end_line,
            character: end_character,
        },
    }
}

/// Appends the lines of a session, each with a bar behind it.
fn push_lines(rt: &impl Abort, told: &mut Vec<u8>, session: &Session) {
    for n in 1..=session.count() {
        if let Some(line) = session.line(n) {
            push_ended(rt, told, line.bytes(), b'|');
        }
    }
}

/// Asserts what a document is.
fn assert_document(
    rt: &impl Abort,
    alloc: Global,
    at: usize,
    document: &Document,
    want: &DocumentState,
) {
    let (lines, counts) = want;
    let session = document.session();
    let mut told = Vec::new(alloc);
    push_lines(rt, &mut told, session);
    assert_row(rt, at, &told, lines);
    drop(told);
    let got = [document.lines().len(), session.flagged() as usize];
    assert_same(rt, at, &got, counts);
}

/// Opens a text, makes the changes of rows one after another, and asserts what the document is at first and after each.
fn assert_changes(
    rt: &impl Abort,
    alloc: Global,
    text: &[u8],
    first: &DocumentState,
    rows: &[DocumentRow],
) {
    let opened = Document::open(alloc, Hashing::by(1), text);
    let mut document = opened.expect(rt, "memory");
    assert_document(rt, alloc, 0, &document, first);
    for (at, (range, new, want)) in rows.iter().enumerate() {
        let changed = document.change(Encoding::Utf16, range.map(range_of), new);
        let (next, touched) = changed.expect(rt, "memory");
        drop(touched);
        document = next;
        assert_document(rt, alloc, at + 1, &document, want);
    }
    drop(document);
}

/// Three statements: one with tabs and a carriage return at its end, one of 95 bytes, and one without a newline.
const TEXT: &[u8] =
    b"A\tCON\tB\r\nB        CON     1            *23456789012345678901234567890123456789012345678901234567890VWXYZ\n   CON A";

/// A blank stands for a tab, and 90 bytes of the second line are left.
const OPENED: DocumentState = (
    "A CON B|B        CON     1            *23456789012345678901234567890123456789012345678901234567890|   CON A|",
    [3, 0],
);

/// What is done in an editor.
const CHANGES: [DocumentRow; 9] = [
    // a key is typed: no line defines AB
    (
        Some([2, 8, 2, 8]),
        b"B",
        (
            "A CON B|B        CON     1            *23456789012345678901234567890123456789012345678901234567890|   CON AB|",
            [3, 1],
        ),
    ),
    // Enter in the middle of a line: what stands behind it is a comment of 65 bytes
    (
        Some([1, 30, 1, 30]),
        b"\n",
        (
            "A CON B|B        CON     1            |*23456789012345678901234567890123456789012345678901234567890VWXYZ|   CON AB|",
            [4, 1],
        ),
    ),
    // a newline behind the last line
    (
        Some([3, 9, 3, 9]),
        b"\n",
        (
            "A CON B|B        CON     1            |*23456789012345678901234567890123456789012345678901234567890VWXYZ|   CON AB|",
            [5, 1],
        ),
    ),
    // a byte behind that
    (
        Some([4, 0, 4, 0]),
        b"*",
        (
            "A CON B|B        CON     1            |*23456789012345678901234567890123456789012345678901234567890VWXYZ|   CON AB|*|",
            [5, 1],
        ),
    ),
    // a line that defines AB in its place
    (
        Some([4, 0, 4, 1]),
        b"AB EQU 2",
        (
            "A CON B|B        CON     1            |*23456789012345678901234567890123456789012345678901234567890VWXYZ|   CON AB|AB EQU 2|",
            [5, 0],
        ),
    ),
    // two lines are joined
    (
        Some([1, 30, 2, 0]),
        b"",
        (
            "A CON B|B        CON     1            *23456789012345678901234567890123456789012345678901234567890|   CON AB|AB EQU 2|",
            [4, 0],
        ),
    ),
    // all of the text is replaced: no line defines C
    (
        None,
        b"   CON 1\r\n   CON C\n",
        ("   CON 1|   CON C|", [3, 1]),
    ),
    // all of it is deleted
    (Some([0, 0, 2, 0]), b"", ("", [1, 0])),
    // a line is typed where there is none
    (Some([0, 0, 0, 0]), b"   CON 1", ("   CON 1|", [1, 0])),
];

#[test]
fn changes_a_document(rt: HostRuntime) {
    assert_changes(&rt, rt.alloc(), TEXT, &OPENED, &CHANGES);
}

//! Changes of a text: by the Language Server Protocol, but for positions that stand nowhere.
use super::assertions::assert_same;
use super::line_rows::assert_lines;
use cps_rpc::{Buffer, Encoding, Position, Range, Replacement};
use std::alloc::Global;
use std::process::Abort;

/// A text, the line and character where a range begins and where it ends, or None for all of the text, and the new text. Then the lines of the
/// changed text, each with a bar behind it; and of the lines that gave way the first, the first behind them, and how many came.
type BufferRow = (
    &'static [u8],
    Option<[u32; 4]>,
    &'static [u8],
    &'static str,
    [usize; 3],
);

/// The range from a line and character to others.
fn range_of(places: [u32; 4]) -> Range {
    let [line, character, end_line, end_character] = places;
    Range {
        start: Position { line, character },
        end: Position {
            line: end_line,
            character: end_character,
        },
    }
}

fn numbers_of(replacement: Replacement) -> [usize; 3] {
    [replacement.first, replacement.end, replacement.count]
}

/// Makes the change of a row, and asserts what comes of it.
fn assert_change(rt: &impl Abort, alloc: Global, encoding: Encoding, at: usize, row: &BufferRow) {
    let (text, places, new, lines, replaced) = row;
    let mut buffer = Buffer::of(alloc, text).expect(rt, "memory");
    let replacement = buffer
        .change(encoding, places.map(range_of), new)
        .expect(rt, "memory");
    assert_same(rt, at, &numbers_of(replacement), replaced);
    assert_lines(rt, alloc, at, &buffer, lines);
    drop(buffer);
}

/// What is done in an editor.
const CHANGES: [BufferRow; 8] = [
    // a key is typed
    (b"AB\nCD\n", Some([1, 1, 1, 1]), b"X", "AB|CXD||", [1, 2, 1]),
    // Enter in the middle of a line
    (b"ABCD\nE", Some([0, 2, 0, 2]), b"\n", "AB|CD|E|", [0, 1, 2]),
    // two lines are joined
    (b"AB\nCD\nE", Some([0, 2, 1, 0]), b"", "ABCD|E|", [0, 2, 1]),
    // three lines are pasted
    (
        b"AB\nC",
        Some([0, 1, 0, 1]),
        b"1\n2\n3\n",
        "A1|2|3|B|C|",
        [0, 1, 4],
    ),
    // what stands on three lines is deleted
    (
        b"AB\nCD\nEF\nG",
        Some([0, 1, 2, 1]),
        b"",
        "AF|G|",
        [0, 3, 1],
    ),
    // another word comes in the place of one
    (
        b"AB CD EF\n",
        Some([0, 3, 0, 5]),
        b"XYZ",
        "AB XYZ EF||",
        [0, 1, 1],
    ),
    // all of the text is replaced
    (b"AB\nCD", None, b"X\n", "X||", [0, 2, 2]),
    // a text is typed where there is none
    (b"", Some([0, 0, 0, 0]), b"A\nB", "A|B|", [0, 1, 2]),
];

#[test]
fn changes_a_text(rt: HostRuntime) {
    for (at, row) in CHANGES.iter().enumerate() {
        assert_change(&rt, rt.alloc(), Encoding::Utf16, at, row);
    }
}

/// Positions that stand nowhere.
const NOWHERE: [BufferRow; 5] = [
    // behind a line's end: before its carriage return
    (
        b"AB\r\nCD\r\n",
        Some([0, 9, 0, 9]),
        b"X",
        "ABX\r|CD\r||",
        [0, 1, 1],
    ),
    // behind the text: at its end
    (b"AB\nCD", Some([7, 0, 7, 3]), b"X", "AB|CDX|", [1, 2, 1]),
    // from a place in the text to one behind it
    (b"AB\nCD\n", Some([0, 1, 9, 9]), b"X", "AX|", [0, 3, 1]),
    // an end before its start counts as the start
    (
        b"ABCD\nEF",
        Some([0, 3, 0, 1]),
        b"X",
        "ABCXD|EF|",
        [0, 1, 1],
    ),
    (
        b"ABCD\nEF",
        Some([1, 1, 0, 2]),
        b"X",
        "ABCD|EXF|",
        [1, 2, 1],
    ),
];

#[test]
fn changes_at_positions_that_stand_nowhere(rt: HostRuntime) {
    for (at, row) in NOWHERE.iter().enumerate() {
        assert_change(&rt, rt.alloc(), Encoding::Utf16, at, row);
    }
}

/// A line of a character of four bytes and two letters, by units of UTF-16.
const PAIR: &[u8] = b"\xF0\x9F\x98\x80BC";

/// The character has two units.
const UTF16: [BufferRow; 3] = [
    (PAIR, Some([0, 2, 0, 3]), b"X", "\u{1F600}XC|", [0, 1, 1]),
    // between the two units: before the character
    (PAIR, Some([0, 1, 0, 1]), b"X", "X\u{1F600}BC|", [0, 1, 1]),
    (PAIR, Some([0, 1, 0, 2]), b"", "BC|", [0, 1, 1]),
];

#[test]
fn counts_units_of_utf16(rt: HostRuntime) {
    for (at, row) in UTF16.iter().enumerate() {
        assert_change(&rt, rt.alloc(), Encoding::Utf16, at, row);
    }
}

/// The character has four units.
const UTF8: [BufferRow; 2] = [
    (PAIR, Some([0, 4, 0, 5]), b"X", "\u{1F600}XC|", [0, 1, 1]),
    // inside the character: before it
    (PAIR, Some([0, 3, 0, 3]), b"X", "X\u{1F600}BC|", [0, 1, 1]),
];

#[test]
fn counts_units_of_utf8(rt: HostRuntime) {
    for (at, row) in UTF8.iter().enumerate() {
        assert_change(&rt, rt.alloc(), Encoding::Utf8, at, row);
    }
}

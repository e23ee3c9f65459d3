//! The lines of a text, and of the source that it stands for.
use super::assertions::{assert_row, push_ended};
use cps_rpc::Buffer;
use std::alloc::Global;
use std::process::Abort;

/// Asserts the lines of a text, each with a bar behind it.
pub fn assert_lines(rt: &impl Abort, alloc: Global, at: usize, buffer: &Buffer, want: &str) {
    let mut told = Vec::new(alloc);
    for line in buffer.lines() {
        push_ended(rt, &mut told, line, b'|');
    }
    assert_row(rt, at, &told, want);
    drop(told);
}

/// Asserts the lines of the source that it stands for.
fn assert_source(rt: &impl Abort, alloc: Global, at: usize, buffer: &Buffer, want: &str) {
    let mut told = Vec::new(alloc);
    for line in 0..buffer.source_len() {
        push_ended(rt, &mut told, buffer.source_line(line), b'|');
    }
    assert_row(rt, at, &told, want);
    drop(told);
}

/// Texts, their lines, and the lines of their sources. An empty text has an empty line, and its source has none.
const LINES: [(&[u8], &str, &str); 8] = [
    (b"", "|", ""),
    (b"A", "A|", "A|"),
    (b"A\n", "A||", "A|"),
    (b"\n", "||", "|"),
    (b"A\n\nB", "A||B|", "A||B|"),
    (b"A\r\nB\r\n", "A\r|B\r||", "A|B|"),
    (b"A\rB\r\r\nC\r", "A\rB\r\r|C\r|", "A\rB\r|C|"),
    (b"A\n\r", "A|\r|", "A||"),
];

#[test]
fn has_lines(rt: HostRuntime) {
    for (at, (text, lines, source)) in LINES.iter().enumerate() {
        let buffer = Buffer::of(rt.alloc(), text).expect(&rt, "memory");
        assert_lines(&rt, rt.alloc(), at, &buffer, lines);
        assert_source(&rt, rt.alloc(), at, &buffer, source);
        drop(buffer);
    }
}

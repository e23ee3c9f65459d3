//! Assertions for whose proofs a caller doesn't pay again.
use cps_check::manual_text;
use std::alloc::Global;
use std::process::Abort;

/// Asserts of each word of a table that what is wanted is told of it.
pub fn assert_told(rt: &impl Abort, alloc: Global, rows: &[(&[u8], &str)]) {
    for (at, (word, want)) in rows.iter().enumerate() {
        match manual_text(alloc, word) {
            Ok(Some(text)) => {
                assert_row(rt, at, &text, want);
                drop(text);
            }
            Ok(None) => assert_row(rt, at, b"nothing", want),
            Err(_) => assert_row(rt, at, b"no memory", want),
        }
    }
}

/// Asserts that what is told of a word names it in front, among other names or alone.
pub fn assert_named(rt: &impl Abort, alloc: Global, word: &[u8]) {
    match manual_text(alloc, word) {
        Ok(Some(text)) => {
            let is_named = first_line(&text)
                .split(|character| matches!(*character, b' ' | b',' | b':'))
                .any(|name| name == word);
            assert!(rt; is_named, "{:?}", str::from_utf8(word).ok());
            drop(text);
        }
        _ => assert_row(rt, 0, b"nothing", "something"),
    }
}

fn first_line(text: &[u8]) -> &[u8] {
    match text.iter().position(|character| *character == b'\n') {
        Some(end) => &text[..end],
        None => text,
    }
}

fn assert_row(rt: &impl Abort, at: usize, got: &[u8], want: &str) {
    assert_eq!(rt; str::from_utf8(got).ok(), Some(want), "row {at}");
}

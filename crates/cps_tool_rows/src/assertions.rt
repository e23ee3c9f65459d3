//! Assertions for whose proofs a caller doesn't pay again.
use cps_rows::SlowWriter;
use cps_text::Counted;
use std::fmt::Debug;
use std::process::Abort;

/// Asserts that two values are the same.
pub fn assert_same<T: PartialEq + Debug>(rt: &impl Abort, what: &str, got: &T, want: &T) {
    assert_eq!(rt; got, want, "{what}");
}

/// Asserts that a text is what is wanted.
pub fn assert_bytes(rt: &impl Abort, what: &str, got: &[u8], want: &str) {
    assert_eq!(rt; str::from_utf8(got).ok(), Some(want), "{what}");
}

/// Asserts that one write failed, and that the writer had taken this front of what was said by then.
pub fn assert_taken(rt: &impl Abort, writer: Counted<SlowWriter>, front: &[u8]) {
    let room = front.len();
    assert_eq!(rt; writer.failures(), 1, "room for {room}");
    let taken = writer.into_inner().taken;
    assert_eq!(rt; taken.as_slice(), front, "room for {room}");
    drop(taken);
}

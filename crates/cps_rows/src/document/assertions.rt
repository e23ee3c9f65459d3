//! Assertions for whose proofs a caller doesn't pay again.
use std::fmt::Debug;
use std::process::Abort;

/// Appends bytes and what ends them.
pub fn push_ended(rt: &impl Abort, told: &mut Vec<u8>, bytes: &[u8], end: u8) {
    told.extend_from_slice(bytes).expect(rt, "memory");
    told.push(end).expect(rt, "memory");
}

/// Asserts that the text that a row of a table gives is what is wanted.
pub fn assert_row(rt: &impl Abort, at: usize, got: &[u8], want: &str) {
    assert_eq!(rt; str::from_utf8(got).ok(), Some(want), "row {at}");
}

/// Asserts that two values of a row are the same.
pub fn assert_same<T: PartialEq + Debug>(rt: &impl Abort, at: usize, got: &T, want: &T) {
    assert_eq!(rt; got, want, "row {at}");
}

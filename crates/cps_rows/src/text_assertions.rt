//! Assertions for whose proofs a caller doesn't pay again.
use std::fmt::Debug;
use std::process::Abort;

/// Asserts that two values are the same.
pub fn assert_same<T: PartialEq + Debug>(rt: &impl Abort, what: &str, got: &T, want: &T) {
    assert_eq!(rt; got, want, "{what}");
}

/// Asserts that the text that a row of a table gives is what is wanted.
pub fn assert_row(rt: &impl Abort, at: usize, what: &str, got: &[u8], want: &str) {
    assert_eq!(rt; str::from_utf8(got).ok(), Some(want), "row {at}, {what}");
}

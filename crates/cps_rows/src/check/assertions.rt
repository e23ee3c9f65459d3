//! Assertions for whose proofs a caller doesn't pay again.
use super::running::run;
use cps_check::CheckFault;
use cps_text::Counted;
use std::alloc::Global;
use std::process::Abort;

/// Asserts of each text of a table that the answer says whether an error is told, and that this is told of it under the name `a.cps`.
pub fn assert_rows(rt: &impl Abort, alloc: Global, rows: &[(&[u8], bool, &str)]) {
    for (at, (text, is_wrong, want)) in rows.iter().enumerate() {
        let mut reader = Counted::new(*text);
        let mut writer = Counted::new(Vec::new(alloc));
        let end = run(alloc, &mut reader, &mut writer);
        assert_end(rt, end, Ok(*is_wrong));
        let told = writer.into_inner();
        assert_row(rt, at, &told, want);
    }
}

fn assert_row(rt: &impl Abort, at: usize, got: &[u8], want: &str) {
    assert_eq!(rt; str::from_utf8(got).ok(), Some(want), "row {at}");
}

/// Asserts what is told.
pub fn assert_told(rt: &impl Abort, got: &[u8], want: &str) {
    assert_eq!(rt; str::from_utf8(got).ok(), Some(want));
}

/// Asserts what a check answers.
pub fn assert_end(rt: &impl Abort, got: Result<bool, CheckFault>, want: Result<bool, CheckFault>) {
    assert_eq!(rt; got, want);
}

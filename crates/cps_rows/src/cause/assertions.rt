//! Assertions for whose proofs a caller doesn't pay again.
use super::told::{CauseDetail, told_of};
use std::alloc::{AllocError, Global};
use std::process::Abort;

/// The lines of a source, and behind them what is to be told of it.
#[derive(Drop)]
struct CauseRow<'a> {
    source: Vec<&'a str>,
    want: Vec<u8>,
}

/// Asserts of each source of a text that what is wanted is told of it. The rows of the text are parted by empty lines; in a row what is wanted stands behind
/// `> `.
pub fn assert_rows(rt: &impl Abort, alloc: Global, detail: CauseDetail, rows: &str) {
    let mut row = CauseRow {
        source: Vec::new(alloc),
        want: Vec::new(alloc),
    };
    for line in rows.lines() {
        if line.is_empty() {
            assert_row(rt, alloc, detail, &row);
            row.source.clear();
            row.want.clear();
        } else {
            assert!(rt; take_line(&mut row, line).is_ok(), "no memory");
        }
    }
    assert_row(rt, alloc, detail, &row);
    drop(row);
}

fn take_line<'a>(row: &mut CauseRow<'a>, line: &'a str) -> Result<(), AllocError> {
    match line.strip_prefix("> ") {
        Some(want) => {
            row.want.extend_from_slice(want.as_bytes())?;
            row.want.push(b'\n')?;
        }
        None => row.source.push(line)?,
    }
    Ok(())
}

fn assert_row(rt: &impl Abort, alloc: Global, detail: CauseDetail, row: &CauseRow<'_>) {
    let what = row.source.last().copied().unwrap_or("");
    match told_of(alloc, detail, &row.source) {
        Some(told) => {
            assert_told(rt, what, &told, &row.want);
            drop(told);
        }
        None => assert_told(rt, what, b"no memory", &row.want),
    }
}

fn assert_told(rt: &impl Abort, what: &str, got: &[u8], want: &[u8]) {
    assert_eq!(rt;
        str::from_utf8(got).ok(),
        str::from_utf8(want).ok(),
        "{what}"
    );
}

//! Assertions for whose proofs a caller doesn't pay again.
ghost use Rattle.std.specs.Prelude.{◌<◌, ◌^◌};
ghost use Rattle.std.specs.Option.{ForSome};

use super::running::{ALL, OctalRun, joined, run};
use cps_compare::{CompareOptions, OctalFault};
use std::alloc::Global;
use std::fmt::Debug;
use std::process::Abort;

/// Lines of an octal text and of a source, how many words differ, and the rows that are told.
pub type OctalRow = (
    &'static [&'static str],
    &'static [&'static str],
    u32,
    &'static [&'static str],
);

/// Lines of an octal text and of a source, and the fault with which their comparison ends.
pub type OctalFaultRow = (&'static [&'static str], &'static [&'static str], OctalFault);

/// Asserts of each row of a table that all words are compared as it says.
pub fn assert_rows(rt: &impl Abort, alloc: Global, rows: &[OctalRow]) {
    for (at, row) in rows.iter().enumerate() {
        assert_told(rt, alloc, at, row, ALL);
    }
}

/// Asserts of a row that words are compared as it says, where this is asked for.
pub fn assert_told(
    rt: &impl Abort,
    alloc: Global,
    at: usize,
    row: &OctalRow,
    options: CompareOptions,
)
    requires { ForSome options.to (λ to. to < 2 ^ 18) }
{
    let (octal, source, differing, told) = *row;
    let ran = ran(rt, alloc, octal, source, options);
    let told = joined(rt, alloc, told);
    assert_ran(rt, at, &ran, Ok(differing), &told);
    drop(ran);
}

/// Asserts of each row of a table that a comparison of all words ends with its fault and writes nothing.
pub fn assert_faults(rt: &impl Abort, alloc: Global, rows: &[OctalFaultRow]) {
    for (at, row) in rows.iter().enumerate() {
        assert_fault(rt, alloc, at, row, ALL);
    }
}

/// Asserts of a row that a comparison ends with its fault and writes nothing, where this is asked for.
pub fn assert_fault(
    rt: &impl Abort,
    alloc: Global,
    at: usize,
    row: &OctalFaultRow,
    options: CompareOptions,
)
    requires { ForSome options.to (λ to. to < 2 ^ 18) }
{
    let (octal, source, fault) = *row;
    let ran = ran(rt, alloc, octal, source, options);
    assert_ran(rt, at, &ran, Err(fault), &[]);
    drop(ran);
}

fn ran(
    rt: &impl Abort,
    alloc: Global,
    octal: &[&str],
    source: &[&str],
    options: CompareOptions,
) -> OctalRun
    requires { ForSome options.to (λ to. to < 2 ^ 18) }
{
    let octal = joined(rt, alloc, octal);
    let source = joined(rt, alloc, source);
    run(alloc, &octal, &source, options)
}

fn assert_ran(
    rt: &impl Abort,
    at: usize,
    got: &OctalRun,
    want: Result<u32, OctalFault>,
    told: &[u8],
) {
    assert_row(rt, at, &got.text, told);
    assert_same(rt, "the end", &got.end, &want);
}

fn assert_row(rt: &impl Abort, at: usize, got: &[u8], want: &[u8]) {
    assert_eq!(rt;
        str::from_utf8(got).ok(),
        str::from_utf8(want).ok(),
        "row {at}"
    );
}

/// Asserts that two values are the same.
pub fn assert_same<T: PartialEq + Debug>(rt: &impl Abort, what: &str, got: &T, want: &T) {
    assert_eq!(rt; got, want, "{what}");
}

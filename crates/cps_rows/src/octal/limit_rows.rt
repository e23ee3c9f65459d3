//! Addresses, columns and an offset that are asked for.
use super::assertions::{OctalFaultRow, OctalRow, assert_fault, assert_told};
use super::running::ALL;
use cps_claims::{ReadColumns, WordOffset};
use cps_compare::{CompareFault, CompareOptions, OctalFault};

/// Of four words the first and the last differ.
const AMONG_FOUR: OctalRow = (
    &["000100 00000000000000000007 00000000000000000002 00000000000000000003 00000000000000000007"],
    &["          ORG     100B", "          DATA    1,2,3,4"],
    0,
    &[
        "compared: 40 digits of 2 words, in 1 rows",
        "0 of 2 words differ (000101 to 000102)",
    ],
);

/// Only words from the first address to the last are compared.
#[test]
fn compares_between_addresses(rt: HostRuntime) {
    let options = CompareOptions {
        from: Some(0o101),
        to: Some(0o102),
        ..ALL
    };
    assert_told(&rt, rt.alloc(), 0, &AMONG_FOUR, options);
}

/// A word past the octal text, which lacks it.
const BEHIND: OctalRow = (
    &["000100 00000000000000000001"],
    &["          ORG     100B", "          DATA    1,2"],
    0,
    &[
        "compared: 20 digits of 1 words, in 1 rows",
        "not given: 1 words of the deck, first at 000101",
        "0 of 1 words differ (000100 to 000101)",
    ],
);

/// The last address may stand past the octal text.
#[test]
fn compares_past_the_text(rt: HostRuntime) {
    let options = CompareOptions {
        to: Some(0o101),
        ..ALL
    };
    assert_told(&rt, rt.alloc(), 0, &BEHIND, options);
}

/// Two words, and addresses behind them.
const NOTHING_BEHIND: OctalFaultRow = (
    &["000100 00000000000000000001 00000000000000000002"],
    &["          ORG     100B", "          DATA    1,2"],
    OctalFault::Compare(CompareFault::Nothing(0o102, 0o777)),
);

/// The first address stands above the last one of the text.
const NOTHING_ABOVE: OctalFaultRow = (
    &["000100 00000000000000000001 00000000000000000002"],
    &["          ORG     100B", "          DATA    1,2"],
    OctalFault::Compare(CompareFault::Nothing(0o102, 0o101)),
);

/// The last address stands before the first one of the text.
const NOTHING_BEFORE: OctalFaultRow = (
    &["000100 00000000000000000001 00000000000000000002"],
    &["          ORG     100B", "          DATA    1,2"],
    OctalFault::Compare(CompareFault::Nothing(0o100, 0o77)),
);

/// Where no digits stand, nothing is compared, and nothing agrees by that.
#[test]
fn tells_that_nothing_is_compared(rt: HostRuntime) {
    let behind = CompareOptions {
        from: Some(0o102),
        to: Some(0o777),
        ..ALL
    };
    assert_fault(&rt, rt.alloc(), 0, &NOTHING_BEHIND, behind);
    let above = CompareOptions {
        from: Some(0o102),
        ..ALL
    };
    assert_fault(&rt, rt.alloc(), 1, &NOTHING_ABOVE, above);
    let before = CompareOptions {
        to: Some(0o77),
        ..ALL
    };
    assert_fault(&rt, rt.alloc(), 2, &NOTHING_BEFORE, before);
}

/// A word, and marks behind it.
const MARKS_BEHIND: OctalFaultRow = (
    &["000100 00000000000000000001", "000101 ????????????????????"],
    &["          ORG     100B", "          DATA    1,2"],
    OctalFault::Compare(CompareFault::Nothing(0o101, 0o101)),
);

/// Where only marks stand, nothing is compared either.
#[test]
fn compares_no_marks(rt: HostRuntime) {
    let options = CompareOptions {
        from: Some(0o101),
        to: Some(0o101),
        ..ALL
    };
    assert_fault(&rt, rt.alloc(), 0, &MARKS_BEHIND, options);
}

/// A row whose first columns number it, and whose last ones have a remark of digits.
const NUMBERED: OctalRow = (
    &["00017  000100 00000000000000000001      77"],
    &["          ORG     100B", "          DATA    1"],
    0,
    &[
        "compared: 20 digits of 1 words, in 1 rows",
        "0 of 1 words differ (000100 to 000100)",
    ],
);

/// Only the columns that are asked for are read.
#[test]
fn reads_columns(rt: HostRuntime) {
    let options = CompareOptions {
        columns: Some(ReadColumns { first: 8, last: 34 }),
        ..ALL
    };
    assert_told(&rt, rt.alloc(), 0, &NUMBERED, options);
}

/// A text that stands below the source.
const BELOW: OctalRow = (
    &["000000 00000000000000000001 00000000000000000003"],
    &["          ORG     100B", "          DATA    1,2"],
    1,
    &[
        "000101 deck  00000000000000000002",
        "       octal 00000000000000000003  row 1",
        "                                ^",
        "       line 2: DATA    1,2",
        "compared: 40 digits of 2 words, in 1 rows",
        "1 of 2 words differ (000100 to 000101)",
    ],
);

/// A text that stands above the source, with a row for which there is no address.
const ABOVE: OctalRow = (
    &["000077 00000000000000000007", "000100 00000000000000000001"],
    &["          DATA    1"],
    0,
    &[
        "compared: 20 digits of 1 words, in 1 rows",
        "not read: 1 rows, first row 1: no such address",
        "0 of 1 words differ (000000 to 000000)",
    ],
);

/// Each address is moved up or down.
#[test]
fn moves_addresses(rt: HostRuntime) {
    let up = CompareOptions {
        offset: WordOffset::Up(0o100),
        ..ALL
    };
    assert_told(&rt, rt.alloc(), 0, &BELOW, up);
    let down = CompareOptions {
        offset: WordOffset::Down(0o100),
        ..ALL
    };
    assert_told(&rt, rt.alloc(), 1, &ABOVE, down);
}

//! Why nothing is compared.
use super::assertions::{OctalFaultRow, assert_fault, assert_faults, assert_same};
use super::running::DUMP;
use cps_claims::UnreadReason;
use cps_compare::{CompareFault, OctalFault};
use cps_input::InputFault;

/// Octal texts of which nothing is compared, and a wrong source.
const FAULTS: [OctalFaultRow; 11] = [
    // no row
    (
        &[],
        &["          DATA    1"],
        OctalFault::Compare(CompareFault::NoRow),
    ),
    // other text alone, and an address
    (
        &["OCTAL DUMP", "", "000100"],
        &["          DATA    1"],
        OctalFault::Compare(CompareFault::NoRow),
    ),
    // text before an address
    (
        &["DUMP 000100 00000000000000000001"],
        &["          DATA    1"],
        OctalFault::Compare(CompareFault::NoRow),
    ),
    // figures that are no digits
    (
        &["OCTAL DUMP", "98 17"],
        &["          DATA    1"],
        OctalFault::Compare(CompareFault::Unread(2, UnreadReason::NoAddress)),
    ),
    // digits without an address
    (
        &["00000000000000000001"],
        &["          DATA    1"],
        OctalFault::Compare(CompareFault::Unread(1, UnreadReason::NoAddress)),
    ),
    // a group that lost a digit, and one behind it
    (
        &["000100 0000 00000 00000 00001", "000101 00000 000"],
        &["          DATA    1"],
        OctalFault::Compare(CompareFault::Unread(1, UnreadReason::GroupOf(4))),
    ),
    // the number of a row before its address
    (
        &["00017  000100 00000000000000000001"],
        &["          DATA    1"],
        OctalFault::Compare(CompareFault::Unread(1, UnreadReason::GroupOf(6))),
    ),
    // a letter for a digit
    (
        &["OCTAL DUMP", "000100 0000O"],
        &["          DATA    1"],
        OctalFault::Compare(CompareFault::Unread(2, UnreadReason::DamagedDigits)),
    ),
    // a word behind the last address
    (
        &["777777 00000000000000000001 00000000000000000002"],
        &["          DATA    1"],
        OctalFault::Compare(CompareFault::Unread(1, UnreadReason::NoSuchAddress)),
    ),
    // marks alone
    (
        &["000100 ????????????????????", "000101 .....", "OCTAL DUMP"],
        &["          DATA    1"],
        OctalFault::Compare(CompareFault::NoDigit),
    ),
    // a wrong line of the source goes before an octal text that gives nothing
    (
        &[],
        &["          DATA    1", "`"],
        OctalFault::Source(InputFault::BadCharacter { line: 2, column: 1 }),
    ),
];

#[test]
fn tells_why_nothing_is_compared(rt: HostRuntime) {
    assert_faults(&rt, rt.alloc(), &FAULTS);
}

/// A row that has no whole word.
const PART: OctalFaultRow = (
    &["000100 00000 00000"],
    &["          DATA    1"],
    OctalFault::Compare(CompareFault::Unread(1, UnreadReason::NoWholeWords)),
);

/// In a dump rows have whole words.
#[test]
fn tells_that_no_row_of_a_dump_is_read(rt: HostRuntime) {
    assert_fault(&rt, rt.alloc(), 0, &PART, DUMP);
}

/// Faults, in words.
const FAULT_TEXTS: [(OctalFault, &str); 10] = [
    (
        OctalFault::Compare(CompareFault::NoRow),
        "no row of OCTAL has an address and octal digits",
    ),
    (
        OctalFault::Compare(CompareFault::Unread(3, UnreadReason::NoAddress)),
        "no row of OCTAL is read, the first is row 3: no address",
    ),
    (
        OctalFault::Compare(CompareFault::Unread(12, UnreadReason::GroupOf(14))),
        "no row of OCTAL is read, the first is row 12: a group of 14 digits",
    ),
    (
        OctalFault::Compare(CompareFault::NoDigit),
        "each digit of OCTAL is unknown",
    ),
    (
        OctalFault::Compare(CompareFault::Nothing(0o5, 0o777_777)),
        "no digit of OCTAL is compared between 000005 and 777777",
    ),
    (OctalFault::Compare(CompareFault::Memory), "no memory"),
    (OctalFault::ReadFault, "OCTAL: read fault"),
    (
        OctalFault::Source(InputFault::ReadFault),
        "FILE: read fault",
    ),
    (
        OctalFault::Source(InputFault::BadCharacter { line: 2, column: 7 }),
        "FILE: line 2, column 7: bad character",
    ),
    (OctalFault::WriteFault, "write fault"),
];

#[test]
fn tells_faults_in_words(rt: HostRuntime) {
    for (fault, want) in &FAULT_TEXTS {
        let told = fault.to_string(rt.alloc()).expect(&rt, "memory");
        assert_same(&rt, "a fault", &told.as_str(), want);
    }
}

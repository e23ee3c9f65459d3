//! Words of which several rows have digits, and digits that nobody can read.
use super::assertions::{OctalRow, assert_rows, assert_told};
use super::running::ALL;

/// A row without an address has a wrong parcel.
const WRONG_PARCEL: OctalRow = (
    &[
        "   225   51300 00262  SA3     262B",
        "         12632        BX6     X3+X2",
        "         46000",
    ],
    &[
        "          ORG     225B",
        "          SA3     262B",
        "          BX6     X3+X1",
        "          END",
    ],
    1,
    &[
        "000225 deck  51300002621263146000",
        "       octal 51300002621263246000  rows 1 to 3",
        "                           ^",
        "       line 3: BX6     X3+X1",
        "compared: 20 digits of 1 words, in 3 rows",
        "1 of 1 words differ (000225 to 000225)",
    ],
);

#[test]
fn tells_a_wrong_row_without_an_address(rt: HostRuntime) {
    assert_told(&rt, rt.alloc(), 0, &WRONG_PARCEL, ALL);
}

/// Digits that two rows have.
const TWICE: [OctalRow; 4] = [
    // the first value agrees
    (
        &["000100 00000000000000000001", "000100 00000000000000000002"],
        &["          ORG     100B", "          DATA    1"],
        1,
        &[
            "000100 deck  00000000000000000001",
            "       octal 00000000000000000001  row 1",
            "       again 00000000000000000002  row 2",
            "                                ^",
            "       line 2: DATA    1",
            "compared: 20 digits of 1 words, in 2 rows",
            "twice: 1 digits with two values, first at 000100",
            "1 of 1 words differ (000100 to 000100)",
        ],
    ),
    // the second value agrees
    (
        &["000100 00000000000000000002", "000100 00000000000000000001"],
        &["          ORG     100B", "          DATA    1"],
        1,
        &[
            "000100 deck  00000000000000000001",
            "       octal 00000000000000000002  row 1",
            "       again 00000000000000000001  row 2",
            "                                ^",
            "       line 2: DATA    1",
            "compared: 20 digits of 1 words, in 2 rows",
            "twice: 1 digits with two values, first at 000100",
            "1 of 1 words differ (000100 to 000100)",
        ],
    ),
    // a row that has no room begins again
    (
        &["000225 51300 00262 12631", "000225 51300 00362"],
        &[
            "          ORG     225B",
            "          SA3     262B",
            "          BX6     X3+X1",
            "          END",
        ],
        1,
        &[
            "000225 deck  51300002621263146000",
            "       octal 513000026212631  row 1",
            "       again 513000036212631  row 2",
            "                    ^",
            "       line 2: SA3     262B",
            "compared: 15 digits of 1 words, in 2 rows",
            "twice: 1 digits with two values, first at 000225",
            "1 of 1 words differ (000225 to 000225)",
        ],
    ),
    // the same value twice
    (
        &["000100 00000000000000000001", "000100 00000000000000000001"],
        &["          ORG     100B", "          DATA    1"],
        0,
        &[
            "compared: 20 digits of 1 words, in 2 rows",
            "0 of 1 words differ (000100 to 000100)",
        ],
    ),
];

/// Two values of a digit differ, whichever agrees.
#[test]
fn tells_two_values(rt: HostRuntime) {
    assert_rows(&rt, rt.alloc(), &TWICE);
}

/// Digits that nobody can read.
const MARKS: [OctalRow; 6] = [
    // a mark agrees with any digit
    (
        &["000100 0000000000000000000?"],
        &["          ORG     100B", "          DATA    1"],
        0,
        &[
            "compared: 19 digits of 1 words, in 1 rows",
            "unknown: 1 digits, first at 000100",
            "0 of 1 words differ (000100 to 000100)",
        ],
    ),
    // a digit differs beside marks, which are all told alike
    (
        &["000100 .000_000000000000002"],
        &["          ORG     100B", "          DATA    1"],
        1,
        &[
            "000100 deck  00000000000000000001",
            "       octal ?000?000000000000002  row 1",
            "                                ^",
            "       line 2: DATA    1",
            "compared: 18 digits of 1 words, in 1 rows",
            "unknown: 2 digits, first at 000100",
            "1 of 1 words differ (000100 to 000100)",
        ],
    ),
    // a later digit takes the place of a mark
    (
        &["000100 0000000000000000000?", "000100 00000000000000000002"],
        &["          ORG     100B", "          DATA    1"],
        1,
        &[
            "000100 deck  00000000000000000001",
            "       octal 00000000000000000002  rows 1 to 2",
            "                                ^",
            "       line 2: DATA    1",
            "compared: 20 digits of 1 words, in 2 rows",
            "1 of 1 words differ (000100 to 000100)",
        ],
    ),
    // a later mark isn't contrary
    (
        &["000100 00000000000000000001", "000100 0000000000000000000?"],
        &["          ORG     100B", "          DATA    1"],
        0,
        &[
            "compared: 20 digits of 1 words, in 2 rows",
            "0 of 1 words differ (000100 to 000100)",
        ],
    ),
    // marks alone are given, in part, and not compared
    (
        &[
            "000100 00000000000000000001",
            "000101 ?????",
            "000102 00000000000000000003",
        ],
        &["          ORG     100B", "          DATA    1,2,3"],
        0,
        &[
            "compared: 40 digits of 2 words, in 3 rows",
            "unknown: 5 digits, first at 000101",
            "in part: 1 words, first at 000101",
            "0 of 2 words differ (000100 to 000102)",
        ],
    ),
    // in a word of a peripheral processor
    (
        &["0100 14_0 3410"],
        &[
            "          PERIPH",
            "          ORG     100B",
            "          LDN     0",
            "          STD     10B",
        ],
        0,
        &[
            "compared: 7 digits of 2 words, in 1 rows",
            "unknown: 1 digits, first at 000100",
            "0 of 2 words differ (000100 to 000101)",
        ],
    ),
];

#[test]
fn passes_over_marks(rt: HostRuntime) {
    assert_rows(&rt, rt.alloc(), &MARKS);
}

//! Words that differ one after another, and all that may be told.
use super::assertions::{OctalRow, assert_rows, assert_told};
use super::running::ALL;
use cps_compare::CompareOptions;

/// Words that differ one after another.
const RUNS: [OctalRow; 4] = [
    // six words: four are told
    (
        &[
            "000100 70000000000000000001 70000000000000000002 70000000000000000003",
            "000103 70000000000000000004 70000000000000000005 70000000000000000006",
        ],
        &["          ORG     100B", "          DATA    1,2,3,4,5,6"],
        6,
        &[
            "000100 deck  00000000000000000001",
            "       octal 70000000000000000001  row 1",
            "             ^",
            "       line 2: DATA    1,2,3,4,5,6",
            "000101 deck  00000000000000000002",
            "       octal 70000000000000000002  row 1",
            "             ^",
            "       line 2: DATA    1,2,3,4,5,6",
            "000102 deck  00000000000000000003",
            "       octal 70000000000000000003  row 1",
            "             ^",
            "       line 2: DATA    1,2,3,4,5,6",
            "000103 deck  00000000000000000004",
            "       octal 70000000000000000004  row 2",
            "             ^",
            "       line 2: DATA    1,2,3,4,5,6",
            "000104 to 000105: 2 more words differ",
            "compared: 120 digits of 6 words, in 2 rows",
            "6 of 6 words differ (000100 to 000105)",
        ],
    ),
    // five words: each is told
    (
        &[
            "000100 70000000000000000001 70000000000000000002 70000000000000000003",
            "000103 70000000000000000004 70000000000000000005 00000000000000000006",
        ],
        &["          ORG     100B", "          DATA    1,2,3,4,5,6"],
        5,
        &[
            "000100 deck  00000000000000000001",
            "       octal 70000000000000000001  row 1",
            "             ^",
            "       line 2: DATA    1,2,3,4,5,6",
            "000101 deck  00000000000000000002",
            "       octal 70000000000000000002  row 1",
            "             ^",
            "       line 2: DATA    1,2,3,4,5,6",
            "000102 deck  00000000000000000003",
            "       octal 70000000000000000003  row 1",
            "             ^",
            "       line 2: DATA    1,2,3,4,5,6",
            "000103 deck  00000000000000000004",
            "       octal 70000000000000000004  row 2",
            "             ^",
            "       line 2: DATA    1,2,3,4,5,6",
            "000104 deck  00000000000000000005",
            "       octal 70000000000000000005  row 2",
            "             ^",
            "       line 2: DATA    1,2,3,4,5,6",
            "compared: 120 digits of 6 words, in 2 rows",
            "5 of 6 words differ (000100 to 000105)",
        ],
    ),
    // a word that agrees ends a run
    (
        &[
            "000100 70000000000000000001 70000000000000000002 70000000000000000003",
            "000103 00000000000000000004 70000000000000000005 70000000000000000006 70000000000000000007",
        ],
        &["          ORG     100B", "          DATA    1,2,3,4,5,6,7"],
        6,
        &[
            "000100 deck  00000000000000000001",
            "       octal 70000000000000000001  row 1",
            "             ^",
            "       line 2: DATA    1,2,3,4,5,6,7",
            "000101 deck  00000000000000000002",
            "       octal 70000000000000000002  row 1",
            "             ^",
            "       line 2: DATA    1,2,3,4,5,6,7",
            "000102 deck  00000000000000000003",
            "       octal 70000000000000000003  row 1",
            "             ^",
            "       line 2: DATA    1,2,3,4,5,6,7",
            "000104 deck  00000000000000000005",
            "       octal 70000000000000000005  row 2",
            "             ^",
            "       line 2: DATA    1,2,3,4,5,6,7",
            "000105 deck  00000000000000000006",
            "       octal 70000000000000000006  row 2",
            "             ^",
            "       line 2: DATA    1,2,3,4,5,6,7",
            "000106 deck  00000000000000000007",
            "       octal 70000000000000000007  row 2",
            "             ^",
            "       line 2: DATA    1,2,3,4,5,6,7",
            "compared: 140 digits of 7 words, in 2 rows",
            "6 of 7 words differ (000100 to 000106)",
        ],
    ),
    // a word that isn't given doesn't
    (
        &[
            "000100 70000000000000000001 70000000000000000002 70000000000000000003",
            "000104 70000000000000000005 70000000000000000006 70000000000000000007",
        ],
        &["          ORG     100B", "          DATA    1,2,3,4,5,6,7"],
        6,
        &[
            "000100 deck  00000000000000000001",
            "       octal 70000000000000000001  row 1",
            "             ^",
            "       line 2: DATA    1,2,3,4,5,6,7",
            "000101 deck  00000000000000000002",
            "       octal 70000000000000000002  row 1",
            "             ^",
            "       line 2: DATA    1,2,3,4,5,6,7",
            "000102 deck  00000000000000000003",
            "       octal 70000000000000000003  row 1",
            "             ^",
            "       line 2: DATA    1,2,3,4,5,6,7",
            "000104 deck  00000000000000000005",
            "       octal 70000000000000000005  row 2",
            "             ^",
            "       line 2: DATA    1,2,3,4,5,6,7",
            "000105 to 000106: 2 more words differ",
            "compared: 120 digits of 6 words, in 2 rows",
            "not given: 1 words of the deck, first at 000103",
            "6 of 6 words differ (000100 to 000106)",
        ],
    ),
];

#[test]
fn tells_runs(rt: HostRuntime) {
    assert_rows(&rt, rt.alloc(), &RUNS);
}

/// Six words that differ, and rows that aren't read.
const SIX: OctalRow = (
    &[
        "OCTAL DUMP",
        "000106 0000 00000",
        "000100 70000000000000000001 70000000000000000002 70000000000000000003",
        "000103 70000000000000000004 70000000000000000005 70000000000000000006",
        "000106 0000l",
    ],
    &["          ORG     100B", "          DATA    1,2,3,4,5,6"],
    6,
    &[
        "000100 deck  00000000000000000001",
        "       octal 70000000000000000001  row 3",
        "             ^",
        "       line 2: DATA    1,2,3,4,5,6",
        "000101 deck  00000000000000000002",
        "       octal 70000000000000000002  row 3",
        "             ^",
        "       line 2: DATA    1,2,3,4,5,6",
        "000102 deck  00000000000000000003",
        "       octal 70000000000000000003  row 3",
        "             ^",
        "       line 2: DATA    1,2,3,4,5,6",
        "000103 deck  00000000000000000004",
        "       octal 70000000000000000004  row 4",
        "             ^",
        "       line 2: DATA    1,2,3,4,5,6",
        "000104 deck  00000000000000000005",
        "       octal 70000000000000000005  row 4",
        "             ^",
        "       line 2: DATA    1,2,3,4,5,6",
        "000105 deck  00000000000000000006",
        "       octal 70000000000000000006  row 4",
        "             ^",
        "       line 2: DATA    1,2,3,4,5,6",
        "row 2 isn't read: a group of 4 digits",
        "row 5 isn't read: damaged digits",
        "compared: 120 digits of 6 words, in 2 rows",
        "not read: 2 rows, first row 2: a group of 4 digits",
        "other text: 1 rows, first row 1",
        "6 of 6 words differ (000100 to 000105)",
    ],
);

/// Where all is asked for, each word that differs is told, and each row that isn't read.
#[test]
fn tells_all(rt: HostRuntime) {
    let options = CompareOptions { all: true, ..ALL };
    assert_told(&rt, rt.alloc(), 0, &SIX, options);
}

//! Dumps.
use super::assertions::{OctalRow, assert_told};
use super::running::DUMP;

/// Dumps with what only they have.
const DUMPS: [OctalRow; 6] = [
    // a row without an address goes on with the next word
    (
        &[
            "000100 00000000000000000001 00000000000000000002",
            "       00000000000000000003",
        ],
        &["          ORG     100B", "          DATA    1,2,3"],
        0,
        &[
            "compared: 60 digits of 3 words, in 2 rows",
            "0 of 3 words differ (000100 to 000102)",
        ],
    ),
    // a word stands again, up to the address of the next row
    (
        &[
            "000100 00000000000000000001",
            "*",
            "000104 00000000000000000002",
        ],
        &["          ORG     100B", "          DATA    1,1,1,3,2"],
        1,
        &[
            "000103 deck  00000000000000000003",
            "       octal 00000000000000000001  row 2",
            "                                ^",
            "       line 2: DATA    1,1,1,3,2",
            "compared: 100 digits of 5 words, in 3 rows",
            "1 of 5 words differ (000100 to 000104)",
        ],
    ),
    // behind the last address nothing does
    (
        &["000100 00000000000000000001", "DUPLICATE LINES"],
        &["          ORG     100B", "          DATA    1"],
        0,
        &[
            "compared: 20 digits of 1 words, in 1 rows",
            "not read: 1 rows, first row 2: a repetition without an end",
            "0 of 1 words differ (000100 to 000100)",
        ],
    ),
    // two words don't fill three
    (
        &[
            "000100 00000000000000000001 00000000000000000002",
            "SAME",
            "000105 00000000000000000003",
        ],
        &["          ORG     100B", "          DATA    1,2,1,2,1,3"],
        0,
        &[
            "compared: 60 digits of 3 words, in 2 rows",
            "not given: 3 words of the deck, first at 000102",
            "not read: 1 rows, first row 2: a repetition that doesn't come out even",
            "0 of 3 words differ (000100 to 000105)",
        ],
    ),
    // a part of a word
    (
        &["000100 00000 00000", "000101 00000000000000000002"],
        &["          ORG     100B", "          DATA    1,2"],
        0,
        &[
            "compared: 20 digits of 1 words, in 1 rows",
            "not read: 1 rows, first row 1: no whole words",
            "0 of 1 words differ (000101 to 000101)",
        ],
    ),
    // words of a peripheral processor
    (
        &["0100 1400", "     3411"],
        &[
            "          PERIPH",
            "          ORG     100B",
            "          LDN     0",
            "          STD     10B",
        ],
        1,
        &[
            "000101 deck  3410",
            "       octal 3411  row 2",
            "                ^",
            "       line 4: STD     10B",
            "compared: 8 digits of 2 words, in 2 rows",
            "1 of 2 words differ (000100 to 000101)",
        ],
    ),
];

#[test]
fn compares_dumps(rt: HostRuntime) {
    for (at, row) in DUMPS.iter().enumerate() {
        assert_told(&rt, rt.alloc(), at, row, DUMP);
    }
}

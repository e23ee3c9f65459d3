//! Sources of which each word must be given.
use super::assertions::{OctalFaultRow, OctalRow, assert_fault, assert_told};
use super::running::WHOLE;
use cps_compare::{CompareFault, CompareOptions, OctalFault};

/// Words that lack, and digits that needn't be given.
const LACKING: [OctalRow; 7] = [
    // a word isn't given
    (
        &["000100 00000000000000000001", "000102 00000000000000000003"],
        &["          ORG     100B", "          DATA    1,2,3"],
        1,
        &[
            "000101 deck  00000000000000000002",
            "       octal (no digits)",
            "       line 2: DATA    1,2,3",
            "compared: 40 digits of 2 words, in 2 rows",
            "not given: 1 words of the deck, first at 000101",
            "1 of 3 words differ (000100 to 000102)",
        ],
    ),
    // words before and behind the text aren't given
    (
        &["000101 00000000000000000002"],
        &["          ORG     100B", "          DATA    1,2,3"],
        2,
        &[
            "000100 deck  00000000000000000001",
            "       octal (no digits)",
            "       line 2: DATA    1,2,3",
            "000102 deck  00000000000000000003",
            "       octal (no digits)",
            "       line 2: DATA    1,2,3",
            "compared: 20 digits of 1 words, in 1 rows",
            "not given: 2 words of the deck, first at 000100",
            "2 of 3 words differ (000100 to 000102)",
        ],
    ),
    // a word is given in part
    (
        &["000225 51300 00262 12631"],
        &[
            "          ORG     225B",
            "          SA3     262B",
            "          BX6     X3+X1",
            "          BX7     X3+X2",
            "          END",
        ],
        1,
        &[
            "000225 deck  51300002621263112732",
            "       octal 513000026212631  row 1",
            "                            ^^^^^",
            "       line 4: BX7     X3+X2",
            "compared: 15 digits of 1 words, in 1 rows",
            "in part: 1 words, first at 000225",
            "1 of 1 words differ (000225 to 000225)",
        ],
    ),
    // what fills a word up needn't be given
    (
        &["000225 51300 00262 12631"],
        &[
            "          ORG     225B",
            "          SA3     262B",
            "          BX6     X3+X1",
            "          END",
        ],
        0,
        &[
            "compared: 15 digits of 1 words, in 1 rows",
            "0 of 1 words differ (000225 to 000225)",
        ],
    ),
    // marks are given
    (
        &["000100 0000000000000000000?"],
        &["          ORG     100B", "          DATA    1"],
        0,
        &[
            "compared: 19 digits of 1 words, in 1 rows",
            "unknown: 1 digits, first at 000100",
            "0 of 1 words differ (000100 to 000100)",
        ],
    ),
    // a literal isn't given
    (
        &["000100 51100 00101"],
        &[
            "          ORG     100B",
            "          SA1     =1",
            "          END",
        ],
        1,
        &[
            "000101 deck  00000000000000000001",
            "       octal (no digits)",
            "       a literal",
            "compared: 10 digits of 1 words, in 1 rows",
            "not given: 1 words of the deck, first at 000101",
            "1 of 2 words differ (000100 to 000101)",
        ],
    ),
    // a word of a peripheral processor isn't given
    (
        &["0100 1400"],
        &[
            "          PERIPH",
            "          ORG     100B",
            "          LDN     0",
            "          STD     10B",
        ],
        1,
        &[
            "000101 deck  3410",
            "       octal (no digits)",
            "       line 4: STD     10B",
            "compared: 4 digits of 1 words, in 1 rows",
            "not given: 1 words of the deck, first at 000101",
            "1 of 2 words differ (000100 to 000101)",
        ],
    ),
];

#[test]
fn tells_what_lacks(rt: HostRuntime) {
    for (at, row) in LACKING.iter().enumerate() {
        assert_told(&rt, rt.alloc(), at, row, WHOLE);
    }
}

/// Of three words the second is given.
const AMONG_THREE: OctalRow = (
    &["000101 00000000000000000002"],
    &["          ORG     100B", "          DATA    1,2,3"],
    1,
    &[
        "000102 deck  00000000000000000003",
        "       octal (no digits)",
        "       line 2: DATA    1,2,3",
        "compared: 20 digits of 1 words, in 1 rows",
        "not given: 1 words of the deck, first at 000102",
        "1 of 2 words differ (000101 to 000102)",
    ],
);

/// Only the words between the addresses that are asked for must be given.
#[test]
fn tells_what_lacks_between_addresses(rt: HostRuntime) {
    let options = CompareOptions {
        from: Some(0o101),
        to: Some(0o102),
        ..WHOLE
    };
    assert_told(&rt, rt.alloc(), 0, &AMONG_THREE, options);
}

/// Of three words the first is given.
const NONE_GIVEN: OctalFaultRow = (
    &["000100 00000000000000000001"],
    &["          ORG     100B", "          DATA    1,2,3"],
    OctalFault::Compare(CompareFault::Nothing(0o101, 0o102)),
);

/// Where only words that lack stand, nothing is compared.
#[test]
fn compares_nothing_that_lacks(rt: HostRuntime) {
    let options = CompareOptions {
        from: Some(0o101),
        to: Some(0o102),
        ..WHOLE
    };
    assert_fault(&rt, rt.alloc(), 0, &NONE_GIVEN, options);
}

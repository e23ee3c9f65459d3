//! Words that differ, and what made their digits.
use super::assertions::{OctalRow, assert_rows};

/// Words that differ, and one that lacks.
const DIFFERENCES: [OctalRow; 5] = [
    // a digit
    (
        &["000225 51300002621363146000"],
        &[
            "          ORG     225B",
            "          SA3     262B",
            "          BX6     X3+X1",
            "          END",
        ],
        1,
        &[
            "000225 deck  51300002621263146000",
            "       octal 51300002621363146000  row 1",
            "                        ^",
            "       line 3: BX6     X3+X1",
            "compared: 20 digits of 1 words, in 1 rows",
            "1 of 1 words differ (000225 to 000225)",
        ],
    ),
    // digits that two lines made
    (
        &["000225 51310002621363146000"],
        &[
            "          ORG     225B",
            "          SA3     262B",
            "          BX6     X3+X1",
            "          END",
        ],
        1,
        &[
            "000225 deck  51300002621263146000",
            "       octal 51310002621363146000  row 1",
            "                ^       ^",
            "       line 2: SA3     262B",
            "       line 3: BX6     X3+X1",
            "compared: 20 digits of 1 words, in 1 rows",
            "1 of 1 words differ (000225 to 000225)",
        ],
    ),
    // a word that the octal text lacks is counted, and doesn't differ
    (
        &["000100 00000000000000000001", "000102 00000000000000000003"],
        &["          ORG     100B", "          DATA    1,2,3"],
        0,
        &[
            "compared: 40 digits of 2 words, in 2 rows",
            "not given: 1 words of the deck, first at 000101",
            "0 of 2 words differ (000100 to 000102)",
        ],
    ),
    // a word behind the memory of a peripheral processor
    (
        &["0100 1400", "10000 0001"],
        &[
            "          PERIPH",
            "          ORG     100B",
            "          LDN     0",
        ],
        1,
        &[
            "010000 deck  (no word)",
            "       octal 0001  row 2",
            "compared: 8 digits of 2 words, in 2 rows",
            "1 of 2 words differ (000100 to 010000)",
        ],
    ),
    // a word too many
    (
        &["000100 00000000000000000001 00000000000000000007"],
        &["          ORG     100B", "          DATA    1"],
        1,
        &[
            "000101 deck  (no word)",
            "       octal 00000000000000000007  row 1",
            "compared: 40 digits of 2 words, in 1 rows",
            "1 of 2 words differ (000100 to 000101)",
        ],
    ),
];

#[test]
fn tells_differences(rt: HostRuntime) {
    assert_rows(&rt, rt.alloc(), &DIFFERENCES);
}

/// What made words that differ in one digit.
const MAKERS: [OctalRow; 8] = [
    // a literal, which stands behind the last word
    (
        &["000100 51100001014600046000 00000000000000000003"],
        &[
            "          ORG     100B",
            "          SA1     =1",
            "          END",
        ],
        1,
        &[
            "000101 deck  00000000000000000001",
            "       octal 00000000000000000003  row 1",
            "                                ^",
            "       a literal",
            "compared: 40 digits of 2 words, in 1 rows",
            "1 of 2 words differ (000100 to 000101)",
        ],
    ),
    // the call of a macro, and its statement
    (
        &["000100 00000000000000000004"],
        &[
            "M         MACRO   P",
            "          DATA    P,2",
            "          DATA    3",
            "          ENDM",
            "          ORG     100B",
            "          M       5",
        ],
        1,
        &[
            "000100 deck  00000000000000000005",
            "       octal 00000000000000000004  row 1",
            "                                ^",
            "       line 6: M       5",
            "       + DATA    5,2",
            "compared: 20 digits of 1 words, in 1 rows",
            "1 of 1 words differ (000100 to 000100)",
        ],
    ),
    // the same, where the second word of the statement differs
    (
        &["000101 00000000000000000003"],
        &[
            "M         MACRO   P",
            "          DATA    P,2",
            "          DATA    3",
            "          ENDM",
            "          ORG     100B",
            "          M       5",
        ],
        1,
        &[
            "000101 deck  00000000000000000002",
            "       octal 00000000000000000003  row 1",
            "                                ^",
            "       line 6: M       5",
            "       + DATA    5,2",
            "compared: 20 digits of 1 words, in 1 rows",
            "1 of 1 words differ (000101 to 000101)",
        ],
    ),
    // the same, where the word of the next statement differs
    (
        &["000102 00000000000000000007"],
        &[
            "M         MACRO   P",
            "          DATA    P,2",
            "          DATA    3",
            "          ENDM",
            "          ORG     100B",
            "          M       5",
        ],
        1,
        &[
            "000102 deck  00000000000000000003",
            "       octal 00000000000000000007  row 1",
            "                                ^",
            "       line 6: M       5",
            "       + DATA    3",
            "compared: 20 digits of 1 words, in 1 rows",
            "1 of 1 words differ (000102 to 000102)",
        ],
    ),
    // the line that is repeated, and what it makes at that address
    (
        &["000100 00000000000000000007 00000000000000000006"],
        &[
            "          ORG     100B",
            "          DUP     2,1",
            "          DATA    7",
        ],
        1,
        &[
            "000101 deck  00000000000000000007",
            "       octal 00000000000000000006  row 1",
            "                                ^",
            "       line 3: DATA    7",
            "       + DATA    7",
            "compared: 40 digits of 2 words, in 1 rows",
            "1 of 2 words differ (000100 to 000101)",
        ],
    ),
    // the last of the lines that are repeated, and the statements of the word
    (
        &["000100 76110 76221 46000 46000"],
        &[
            "          ORG     100B",
            "          DUP     1,2",
            "          SX1     B1",
            "          SX2     B2",
            "          END",
        ],
        1,
        &[
            "000100 deck  76110762204600046000",
            "       octal 76110762214600046000  row 1",
            "                      ^",
            "       line 4: SX2     B2",
            "       + SX1     B1",
            "       + SX2     B2",
            "compared: 20 digits of 1 words, in 1 rows",
            "1 of 1 words differ (000100 to 000100)",
        ],
    ),
    // the same statement twice in a word is told once
    (
        &["000100 76110 76111 46000 46000"],
        &[
            "          ORG     100B",
            "          DUP     2,1",
            "          SX1     B1",
            "          END",
        ],
        1,
        &[
            "000100 deck  76110761104600046000",
            "       octal 76110761114600046000  row 1",
            "                      ^",
            "       line 3: SX1     B1",
            "       + SX1     B1",
            "compared: 20 digits of 1 words, in 1 rows",
            "1 of 1 words differ (000100 to 000100)",
        ],
    ),
    // two calls in a word
    (
        &["000100 76111 76121 46000 46000"],
        &[
            "M         MACRO   P",
            "          SX1     P",
            "          ENDM",
            "          ORG     100B",
            "          M       B1",
            "          M       B2",
            "          END",
        ],
        1,
        &[
            "000100 deck  76110761204600046000",
            "       octal 76111761214600046000  row 1",
            "                 ^    ^",
            "       line 5: M       B1",
            "       + SX1     B1",
            "       line 6: M       B2",
            "       + SX1     B2",
            "compared: 20 digits of 1 words, in 1 rows",
            "1 of 1 words differ (000100 to 000100)",
        ],
    ),
];

#[test]
fn tells_makers(rt: HostRuntime) {
    assert_rows(&rt, rt.alloc(), &MAKERS);
}

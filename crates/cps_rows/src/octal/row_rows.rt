//! Rows of octal texts in their forms. The words agree, but for one in some rows.
use super::assertions::{OctalRow, assert_rows};

/// Octal texts in their forms.
const FORMS: [OctalRow; 9] = [
    // a dump of two words a row
    (
        &["000100 00000000000000000001 00000000000000000002"],
        &["          ORG     100B", "          DATA    1,2"],
        0,
        &[
            "compared: 40 digits of 2 words, in 1 rows",
            "0 of 2 words differ (000100 to 000101)",
        ],
    ),
    // a dump of four words a row, of which the last one differs
    (
        &[
            "100 00000000000000000001 00000000000000000002 00000000000000000003 00000000000000000005",
        ],
        &["          ORG     100B", "          DATA    1,2,3,4"],
        1,
        &[
            "000103 deck  00000000000000000004",
            "       octal 00000000000000000005  row 1",
            "                                ^",
            "       line 2: DATA    1,2,3,4",
            "compared: 80 digits of 4 words, in 1 rows",
            "1 of 4 words differ (000100 to 000103)",
        ],
    ),
    // a listing with an address in each row
    (
        &[
            "   225   51300 00262  SA3     262B",
            "   225   12631        BX6     X3+X1",
            "   225   46000",
        ],
        &[
            "          ORG     225B",
            "          SA3     262B",
            "          BX6     X3+X1",
            "          END",
        ],
        0,
        &[
            "compared: 20 digits of 1 words, in 3 rows",
            "0 of 1 words differ (000225 to 000225)",
        ],
    ),
    // a listing with an address in the first row of a word, a comment, and no row for what fills the word up
    (
        &[
            "   225   51300 00262  SA3     262B",
            "                      * A COMMENT",
            "         12631        BX6     X3+X1",
        ],
        &[
            "          ORG     225B",
            "          SA3     262B",
            "          BX6     X3+X1",
            "          END",
        ],
        0,
        &[
            "compared: 15 digits of 1 words, in 2 rows",
            "other text: 1 rows, first row 2",
            "0 of 1 words differ (000225 to 000225)",
        ],
    ),
    // the last word of a text, with fewer digits than a word has
    (
        &["000225 5130000262"],
        &[
            "          ORG     225B",
            "          SA3     262B",
            "          BX6     X3+X1",
            "          END",
        ],
        0,
        &[
            "compared: 10 digits of 1 words, in 1 rows",
            "in part: 1 words, first at 000225",
            "0 of 1 words differ (000225 to 000225)",
        ],
    ),
    // the same, where one of them differs
    (
        &["000225 5130000263"],
        &[
            "          ORG     225B",
            "          SA3     262B",
            "          BX6     X3+X1",
            "          END",
        ],
        1,
        &[
            "000225 deck  51300002621263146000",
            "       octal 5130000263  row 1",
            "                      ^",
            "       line 2: SA3     262B",
            "compared: 10 digits of 1 words, in 1 rows",
            "in part: 1 words, first at 000225",
            "1 of 1 words differ (000225 to 000225)",
        ],
    ),
    // addresses with a colon and a B, and digits behind a tab
    (
        &["100:\t00000 00000 00000 00001", "101B 00000000000000000002"],
        &["          ORG     100B", "          DATA    1,2"],
        0,
        &[
            "compared: 40 digits of 2 words, in 2 rows",
            "0 of 2 words differ (000100 to 000101)",
        ],
    ),
    // an asterisk is a comment, and the words behind it aren't given
    (
        &[
            "000100 00000000000000000001",
            "*",
            "000104 00000000000000000002",
        ],
        &["          ORG     100B", "          DATA    1,1,1,1,2"],
        0,
        &[
            "compared: 40 digits of 2 words, in 2 rows",
            "not given: 3 words of the deck, first at 000101",
            "other text: 1 rows, first row 2",
            "0 of 2 words differ (000100 to 000104)",
        ],
    ),
    // words of a peripheral processor
    (
        &["0100 1400 3411"],
        &[
            "          PERIPH",
            "          ORG     100B",
            "          LDN     0",
            "          STD     10B",
        ],
        1,
        &[
            "000101 deck  3410",
            "       octal 3411  row 1",
            "                ^",
            "       line 4: STD     10B",
            "compared: 8 digits of 2 words, in 1 rows",
            "1 of 2 words differ (000100 to 000101)",
        ],
    ),
];

#[test]
fn reads_forms(rt: HostRuntime) {
    assert_rows(&rt, rt.alloc(), &FORMS);
}

/// Octal texts with rows that are left out.
const LEFT_OUT: [OctalRow; 5] = [
    // other text and a blank row
    (
        &[
            "OCTAL DUMP",
            "000100",
            "",
            "000100 00000000000000000001",
            "000101 END",
        ],
        &["          ORG     100B", "          DATA    1"],
        0,
        &[
            "compared: 20 digits of 1 words, in 1 rows",
            "other text: 3 rows, first row 1",
            "0 of 1 words differ (000100 to 000100)",
        ],
    ),
    // a group that lost a digit
    (
        &[
            "000100 0000 00000 00000 00001",
            "000101 00000000000000000002",
        ],
        &["          ORG     100B", "          DATA    1,2"],
        0,
        &[
            "compared: 20 digits of 1 words, in 1 rows",
            "not read: 1 rows, first row 1: a group of 4 digits",
            "0 of 1 words differ (000101 to 000101)",
        ],
    ),
    // a letter for a digit: behind that row only a whole word is read
    (
        &[
            "   225   5130O 00262  SA3     262B",
            "         12631        BX6     X3+X1",
            "000225 51300002621263146000",
        ],
        &[
            "          ORG     225B",
            "          SA3     262B",
            "          BX6     X3+X1",
            "          END",
        ],
        0,
        &[
            "compared: 20 digits of 1 words, in 1 rows",
            "not read: 2 rows, first row 1: damaged digits",
            "0 of 1 words differ (000225 to 000225)",
        ],
    ),
    // a word that has no address
    (
        &[
            "000100 00000000000000000001",
            "777777 00000000000000000002 00000000000000000003",
        ],
        &["          ORG     100B", "          DATA    1"],
        0,
        &[
            "compared: 20 digits of 1 words, in 1 rows",
            "not read: 1 rows, first row 2: no such address",
            "0 of 1 words differ (000100 to 000100)",
        ],
    ),
    // both, and a word between that isn't given
    (
        &[
            "PAGE",
            "000100 00000000000000000001",
            "000101 0000",
            "000102 00000000000000000007",
        ],
        &["          ORG     100B", "          DATA    1,2,3"],
        1,
        &[
            "000102 deck  00000000000000000003",
            "       octal 00000000000000000007  row 4",
            "                                ^",
            "       line 2: DATA    1,2,3",
            "compared: 40 digits of 2 words, in 2 rows",
            "not given: 1 words of the deck, first at 000101",
            "not read: 1 rows, first row 3: a group of 4 digits",
            "other text: 1 rows, first row 1",
            "1 of 2 words differ (000100 to 000102)",
        ],
    ),
];

#[test]
fn counts_what_is_left_out(rt: HostRuntime) {
    assert_rows(&rt, rt.alloc(), &LEFT_OUT);
}

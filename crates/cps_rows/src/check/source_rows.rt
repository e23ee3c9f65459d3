//! What is told of a source as a whole.
use super::assertions::assert_rows;

/// Sources of which nothing is told, and what is told of heads and ends.
const SOURCES: [(&[u8], bool, &str); 9] = [
    (b"", false, ""),
    (b"          NO\n", false, ""),
    (
        b"          IFEQ    1,1\n          NO\n",
        true,
        "a.cps:1:11: error: E: the source ends in a range that is open from line 1\n    1 |           IFEQ    1,1\n      |           ^^^^\n",
    ),
    (
        b"          IFEQ    1,1\nA         EQU     Q\n",
        true,
        "a.cps:2:19: error: U: no line gives Q a value, and it must have one here\n    2 | A         EQU     Q\n      |                   ^\na.cps:1:11: error: E: the source ends in a range that is open from line 1\n    1 |           IFEQ    1,1\n      |           ^^^^\n",
    ),
    (
        b"*\n          IFEQ    1,1\n          ELSE\n          IFEQ    1,2\n",
        true,
        "a.cps:2:11: error: E: the source ends in a range that is skipped from line 2\n    2 |           IFEQ    1,1\n      |           ^^^^\n",
    ),
    (
        b"          IFEQ    1,1\n          ENDIF\n          IFEQ    1,1\n          ELSE\n          END\n",
        true,
        "a.cps:5:11: error: E: the program ends in a range that is skipped from line 3\n    5 |           END\n      |           ^^^\n",
    ),
    (
        b"M         MACRO\t\n",
        true,
        "a.cps:1:16: error: a tab is no character of a line; blanks to column 11, 18 or 30?\n    1 | M         MACRO \n      |                ^\na.cps:1:11: error: E: the source ends in the lines of a macro from line 1\n    1 | M         MACRO \n      |           ^^^^^\n",
    ),
    (
        b"          END\n          NO\n",
        true,
        "a.cps:2:11: error: E: the program has ended in line 1; only comments may follow\n    2 |           NO\n      |           ^^\na.cps:2:11: note: nothing behind END is assembled; another program is a source of its own\n    2 |           NO\n      |           ^^\n",
    ),
    (
        b"          SX1     1\n          SX1     2\n          IDENT   B\n",
        true,
        "a.cps:3:11: error: E: IDENT stands in the head alone, which has ended at line 1\n    3 |           IDENT   B\n      |           ^^^^^\n",
    ),
];

#[test]
fn tells_sources(rt: HostRuntime) {
    assert_rows(&rt, rt.alloc(), &SOURCES);
}

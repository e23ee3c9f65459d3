//! What is told of lines.
use super::assertions::assert_rows;

/// Flags of lines, and what makes a line none.
const LINES: [(&[u8], bool, &str); 14] = [
    (
        b"TWO       EQU     2\nTWO       EQU     3\n",
        true,
        "a.cps:2:1: error: D: TWO has a value already, from line 1, and keeps it\n    2 | TWO       EQU     3\n      | ^^^\n",
    ),
    (
        b"A         EQU     Q+R\nQ         EQU     1\r\nR         EQU     1",
        true,
        "a.cps:1:19: error: U: no line above gives Q a value, and it must have one here; it has one from line 2\n    1 | A         EQU     Q+R\n      |                   ^\na.cps:1:21: error: U: no line above gives R a value, and it must have one here; it has one from line 3\n    1 | A         EQU     Q+R\n      |                     ^\n",
    ),
    (
        b"FUNC      MACRO   C,T\n          IFNE    T,0,1\n          CON     C\n          ENDM\nTDR1      FUNC    1,TDR5             CONNECT\nTDR5      EQU     1\n",
        true,
        "a.cps:5:21: error: U: no line above gives TDR5 a value, and it must have one here; it has one from line 6 (written in line 2)\n    5 | TDR1      FUNC    1,TDR5             CONNECT\n      |                     ^^^^\n      = in its expansion: IFNE    TDR5,0,1\na.cps:5:1: note: nothing reads TDR1\n    5 | TDR1      FUNC    1,TDR5             CONNECT\n      | ^^^^\n",
    ),
    (
        b"          DUP     3\n          CON     1A\n          ENDD\n",
        true,
        "a.cps:3:11: error: A: 1A is no number, no symbol and no * (written in line 2)\n    3 |           ENDD\n      |           ^^^^\n      = in its expansion: CON     1A (3 times)\n",
    ),
    (
        b"M         MACRO   P\n          LOCAL   L\n*  NOTE\n          CON     P\n          ENDM\n          DUP     2\n          M       Q\n          ENDD\n",
        true,
        "a.cps:8:11: error: U: no line gives Q a value; it counts as 0 (written in line 4)\n    8 |           ENDD\n      |           ^^^^\n      = in its expansion: CON     Q (2 times)\n",
    ),
    (
        b"M         MACRO   P\n          DUP     2\n          CON     Q\n          ENDD\n          ENDM\n          M       1\n",
        true,
        "a.cps:6:11: error: U: no line gives Q a value; it counts as 0 (written in line 3)\n    6 |           M       1\n      |           ^\n      = in its expansion: CON     Q (2 times)\n",
    ),
    (
        b"          DUP     2,2\n          CON     R\n          CON     S\n",
        true,
        "a.cps:3:11: error: U: no line gives R a value; it counts as 0 (written in line 2)\n    3 |           CON     S\n      |           ^^^\n      = in its expansion: CON     R (2 times)\na.cps:3:19: error: U: no line gives S a value; it counts as 0\n    3 |           CON     S\n      |                   ^\n      = in its expansion: CON     S (2 times)\n",
    ),
    (
        b"M         MACRO   P\n          CON     P\n          ENDM\nM         MACRO   P\n          NO\n          CON     P\n          ENDM\n          M       Q\n",
        true,
        "a.cps:8:19: error: U: no line gives Q a value; it counts as 0 (written in line 6)\n    8 |           M       Q\n      |                   ^\n      = in its expansion: CON     Q\n",
    ),
    (
        b"          SX1     5\xE2\x80\x931\n",
        true,
        "a.cps:1:20: error: '\u{2013}' (U+2013) is no character of a line, where a dash is -\n    1 |           SX1     5\u{2013}1\n      |                    ^\n",
    ),
    (
        b"     \xC3\x89\n",
        true,
        "a.cps:1:6: error: '\u{C9}' (U+00C9) is no character of a line\n    1 |      \u{C9}\n      |      ^\n",
    ),
    (
        b"\tNO\n\x1B[1m\n",
        true,
        "a.cps:1:1: error: a tab is no character of a line; blanks to column 11, 18 or 30?\n    1 |  NO\n      | ^\na.cps:2:1: error: byte 1B is no character of a line\n    2 | ?[1m\n      | ^\n",
    ),
    (
        b"A\xC3\x89B\xE9\n",
        true,
        "a.cps:1:2: error: '\u{C9}' (U+00C9) is no character of a line\n    1 | A\u{C9}B?\n      |  ^\na.cps:1:5: error: byte E9 is no character of a line, and no UTF-8\n    1 | A\u{C9}B?\n      |    ^\n",
    ),
    (
        b"*        1         2         3         4         5         6         7         8         9 ++++\n",
        true,
        "a.cps:1:91: error: the line has 95 characters, and 90 are the most\n    1 | *        1         2         3         4         5         6         7         8         9 ++++\n      |                                                                                           ^^^^^\n",
    ),
    (
        b"          NO      \x01\n          USE     W\x02\n          CON     A\nA         EQU     1\n",
        true,
        "a.cps:1:19: error: byte 01 is no character of a line\n    1 |           NO      ?\n      |                   ^\na.cps:2:20: error: byte 02 is no character of a line\n    2 |           USE     W?\n      |                    ^\n",
    ),
];

#[test]
fn tells_lines(rt: HostRuntime) {
    assert_rows(&rt, rt.alloc(), &LINES);
}

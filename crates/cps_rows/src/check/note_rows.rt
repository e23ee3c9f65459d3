//! Notes.
use super::assertions::{assert_rows, assert_told};
use super::running::run_for_errors;
use cps_text::Counted;

/// Lines of which notes are told, and lines of which none is.
const NOTES: [(&[u8], bool, &str); 23] = [
    (
        b"TWO       EQU     2\n",
        false,
        "a.cps:1:1: note: nothing reads TWO\n    1 | TWO       EQU     2\n      | ^^^\n",
    ),
    (b"TWO       EQU     2\n          CON     TWO\n", false, ""),
    (b"START     NO\n          END     START\n", false, ""),
    (
        b"          SX1     5 + 3\n          SX1     5  + 3\n          SX1     5 + 3 MORE\n",
        false,
        "a.cps:1:21: note: operands end at the first blank; this is a comment\n    1 |           SX1     5 + 3\n      |                     ^^^\n",
    ),
    (
        b"          CON     1 2\n          SX1     X1 B1\n          CON     1 TWO\n",
        false,
        "a.cps:1:21: note: operands end at the first blank; this is a comment\n    1 |           CON     1 2\n      |                     ^\na.cps:2:22: note: operands end at the first blank; this is a comment\n    2 |           SX1     X1 B1\n      |                      ^^\n",
    ),
    (
        b"          IDENT   A\n          NO\n",
        false,
        "a.cps:1:11: note: no END stands behind it; the last lines may be missing\n    1 |           IDENT   A\n      |           ^^^^^\n",
    ),
    (
        b"          IDENT   A\n          NO\n          END\n",
        false,
        "",
    ),
    (b"          NO\n", false, ""),
    (
        b"          IDENT   A\n          IFEQ    1,1\n",
        true,
        "a.cps:2:11: error: E: the source ends in a range that is open from line 2\n    2 |           IFEQ    1,1\n      |           ^^^^\n",
    ),
    (
        b"          CON     0000000001,0000000002,0000000003,0000000004,0000000005,1,234\n          CON     0000000001,0000000002,0000000003,0000000004,0000000005 ,1\n",
        false,
        "a.cps:1:72: note: operands end in column 72; what stands behind isn't read\n    1 |           CON     0000000001,0000000002,0000000003,0000000004,0000000005,1,234\n      |                                                                        ^\n",
    ),
    (
        b"          IF      DEF,TAG,1\n          NO\nTAG       NO\n",
        false,
        "",
    ),
    (b"N         SET     1\nN         SET     2\n", false, ""),
    (
        b"M         MACRO   P\nP         EQU     1\n          ENDM\n          M       TAG\n",
        false,
        "",
    ),
    (
        b"          IFEQ    1,2\nA         EQU     2\n          USE                BUFFERS\n          ENDIF\n",
        false,
        "",
    ),
    (
        b"*CALL COMCCIO\n*call,A\n*CALLED\n* CALL\n",
        false,
        "a.cps:1:1: note: *CALL is a comment here, and brings no text in\n    1 | *CALL COMCCIO\n      | ^^^^^\na.cps:2:1: note: *CALL is a comment here, and brings no text in\n    2 | *call,A\n      | ^^^^^\n",
    ),
    (
        b"*CALL\t\nA         EQU     1\x01\n",
        true,
        "a.cps:1:6: error: a tab is no character of a line; blanks to column 11, 18 or 30?\n    1 | *CALL \n      |      ^\na.cps:2:20: error: byte 01 is no character of a line\n    2 | A         EQU     1?\n      |                    ^\n",
    ),
    (b"          END\n* A COMMENT\n\n", false, ""),
    (
        b"          END\n* A COMMENT\n          IDENT   B\n          END\n",
        true,
        "a.cps:3:11: error: E: the program has ended in line 1; only comments may follow\n    3 |           IDENT   B\n      |           ^^^^^^^^^\na.cps:3:11: note: nothing behind END is assembled; another program is a source of its own\n    3 |           IDENT   B\n      |           ^^^^^\na.cps:4:11: error: E: the program has ended in line 1; only comments may follow\n    4 |           END\n      |           ^^^\n",
    ),
    (
        b"          USE                BUFFERS  \n",
        false,
        "a.cps:1:30: note: no operand stands here; what begins in column 30 or later is a comment\n    1 |           USE                BUFFERS  \n      |                              ^^^^^^^\n",
    ),
    (
        b"          USE               BUFFERS\n          USE\n          NO                 COMMENT\n",
        false,
        "",
    ),
    (
        b"M         MACRO              COMMENT\n          ENDM\n          M                  COMMENT\n",
        false,
        "",
    ),
    (
        b"M         MACRO   P\n          ENDM\n          M       1          COMMENT\n          M                  1,2\n",
        false,
        "a.cps:4:30: note: no operand stands here; what begins in column 30 or later is a comment\n    4 |           M                  1,2\n      |                              ^^^\n",
    ),
    (
        b"M         MACRO   P\n          ENDM\nTAG       M                  1\n",
        false,
        "a.cps:3:1: note: nothing reads TAG\n    3 | TAG       M                  1\n      | ^^^\na.cps:3:30: note: no operand stands here; what begins in column 30 or later is a comment\n    3 | TAG       M                  1\n      |                              ^\n",
    ),
];

#[test]
fn tells_notes(rt: HostRuntime) {
    assert_rows(&rt, rt.alloc(), &NOTES);
}

/// Where errors alone are asked for no note is told, and each error as before.
#[test]
fn leaves_notes_out(rt: HostRuntime) {
    let source = b"TAG       CON     Q 1\n".as_slice();
    let mut reader = Counted::new(source);
    let mut writer = Counted::new(Vec::new(rt.alloc()));
    let end = run_for_errors(rt.alloc(), &mut reader, &mut writer);
    assert_eq!(rt; end, Ok(true));
    let told = writer.into_inner();
    assert_told(
        &rt,
        &told,
        "a.cps:1:19: error: U: no line gives Q a value; it counts as 0\n    1 | TAG       CON     Q 1\n      |                   ^\n",
    );
}

//! The lines that an editor may fold.
use super::asking::{BY_UTF16, Inquiry, assert_answers, assert_parts};

/// Comments, and ranges in ranges: of one that is assembled its ELSE is skipped, of one that is skipped its ELSE is assembled.
const RANGES: Inquiry = Inquiry {
    begins: BY_UTF16,
    lines: &[
        "*         FIRST",
        "*         SECOND",
        "*         THIRD",
        "          IFEQ   1,1",
        "          IFEQ   1,2",
        "          SB1    1",
        "          ELSE",
        "          SB1    2",
        "          ENDIF",
        "          SB1    3",
        "          ELSE",
        "          IFEQ   1,1",
        "          SB1    4",
        "          ELSE",
        "          SB1    5",
        "          ENDIF",
        "          ENDIF",
        "*         ONE LINE",
        "          END",
    ],
    told: "[]",
    questions: &[(
        "foldingRange",
        "",
        r#"[{"endLine":2,"kind":"comment","startLine":0},{"endLine":9,"startLine":3},{"endLine":5,"startLine":4},{"endLine":7,"startLine":6},{"endLine":15,"startLine":10},{"endLine":12,"startLine":11},{"endLine":14,"startLine":13}]"#,
    )],
};

/// The body of a macro, in which no line is assembled; DUPs, also by a number of lines; IFs by a number of lines, assembled and skipped; and a range of
/// no line.
const BODIES: Inquiry = Inquiry {
    begins: BY_UTF16,
    lines: &[
        "W         MACRO  N",
        "*         COMMENT",
        "*         COMMENT",
        "          IFEQ   N,1",
        "          SB1    N",
        "          SB2    N",
        "          ENDIF",
        "          DUP    2",
        "          SB3    N",
        "          ENDD",
        "          ENDM",
        "          DUP    2",
        "          DUP    3",
        "          SB1    1",
        "          ENDD",
        "          SB2    1",
        "          ENDD",
        "          DUP    2,2",
        "          SB1    1",
        "          SB2    1",
        "          IFEQ   1,1,2",
        "          SB1    1",
        "          SB2    1",
        "          IFEQ   1,2,2",
        "          SB1    1",
        "          SB2    1",
        "          IFEQ   1,1",
        "          ENDIF",
        "          IFEQ   1,1,99",
        "          END",
    ],
    told: "[]",
    questions: &[(
        "foldingRange",
        "",
        r#"[{"endLine":9,"startLine":0},{"endLine":2,"kind":"comment","startLine":1},{"endLine":5,"startLine":3},{"endLine":8,"startLine":7},{"endLine":15,"startLine":11},{"endLine":13,"startLine":12},{"endLine":19,"startLine":17},{"endLine":22,"startLine":20},{"endLine":25,"startLine":23},{"endLine":29,"startLine":28}]"#,
    )],
};

/// Lines that begin nothing, as their operands can't be read or nothing is open; the body of a macro that is dropped; and a DUP that nothing ends.
const FLAGGED: Inquiry = Inquiry {
    begins: BY_UTF16,
    lines: &[
        "          IFEQ   1",
        "          SB1    1",
        "          ELSE",
        "          SB1    1",
        "          ENDIF",
        "W         MACRO  A,A",
        "          SB1    1",
        "          ENDM",
        "          DUP    2",
        "          SB1    1",
        "          SB1    1",
    ],
    told: "",
    questions: &[("foldingRange", "", "")],
};

/// No line, and a line that is no text of a program.
const NONE: Inquiry = Inquiry {
    begins: BY_UTF16,
    lines: &["          SB1    1"],
    told: "[]",
    questions: &[("foldingRange", "", "[]")],
};

const ROWS: [Inquiry; 3] = [RANGES, BODIES, NONE];

#[test]
fn folds_ranges_and_bodies(rt: HostRuntime) {
    for (at, row) in ROWS.iter().enumerate() {
        assert_answers(&rt, rt.alloc(), at, row);
    }
}

#[test]
fn folds_nothing_that_is_flagged(rt: HostRuntime) {
    assert_parts(
        &rt,
        rt.alloc(),
        &FLAGGED,
        &[r#""result":[{"endLine":6,"startLine":5}]"#],
        &[],
    );
}

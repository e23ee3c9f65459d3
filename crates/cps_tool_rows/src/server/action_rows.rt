//! What may be mended in lines.
use super::asking::{BY_UTF16, Inquiry, assert_parts};

/// Tabs, the last of which stand in columns 37 and 38 (a line has 8 columns between stops from column 30 on), a carriage return in a line, and a line of
/// 92 characters.
const MENDED: Inquiry = Inquiry {
    begins: BY_UTF16,
    lines: &[
        "\\tSB1\\t1",
        "          SB1    1\\r          SB2    2",
        "*XXXXXXXXXXXXXXXXXXXXXXXXXXXXXXXXXXXXXXXXXXXXXXXXXXXXXXXXXXXXXXXXXXXXXXXXXXXXXXXXXXXXXXXXXXX",
        "*         REMARK REMARK REMARK REMAR\\t\\tX",
    ],
    told: "",
    questions: &[
        (
            "codeAction",
            r#","range":{"start":{"line":0,"character":0},"end":{"line":3,"character":0}},"context":{"diagnostics":[]}"#,
            "",
        ),
        (
            "codeAction",
            r#","range":{"start":{"line":1,"character":0},"end":{"line":1,"character":0}},"context":{"diagnostics":[]}"#,
            "",
        ),
    ],
};

/// A range, a DUP and the body of a macro that are open where their program ends.
const OPEN_RANGE: Inquiry = Inquiry {
    begins: BY_UTF16,
    lines: &[
        "          IFEQ   1,1",
        "          SB1    1",
        "          END",
    ],
    told: "",
    questions: &[
        (
            "codeAction",
            r#","range":{"start":{"line":2,"character":0},"end":{"line":2,"character":0}},"context":{"diagnostics":[]}"#,
            "",
        ),
        (
            "codeAction",
            r#","range":{"start":{"line":1,"character":0},"end":{"line":1,"character":0}},"context":{"diagnostics":[]}"#,
            "",
        ),
        (
            "codeAction",
            r#","range":{"start":{"line":0,"character":0},"end":{"line":0,"character":0}},"context":{"diagnostics":[]}"#,
            "",
        ),
    ],
};

const OPEN_DUP: Inquiry = Inquiry {
    begins: BY_UTF16,
    lines: &["          DUP    2", "          SB1    1", "          END"],
    told: "",
    questions: &[(
        "codeAction",
        r#","range":{"start":{"line":2,"character":0},"end":{"line":2,"character":0}},"context":{"diagnostics":[]}"#,
        "",
    )],
};

const OPEN_MACRO: Inquiry = Inquiry {
    begins: BY_UTF16,
    lines: &["W         MACRO  N", "          SB1    N"],
    told: "",
    questions: &[(
        "codeAction",
        r#","range":{"start":{"line":1,"character":0},"end":{"line":1,"character":0}},"context":{"diagnostics":[]}"#,
        "",
    )],
};

/// A symbol and an operation that are none. Of names that are equally near those that are defined first come first.
const NAMED: Inquiry = Inquiry {
    begins: BY_UTF16,
    lines: &[
        "TABLE     BSS    1",
        "COUNT     EQU    5",
        "TAB       EQU    6",
        "LONGER    EQU    7",
        "          SA1    TABEL",
        "          SA1    TABLE",
        "          SAQ    TABLE",
    ],
    told: "",
    questions: &[(
        "codeAction",
        r#","range":{"start":{"line":4,"character":0},"end":{"line":6,"character":0}},"context":{"diagnostics":[]}"#,
        "",
    )],
};

/// The questions of a deck, and the results that its answers have and lack.
type ActionRow = (
    &'static Inquiry,
    &'static [&'static str],
    &'static [&'static str],
);

const ROWS: [ActionRow; 5] = [
    (
        &MENDED,
        &[
            r#""result":[{"edit":{"changes":{"a":[{"newText":"          ","range":{"end":{"character":1,"line":0},"start":{"character":0,"line":0}}},{"newText":"    ","range":{"end":{"character":5,"line":0},"start":{"character":4,"line":0}}},{"newText":" ","range":{"end":{"character":37,"line":3},"start":{"character":36,"line":3}}},{"newText":"        ","range":{"end":{"character":38,"line":3},"start":{"character":37,"line":3}}}]}},"kind":"quickfix","title":"Put blanks in the place of tabs"},{"edit":{"changes":{"a":[{"newText":"\n","range":{"end":{"character":19,"line":1},"start":{"character":18,"line":1}}}]}},"kind":"quickfix","title":"End lines at carriage returns"},{"edit":{"changes":{"a":[{"newText":"","range":{"end":{"character":92,"line":2},"start":{"character":90,"line":2}}}]}},"kind":"quickfix","title":"Cut lines behind column 90"}]}"#,
            r#""result":[{"edit":{"changes":{"a":[{"newText":"\n","range":{"end":{"character":19,"line":1},"start":{"character":18,"line":1}}}]}},"kind":"quickfix","title":"End lines at carriage returns"}]}"#,
        ],
        &[],
    ),
    (
        &OPEN_RANGE,
        &[
            r#""result":[{"edit":{"changes":{"a":[{"newText":"          ENDIF\n","range":{"end":{"character":0,"line":2},"start":{"character":0,"line":2}}}]}},"kind":"quickfix","title":"Close the open lines in front of END by ENDIF"}]}"#,
            r#""result":[]"#,
        ],
        &[],
    ),
    (
        &OPEN_DUP,
        &[
            r#""result":[{"edit":{"changes":{"a":[{"newText":"          ENDD\n","range":{"end":{"character":0,"line":2},"start":{"character":0,"line":2}}}]}},"kind":"quickfix","title":"Close the open lines in front of END by ENDD"}]}"#,
        ],
        &[],
    ),
    (
        &OPEN_MACRO,
        &[
            r#""result":[{"edit":{"changes":{"a":[{"newText":"\n          ENDM","range":{"end":{"character":18,"line":1},"start":{"character":18,"line":1}}}]}},"kind":"quickfix","title":"Close the open lines behind the last one by ENDM"}]}"#,
        ],
        &[],
    ),
    (
        &NAMED,
        &[
            r#""result":[{"edit":{"changes":{"a":[{"newText":"TABLE","range":{"end":{"character":22,"line":4},"start":{"character":17,"line":4}}}]}},"kind":"quickfix","title":"Write TABLE"},{"edit":{"changes":{"a":[{"newText":"TAB","range":{"end":{"character":22,"line":4},"start":{"character":17,"line":4}}}]}},"kind":"quickfix","title":"Write TAB"},{"edit":{"changes":{"a":[{"newText":"COUNT","range":{"end":{"character":22,"line":4},"start":{"character":17,"line":4}}}]}},"kind":"quickfix","title":"Write COUNT"},{"edit":{"changes":{"a":[{"newText":"SA1","range":{"end":{"character":13,"line":6},"start":{"character":10,"line":6}}}]}},"kind":"quickfix","title":"Write SA1"},{"edit":{"changes":{"a":[{"newText":"SET","range":{"end":{"character":13,"line":6},"start":{"character":10,"line":6}}}]}},"kind":"quickfix","title":"Write SET"},{"edit":{"changes":{"a":[{"newText":"SB1","range":{"end":{"character":13,"line":6},"start":{"character":10,"line":6}}}]}},"kind":"quickfix","title":"Write SB1"}]}"#,
        ],
        &[],
    ),
];

#[test]
fn mends_lines(rt: HostRuntime) {
    for (inquiry, has, lacks) in ROWS.iter() {
        assert_parts(&rt, rt.alloc(), inquiry, has, lacks);
    }
}

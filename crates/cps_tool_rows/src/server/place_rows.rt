//! Where a name is defined, and where it stands.
use super::asking::{BY_UTF8, BY_UTF16, Inquiry, assert_answers};
use super::decks::{
    LETTERS, NAMES, PAIR, SETTINGS, UNDEFINED, UNDEFINED_TOLD, WIDE, WIDE_UTF8, WIDE_UTF16,
};

/// Labels.
const LABELS: Inquiry = Inquiry {
    begins: BY_UTF16,
    lines: NAMES,
    told: "[]",
    questions: &[
        // from an operand, and from the label itself
        (
            "definition",
            r#","position":{"line":5,"character":22}"#,
            r#"[{"range":{"end":{"character":5,"line":3},"start":{"character":0,"line":3}},"uri":"a"}]"#,
        ),
        (
            "definition",
            r#","position":{"line":3,"character":0}"#,
            r#"[{"range":{"end":{"character":5,"line":3},"start":{"character":0,"line":3}},"uri":"a"}]"#,
        ),
        // an operation, a register, a place between blanks, and no line
        (
            "definition",
            r#","position":{"line":4,"character":11}"#,
            "[]",
        ),
        (
            "definition",
            r#","position":{"line":5,"character":18}"#,
            "[]",
        ),
        (
            "definition",
            r#","position":{"line":5,"character":14}"#,
            "[]",
        ),
        (
            "definition",
            r#","position":{"line":10,"character":0}"#,
            "[]",
        ),
        // the line that reads a label, and the one that defines it too
        (
            "references",
            r#","position":{"line":7,"character":3},"context":{"includeDeclaration":false}"#,
            r#"[{"range":{"end":{"character":22,"line":3},"start":{"character":17,"line":3}},"uri":"a"}]"#,
        ),
        (
            "references",
            r#","position":{"line":7,"character":3},"context":{"includeDeclaration":true}"#,
            r#"[{"range":{"end":{"character":22,"line":3},"start":{"character":17,"line":3}},"uri":"a"},{"range":{"end":{"character":5,"line":7},"start":{"character":0,"line":7}},"uri":"a"}]"#,
        ),
        (
            "documentHighlight",
            r#","position":{"line":7,"character":3}"#,
            r#"[{"kind":2,"range":{"end":{"character":22,"line":3},"start":{"character":17,"line":3}}},{"kind":3,"range":{"end":{"character":5,"line":7},"start":{"character":0,"line":7}}}]"#,
        ),
        // an operation
        (
            "documentHighlight",
            r#","position":{"line":4,"character":11}"#,
            "[]",
        ),
        // without a context
        (
            "references",
            r#","position":{"line":8,"character":6}"#,
            r#"[{"range":{"end":{"character":23,"line":4},"start":{"character":17,"line":4}},"uri":"a"}]"#,
        ),
        (
            "references",
            r#","position":{"line":8,"character":6},"context":{}"#,
            r#"[{"range":{"end":{"character":23,"line":4},"start":{"character":17,"line":4}},"uri":"a"}]"#,
        ),
        // an operation, and no line
        (
            "references",
            r#","position":{"line":4,"character":11},"context":{"includeDeclaration":true}"#,
            "[]",
        ),
        (
            "references",
            r#","position":{"line":11,"character":3},"context":{"includeDeclaration":true}"#,
            "[]",
        ),
    ],
};

/// In a comment, which names nothing; in small letters; and beside a longer word.
const WHOLE: Inquiry = Inquiry {
    begins: BY_UTF16,
    lines: LETTERS,
    told: r#"[{"message":"nothing reads ONE1","range":{"end":{"character":4,"line":3},"start":{"character":0,"line":3}},"severity":4,"source":"compass"}]"#,
    questions: &[
        (
            "definition",
            r#","position":{"line":0,"character":17}"#,
            "[]",
        ),
        (
            "references",
            r#","position":{"line":0,"character":17},"context":{"includeDeclaration":true}"#,
            "[]",
        ),
        (
            "definition",
            r#","position":{"line":2,"character":20}"#,
            r#"[{"range":{"end":{"character":3,"line":1},"start":{"character":0,"line":1}},"uri":"a"}]"#,
        ),
        (
            "references",
            r#","position":{"line":1,"character":0},"context":{"includeDeclaration":true}"#,
            r#"[{"range":{"end":{"character":3,"line":1},"start":{"character":0,"line":1}},"uri":"a"},{"range":{"end":{"character":23,"line":2},"start":{"character":20,"line":2}},"uri":"a"},{"range":{"end":{"character":20,"line":3},"start":{"character":17,"line":3}},"uri":"a"}]"#,
        ),
        (
            "references",
            r#","position":{"line":3,"character":4},"context":{"includeDeclaration":false}"#,
            "[]",
        ),
    ],
};

/// Symbols that lines of an expansion define: the argument of its call, one of the macro's body, the macro, and its parameter.
const EXPANSION: Inquiry = Inquiry {
    begins: BY_UTF16,
    lines: PAIR,
    told: "[]",
    questions: &[
        // the call defines SECOND, which stands in the body
        (
            "documentHighlight",
            r#","position":{"line":6,"character":17}"#,
            r#"[{"kind":3,"range":{"end":{"character":6,"line":2},"start":{"character":0,"line":2}}},{"kind":2,"range":{"end":{"character":23,"line":6},"start":{"character":17,"line":6}}}]"#,
        ),
        (
            "definition",
            r#","position":{"line":5,"character":17}"#,
            r#"[{"range":{"end":{"character":22,"line":4},"start":{"character":17,"line":4}},"uri":"a"}]"#,
        ),
        (
            "definition",
            r#","position":{"line":6,"character":17}"#,
            r#"[{"range":{"end":{"character":6,"line":2},"start":{"character":0,"line":2}},"uri":"a"}]"#,
        ),
        // the macro, from its call
        (
            "definition",
            r#","position":{"line":4,"character":12}"#,
            r#"[{"range":{"end":{"character":4,"line":0},"start":{"character":0,"line":0}},"uri":"a"}]"#,
        ),
        (
            "references",
            r#","position":{"line":0,"character":0},"context":{"includeDeclaration":false}"#,
            r#"[{"range":{"end":{"character":14,"line":4},"start":{"character":10,"line":4}},"uri":"a"}]"#,
        ),
        // its parameter, from the body
        (
            "definition",
            r#","position":{"line":1,"character":0}"#,
            r#"[{"range":{"end":{"character":18,"line":0},"start":{"character":17,"line":0}},"uri":"a"}]"#,
        ),
        // from the body of the macro
        (
            "references",
            r#","position":{"line":2,"character":0},"context":{"includeDeclaration":true}"#,
            r#"[{"range":{"end":{"character":6,"line":2},"start":{"character":0,"line":2}},"uri":"a"},{"range":{"end":{"character":23,"line":6},"start":{"character":17,"line":6}},"uri":"a"}]"#,
        ),
    ],
};

/// Blank lines that end a DUP, and so define symbols, which stand in the lines before.
const BLANK: Inquiry = Inquiry {
    begins: BY_UTF16,
    lines: &[
        "          DUP    1,2",
        "ONE       BSS    1",
        "",
        "          DUP    1,2",
        "TWO       BSS    1",
        "   ",
        "          CON    ONE,TWO",
    ],
    told: "[]",
    questions: &[
        (
            "definition",
            r#","position":{"line":6,"character":17}"#,
            r#"[{"range":{"end":{"character":3,"line":1},"start":{"character":0,"line":1}},"uri":"a"}]"#,
        ),
        (
            "definition",
            r#","position":{"line":6,"character":21}"#,
            r#"[{"range":{"end":{"character":3,"line":4},"start":{"character":0,"line":4}},"uri":"a"}]"#,
        ),
    ],
};

/// A symbol that two lines define. The second one reads it too. From where it is read the value is told that counts there.
const SET: Inquiry = Inquiry {
    begins: BY_UTF16,
    lines: SETTINGS,
    told: "[]",
    questions: &[
        (
            "documentHighlight",
            r#","position":{"line":3,"character":17}"#,
            r#"[{"kind":3,"range":{"end":{"character":1,"line":0},"start":{"character":0,"line":0}}},{"kind":2,"range":{"end":{"character":18,"line":1},"start":{"character":17,"line":1}}},{"kind":3,"range":{"end":{"character":1,"line":2},"start":{"character":0,"line":2}}},{"kind":2,"range":{"end":{"character":18,"line":2},"start":{"character":17,"line":2}}},{"kind":2,"range":{"end":{"character":18,"line":3},"start":{"character":17,"line":3}}}]"#,
        ),
        (
            "definition",
            r#","position":{"line":3,"character":17}"#,
            r#"[{"range":{"end":{"character":1,"line":2},"start":{"character":0,"line":2}},"uri":"a"}]"#,
        ),
        (
            "definition",
            r#","position":{"line":1,"character":17}"#,
            r#"[{"range":{"end":{"character":1,"line":0},"start":{"character":0,"line":0}},"uri":"a"}]"#,
        ),
        (
            "references",
            r#","position":{"line":3,"character":17},"context":{"includeDeclaration":false}"#,
            r#"[{"range":{"end":{"character":18,"line":1},"start":{"character":17,"line":1}},"uri":"a"},{"range":{"end":{"character":18,"line":2},"start":{"character":17,"line":2}},"uri":"a"},{"range":{"end":{"character":18,"line":3},"start":{"character":17,"line":3}},"uri":"a"}]"#,
        ),
        (
            "references",
            r#","position":{"line":2,"character":17},"context":{"includeDeclaration":true}"#,
            r#"[{"range":{"end":{"character":1,"line":0},"start":{"character":0,"line":0}},"uri":"a"},{"range":{"end":{"character":18,"line":1},"start":{"character":17,"line":1}},"uri":"a"},{"range":{"end":{"character":1,"line":2},"start":{"character":0,"line":2}},"uri":"a"},{"range":{"end":{"character":18,"line":2},"start":{"character":17,"line":2}},"uri":"a"},{"range":{"end":{"character":18,"line":3},"start":{"character":17,"line":3}},"uri":"a"}]"#,
        ),
    ],
};

/// A symbol that no line defines.
const NOWHERE: Inquiry = Inquiry {
    begins: BY_UTF16,
    lines: UNDEFINED,
    told: UNDEFINED_TOLD,
    questions: &[
        (
            "definition",
            r#","position":{"line":0,"character":17}"#,
            "[]",
        ),
        (
            "references",
            r#","position":{"line":0,"character":18},"context":{"includeDeclaration":true}"#,
            r#"[{"range":{"end":{"character":18,"line":0},"start":{"character":17,"line":0}},"uri":"a"}]"#,
        ),
    ],
};

/// Places by units of UTF-16.
const UNITS: Inquiry = Inquiry {
    begins: BY_UTF16,
    lines: WIDE,
    told: WIDE_UTF16,
    questions: &[
        (
            "definition",
            r#","position":{"line":1,"character":19}"#,
            r#"[{"range":{"end":{"character":2,"line":0},"start":{"character":0,"line":0}},"uri":"a"}]"#,
        ),
        (
            "definition",
            r#","position":{"line":1,"character":18}"#,
            "[]",
        ),
        (
            "references",
            r#","position":{"line":0,"character":0},"context":{"includeDeclaration":false}"#,
            r#"[{"range":{"end":{"character":21,"line":1},"start":{"character":19,"line":1}},"uri":"a"}]"#,
        ),
    ],
};

/// Places by bytes.
const BYTES: Inquiry = Inquiry {
    begins: BY_UTF8,
    lines: WIDE,
    told: WIDE_UTF8,
    questions: &[
        (
            "definition",
            r#","position":{"line":1,"character":22}"#,
            r#"[{"range":{"end":{"character":2,"line":0},"start":{"character":0,"line":0}},"uri":"a"}]"#,
        ),
        (
            "definition",
            r#","position":{"line":1,"character":19}"#,
            "[]",
        ),
        (
            "references",
            r#","position":{"line":0,"character":0},"context":{"includeDeclaration":false}"#,
            r#"[{"range":{"end":{"character":24,"line":1},"start":{"character":22,"line":1}},"uri":"a"}]"#,
        ),
    ],
};

const ROWS: [Inquiry; 8] = [LABELS, WHOLE, EXPANSION, BLANK, SET, NOWHERE, UNITS, BYTES];

#[test]
fn finds_symbols(rt: HostRuntime) {
    for (at, row) in ROWS.iter().enumerate() {
        assert_answers(&rt, rt.alloc(), at, row);
    }
}

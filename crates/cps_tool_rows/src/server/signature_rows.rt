//! What an operation takes, shown where its operands are written.
use super::asking::{BY_UTF8, BY_UTF16, Inquiry, assert_answers};

/// A macro that two lines define, calls of it, and a macro without parameters.
const MACROS: Inquiry = Inquiry {
    begins: BY_UTF16,
    lines: &[
        "W         MACRO  N,COUNT,K",
        "          ENDM",
        "L         W      1,(2,3),4  NOTE",
        "W         MACRO  N",
        "          ENDM",
        "          W      1",
        "V         MACRO",
        "          ENDM",
        "          V",
        "*         W      1",
    ],
    told: r#"[{"message":"nothing reads L","range":{"end":{"character":1,"line":2},"start":{"character":0,"line":2}},"severity":4,"source":"compass"}]"#,
    questions: &[
        // at the operation, and behind the blanks that follow it
        (
            "signatureHelp",
            r#","position":{"line":2,"character":10}"#,
            r#"{"activeParameter":0,"activeSignature":0,"signatures":[{"label":"W N,COUNT,K","parameters":[{"label":[2,3]},{"label":[4,9]},{"label":[10,11]}]}]}"#,
        ),
        (
            "signatureHelp",
            r#","position":{"line":2,"character":17}"#,
            r#"{"activeParameter":0,"activeSignature":0,"signatures":[{"label":"W N,COUNT,K","parameters":[{"label":[2,3]},{"label":[4,9]},{"label":[10,11]}]}]}"#,
        ),
        // behind a comma; one in parentheses doesn't count
        (
            "signatureHelp",
            r#","position":{"line":2,"character":19}"#,
            r#"{"activeParameter":1,"activeSignature":0,"signatures":[{"label":"W N,COUNT,K","parameters":[{"label":[2,3]},{"label":[4,9]},{"label":[10,11]}]}]}"#,
        ),
        (
            "signatureHelp",
            r#","position":{"line":2,"character":22}"#,
            r#"{"activeParameter":1,"activeSignature":0,"signatures":[{"label":"W N,COUNT,K","parameters":[{"label":[2,3]},{"label":[4,9]},{"label":[10,11]}]}]}"#,
        ),
        (
            "signatureHelp",
            r#","position":{"line":2,"character":26}"#,
            r#"{"activeParameter":2,"activeSignature":0,"signatures":[{"label":"W N,COUNT,K","parameters":[{"label":[2,3]},{"label":[4,9]},{"label":[10,11]}]}]}"#,
        ),
        // in the location, and in the comment behind the operands
        (
            "signatureHelp",
            r#","position":{"line":2,"character":0}"#,
            "null",
        ),
        (
            "signatureHelp",
            r#","position":{"line":2,"character":29}"#,
            "null",
        ),
        // the macro as a later line defines it, and past its last parameter the first
        (
            "signatureHelp",
            r#","position":{"line":5,"character":18}"#,
            r#"{"activeParameter":0,"activeSignature":0,"signatures":[{"label":"W N","parameters":[{"label":[2,3]}]}]}"#,
        ),
        // one without parameters
        (
            "signatureHelp",
            r#","position":{"line":8,"character":11}"#,
            r#"{"activeParameter":0,"activeSignature":0,"signatures":[{"label":"V","parameters":[]}]}"#,
        ),
        // a comment, and behind the last line
        (
            "signatureHelp",
            r#","position":{"line":9,"character":17}"#,
            "null",
        ),
        (
            "signatureHelp",
            r#","position":{"line":10,"character":0}"#,
            "null",
        ),
    ],
};

/// Instructions of both machines, a statement, and a macro above whose definition the line stands.
const FORMS: Inquiry = Inquiry {
    begins: BY_UTF8,
    lines: &[
        "          EQ     B1,B2,0",
        "          PS",
        "          BSS    1",
        "          RJ     0",
    ],
    told: "[]",
    questions: &[
        // of three forms the first that has the operand
        (
            "signatureHelp",
            r#","position":{"line":0,"character":17}"#,
            r#"{"activeParameter":0,"activeSignature":0,"signatures":[{"label":"EQ Bi,Bj,K","parameters":[{"label":[3,5]},{"label":[6,8]},{"label":[9,10]}]},{"label":"EQ Bi,K","parameters":[{"label":[3,5]},{"label":[6,7]}]},{"label":"EQ K","parameters":[{"label":[3,4]}]}]}"#,
        ),
        (
            "signatureHelp",
            r#","position":{"line":0,"character":23}"#,
            r#"{"activeParameter":2,"activeSignature":0,"signatures":[{"label":"EQ Bi,Bj,K","parameters":[{"label":[3,5]},{"label":[6,8]},{"label":[9,10]}]},{"label":"EQ Bi,K","parameters":[{"label":[3,5]},{"label":[6,7]}]},{"label":"EQ K","parameters":[{"label":[3,4]}]}]}"#,
        ),
        (
            "signatureHelp",
            r#","position":{"line":1,"character":12}"#,
            r#"{"activeParameter":0,"activeSignature":0,"signatures":[{"label":"PS","parameters":[]}]}"#,
        ),
        (
            "signatureHelp",
            r#","position":{"line":2,"character":17}"#,
            "null",
        ),
        (
            "signatureHelp",
            r#","position":{"line":3,"character":17}"#,
            r#"{"activeParameter":0,"activeSignature":0,"signatures":[{"label":"RJ K","parameters":[{"label":[3,4]}]}]}"#,
        ),
    ],
};

/// A peripheral processor: an operand that may be left out, a target, and no instruction of the other machine.
const PERIPHERAL: Inquiry = Inquiry {
    begins: BY_UTF16,
    lines: &[
        "          PERIPH",
        "          LDM    0,1",
        "          UJN    *",
        "          PSN",
    ],
    told: "[]",
    questions: &[
        (
            "signatureHelp",
            r#","position":{"line":1,"character":19}"#,
            r#"{"activeParameter":1,"activeSignature":0,"signatures":[{"label":"LDM m,d","parameters":[{"label":[4,5]},{"label":[6,7]}]}]}"#,
        ),
        (
            "signatureHelp",
            r#","position":{"line":2,"character":17}"#,
            r#"{"activeParameter":0,"activeSignature":0,"signatures":[{"label":"UJN a target","parameters":[{"label":[4,12]}]}]}"#,
        ),
        (
            "signatureHelp",
            r#","position":{"line":3,"character":13}"#,
            r#"{"activeParameter":0,"activeSignature":0,"signatures":[{"label":"PSN","parameters":[]}]}"#,
        ),
    ],
};

const ROWS: [Inquiry; 3] = [MACROS, FORMS, PERIPHERAL];

#[test]
fn shows_what_operations_take(rt: HostRuntime) {
    for (at, row) in ROWS.iter().enumerate() {
        assert_answers(&rt, rt.alloc(), at, row);
    }
}

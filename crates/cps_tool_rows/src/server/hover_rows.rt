//! What an editor shows of a place: rows of the name there or what is told of the operation, the rows of the line, as the listing has them, and the causes of its flags.
use super::asking::{
    BY_UTF8, BY_UTF16, Beginning, Inquiry, Question, assert_answers, assert_parts,
};
use super::conversation::{
    INITIALIZE_MARKDOWN, INITIALIZE_NONE, INITIALIZE_PLAIN, INITIALIZE_UNKNOWN, INITIALIZE_WRONG,
    UTF16,
};
use super::decks::{LETTERS, NAMES, PAIR, UNDEFINED, UNDEFINED_TOLD, WIDE, WIDE_UTF8, WIDE_UTF16};

/// Symbols and other words of a program.
const WORDS: Inquiry = Inquiry {
    begins: BY_UTF16,
    lines: NAMES,
    told: "[]",
    questions: &[
        // in a label
        (
            "hover",
            r#","position":{"line":3,"character":2}"#,
            r#"{"contents":{"kind":"plaintext","value":"START    00000000000000000100 4 6\n         000100 7160000005                4 START     SX6    COUNT\n"},"range":{"end":{"character":5,"line":3},"start":{"character":0,"line":3}}}"#,
        ),
        // behind the last character of an operand
        (
            "hover",
            r#","position":{"line":3,"character":22}"#,
            r#"{"contents":{"kind":"plaintext","value":"COUNT    00000000000000000005 8 4\n         000100 7160000005                4 START     SX6    COUNT\n"},"range":{"end":{"character":22,"line":3},"start":{"character":17,"line":3}}}"#,
        ),
        // between blanks
        (
            "hover",
            r#","position":{"line":3,"character":8}"#,
            r#"{"contents":{"kind":"plaintext","value":"         000100 7160000005                4 START     SX6    COUNT\n"}}"#,
        ),
        // an operation: what it does in front
        (
            "hover",
            r#","position":{"line":6,"character":11}"#,
            r#"{"contents":{"kind":"plaintext","value":"An instruction of the central processor: i, j and k are digits of registers,\nK is an expression or a literal, n an expression.\nPS    not read  30 bits  0000000000  Program stop; the next instruction begins a word\n         000101 0000000000                7           PS\n"}}"#,
        ),
        // a statement, behind its last character
        (
            "hover",
            r#","position":{"line":7,"character":13}"#,
            r#"{"contents":{"kind":"plaintext","value":"EQU, =\nOperands: one expression, now\nEffect: gives the location symbol its value\n                00000000000000000005      8 COUNT     EQU    5\n"}}"#,
        ),
        // a register, before the comma
        (
            "hover",
            r#","position":{"line":5,"character":19}"#,
            r#"{"contents":{"kind":"plaintext","value":"         000101 0316000100                6           NZ     X6,START\n"}}"#,
        ),
        // a symbol, behind the comma
        (
            "hover",
            r#","position":{"line":5,"character":20}"#,
            r#"{"contents":{"kind":"plaintext","value":"START    00000000000000000100 4 6\n         000101 0316000100                6           NZ     X6,START\n"},"range":{"end":{"character":25,"line":5},"start":{"character":20,"line":5}}}"#,
        ),
        // the name of the program, which this line defines
        (
            "hover",
            r#","position":{"line":0,"character":17}"#,
            r#"{"contents":{"kind":"plaintext","value":"                                          1           IDENT  NAMES\n"},"range":{"end":{"character":22,"line":0},"start":{"character":17,"line":0}}}"#,
        ),
        // beyond the end of a line is its end, behind a symbol
        (
            "hover",
            r#","position":{"line":4,"character":99}"#,
            r#"{"contents":{"kind":"plaintext","value":"ANSWER   00000000000000000102 9 5\n         000100 5160000102                5           SA6    ANSWER\n"},"range":{"end":{"character":23,"line":4},"start":{"character":17,"line":4}}}"#,
        ),
        // and behind a number
        (
            "hover",
            r#","position":{"line":7,"character":99}"#,
            r#"{"contents":{"kind":"plaintext","value":"                00000000000000000005      8 COUNT     EQU    5\n"}}"#,
        ),
        // the last line
        (
            "hover",
            r#","position":{"line":9,"character":0}"#,
            r#"{"contents":{"kind":"plaintext","value":"                                         10           END\n"}}"#,
        ),
        // what stands behind its newline is no line
        ("hover", r#","position":{"line":10,"character":0}"#, "null"),
        (
            "hover",
            r#","position":{"line":4294967295,"character":0}"#,
            "null",
        ),
    ],
};

/// A comment, small letters, and an empty line.
const COMMENT: Inquiry = Inquiry {
    begins: BY_UTF16,
    lines: LETTERS,
    told: r#"[{"message":"nothing reads ONE1","range":{"end":{"character":4,"line":3},"start":{"character":0,"line":3}},"severity":4,"source":"compass"}]"#,
    questions: &[
        // before the asterisk
        (
            "hover",
            r#","position":{"line":0,"character":0}"#,
            r#"{"contents":{"kind":"plaintext","value":"                                          1 *         ADD one TO X6, NOT ONETOOMANY\n"}}"#,
        ),
        // a symbol in a comment, which reads none
        (
            "hover",
            r#","position":{"line":0,"character":15}"#,
            r#"{"contents":{"kind":"plaintext","value":"                                          1 *         ADD one TO X6, NOT ONETOOMANY\n"}}"#,
        ),
        // a word of ten characters, which is no symbol
        (
            "hover",
            r#","position":{"line":0,"character":31}"#,
            r#"{"contents":{"kind":"plaintext","value":"                                          1 *         ADD one TO X6, NOT ONETOOMANY\n"}}"#,
        ),
        (
            "hover",
            r#","position":{"line":2,"character":22}"#,
            r#"{"contents":{"kind":"plaintext","value":"ONE      00000000000000000001 2 3 4\n         000000 7266000001                3           SX6    X6+One\n"},"range":{"end":{"character":23,"line":2},"start":{"character":20,"line":2}}}"#,
        ),
        // the label forces a word
        (
            "hover",
            r#","position":{"line":3,"character":4}"#,
            r#"{"contents":{"kind":"plaintext","value":"ONE1     00000000000000000001 4\n         000001 7150000001                4 ONE1      SX5    ONE\n"},"range":{"end":{"character":4,"line":3},"start":{"character":0,"line":3}}}"#,
        ),
        (
            "hover",
            r#","position":{"line":4,"character":0}"#,
            r#"{"contents":{"kind":"plaintext","value":"                                          5\n"}}"#,
        ),
        ("hover", r#","position":{"line":5,"character":0}"#, "null"),
    ],
};

/// Lines of a macro and its call.
const EXPANSION: Inquiry = Inquiry {
    begins: BY_UTF16,
    lines: PAIR,
    told: "[]",
    questions: &[
        // the argument of the call, and the rows of the expansion
        (
            "hover",
            r#","position":{"line":4,"character":17}"#,
            r#"{"contents":{"kind":"plaintext","value":"FIRST    00000000000000000000 5 6\n                                          5           PAIR   FIRST\n         000000                           + FIRST         BSS    1\n         000001                           + SECOND    BSS    1\n"},"range":{"end":{"character":22,"line":4},"start":{"character":17,"line":4}}}"#,
        ),
        // the name of the macro: the rows of the line that defines it
        (
            "hover",
            r#","position":{"line":4,"character":12}"#,
            r#"{"contents":{"kind":"plaintext","value":"                                          1 PAIR      MACRO  N\n                                          5           PAIR   FIRST\n         000000                           + FIRST         BSS    1\n         000001                           + SECOND    BSS    1\n"},"range":{"end":{"character":14,"line":4},"start":{"character":10,"line":4}}}"#,
        ),
        // a line of the body
        (
            "hover",
            r#","position":{"line":2,"character":6}"#,
            r#"{"contents":{"kind":"plaintext","value":"SECOND   00000000000000000001 5 7\n                                          3 SECOND    BSS    1\n"},"range":{"end":{"character":6,"line":2},"start":{"character":0,"line":2}}}"#,
        ),
        // a parameter: the same
        (
            "hover",
            r#","position":{"line":1,"character":0}"#,
            r#"{"contents":{"kind":"plaintext","value":"                                          1 PAIR      MACRO  N\n                                          2 N         BSS    1\n"},"range":{"end":{"character":1,"line":1},"start":{"character":0,"line":1}}}"#,
        ),
    ],
};

/// A symbol that no line defines, in a line with a flag.
const FLAGGED: Inquiry = Inquiry {
    begins: BY_UTF16,
    lines: UNDEFINED,
    told: UNDEFINED_TOLD,
    questions: &[(
        "hover",
        r#","position":{"line":0,"character":17}"#,
        r#"{"contents":{"kind":"plaintext","value":"Q        undefined            0 1\nU        000000 7110000000                1           SX1    Q\nU: no line gives Q a value; it counts as 0\n"},"range":{"end":{"character":18,"line":0},"start":{"character":17,"line":0}}}"#,
    )],
};

/// A flag of a statement of an expansion: its row shows the statement, and the cause doesn't.
const FLAGGED_CALL: Inquiry = Inquiry {
    begins: BY_UTF16,
    lines: &[
        "BAD       MACRO  N",
        "          SA1    N",
        "          ENDM",
        "          BAD    NONE",
    ],
    told: r#"[{"code":"U","message":"no line gives NONE a value; it counts as 0\nin its expansion: SA1    NONE (line 2)","range":{"end":{"character":21,"line":3},"start":{"character":17,"line":3}},"severity":1,"source":"compass"}]"#,
    questions: &[(
        "hover",
        r#","position":{"line":3,"character":19}"#,
        r#"{"contents":{"kind":"plaintext","value":"NONE     undefined            0 4\n                                          4           BAD    NONE\nU        000000 5110000000                +           SA1    NONE\nU: no line gives NONE a value; it counts as 0\n"},"range":{"end":{"character":21,"line":3},"start":{"character":17,"line":3}}}"#,
    )],
};

/// A line that no source may have: the flag of what is assembled in its place isn't told with the diagnostics.
const WRONG: Inquiry = Inquiry {
    begins: BY_UTF16,
    lines: &["          SX1 \u{E9}  Q"],
    told: "[{\"message\":\"'\u{E9}' (U+00E9) is no character of a line\",\"range\":{\"end\":{\"character\":15,\"line\":0},\"start\":{\"character\":14,\"line\":0}},\"severity\":1,\"source\":\"compass\"}]",
    questions: &[(
        "hover",
        r#","position":{"line":0,"character":17}"#,
        r#"{"contents":{"kind":"plaintext","value":"Q        undefined            0 1\nU        000000 7110000000                1           SX1     Q\nU: no line gives Q a value; it counts as 0\n"},"range":{"end":{"character":18,"line":0},"start":{"character":17,"line":0}}}"#,
    )],
};

/// Places by units of UTF-16. The rows have the line with blanks in the place of bytes that no line may have.
const UNITS: Inquiry = Inquiry {
    begins: BY_UTF16,
    lines: WIDE,
    told: WIDE_UTF16,
    questions: &[
        (
            "hover",
            r#","position":{"line":0,"character":1}"#,
            r#"{"contents":{"kind":"plaintext","value":"LP       00000000000000000000 1 2\n         000000 7110000001                1 LP        SX1    1\n"},"range":{"end":{"character":2,"line":0},"start":{"character":0,"line":0}}}"#,
        ),
        // before the symbol and behind it
        (
            "hover",
            r#","position":{"line":1,"character":19}"#,
            r#"{"contents":{"kind":"plaintext","value":"LP       00000000000000000000 1 2\n         000000 7120000000                2           SX2         LP\n"},"range":{"end":{"character":21,"line":1},"start":{"character":19,"line":1}}}"#,
        ),
        (
            "hover",
            r#","position":{"line":1,"character":21}"#,
            r#"{"contents":{"kind":"plaintext","value":"LP       00000000000000000000 1 2\n         000000 7120000000                2           SX2         LP\n"},"range":{"end":{"character":21,"line":1},"start":{"character":19,"line":1}}}"#,
        ),
        // between the units of a character
        (
            "hover",
            r#","position":{"line":1,"character":17}"#,
            r#"{"contents":{"kind":"plaintext","value":"         000000 7120000000                2           SX2         LP\n"}}"#,
        ),
        // behind that character
        (
            "hover",
            r#","position":{"line":1,"character":18}"#,
            r#"{"contents":{"kind":"plaintext","value":"         000000 7120000000                2           SX2         LP\n"}}"#,
        ),
    ],
};

/// Places by bytes.
const BYTES: Inquiry = Inquiry {
    begins: BY_UTF8,
    lines: WIDE,
    told: WIDE_UTF8,
    questions: &[
        (
            "hover",
            r#","position":{"line":1,"character":22}"#,
            r#"{"contents":{"kind":"plaintext","value":"LP       00000000000000000000 1 2\n         000000 7120000000                2           SX2         LP\n"},"range":{"end":{"character":24,"line":1},"start":{"character":22,"line":1}}}"#,
        ),
        (
            "hover",
            r#","position":{"line":1,"character":24}"#,
            r#"{"contents":{"kind":"plaintext","value":"LP       00000000000000000000 1 2\n         000000 7120000000                2           SX2         LP\n"},"range":{"end":{"character":24,"line":1},"start":{"character":22,"line":1}}}"#,
        ),
        // behind the character of four bytes
        (
            "hover",
            r#","position":{"line":1,"character":21}"#,
            r#"{"contents":{"kind":"plaintext","value":"         000000 7120000000                2           SX2         LP\n"}}"#,
        ),
    ],
};

/// An operation in small letters of a peripheral processor, a sign that stands for EQU, a letter that is the letter of a flag too, and a comment.
const OPERATIONS: Inquiry = Inquiry {
    begins: BY_UTF16,
    lines: &[
        "          PERIPH",
        "          ldn    N",
        "N         =      5",
        "E         MACRO",
        "          ENDM",
        "          E",
        "*         LDN",
    ],
    told: "[]",
    questions: &[
        (
            "hover",
            r#","position":{"line":1,"character":10}"#,
            r#"{"contents":{"kind":"plaintext","value":"An instruction of a peripheral processor: d, m, c and a target are expressions,\nm and c may be literals.\nLDN   d         12 bits  14dd        Load A with d\n         000000 1405                      2           ldn    N\n"}}"#,
        ),
        (
            "hover",
            r#","position":{"line":2,"character":10}"#,
            r#"{"contents":{"kind":"plaintext","value":"EQU, =\nOperands: one expression, now\nEffect: gives the location symbol its value\n                00000000000000000005      3 N         =      5\n"}}"#,
        ),
        // a call, of which the macro's row is shown
        (
            "hover",
            r#","position":{"line":5,"character":10}"#,
            r#"{"contents":{"kind":"plaintext","value":"                                          4 E         MACRO\n                                          6           E\n"},"range":{"end":{"character":11,"line":5},"start":{"character":10,"line":5}}}"#,
        ),
        (
            "hover",
            r#","position":{"line":6,"character":11}"#,
            r#"{"contents":{"kind":"plaintext","value":"                                          7 *         LDN\n"}}"#,
        ),
    ],
};

const ROWS: [Inquiry; 9] = [
    WORDS,
    OPERATIONS,
    COMMENT,
    EXPANSION,
    FLAGGED,
    FLAGGED_CALL,
    WRONG,
    UNITS,
    BYTES,
];

#[test]
fn shows_places(rt: HostRuntime) {
    for (at, row) in ROWS.iter().enumerate() {
        assert_answers(&rt, rt.alloc(), at, row);
    }
}

/// A hover by Markdown, and as plain text.
const FENCED: &[Question] = &[
    (
        "hover",
        r#","position":{"line":3,"character":8}"#,
        r#"{"contents":{"kind":"markdown","value":"```text\n         000100 7160000005                4 START     SX6    COUNT\n```"}}"#,
    ),
    // no such line
    ("hover", r#","position":{"line":10,"character":0}"#, "null"),
];

const UNFENCED: &[Question] = &[(
    "hover",
    r#","position":{"line":3,"character":8}"#,
    r#"{"contents":{"kind":"plaintext","value":"         000100 7160000005                4 START     SX6    COUNT\n"}}"#,
)];

/// The first known form that an editor takes counts.
const FORMS: [(Beginning, &[Question]); 5] = [
    ((INITIALIZE_MARKDOWN, UTF16), FENCED),
    ((INITIALIZE_UNKNOWN, UTF16), FENCED),
    ((INITIALIZE_PLAIN, UTF16), UNFENCED),
    ((INITIALIZE_NONE, UTF16), UNFENCED),
    ((INITIALIZE_WRONG, UTF16), UNFENCED),
];

#[test]
fn shows_as_editors_take_it(rt: HostRuntime) {
    for (at, (begins, questions)) in FORMS.iter().enumerate() {
        let inquiry = Inquiry {
            begins: *begins,
            lines: NAMES,
            told: "[]",
            questions: *questions,
        };
        assert_answers(&rt, rt.alloc(), at, &inquiry);
    }
}

/// A comment, and forty repetitions of it: the last one isn't shown.
const MORE: Inquiry = Inquiry {
    begins: BY_UTF16,
    lines: &["          DUP    40,1", "*"],
    told: "[]",
    questions: &[(
        "hover",
        r#","position":{"line":1,"character":1}"#,
        "{\"contents\":{\"kind\":\"plaintext\",\"value\":\"                                          2 *\
\\n                                          + *\
\\n                                          + *\
\\n                                          + *\
\\n                                          + *\
\\n                                          + *\
\\n                                          + *\
\\n                                          + *\
\\n                                          + *\
\\n                                          + *\
\\n                                          + *\
\\n                                          + *\
\\n                                          + *\
\\n                                          + *\
\\n                                          + *\
\\n                                          + *\
\\n                                          + *\
\\n                                          + *\
\\n                                          + *\
\\n                                          + *\
\\n                                          + *\
\\n                                          + *\
\\n                                          + *\
\\n                                          + *\
\\n                                          + *\
\\n                                          + *\
\\n                                          + *\
\\n                                          + *\
\\n                                          + *\
\\n                                          + *\
\\n                                          + *\
\\n                                          + *\
\\n                                          + *\
\\n                                          + *\
\\n                                          + *\
\\n                                          + *\
\\n                                          + *\
\\n                                          + *\
\\n                                          + *\
\\n                                          + *\
\\n..\\n\"}}",
    )],
};

/// And thirty-nine: all are shown.
const MOST: Inquiry = Inquiry {
    begins: BY_UTF16,
    lines: &["          DUP    39,1", "*"],
    told: "[]",
    questions: &[("hover", r#","position":{"line":1,"character":1}"#, "")],
};

#[test]
fn shows_forty_rows(rt: HostRuntime) {
    assert_answers(&rt, rt.alloc(), 0, &MORE);
    let end = "\\n                                          + *\\n\"}}}";
    assert_parts(&rt, rt.alloc(), &MOST, &[end], &["..\\n"]);
}

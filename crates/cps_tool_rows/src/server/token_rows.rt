//! What the words of texts are, as the assembler takes them. Five numbers tell a word: lines below the word before, units behind its start in the same
//! line or the line's start, its units, its kind, and modifiers. Kinds are 0 operation, 1 macro, 2 parameter or local name, 3 symbol, 4 block or program,
//! 5 register, 6 number, 7 text, 8 comment; modifiers 1 definition, 2 given by EQU.
use super::asking::{BY_UTF8, BY_UTF16, Inquiry, assert_answers};
use super::conversation::{ConversationRow, EXIT, INITIALIZE, UTF16, assert_row};
use super::decks::{NAMES, WIDE, WIDE_UTF8, WIDE_UTF16};

const FULL: &str = "textDocument/semanticTokens/full";

const RANGE: &str = "textDocument/semanticTokens/range";

/// A program, and parts of it: lines 3 to 5, its last line, none behind it, and none where a range ends before its start.
const PROGRAM: Inquiry = Inquiry {
    begins: BY_UTF16,
    lines: NAMES,
    told: "[]",
    questions: &[
        (
            FULL,
            "",
            "{\"data\":[\
0,10,5,0,0,0,7,5,4,1,\
1,10,3,0,0,\
1,10,3,0,0,0,7,4,6,0,\
1,0,5,3,1,0,10,3,0,0,0,7,5,3,2,\
1,10,3,0,0,0,7,6,3,0,\
1,10,2,0,0,0,7,2,5,0,0,3,5,3,0,\
1,10,2,0,0,\
1,0,5,3,3,0,10,3,0,0,0,7,1,6,0,\
1,0,6,3,1,0,10,3,0,0,0,7,1,6,0,\
1,10,3,0,0]}",
        ),
        (
            RANGE,
            r#","range":{"start":{"line":3,"character":9},"end":{"line":5,"character":0}}"#,
            "{\"data\":[\
3,0,5,3,1,0,10,3,0,0,0,7,5,3,2,\
1,10,3,0,0,0,7,6,3,0,\
1,10,2,0,0,0,7,2,5,0,0,3,5,3,0]}",
        ),
        (
            RANGE,
            r#","range":{"start":{"line":9,"character":0},"end":{"line":4294967295,"character":0}}"#,
            "{\"data\":[9,10,3,0,0]}",
        ),
        (
            RANGE,
            r#","range":{"start":{"line":10,"character":0},"end":{"line":12,"character":0}}"#,
            "{\"data\":[]}",
        ),
        (
            RANGE,
            r#","range":{"start":{"line":5,"character":0},"end":{"line":4,"character":0}}"#,
            "{\"data\":[]}",
        ),
    ],
};

/// A macro: its parameters stand in the comment of its body too, and parts that `_` joins are words of their own. No parameter stands in a line with `*`.
const MACROS: Inquiry = Inquiry {
    begins: BY_UTF16,
    lines: &[
        "ADDK      MACRO  R,K",
        "          SX_R   X_R+K  K IS PUT IN",
        "          ENDM   ADDK",
        "          ADDK   5,10B  FIVE",
        "          ADDK   (6),1",
        "*         K ALONE  ",
    ],
    told: "[]",
    questions: &[(
        FULL,
        "",
        "{\"data\":[\
0,0,4,1,1,0,10,5,0,0,0,7,1,2,1,0,2,1,2,1,\
1,13,1,2,0,0,6,1,2,0,0,2,1,2,0,0,3,1,2,0,0,1,10,8,0,\
1,10,4,0,0,0,7,4,8,0,\
1,10,4,1,0,0,7,1,6,0,0,2,3,6,0,0,5,4,8,0,\
1,10,4,1,0,0,8,1,6,0,0,3,1,6,0,\
1,0,17,8,0]}",
    )],
};

/// Registers and numbers in arguments, which go on behind a blank in parentheses.
const ARGUMENTS: Inquiry = Inquiry {
    begins: BY_UTF16,
    lines: &[
        "PUT       MACRO  P,Q",
        "          SX6    P",
        "          ENDM",
        "          PUT    X1+1,(A 2) NOTE",
    ],
    told: "[]",
    questions: &[(
        FULL,
        "",
        "{\"data\":[\
0,0,3,1,1,0,10,5,0,0,0,7,1,2,1,0,2,1,2,1,\
1,10,3,0,0,0,7,1,2,0,\
1,10,4,0,0,\
1,10,3,1,0,0,7,2,5,0,0,3,1,6,0,0,5,1,6,0,0,3,4,8,0]}",
    )],
};

/// A local name. In column 1 each call defines what it stands for.
const LOCALS: Inquiry = Inquiry {
    begins: BY_UTF16,
    lines: &[
        "W         MACRO",
        "          LOCAL  LP",
        "LP        EQ     LP",
        "          ENDM",
        "          W",
    ],
    told: "[]",
    questions: &[(
        FULL,
        "",
        "{\"data\":[\
0,0,1,1,1,0,10,5,0,0,\
1,10,5,0,0,0,7,2,2,1,\
1,0,2,2,1,0,10,2,0,0,0,7,2,2,0,\
1,10,4,0,0,\
1,10,1,1,0]}",
    )],
};

/// Texts with blanks and commas, numbers in fields, a block, a title, and operands that aren't read.
const TEXTS: Inquiry = Inquiry {
    begins: BY_UTF16,
    lines: &[
        "MSG       DIS    ,*HELLO, WORLD*  TOLD",
        "          DIS    2,TEN LETTERS",
        "          DATA   3LA,B,-100,H*C D* END",
        "          SA1    =3HA B  TEXT",
        "          VFD    12/MSG,48/-1",
        "          TITLE  THE END OF ALL",
        "          PS     STOPS HERE",
        "          USE    WORK",
        "          USE    0",
        "          SB1    B2-1",
        "          SPACE  4",
    ],
    told: "[]",
    questions: &[(
        FULL,
        "",
        "{\"data\":[\
0,0,3,3,1,0,10,3,0,0,0,8,14,7,0,0,16,4,8,0,\
1,10,3,0,0,0,7,1,6,0,0,2,11,7,0,\
1,10,4,0,0,0,7,5,7,0,0,7,3,6,0,0,4,6,7,0,0,7,3,8,0,\
1,10,3,0,0,0,7,6,7,0,0,8,4,8,0,\
1,10,3,0,0,0,7,2,6,0,0,3,3,3,0,0,4,2,6,0,0,4,1,6,0,\
1,10,5,0,0,0,7,14,7,0,\
1,10,2,0,0,0,7,10,8,0,\
1,10,3,0,0,0,7,4,4,1,\
1,10,3,0,0,0,7,1,6,0,\
1,10,3,0,0,0,7,2,5,0,0,3,1,6,0,\
1,10,5,0,0,0,7,1,8,0]}",
    )],
};

/// Column 73, a skipped line with a symbol that others mention, one that nothing mentions, an empty line, and columns behind all that a card has.
const PLACES: Inquiry = Inquiry {
    begins: BY_UTF16,
    lines: &[
        "          CON    1                                                      REMARK01",
        "N         SET    1",
        "          IFEQ   N,2,2",
        "          SX1    N",
        "          SX1    M",
        "",
        "          CON    N",
    ],
    told: "[]",
    questions: &[(
        FULL,
        "",
        "{\"data\":[\
0,10,3,0,0,0,7,1,6,0,0,55,8,8,0,\
1,0,1,3,1,0,10,3,0,0,0,7,1,6,0,\
1,10,4,0,0,0,7,1,3,0,0,2,1,6,0,0,2,1,6,0,\
1,10,3,0,0,0,7,1,3,0,\
1,10,3,0,0,\
2,10,3,0,0,0,7,1,3,0]}",
    )],
};

/// Words by units of UTF-16, and by bytes.
const UNITS: Inquiry = Inquiry {
    begins: BY_UTF16,
    lines: WIDE,
    told: WIDE_UTF16,
    questions: &[(
        FULL,
        "",
        "{\"data\":[0,0,2,3,1,0,10,3,0,0,0,7,1,6,0,0,2,1,8,0,1,10,3,0,0,0,9,2,3,0]}",
    )],
};

const BYTES: Inquiry = Inquiry {
    begins: BY_UTF8,
    lines: WIDE,
    told: WIDE_UTF8,
    questions: &[(
        FULL,
        "",
        "{\"data\":[0,0,2,3,1,0,10,3,0,0,0,7,1,6,0,0,2,2,8,0,1,10,3,0,0,0,12,2,3,0]}",
    )],
};

const ROWS: [Inquiry; 8] = [
    PROGRAM, MACROS, ARGUMENTS, LOCALS, TEXTS, PLACES, UNITS, BYTES,
];

#[test]
fn tells_what_words_are(rt: HostRuntime) {
    for (at, row) in ROWS.iter().enumerate() {
        assert_answers(&rt, rt.alloc(), at, row);
    }
}

/// No text of that name is open; a range that is none.
const REFUSED: ConversationRow = (
    &[
        INITIALIZE,
        r#"{"jsonrpc":"2.0","id":3,"method":"textDocument/semanticTokens/full","params":{"textDocument":{"uri":"a"}}}"#,
        r#"{"jsonrpc":"2.0","id":4,"method":"textDocument/semanticTokens/range","params":{"textDocument":{"uri":"a"}}}"#,
        EXIT,
    ],
    Ok(false),
    &[
        UTF16,
        r#"{"error":{"code":-32602,"message":"Invalid params"},"id":3,"jsonrpc":"2.0"}"#,
        r#"{"error":{"code":-32602,"message":"Invalid params"},"id":4,"jsonrpc":"2.0"}"#,
    ],
);

#[test]
fn refuses_words_of_no_text(rt: HostRuntime) {
    assert_row(&rt, rt.alloc(), 0, &REFUSED);
}

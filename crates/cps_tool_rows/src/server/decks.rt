//! Decks that an editor opens, each line as JSON has it.

/// A program with three symbols. `docs/TUTORIAL.md` has its listing and its symbols.
pub const NAMES: &[&str] = &[
    "          IDENT  NAMES",
    "          ABS",
    "          ORG    100B",
    "START     SX6    COUNT",
    "          SA6    ANSWER",
    "          NZ     X6,START",
    "          PS",
    "COUNT     EQU    5",
    "ANSWER    BSS    1",
    "          END",
];

/// A comment, small letters, a symbol within a longer one, and an empty line.
pub const LETTERS: &[&str] = &[
    "*         ADD one TO X6, NOT ONETOOMANY",
    "ONE       EQU    1",
    "          SX6    X6+One",
    "ONE1      SX5    ONE",
    "",
];

/// A call that defines two symbols. One of them is its argument.
pub const PAIR: &[&str] = &[
    "PAIR      MACRO  N",
    "N         BSS    1",
    "SECOND    BSS    1",
    "          ENDM",
    "          PAIR   FIRST  ",
    "          SA1    FIRST",
    "          SA2    SECOND",
];

/// A symbol to which two lines give a value.
pub const SETTINGS: &[&str] = &[
    "N         SET    1",
    "          SX1    N",
    "N         SET    N+1",
    "          SX2    N",
];

/// Characters of two and of four bytes, which are one and two units of UTF-16, in a comment field and in front of a symbol.
pub const WIDE: &[&str] = &[
    "LP        SX1    1 \u{E9}",
    "          SX2 \u{E9} \u{1D11E} LP",
];

/// What is told of it, by units of UTF-16.
pub const WIDE_UTF16: &str = "[\
{\"message\":\"'\u{E9}' (U+00E9) is no character of a line\",\"range\":{\"end\":{\"character\":20,\"line\":0},\"start\":{\"character\":19,\"line\":0}},\"severity\":1,\"source\":\"compass\"},\
{\"message\":\"'\u{E9}' (U+00E9) is no character of a line\",\"range\":{\"end\":{\"character\":15,\"line\":1},\"start\":{\"character\":14,\"line\":1}},\"severity\":1,\"source\":\"compass\"},\
{\"message\":\"'\u{1D11E}' (U+1D11E) is no character of a line\",\"range\":{\"end\":{\"character\":18,\"line\":1},\"start\":{\"character\":16,\"line\":1}},\"severity\":1,\"source\":\"compass\"}]";

/// The same by bytes.
pub const WIDE_UTF8: &str = "[\
{\"message\":\"'\u{E9}' (U+00E9) is no character of a line\",\"range\":{\"end\":{\"character\":21,\"line\":0},\"start\":{\"character\":19,\"line\":0}},\"severity\":1,\"source\":\"compass\"},\
{\"message\":\"'\u{E9}' (U+00E9) is no character of a line\",\"range\":{\"end\":{\"character\":16,\"line\":1},\"start\":{\"character\":14,\"line\":1}},\"severity\":1,\"source\":\"compass\"},\
{\"message\":\"'\u{1D11E}' (U+1D11E) is no character of a line\",\"range\":{\"end\":{\"character\":21,\"line\":1},\"start\":{\"character\":17,\"line\":1}},\"severity\":1,\"source\":\"compass\"}]";

/// No line defines Q, which stands in column 18.
pub const UNDEFINED: &[&str] = &["          SX1    Q"];

/// What is told of it.
pub const UNDEFINED_TOLD: &str =
    r#"[{"code":"U","message":"no line gives Q a value; it counts as 0","range":{"end":{"character":18,"line":0},"start":{"character":17,"line":0}},"severity":1,"source":"compass"}]"#;

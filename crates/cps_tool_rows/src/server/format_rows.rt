//! Fields that go into columns: the edits that do it, and lines that stay.
use super::conversation::{
    ConversationRow, EXIT, INITIALIZE, INITIALIZE_UTF8, UTF8, UTF16, assert_row,
};

/// Statements with fields in several columns. In the second line the comment is too long to move, and in the third it stands behind no operands.
const OPEN_STIRRED: &str =
    r#"{"jsonrpc":"2.0","method":"textDocument/didOpen","params":{"textDocument":{"uri":"a","languageId":"compass","text":"   SX1 N   ADD\n    SX2 N  .....................................................\n  PS                              DONE\n     DIS 1,A  B\nN EQU 5\n"}}}"#;

/// A macro that is called without an argument: there the comment of its body begins one column further to the left.
const OPEN_BODY: &str =
    r#"{"jsonrpc":"2.0","method":"textDocument/didOpen","params":{"textDocument":{"uri":"a","languageId":"compass","text":"M         MACRO  P\n  USE  P                      NOTE\n          ENDM\n          CON    1           ONE\n  M\n          CON    2\n          USE    0\n          CON    3\n"}}}"#;

/// Characters of two bytes, which are one unit of UTF-16, in a comment, and before an operand, where one counts as a blank.
const OPEN_WIDE: &str =
    r#"{"jsonrpc":"2.0","method":"textDocument/didOpen","params":{"textDocument":{"uri":"a","languageId":"compass","text":"  SX1 1 A\u00e9B\n   SX2 \u00e9   A NOTE\n    SX3 1\n"}}}"#;

/// No diagnostics.
const TOLD: &str =
    r#"{"jsonrpc":"2.0","method":"textDocument/publishDiagnostics","params":{"diagnostics":[],"uri":"a"}}"#;

/// Those of the wide characters, by units of UTF-16, and by bytes.
const WIDE_UTF16: &str =
    "{\"jsonrpc\":\"2.0\",\"method\":\"textDocument/publishDiagnostics\",\"params\":{\"diagnostics\":[\
{\"message\":\"'\u{E9}' (U+00E9) is no character of a line\",\"range\":{\"end\":{\"character\":10,\"line\":0},\"start\":{\"character\":9,\"line\":0}},\"severity\":1,\"source\":\"compass\"},\
{\"message\":\"'\u{E9}' (U+00E9) is no character of a line\",\"range\":{\"end\":{\"character\":8,\"line\":1},\"start\":{\"character\":7,\"line\":1}},\"severity\":1,\"source\":\"compass\"}],\"uri\":\"a\"}}";

const WIDE_UTF8: &str =
    "{\"jsonrpc\":\"2.0\",\"method\":\"textDocument/publishDiagnostics\",\"params\":{\"diagnostics\":[\
{\"message\":\"'\u{E9}' (U+00E9) is no character of a line\",\"range\":{\"end\":{\"character\":11,\"line\":0},\"start\":{\"character\":9,\"line\":0}},\"severity\":1,\"source\":\"compass\"},\
{\"message\":\"'\u{E9}' (U+00E9) is no character of a line\",\"range\":{\"end\":{\"character\":9,\"line\":1},\"start\":{\"character\":7,\"line\":1}},\"severity\":1,\"source\":\"compass\"}],\"uri\":\"a\"}}";

/// Conversations about columns.
const CONVERSATIONS: [ConversationRow; 4] = [
    // from the last line to the first; options aren't read; of a range only its lines
    (
        &[
            INITIALIZE,
            OPEN_STIRRED,
            r#"{"jsonrpc":"2.0","id":1,"method":"textDocument/formatting","params":{"textDocument":{"uri":"a"}}}"#,
            r#"{"jsonrpc":"2.0","id":2,"method":"textDocument/formatting","params":{"textDocument":{"uri":"a"},"options":{"tabSize":"wide"}}}"#,
            r#"{"jsonrpc":"2.0","id":3,"method":"textDocument/rangeFormatting","params":{"textDocument":{"uri":"a"},"range":{"start":{"line":0,"character":9},"end":{"line":3,"character":0}}}}"#,
            r#"{"jsonrpc":"2.0","id":4,"method":"textDocument/rangeFormatting","params":{"textDocument":{"uri":"a"},"range":{"start":{"line":3,"character":7},"end":{"line":3,"character":7}}}}"#,
            r#"{"jsonrpc":"2.0","id":5,"method":"textDocument/rangeFormatting","params":{"textDocument":{"uri":"a"},"range":{"start":{"line":0,"character":0}}}}"#,
            EXIT,
        ],
        Ok(false),
        &[
            UTF16,
            TOLD,
            r#"{"id":1,"jsonrpc":"2.0","result":[{"newText":"        EQU   ","range":{"end":{"character":5,"line":4},"start":{"character":2,"line":4}}},{"newText":"     DIS   ","range":{"end":{"character":8,"line":3},"start":{"character":5,"line":3}}},{"newText":"        PS","range":{"end":{"character":17,"line":2},"start":{"character":2,"line":2}}},{"newText":"       SX1    N        ","range":{"end":{"character":8,"line":0},"start":{"character":3,"line":0}}}]}"#,
            r#"{"id":2,"jsonrpc":"2.0","result":[{"newText":"        EQU   ","range":{"end":{"character":5,"line":4},"start":{"character":2,"line":4}}},{"newText":"     DIS   ","range":{"end":{"character":8,"line":3},"start":{"character":5,"line":3}}},{"newText":"        PS","range":{"end":{"character":17,"line":2},"start":{"character":2,"line":2}}},{"newText":"       SX1    N        ","range":{"end":{"character":8,"line":0},"start":{"character":3,"line":0}}}]}"#,
            r#"{"id":3,"jsonrpc":"2.0","result":[{"newText":"        PS","range":{"end":{"character":17,"line":2},"start":{"character":2,"line":2}}},{"newText":"       SX1    N        ","range":{"end":{"character":8,"line":0},"start":{"character":3,"line":0}}}]}"#,
            r#"{"id":4,"jsonrpc":"2.0","result":[{"newText":"     DIS   ","range":{"end":{"character":8,"line":3},"start":{"character":5,"line":3}}}]}"#,
            r#"{"error":{"code":-32602,"message":"Invalid params"},"id":5,"jsonrpc":"2.0"}"#,
        ],
    ),
    // the comment of the body would name a block
    (
        &[
            INITIALIZE,
            OPEN_BODY,
            r#"{"jsonrpc":"2.0","id":1,"method":"textDocument/formatting","params":{"textDocument":{"uri":"a"}}}"#,
            EXIT,
        ],
        Ok(false),
        &[
            UTF16,
            TOLD,
            r#"{"id":1,"jsonrpc":"2.0","result":[{"newText":"        ","range":{"end":{"character":2,"line":4},"start":{"character":2,"line":4}}}]}"#,
        ],
    ),
    // a line stays where such a character would give way
    (
        &[
            INITIALIZE,
            OPEN_WIDE,
            r#"{"jsonrpc":"2.0","id":1,"method":"textDocument/formatting","params":{"textDocument":{"uri":"a"}}}"#,
            EXIT,
        ],
        Ok(false),
        &[
            UTF16,
            WIDE_UTF16,
            r#"{"id":1,"jsonrpc":"2.0","result":[{"newText":"      SX3   ","range":{"end":{"character":7,"line":2},"start":{"character":4,"line":2}}},{"newText":"        SX1   ","range":{"end":{"character":5,"line":0},"start":{"character":2,"line":0}}}]}"#,
        ],
    ),
    (
        &[
            INITIALIZE_UTF8,
            OPEN_WIDE,
            r#"{"jsonrpc":"2.0","id":1,"method":"textDocument/formatting","params":{"textDocument":{"uri":"a"}}}"#,
            EXIT,
        ],
        Ok(false),
        &[
            UTF8,
            WIDE_UTF8,
            r#"{"id":1,"jsonrpc":"2.0","result":[{"newText":"      SX3   ","range":{"end":{"character":7,"line":2},"start":{"character":4,"line":2}}},{"newText":"        SX1   ","range":{"end":{"character":5,"line":0},"start":{"character":2,"line":0}}}]}"#,
        ],
    ),
];

#[test]
fn formats(rt: HostRuntime) {
    for (at, row) in CONVERSATIONS.iter().enumerate() {
        assert_row(&rt, rt.alloc(), at, row);
    }
}

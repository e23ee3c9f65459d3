//! Names that are called otherwise: the one at a place, the edits that do it, and words that say why it can't be done.
use super::conversation::{
    ConversationRow, EXIT, INITIALIZE, INITIALIZE_UTF8, UTF8, UTF16, assert_row,
};

/// A program with three symbols. `docs/TUTORIAL.md` has its listing.
const OPEN_NAMES: &str =
    r#"{"jsonrpc":"2.0","method":"textDocument/didOpen","params":{"textDocument":{"uri":"a","languageId":"compass","text":"          IDENT  NAMES\n          ABS\n          ORG    100B\nSTART     SX6    COUNT\n          SA6    ANSWER\n          NZ     X6,START\n          PS\nCOUNT     EQU    5\nANSWER    BSS    1\n          END\n"}}}"#;

/// A macro with a parameter, and a call.
const OPEN_PAIR: &str =
    r#"{"jsonrpc":"2.0","method":"textDocument/didOpen","params":{"textDocument":{"uri":"a","languageId":"compass","text":"PAIR      MACRO  N\nN         BSS    1\nSECOND    BSS    1\n          ENDM\n          PAIR   FIRST\n          SA1    FIRST\n          SA2    SECOND\n"}}}"#;

/// Characters of two and of four bytes, which are one and two units of UTF-16, in a comment field and in front of a symbol.
const OPEN_WIDE: &str =
    r#"{"jsonrpc":"2.0","method":"textDocument/didOpen","params":{"textDocument":{"uri":"a","languageId":"compass","text":"LP        SX1    1 \u00e9\n          SX2 \u00e9 \ud834\udd1e LP\n"}}}"#;

/// No diagnostics.
const TOLD: &str =
    r#"{"jsonrpc":"2.0","method":"textDocument/publishDiagnostics","params":{"diagnostics":[],"uri":"a"}}"#;

/// Those of the wide characters, by units of UTF-16, and by bytes.
const WIDE_UTF16: &str =
    "{\"jsonrpc\":\"2.0\",\"method\":\"textDocument/publishDiagnostics\",\"params\":{\"diagnostics\":[\
{\"message\":\"'\u{E9}' (U+00E9) is no character of a line\",\"range\":{\"end\":{\"character\":20,\"line\":0},\"start\":{\"character\":19,\"line\":0}},\"severity\":1,\"source\":\"compass\"},\
{\"message\":\"'\u{E9}' (U+00E9) is no character of a line\",\"range\":{\"end\":{\"character\":15,\"line\":1},\"start\":{\"character\":14,\"line\":1}},\"severity\":1,\"source\":\"compass\"},\
{\"message\":\"'\u{1D11E}' (U+1D11E) is no character of a line\",\"range\":{\"end\":{\"character\":18,\"line\":1},\"start\":{\"character\":16,\"line\":1}},\"severity\":1,\"source\":\"compass\"}],\"uri\":\"a\"}}";

const WIDE_UTF8: &str =
    "{\"jsonrpc\":\"2.0\",\"method\":\"textDocument/publishDiagnostics\",\"params\":{\"diagnostics\":[\
{\"message\":\"'\u{E9}' (U+00E9) is no character of a line\",\"range\":{\"end\":{\"character\":21,\"line\":0},\"start\":{\"character\":19,\"line\":0}},\"severity\":1,\"source\":\"compass\"},\
{\"message\":\"'\u{E9}' (U+00E9) is no character of a line\",\"range\":{\"end\":{\"character\":16,\"line\":1},\"start\":{\"character\":14,\"line\":1}},\"severity\":1,\"source\":\"compass\"},\
{\"message\":\"'\u{1D11E}' (U+1D11E) is no character of a line\",\"range\":{\"end\":{\"character\":21,\"line\":1},\"start\":{\"character\":17,\"line\":1}},\"severity\":1,\"source\":\"compass\"}],\"uri\":\"a\"}}";

/// Conversations about names.
const CONVERSATIONS: [ConversationRow; 4] = [
    // a symbol, from an operand behind it: the fields behind it stay; what is no name; and each refusal
    (
        &[
            INITIALIZE,
            OPEN_NAMES,
            r#"{"jsonrpc":"2.0","id":1,"method":"textDocument/prepareRename","params":{"textDocument":{"uri":"a"},"position":{"line":3,"character":22}}}"#,
            r#"{"jsonrpc":"2.0","id":2,"method":"textDocument/rename","params":{"textDocument":{"uri":"a"},"position":{"line":3,"character":22},"newName":"N"}}"#,
            r#"{"jsonrpc":"2.0","id":3,"method":"textDocument/rename","params":{"textDocument":{"uri":"a"},"position":{"line":7,"character":0},"newName":"number"}}"#,
            r#"{"jsonrpc":"2.0","id":4,"method":"textDocument/prepareRename","params":{"textDocument":{"uri":"a"},"position":{"line":1,"character":11}}}"#,
            r#"{"jsonrpc":"2.0","id":5,"method":"textDocument/prepareRename","params":{"textDocument":{"uri":"a"},"position":{"line":99,"character":0}}}"#,
            r#"{"jsonrpc":"2.0","id":6,"method":"textDocument/prepareRename","params":{"textDocument":{"uri":"a"},"position":{"line":0,"character":17}}}"#,
            r#"{"jsonrpc":"2.0","id":7,"method":"textDocument/rename","params":{"textDocument":{"uri":"a"},"position":{"line":1,"character":11},"newName":"N"}}"#,
            r#"{"jsonrpc":"2.0","id":8,"method":"textDocument/rename","params":{"textDocument":{"uri":"a"},"position":{"line":7,"character":0},"newName":"1A"}}"#,
            r#"{"jsonrpc":"2.0","id":9,"method":"textDocument/rename","params":{"textDocument":{"uri":"a"},"position":{"line":7,"character":0},"newName":"COUNT"}}"#,
            r#"{"jsonrpc":"2.0","id":10,"method":"textDocument/rename","params":{"textDocument":{"uri":"a"},"position":{"line":7,"character":0},"newName":"START"}}"#,
            EXIT,
        ],
        Ok(false),
        &[
            UTF16,
            TOLD,
            r#"{"id":1,"jsonrpc":"2.0","result":{"placeholder":"COUNT","range":{"end":{"character":22,"line":3},"start":{"character":17,"line":3}}}}"#,
            r#"{"id":2,"jsonrpc":"2.0","result":{"changes":{"a":[{"newText":"N    ","range":{"end":{"character":5,"line":7},"start":{"character":0,"line":7}}},{"newText":"N","range":{"end":{"character":22,"line":3},"start":{"character":17,"line":3}}}]}}}"#,
            r#"{"id":3,"jsonrpc":"2.0","result":{"changes":{"a":[{"newText":"number","range":{"end":{"character":6,"line":7},"start":{"character":0,"line":7}}},{"newText":"number","range":{"end":{"character":22,"line":3},"start":{"character":17,"line":3}}}]}}}"#,
            r#"{"error":{"code":-32803,"message":"no name stands here"},"id":4,"jsonrpc":"2.0"}"#,
            r#"{"error":{"code":-32803,"message":"no name stands here"},"id":5,"jsonrpc":"2.0"}"#,
            r#"{"error":{"code":-32803,"message":"it is the program's name"},"id":6,"jsonrpc":"2.0"}"#,
            r#"{"error":{"code":-32803,"message":"no name stands here"},"id":7,"jsonrpc":"2.0"}"#,
            r#"{"error":{"code":-32803,"message":"no name of this kind"},"id":8,"jsonrpc":"2.0"}"#,
            r#"{"error":{"code":-32803,"message":"it has this name"},"id":9,"jsonrpc":"2.0"}"#,
            r#"{"error":{"code":-32803,"message":"START is taken in line 4"},"id":10,"jsonrpc":"2.0"}"#,
        ],
    ),
    // a macro, and its parameter
    (
        &[
            INITIALIZE,
            OPEN_PAIR,
            r#"{"jsonrpc":"2.0","id":1,"method":"textDocument/rename","params":{"textDocument":{"uri":"a"},"position":{"line":4,"character":10},"newName":"PAIRUP"}}"#,
            r#"{"jsonrpc":"2.0","id":2,"method":"textDocument/rename","params":{"textDocument":{"uri":"a"},"position":{"line":1,"character":0},"newName":"WHERE"}}"#,
            r#"{"jsonrpc":"2.0","id":3,"method":"textDocument/rename","params":{"textDocument":{"uri":"a"},"position":{"line":0,"character":2},"newName":"SA1"}}"#,
            EXIT,
        ],
        Ok(false),
        &[
            UTF16,
            TOLD,
            r#"{"id":1,"jsonrpc":"2.0","result":{"changes":{"a":[{"newText":"UP","range":{"end":{"character":16,"line":4},"start":{"character":14,"line":4}}},{"newText":"UP","range":{"end":{"character":6,"line":0},"start":{"character":4,"line":0}}}]}}}"#,
            r#"{"id":2,"jsonrpc":"2.0","result":{"changes":{"a":[{"newText":"WHERE","range":{"end":{"character":5,"line":1},"start":{"character":0,"line":1}}},{"newText":"WHERE","range":{"end":{"character":18,"line":0},"start":{"character":17,"line":0}}}]}}}"#,
            r#"{"error":{"code":-32803,"message":"SA1 is an operation"},"id":3,"jsonrpc":"2.0"}"#,
        ],
    ),
    // places by units of UTF-16
    (
        &[
            INITIALIZE,
            OPEN_WIDE,
            r#"{"jsonrpc":"2.0","id":1,"method":"textDocument/prepareRename","params":{"textDocument":{"uri":"a"},"position":{"line":1,"character":19}}}"#,
            r#"{"jsonrpc":"2.0","id":2,"method":"textDocument/rename","params":{"textDocument":{"uri":"a"},"position":{"line":1,"character":19},"newName":"LOOP"}}"#,
            EXIT,
        ],
        Ok(false),
        &[
            UTF16,
            WIDE_UTF16,
            r#"{"id":1,"jsonrpc":"2.0","result":{"placeholder":"LP","range":{"end":{"character":21,"line":1},"start":{"character":19,"line":1}}}}"#,
            r#"{"id":2,"jsonrpc":"2.0","result":{"changes":{"a":[{"newText":"OO","range":{"end":{"character":20,"line":1},"start":{"character":20,"line":1}}},{"newText":"OOP","range":{"end":{"character":4,"line":0},"start":{"character":1,"line":0}}}]}}}"#,
        ],
    ),
    // places by bytes
    (
        &[
            INITIALIZE_UTF8,
            OPEN_WIDE,
            r#"{"jsonrpc":"2.0","id":1,"method":"textDocument/rename","params":{"textDocument":{"uri":"a"},"position":{"line":1,"character":22},"newName":"LOOP"}}"#,
            EXIT,
        ],
        Ok(false),
        &[
            UTF8,
            WIDE_UTF8,
            r#"{"id":1,"jsonrpc":"2.0","result":{"changes":{"a":[{"newText":"OO","range":{"end":{"character":23,"line":1},"start":{"character":23,"line":1}}},{"newText":"OOP","range":{"end":{"character":4,"line":0},"start":{"character":1,"line":0}}}]}}}"#,
        ],
    ),
];

#[test]
fn renames(rt: HostRuntime) {
    for (at, row) in CONVERSATIONS.iter().enumerate() {
        assert_row(&rt, rt.alloc(), at, row);
    }
}

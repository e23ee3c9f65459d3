//! Requests about texts that are refused: before `initialize`, behind `shutdown`, about a text that isn't open, or with wrong parameters; and which of two texts, and which state of one, is asked about.
use super::conversation::{
    ConversationRow, EXIT, INITIALIZE, SHUTDOWN, SHUTDOWN_SAID, UTF16, assert_row,
};

/// Two texts. Each defines L.
const OPEN_A: &str =
    r#"{"jsonrpc":"2.0","method":"textDocument/didOpen","params":{"textDocument":{"uri":"a","languageId":"compass","text":"L         CON    1\n"}}}"#;

const OPEN_B: &str =
    r#"{"jsonrpc":"2.0","method":"textDocument/didOpen","params":{"textDocument":{"uri":"b\"\u00e9","languageId":"compass","text":"*\nL         EQU    2"}}}"#;

/// Nothing reads L.
const TOLD_A: &str =
    r#"{"jsonrpc":"2.0","method":"textDocument/publishDiagnostics","params":{"diagnostics":[{"message":"nothing reads L","range":{"end":{"character":1,"line":0},"start":{"character":0,"line":0}},"severity":4,"source":"compass"}],"uri":"a"}}"#;

/// Nothing: that text is closed, or a line reads L.
const NOTHING_TOLD_A: &str =
    r#"{"jsonrpc":"2.0","method":"textDocument/publishDiagnostics","params":{"diagnostics":[],"uri":"a"}}"#;

const TOLD_B: &str =
    "{\"jsonrpc\":\"2.0\",\"method\":\"textDocument/publishDiagnostics\",\"params\":{\"diagnostics\":[{\"message\":\"nothing reads L\",\"range\":{\"end\":{\"character\":1,\"line\":1},\"start\":{\"character\":0,\"line\":1}},\"severity\":4,\"source\":\"compass\"}],\"uri\":\"b\\\"\u{E9}\"}}";

/// The requests about the first one.
const HOVER: &str =
    r#"{"jsonrpc":"2.0","id":11,"method":"textDocument/hover","params":{"textDocument":{"uri":"a"},"position":{"line":0,"character":0}}}"#;

const DEFINITION: &str =
    r#"{"jsonrpc":"2.0","id":12,"method":"textDocument/definition","params":{"textDocument":{"uri":"a"},"position":{"line":0,"character":0}}}"#;

const REFERENCES: &str =
    r#"{"jsonrpc":"2.0","id":13,"method":"textDocument/references","params":{"textDocument":{"uri":"a"},"position":{"line":0,"character":0},"context":{"includeDeclaration":true}}}"#;

const OUTLINE: &str =
    r#"{"jsonrpc":"2.0","id":14,"method":"textDocument/documentSymbol","params":{"textDocument":{"uri":"a"}}}"#;

const HINTS: &str =
    r#"{"jsonrpc":"2.0","id":15,"method":"textDocument/inlayHint","params":{"textDocument":{"uri":"a"},"range":{"start":{"line":0,"character":0},"end":{"line":9,"character":0}}}}"#;

const COMPLETION: &str =
    r#"{"jsonrpc":"2.0","id":16,"method":"textDocument/completion","params":{"textDocument":{"uri":"a"},"position":{"line":0,"character":0}}}"#;

const PREPARE: &str =
    r#"{"jsonrpc":"2.0","id":17,"method":"textDocument/prepareRename","params":{"textDocument":{"uri":"a"},"position":{"line":0,"character":0}}}"#;

const RENAME: &str =
    r#"{"jsonrpc":"2.0","id":18,"method":"textDocument/rename","params":{"textDocument":{"uri":"a"},"position":{"line":0,"character":0},"newName":"M"}}"#;

/// Conversations with requests that are refused.
const REFUSALS: [ConversationRow; 4] = [
    // before `initialize`, though the text was sent
    (
        &[
            OPEN_A, HOVER, DEFINITION, REFERENCES, OUTLINE, HINTS, COMPLETION, PREPARE, RENAME,
            EXIT,
        ],
        Ok(false),
        &[
            r#"{"error":{"code":-32002,"message":"Server not initialized"},"id":11,"jsonrpc":"2.0"}"#,
            r#"{"error":{"code":-32002,"message":"Server not initialized"},"id":12,"jsonrpc":"2.0"}"#,
            r#"{"error":{"code":-32002,"message":"Server not initialized"},"id":13,"jsonrpc":"2.0"}"#,
            r#"{"error":{"code":-32002,"message":"Server not initialized"},"id":14,"jsonrpc":"2.0"}"#,
            r#"{"error":{"code":-32002,"message":"Server not initialized"},"id":15,"jsonrpc":"2.0"}"#,
            r#"{"error":{"code":-32002,"message":"Server not initialized"},"id":16,"jsonrpc":"2.0"}"#,
            r#"{"error":{"code":-32002,"message":"Server not initialized"},"id":17,"jsonrpc":"2.0"}"#,
            r#"{"error":{"code":-32002,"message":"Server not initialized"},"id":18,"jsonrpc":"2.0"}"#,
        ],
    ),
    // behind `shutdown`, though the text is open
    (
        &[
            INITIALIZE, OPEN_A, SHUTDOWN, HOVER, DEFINITION, REFERENCES, OUTLINE, HINTS,
            COMPLETION, PREPARE, RENAME, EXIT,
        ],
        Ok(true),
        &[
            UTF16,
            TOLD_A,
            SHUTDOWN_SAID,
            r#"{"error":{"code":-32600,"message":"Invalid Request"},"id":11,"jsonrpc":"2.0"}"#,
            r#"{"error":{"code":-32600,"message":"Invalid Request"},"id":12,"jsonrpc":"2.0"}"#,
            r#"{"error":{"code":-32600,"message":"Invalid Request"},"id":13,"jsonrpc":"2.0"}"#,
            r#"{"error":{"code":-32600,"message":"Invalid Request"},"id":14,"jsonrpc":"2.0"}"#,
            r#"{"error":{"code":-32600,"message":"Invalid Request"},"id":15,"jsonrpc":"2.0"}"#,
            r#"{"error":{"code":-32600,"message":"Invalid Request"},"id":16,"jsonrpc":"2.0"}"#,
            r#"{"error":{"code":-32600,"message":"Invalid Request"},"id":17,"jsonrpc":"2.0"}"#,
            r#"{"error":{"code":-32600,"message":"Invalid Request"},"id":18,"jsonrpc":"2.0"}"#,
        ],
    ),
    // another text is open, and this one was closed
    (
        &[
            INITIALIZE,
            OPEN_A,
            OPEN_B,
            r#"{"jsonrpc":"2.0","method":"textDocument/didClose","params":{"textDocument":{"uri":"a"}}}"#,
            HOVER,
            DEFINITION,
            REFERENCES,
            OUTLINE,
            HINTS,
            COMPLETION,
            PREPARE,
            RENAME,
            EXIT,
        ],
        Ok(false),
        &[
            UTF16,
            TOLD_A,
            TOLD_B,
            NOTHING_TOLD_A,
            r#"{"error":{"code":-32602,"message":"Invalid params"},"id":11,"jsonrpc":"2.0"}"#,
            r#"{"error":{"code":-32602,"message":"Invalid params"},"id":12,"jsonrpc":"2.0"}"#,
            r#"{"error":{"code":-32602,"message":"Invalid params"},"id":13,"jsonrpc":"2.0"}"#,
            r#"{"error":{"code":-32602,"message":"Invalid params"},"id":14,"jsonrpc":"2.0"}"#,
            r#"{"error":{"code":-32602,"message":"Invalid params"},"id":15,"jsonrpc":"2.0"}"#,
            r#"{"error":{"code":-32602,"message":"Invalid params"},"id":16,"jsonrpc":"2.0"}"#,
            r#"{"error":{"code":-32602,"message":"Invalid params"},"id":17,"jsonrpc":"2.0"}"#,
            r#"{"error":{"code":-32602,"message":"Invalid params"},"id":18,"jsonrpc":"2.0"}"#,
        ],
    ),
    // an identifier that is a text, no parameters, no URI or one that is none, no position or one that is none, no range or one that is none, no new name or one that is none
    (
        &[
            INITIALIZE,
            OPEN_A,
            r#"{"jsonrpc":"2.0","id":"h","method":"textDocument/hover"}"#,
            r#"{"jsonrpc":"2.0","id":20,"method":"textDocument/hover","params":{"position":{"line":0,"character":0}}}"#,
            r#"{"jsonrpc":"2.0","id":21,"method":"textDocument/hover","params":{"textDocument":{"uri":"a"}}}"#,
            r#"{"jsonrpc":"2.0","id":22,"method":"textDocument/definition","params":{"textDocument":{"uri":"a"},"position":{"line":-1,"character":0}}}"#,
            r#"{"jsonrpc":"2.0","id":23,"method":"textDocument/references","params":{"textDocument":{"uri":"a"},"position":{"line":4294967296,"character":0},"context":{"includeDeclaration":true}}}"#,
            r#"{"jsonrpc":"2.0","id":24,"method":"textDocument/documentSymbol","params":{"textDocument":{"uri":5}}}"#,
            r#"{"jsonrpc":"2.0","id":25,"method":"textDocument/inlayHint","params":{"textDocument":{"uri":"a"},"position":{"line":0,"character":0}}}"#,
            r#"{"jsonrpc":"2.0","id":26,"method":"textDocument/inlayHint","params":{"textDocument":{"uri":"a"},"range":{"start":{"line":0,"character":0}}}}"#,
            r#"{"jsonrpc":"2.0","id":27,"method":"textDocument/completion","params":[]}"#,
            r#"{"jsonrpc":"2.0","id":29,"method":"textDocument/completion","params":{"textDocument":{"uri":"a"}}}"#,
            r#"{"jsonrpc":"2.0","id":28,"method":"compass/rows","params":{"textDocument":{"uri":"a"},"position":{"line":0,"character":0}}}"#,
            r#"{"jsonrpc":"2.0","id":34,"method":"textDocument/prepareRename","params":{"textDocument":{"uri":"a"},"newName":"M"}}"#,
            r#"{"jsonrpc":"2.0","id":35,"method":"textDocument/rename","params":{"textDocument":{"uri":"a"},"position":{"line":0,"character":0}}}"#,
            r#"{"jsonrpc":"2.0","id":36,"method":"textDocument/rename","params":{"textDocument":{"uri":"a"},"position":{"line":0,"character":0},"newName":5}}"#,
            r#"{"jsonrpc":"2.0","id":37,"method":"textDocument/rename","params":{"textDocument":{"uri":"a"},"newName":"M"}}"#,
            EXIT,
        ],
        Ok(false),
        &[
            UTF16,
            TOLD_A,
            r#"{"error":{"code":-32602,"message":"Invalid params"},"id":"h","jsonrpc":"2.0"}"#,
            r#"{"error":{"code":-32602,"message":"Invalid params"},"id":20,"jsonrpc":"2.0"}"#,
            r#"{"error":{"code":-32602,"message":"Invalid params"},"id":21,"jsonrpc":"2.0"}"#,
            r#"{"error":{"code":-32602,"message":"Invalid params"},"id":22,"jsonrpc":"2.0"}"#,
            r#"{"error":{"code":-32602,"message":"Invalid params"},"id":23,"jsonrpc":"2.0"}"#,
            r#"{"error":{"code":-32602,"message":"Invalid params"},"id":24,"jsonrpc":"2.0"}"#,
            r#"{"error":{"code":-32602,"message":"Invalid params"},"id":25,"jsonrpc":"2.0"}"#,
            r#"{"error":{"code":-32602,"message":"Invalid params"},"id":26,"jsonrpc":"2.0"}"#,
            r#"{"error":{"code":-32602,"message":"Invalid params"},"id":27,"jsonrpc":"2.0"}"#,
            r#"{"error":{"code":-32602,"message":"Invalid params"},"id":29,"jsonrpc":"2.0"}"#,
            r#"{"error":{"code":-32602,"message":"Invalid params"},"id":28,"jsonrpc":"2.0"}"#,
            r#"{"error":{"code":-32602,"message":"Invalid params"},"id":34,"jsonrpc":"2.0"}"#,
            r#"{"error":{"code":-32602,"message":"Invalid params"},"id":35,"jsonrpc":"2.0"}"#,
            r#"{"error":{"code":-32602,"message":"Invalid params"},"id":36,"jsonrpc":"2.0"}"#,
            r#"{"error":{"code":-32602,"message":"Invalid params"},"id":37,"jsonrpc":"2.0"}"#,
        ],
    ),
];

#[test]
fn refuses_requests(rt: HostRuntime) {
    for (at, row) in REFUSALS.iter().enumerate() {
        assert_row(&rt, rt.alloc(), at, row);
    }
}

/// Conversations about two texts, and about a text before a change and behind it, which is told too: no line has a flag.
const STATES: [ConversationRow; 2] = [
    (
        &[
            INITIALIZE,
            OPEN_A,
            OPEN_B,
            HOVER,
            r#"{"jsonrpc":"2.0","id":31,"method":"textDocument/definition","params":{"textDocument":{"uri":"b\"\u00e9"},"position":{"line":1,"character":1}}}"#,
            r#"{"jsonrpc":"2.0","id":32,"method":"textDocument/references","params":{"textDocument":{"uri":"b\"\u00e9"},"position":{"line":1,"character":0},"context":{"includeDeclaration":true}}}"#,
            EXIT,
        ],
        Ok(false),
        &[
            UTF16,
            TOLD_A,
            TOLD_B,
            r#"{"id":11,"jsonrpc":"2.0","result":{"contents":{"kind":"plaintext","value":"L        00000000000000000000 1\n         000000 00000000000000000001      1 L         CON    1\n"},"range":{"end":{"character":1,"line":0},"start":{"character":0,"line":0}}}}"#,
            "{\"id\":31,\"jsonrpc\":\"2.0\",\"result\":[{\"range\":{\"end\":{\"character\":1,\"line\":1},\"start\":{\"character\":0,\"line\":1}},\"uri\":\"b\\\"\u{E9}\"}]}",
            "{\"id\":32,\"jsonrpc\":\"2.0\",\"result\":[{\"range\":{\"end\":{\"character\":1,\"line\":1},\"start\":{\"character\":0,\"line\":1}},\"uri\":\"b\\\"\u{E9}\"}]}",
        ],
    ),
    (
        &[
            INITIALIZE,
            OPEN_A,
            HOVER,
            HINTS,
            r#"{"jsonrpc":"2.0","method":"textDocument/didChange","params":{"textDocument":{"uri":"a"},"contentChanges":[{"range":{"start":{"line":0,"character":0},"end":{"line":0,"character":1}},"text":"          CON    L\nL        "}]}}"#,
            HOVER,
            HINTS,
            REFERENCES,
            r#"{"jsonrpc":"2.0","id":33,"method":"textDocument/references","params":{"textDocument":{"uri":"a"},"position":{"line":1,"character":1},"context":{"includeDeclaration":true}}}"#,
            OUTLINE,
            EXIT,
        ],
        Ok(false),
        &[
            UTF16,
            TOLD_A,
            r#"{"id":11,"jsonrpc":"2.0","result":{"contents":{"kind":"plaintext","value":"L        00000000000000000000 1\n         000000 00000000000000000001      1 L         CON    1\n"},"range":{"end":{"character":1,"line":0},"start":{"character":0,"line":0}}}}"#,
            r#"{"id":15,"jsonrpc":"2.0","result":[{"label":"000000 00000000000000000001","paddingLeft":true,"position":{"character":18,"line":0}}]}"#,
            NOTHING_TOLD_A,
            r#"{"id":11,"jsonrpc":"2.0","result":{"contents":{"kind":"plaintext","value":"         000000 00000000000000000001      1           CON    L\n"}}}"#,
            r#"{"id":15,"jsonrpc":"2.0","result":[{"label":"000000 00000000000000000001","paddingLeft":true,"position":{"character":18,"line":0}},{"label":"000001 00000000000000000001","paddingLeft":true,"position":{"character":26,"line":1}}]}"#,
            r#"{"id":13,"jsonrpc":"2.0","result":[]}"#,
            r#"{"id":33,"jsonrpc":"2.0","result":[{"range":{"end":{"character":18,"line":0},"start":{"character":17,"line":0}},"uri":"a"},{"range":{"end":{"character":1,"line":1},"start":{"character":0,"line":1}},"uri":"a"}]}"#,
            r#"{"id":14,"jsonrpc":"2.0","result":[{"detail":"00000000000000000001","kind":14,"name":"L","range":{"end":{"character":26,"line":1},"start":{"character":0,"line":1}},"selectionRange":{"end":{"character":1,"line":1},"start":{"character":0,"line":1}}}]}"#,
        ],
    ),
];

#[test]
fn asks_about_texts(rt: HostRuntime) {
    for (at, row) in STATES.iter().enumerate() {
        assert_row(&rt, rt.alloc(), at, row);
    }
}

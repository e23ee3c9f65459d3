//! What is told of open texts: a diagnostic for each flag, and for each byte that no line may have.
use super::conversation::{
    ConversationRow, EXIT, INITIALIZE, INITIALIZE_UTF8, SHUTDOWN, SHUTDOWN_SAID, UTF8, UTF16,
    assert_row,
};

/// A text of one line: no line defines Q, which stands in column 19.
const OPEN: &str =
    "{\"jsonrpc\":\"2.0\",\"method\":\"textDocument/didOpen\",\"params\":{\"textDocument\":{\"uri\":\"a\",\"version\":1,\"languageId\":\"compass\",\"text\":\"          SX1     Q\\n\"}}}";

/// What is told of it.
const FLAGGED: &str =
    "{\"jsonrpc\":\"2.0\",\"method\":\"textDocument/publishDiagnostics\",\"params\":{\"diagnostics\":[{\"code\":\"U\",\"message\":\"no line gives Q a value; it counts as 0\",\"range\":{\"end\":{\"character\":19,\"line\":0},\"start\":{\"character\":18,\"line\":0}},\"severity\":1,\"source\":\"compass\"}],\"uri\":\"a\",\"version\":1}}";

const CLOSE: &str =
    "{\"jsonrpc\":\"2.0\",\"method\":\"textDocument/didClose\",\"params\":{\"textDocument\":{\"uri\":\"a\"}}}";

const CLOSED: &str =
    "{\"jsonrpc\":\"2.0\",\"method\":\"textDocument/publishDiagnostics\",\"params\":{\"diagnostics\":[],\"uri\":\"a\"}}";

/// Conversations about texts.
const CONVERSATIONS: [ConversationRow; 10] = [
    // opened before `initialize` and behind `shutdown`: nothing is told, and no text is open
    (
        &[OPEN, INITIALIZE, CLOSE, SHUTDOWN, OPEN, CLOSE, EXIT],
        Ok(true),
        &[UTF16, SHUTDOWN_SAID],
    ),
    // a change mends the line; a wrong change beside a right one makes none; two changes are told once, the second behind the first; a new text
    (
        &[
            INITIALIZE,
            OPEN,
            "{\"jsonrpc\":\"2.0\",\"method\":\"textDocument/didChange\",\"params\":{\"textDocument\":{\"uri\":\"a\",\"version\":2},\"contentChanges\":[{\"range\":{\"start\":{\"line\":0,\"character\":18},\"end\":{\"line\":0,\"character\":19}},\"text\":\"7\"}]}}",
            "{\"jsonrpc\":\"2.0\",\"method\":\"textDocument/didChange\",\"params\":{\"textDocument\":{\"uri\":\"a\",\"version\":3},\"contentChanges\":[{\"range\":{\"start\":{\"line\":0,\"character\":18},\"end\":{\"line\":0,\"character\":19}},\"text\":\"Q\"},{\"text\":3}]}}",
            "{\"jsonrpc\":\"2.0\",\"method\":\"textDocument/didChange\",\"params\":{\"textDocument\":{\"uri\":\"a\",\"version\":4},\"contentChanges\":[{\"range\":{\"start\":{\"line\":0,\"character\":19},\"end\":{\"line\":0,\"character\":19}},\"text\":\"+Q\"},{\"range\":{\"start\":{\"line\":1,\"character\":0},\"end\":{\"line\":1,\"character\":0}},\"text\":\"          CON     R\\n\"}]}}",
            "{\"jsonrpc\":\"2.0\",\"method\":\"textDocument/didChange\",\"params\":{\"textDocument\":{\"uri\":\"a\"},\"contentChanges\":[{\"range\":{\"start\":{\"line\":1,\"character\":18},\"end\":{\"line\":1,\"character\":19}},\"text\":\"1\"},{\"range\":{\"start\":{\"line\":0,\"character\":19},\"end\":{\"line\":0,\"character\":21}},\"text\":\"\"}]}}",
            "{\"jsonrpc\":\"2.0\",\"method\":\"textDocument/didChange\",\"params\":{\"textDocument\":{\"uri\":\"a\",\"version\":6},\"contentChanges\":[{\"text\":\"          SX1     B\"}]}}",
            EXIT,
        ],
        Ok(false),
        &[
            UTF16,
            FLAGGED,
            "{\"jsonrpc\":\"2.0\",\"method\":\"textDocument/publishDiagnostics\",\"params\":{\"diagnostics\":[],\"uri\":\"a\",\"version\":2}}",
            "{\"jsonrpc\":\"2.0\",\"method\":\"textDocument/publishDiagnostics\",\"params\":{\"diagnostics\":[{\"code\":\"U\",\"message\":\"no line gives Q a value; it counts as 0\",\"range\":{\"end\":{\"character\":21,\"line\":0},\"start\":{\"character\":20,\"line\":0}},\"severity\":1,\"source\":\"compass\"},{\"code\":\"U\",\"message\":\"no line gives R a value; it counts as 0\",\"range\":{\"end\":{\"character\":19,\"line\":1},\"start\":{\"character\":18,\"line\":1}},\"severity\":1,\"source\":\"compass\"}],\"uri\":\"a\",\"version\":4}}",
            "{\"jsonrpc\":\"2.0\",\"method\":\"textDocument/publishDiagnostics\",\"params\":{\"diagnostics\":[],\"uri\":\"a\"}}",
            "{\"jsonrpc\":\"2.0\",\"method\":\"textDocument/publishDiagnostics\",\"params\":{\"diagnostics\":[{\"code\":\"U\",\"message\":\"no line gives B a value; it counts as 0\",\"range\":{\"end\":{\"character\":19,\"line\":0},\"start\":{\"character\":18,\"line\":0}},\"severity\":1,\"source\":\"compass\"}],\"uri\":\"a\",\"version\":6}}",
        ],
    ),
    // each change is told with its version: one behind the operand, where the flag stays; one that moves it, one that mends it, and a line without a flag; a
    // text that is opened again is told as at first, and so is its own text in its place
    (
        &[
            INITIALIZE,
            OPEN,
            "{\"jsonrpc\":\"2.0\",\"method\":\"textDocument/didChange\",\"params\":{\"textDocument\":{\"uri\":\"a\",\"version\":2},\"contentChanges\":[{\"range\":{\"start\":{\"line\":0,\"character\":19},\"end\":{\"line\":0,\"character\":19}},\"text\":\" NOTE\"}]}}",
            "{\"jsonrpc\":\"2.0\",\"method\":\"textDocument/didChange\",\"params\":{\"textDocument\":{\"uri\":\"a\",\"version\":3},\"contentChanges\":[{\"range\":{\"start\":{\"line\":0,\"character\":0},\"end\":{\"line\":0,\"character\":0}},\"text\":\"*\\n\"}]}}",
            "{\"jsonrpc\":\"2.0\",\"method\":\"textDocument/didChange\",\"params\":{\"textDocument\":{\"uri\":\"a\",\"version\":4},\"contentChanges\":[{\"range\":{\"start\":{\"line\":1,\"character\":18},\"end\":{\"line\":1,\"character\":19}},\"text\":\"7\"}]}}",
            "{\"jsonrpc\":\"2.0\",\"method\":\"textDocument/didChange\",\"params\":{\"textDocument\":{\"uri\":\"a\",\"version\":5},\"contentChanges\":[{\"range\":{\"start\":{\"line\":0,\"character\":1},\"end\":{\"line\":0,\"character\":1}},\"text\":\" ONE\\n          CON     1\"}]}}",
            OPEN,
            "{\"jsonrpc\":\"2.0\",\"method\":\"textDocument/didChange\",\"params\":{\"textDocument\":{\"uri\":\"a\",\"version\":2},\"contentChanges\":[{\"text\":\"          SX1     Q\\n\"}]}}",
            EXIT,
        ],
        Ok(false),
        &[
            UTF16,
            FLAGGED,
            "{\"jsonrpc\":\"2.0\",\"method\":\"textDocument/publishDiagnostics\",\"params\":{\"diagnostics\":[{\"code\":\"U\",\"message\":\"no line gives Q a value; it counts as 0\",\"range\":{\"end\":{\"character\":19,\"line\":0},\"start\":{\"character\":18,\"line\":0}},\"severity\":1,\"source\":\"compass\"}],\"uri\":\"a\",\"version\":2}}",
            "{\"jsonrpc\":\"2.0\",\"method\":\"textDocument/publishDiagnostics\",\"params\":{\"diagnostics\":[{\"code\":\"U\",\"message\":\"no line gives Q a value; it counts as 0\",\"range\":{\"end\":{\"character\":19,\"line\":1},\"start\":{\"character\":18,\"line\":1}},\"severity\":1,\"source\":\"compass\"}],\"uri\":\"a\",\"version\":3}}",
            "{\"jsonrpc\":\"2.0\",\"method\":\"textDocument/publishDiagnostics\",\"params\":{\"diagnostics\":[],\"uri\":\"a\",\"version\":4}}",
            "{\"jsonrpc\":\"2.0\",\"method\":\"textDocument/publishDiagnostics\",\"params\":{\"diagnostics\":[],\"uri\":\"a\",\"version\":5}}",
            FLAGGED,
            "{\"jsonrpc\":\"2.0\",\"method\":\"textDocument/publishDiagnostics\",\"params\":{\"diagnostics\":[{\"code\":\"U\",\"message\":\"no line gives Q a value; it counts as 0\",\"range\":{\"end\":{\"character\":19,\"line\":0},\"start\":{\"character\":18,\"line\":0}},\"severity\":1,\"source\":\"compass\"}],\"uri\":\"a\",\"version\":2}}",
        ],
    ),
    // what is told of a line follows what others define: one below sets its symbol, and then another one
    (
        &[
            INITIALIZE,
            "{\"jsonrpc\":\"2.0\",\"method\":\"textDocument/didOpen\",\"params\":{\"textDocument\":{\"uri\":\"a\",\"languageId\":\"compass\",\"text\":\"          SX1     Q\\n*\\n\"}}}",
            "{\"jsonrpc\":\"2.0\",\"method\":\"textDocument/didChange\",\"params\":{\"textDocument\":{\"uri\":\"a\"},\"contentChanges\":[{\"range\":{\"start\":{\"line\":1,\"character\":0},\"end\":{\"line\":1,\"character\":1}},\"text\":\"Q         SET     1\"}]}}",
            "{\"jsonrpc\":\"2.0\",\"method\":\"textDocument/didChange\",\"params\":{\"textDocument\":{\"uri\":\"a\"},\"contentChanges\":[{\"range\":{\"start\":{\"line\":1,\"character\":0},\"end\":{\"line\":1,\"character\":1}},\"text\":\"R\"}]}}",
            EXIT,
        ],
        Ok(false),
        &[
            UTF16,
            "{\"jsonrpc\":\"2.0\",\"method\":\"textDocument/publishDiagnostics\",\"params\":{\"diagnostics\":[{\"code\":\"U\",\"message\":\"no line gives Q a value; it counts as 0\",\"range\":{\"end\":{\"character\":19,\"line\":0},\"start\":{\"character\":18,\"line\":0}},\"severity\":1,\"source\":\"compass\"}],\"uri\":\"a\"}}",
            "{\"jsonrpc\":\"2.0\",\"method\":\"textDocument/publishDiagnostics\",\"params\":{\"diagnostics\":[{\"code\":\"U\",\"message\":\"Q has values by SET alone, and none above; it counts as 0\",\"range\":{\"end\":{\"character\":19,\"line\":0},\"start\":{\"character\":18,\"line\":0}},\"severity\":1,\"source\":\"compass\"}],\"uri\":\"a\"}}",
            "{\"jsonrpc\":\"2.0\",\"method\":\"textDocument/publishDiagnostics\",\"params\":{\"diagnostics\":[{\"code\":\"U\",\"message\":\"no line gives Q a value; it counts as 0\",\"range\":{\"end\":{\"character\":19,\"line\":0},\"start\":{\"character\":18,\"line\":0}},\"severity\":1,\"source\":\"compass\"},{\"message\":\"nothing reads R\",\"range\":{\"end\":{\"character\":1,\"line\":1},\"start\":{\"character\":0,\"line\":1}},\"severity\":4,\"source\":\"compass\"}],\"uri\":\"a\"}}",
        ],
    ),
    // it tells the number of another line: one comes above both, another between them, which goes again; an error in front of them, and a note behind an operand
    (
        &[
            INITIALIZE,
            "{\"jsonrpc\":\"2.0\",\"method\":\"textDocument/didOpen\",\"params\":{\"textDocument\":{\"uri\":\"a\",\"languageId\":\"compass\",\"text\":\"          IFEQ    0,0\\n          CON     1\\n          END\\n\"}}}",
            "{\"jsonrpc\":\"2.0\",\"method\":\"textDocument/didChange\",\"params\":{\"textDocument\":{\"uri\":\"a\"},\"contentChanges\":[{\"range\":{\"start\":{\"line\":0,\"character\":0},\"end\":{\"line\":0,\"character\":0}},\"text\":\"*\\n\"}]}}",
            "{\"jsonrpc\":\"2.0\",\"method\":\"textDocument/didChange\",\"params\":{\"textDocument\":{\"uri\":\"a\"},\"contentChanges\":[{\"range\":{\"start\":{\"line\":2,\"character\":0},\"end\":{\"line\":2,\"character\":0}},\"text\":\"\\n\"}]}}",
            "{\"jsonrpc\":\"2.0\",\"method\":\"textDocument/didChange\",\"params\":{\"textDocument\":{\"uri\":\"a\"},\"contentChanges\":[{\"range\":{\"start\":{\"line\":2,\"character\":0},\"end\":{\"line\":3,\"character\":0}},\"text\":\"\"}]}}",
            "{\"jsonrpc\":\"2.0\",\"method\":\"textDocument/didChange\",\"params\":{\"textDocument\":{\"uri\":\"a\"},\"contentChanges\":[{\"range\":{\"start\":{\"line\":0,\"character\":0},\"end\":{\"line\":0,\"character\":1}},\"text\":\"          SX1     Q\"}]}}",
            "{\"jsonrpc\":\"2.0\",\"method\":\"textDocument/didChange\",\"params\":{\"textDocument\":{\"uri\":\"a\"},\"contentChanges\":[{\"range\":{\"start\":{\"line\":2,\"character\":19},\"end\":{\"line\":2,\"character\":19}},\"text\":\" NOTE\"}]}}",
            EXIT,
        ],
        Ok(false),
        &[
            UTF16,
            "{\"jsonrpc\":\"2.0\",\"method\":\"textDocument/publishDiagnostics\",\"params\":{\"diagnostics\":[{\"code\":\"E\",\"message\":\"the program ends in a range that is open from line 1\",\"range\":{\"end\":{\"character\":13,\"line\":2},\"start\":{\"character\":10,\"line\":2}},\"severity\":1,\"source\":\"compass\"}],\"uri\":\"a\"}}",
            "{\"jsonrpc\":\"2.0\",\"method\":\"textDocument/publishDiagnostics\",\"params\":{\"diagnostics\":[{\"code\":\"E\",\"message\":\"the program ends in a range that is open from line 2\",\"range\":{\"end\":{\"character\":13,\"line\":3},\"start\":{\"character\":10,\"line\":3}},\"severity\":1,\"source\":\"compass\"}],\"uri\":\"a\"}}",
            "{\"jsonrpc\":\"2.0\",\"method\":\"textDocument/publishDiagnostics\",\"params\":{\"diagnostics\":[{\"code\":\"E\",\"message\":\"the program ends in a range that is open from line 2\",\"range\":{\"end\":{\"character\":13,\"line\":4},\"start\":{\"character\":10,\"line\":4}},\"severity\":1,\"source\":\"compass\"}],\"uri\":\"a\"}}",
            "{\"jsonrpc\":\"2.0\",\"method\":\"textDocument/publishDiagnostics\",\"params\":{\"diagnostics\":[{\"code\":\"E\",\"message\":\"the program ends in a range that is open from line 2\",\"range\":{\"end\":{\"character\":13,\"line\":3},\"start\":{\"character\":10,\"line\":3}},\"severity\":1,\"source\":\"compass\"}],\"uri\":\"a\"}}",
            "{\"jsonrpc\":\"2.0\",\"method\":\"textDocument/publishDiagnostics\",\"params\":{\"diagnostics\":[{\"code\":\"U\",\"message\":\"no line gives Q a value; it counts as 0\",\"range\":{\"end\":{\"character\":19,\"line\":0},\"start\":{\"character\":18,\"line\":0}},\"severity\":1,\"source\":\"compass\"},{\"code\":\"E\",\"message\":\"the program ends in a range that is open from line 2\",\"range\":{\"end\":{\"character\":13,\"line\":3},\"start\":{\"character\":10,\"line\":3}},\"severity\":1,\"source\":\"compass\"}],\"uri\":\"a\"}}",
            "{\"jsonrpc\":\"2.0\",\"method\":\"textDocument/publishDiagnostics\",\"params\":{\"diagnostics\":[{\"code\":\"U\",\"message\":\"no line gives Q a value; it counts as 0\",\"range\":{\"end\":{\"character\":19,\"line\":0},\"start\":{\"character\":18,\"line\":0}},\"severity\":1,\"source\":\"compass\"},{\"code\":\"E\",\"message\":\"the program ends in a range that is open from line 2\",\"range\":{\"end\":{\"character\":13,\"line\":3},\"start\":{\"character\":10,\"line\":3}},\"severity\":1,\"source\":\"compass\"}],\"uri\":\"a\"}}",
        ],
    ),
    // no text is open under a URI; texts under two; each is closed once, and opened again in the place of itself
    (
        &[
            INITIALIZE,
            "{\"jsonrpc\":\"2.0\",\"method\":\"textDocument/didChange\",\"params\":{\"textDocument\":{\"uri\":\"b\"},\"contentChanges\":[{\"text\":\"          SX1     Q\"}]}}",
            "{\"jsonrpc\":\"2.0\",\"method\":\"textDocument/didClose\",\"params\":{\"textDocument\":{\"uri\":\"b\"}}}",
            OPEN,
            "{\"jsonrpc\":\"2.0\",\"method\":\"textDocument/didOpen\",\"params\":{\"textDocument\":{\"uri\":\"b\",\"languageId\":\"compass\",\"text\":\"          SX1     R\"}}}",
            "{\"jsonrpc\":\"2.0\",\"method\":\"textDocument/didChange\",\"params\":{\"textDocument\":{\"uri\":\"b\",\"version\":-1},\"contentChanges\":[{\"range\":{\"start\":{\"line\":0,\"character\":18},\"end\":{\"line\":0,\"character\":19}},\"text\":\"1\"}]}}",
            "{\"jsonrpc\":\"2.0\",\"method\":\"textDocument/didChange\",\"params\":{\"textDocument\":{\"uri\":\"a\"},\"contentChanges\":[{\"range\":{\"start\":{\"line\":0,\"character\":18},\"end\":{\"line\":0,\"character\":18}},\"text\":\"1+\"}]}}",
            "{\"jsonrpc\":\"2.0\",\"method\":\"textDocument/didOpen\",\"params\":{\"textDocument\":{\"uri\":\"a\",\"version\":7,\"languageId\":\"compass\",\"text\":\"*\"}}}",
            "{\"jsonrpc\":\"2.0\",\"method\":\"textDocument/didChange\",\"params\":{\"textDocument\":{\"uri\":\"a\"},\"contentChanges\":[{\"range\":{\"start\":{\"line\":0,\"character\":1},\"end\":{\"line\":0,\"character\":1}},\"text\":\"\\n          SX1     Z\"}]}}",
            CLOSE,
            CLOSE,
            "{\"jsonrpc\":\"2.0\",\"method\":\"textDocument/didChange\",\"params\":{\"textDocument\":{\"uri\":\"a\"},\"contentChanges\":[{\"range\":{\"start\":{\"line\":0,\"character\":0},\"end\":{\"line\":0,\"character\":0}},\"text\":\"\"}]}}",
            "{\"jsonrpc\":\"2.0\",\"method\":\"textDocument/didClose\",\"params\":{\"textDocument\":{\"uri\":\"b\"}}}",
            EXIT,
        ],
        Ok(false),
        &[
            UTF16,
            FLAGGED,
            "{\"jsonrpc\":\"2.0\",\"method\":\"textDocument/publishDiagnostics\",\"params\":{\"diagnostics\":[{\"code\":\"U\",\"message\":\"no line gives R a value; it counts as 0\",\"range\":{\"end\":{\"character\":19,\"line\":0},\"start\":{\"character\":18,\"line\":0}},\"severity\":1,\"source\":\"compass\"}],\"uri\":\"b\"}}",
            "{\"jsonrpc\":\"2.0\",\"method\":\"textDocument/publishDiagnostics\",\"params\":{\"diagnostics\":[],\"uri\":\"b\",\"version\":-1}}",
            "{\"jsonrpc\":\"2.0\",\"method\":\"textDocument/publishDiagnostics\",\"params\":{\"diagnostics\":[{\"code\":\"U\",\"message\":\"no line gives Q a value; it counts as 0\",\"range\":{\"end\":{\"character\":21,\"line\":0},\"start\":{\"character\":20,\"line\":0}},\"severity\":1,\"source\":\"compass\"}],\"uri\":\"a\"}}",
            "{\"jsonrpc\":\"2.0\",\"method\":\"textDocument/publishDiagnostics\",\"params\":{\"diagnostics\":[],\"uri\":\"a\",\"version\":7}}",
            "{\"jsonrpc\":\"2.0\",\"method\":\"textDocument/publishDiagnostics\",\"params\":{\"diagnostics\":[{\"code\":\"U\",\"message\":\"no line gives Z a value; it counts as 0\",\"range\":{\"end\":{\"character\":19,\"line\":1},\"start\":{\"character\":18,\"line\":1}},\"severity\":1,\"source\":\"compass\"}],\"uri\":\"a\"}}",
            CLOSED,
            "{\"jsonrpc\":\"2.0\",\"method\":\"textDocument/publishDiagnostics\",\"params\":{\"diagnostics\":[],\"uri\":\"b\"}}",
        ],
    ),
    // a text without a URI, one without a text, a change without a list, and one without a document
    (
        &[
            INITIALIZE,
            "{\"jsonrpc\":\"2.0\",\"method\":\"textDocument/didOpen\",\"params\":{\"textDocument\":{\"text\":\"Q\"}}}",
            "{\"jsonrpc\":\"2.0\",\"method\":\"textDocument/didOpen\",\"params\":{\"textDocument\":{\"uri\":\"a\"}}}",
            CLOSE,
            OPEN,
            "{\"jsonrpc\":\"2.0\",\"method\":\"textDocument/didChange\",\"params\":{\"textDocument\":{\"uri\":\"a\"}}}",
            "{\"jsonrpc\":\"2.0\",\"method\":\"textDocument/didChange\",\"params\":{\"contentChanges\":[{\"text\":\"\"}]}}",
            "{\"jsonrpc\":\"2.0\",\"method\":\"textDocument/didClose\"}",
            CLOSE,
            EXIT,
        ],
        Ok(false),
        &[UTF16, FLAGGED, CLOSED],
    ),
    // the source ends in a range: its last line is marked, from its first character that is no blank
    (
        &[
            INITIALIZE,
            "{\"jsonrpc\":\"2.0\",\"method\":\"textDocument/didOpen\",\"params\":{\"textDocument\":{\"uri\":\"a\",\"languageId\":\"compass\",\"text\":\"          IFEQ    0,0\\n          CON     1\\n\"}}}",
            "{\"jsonrpc\":\"2.0\",\"method\":\"textDocument/didChange\",\"params\":{\"textDocument\":{\"uri\":\"a\"},\"contentChanges\":[{\"range\":{\"start\":{\"line\":2,\"character\":0},\"end\":{\"line\":2,\"character\":0}},\"text\":\"          ENDIF\"}]}}",
            EXIT,
        ],
        Ok(false),
        &[
            UTF16,
            "{\"jsonrpc\":\"2.0\",\"method\":\"textDocument/publishDiagnostics\",\"params\":{\"diagnostics\":[{\"code\":\"E\",\"message\":\"the source ends in a range that is open from line 1\",\"range\":{\"end\":{\"character\":19,\"line\":1},\"start\":{\"character\":10,\"line\":1}},\"severity\":1,\"source\":\"compass\"}],\"uri\":\"a\"}}",
            "{\"jsonrpc\":\"2.0\",\"method\":\"textDocument/publishDiagnostics\",\"params\":{\"diagnostics\":[],\"uri\":\"a\"}}",
        ],
    ),
    // a character of two bytes and a tab in front of a symbol, by units of UTF-16: while they are there, the line has no flag
    (
        &[
            INITIALIZE,
            "{\"jsonrpc\":\"2.0\",\"method\":\"textDocument/didOpen\",\"params\":{\"textDocument\":{\"uri\":\"a\",\"languageId\":\"compass\",\"text\":\"          SX1     \u{E9}\\tQ\"}}}",
            "{\"jsonrpc\":\"2.0\",\"method\":\"textDocument/didChange\",\"params\":{\"textDocument\":{\"uri\":\"a\"},\"contentChanges\":[{\"range\":{\"start\":{\"line\":0,\"character\":18},\"end\":{\"line\":0,\"character\":19}},\"text\":\"\"}]}}",
            "{\"jsonrpc\":\"2.0\",\"method\":\"textDocument/didChange\",\"params\":{\"textDocument\":{\"uri\":\"a\"},\"contentChanges\":[{\"range\":{\"start\":{\"line\":0,\"character\":18},\"end\":{\"line\":0,\"character\":19}},\"text\":\"\"}]}}",
            "{\"jsonrpc\":\"2.0\",\"method\":\"textDocument/didChange\",\"params\":{\"textDocument\":{\"uri\":\"a\"},\"contentChanges\":[{\"range\":{\"start\":{\"line\":0,\"character\":18},\"end\":{\"line\":0,\"character\":18}},\"text\":\"\u{E9}\"}]}}",
            "{\"jsonrpc\":\"2.0\",\"method\":\"textDocument/didChange\",\"params\":{\"textDocument\":{\"uri\":\"a\"},\"contentChanges\":[{\"range\":{\"start\":{\"line\":0,\"character\":18},\"end\":{\"line\":0,\"character\":20}},\"text\":\"R\"}]}}",
            EXIT,
        ],
        Ok(false),
        &[
            UTF16,
            "{\"jsonrpc\":\"2.0\",\"method\":\"textDocument/publishDiagnostics\",\"params\":{\"diagnostics\":[{\"message\":\"'\u{E9}' (U+00E9) is no character of a line\",\"range\":{\"end\":{\"character\":19,\"line\":0},\"start\":{\"character\":18,\"line\":0}},\"severity\":1,\"source\":\"compass\"},{\"message\":\"a tab is no character of a line; blanks to column 11, 18 or 30?\",\"range\":{\"end\":{\"character\":20,\"line\":0},\"start\":{\"character\":19,\"line\":0}},\"severity\":1,\"source\":\"compass\"}],\"uri\":\"a\"}}",
            "{\"jsonrpc\":\"2.0\",\"method\":\"textDocument/publishDiagnostics\",\"params\":{\"diagnostics\":[{\"message\":\"a tab is no character of a line; blanks to column 11, 18 or 30?\",\"range\":{\"end\":{\"character\":19,\"line\":0},\"start\":{\"character\":18,\"line\":0}},\"severity\":1,\"source\":\"compass\"}],\"uri\":\"a\"}}",
            "{\"jsonrpc\":\"2.0\",\"method\":\"textDocument/publishDiagnostics\",\"params\":{\"diagnostics\":[{\"code\":\"U\",\"message\":\"no line gives Q a value; it counts as 0\",\"range\":{\"end\":{\"character\":19,\"line\":0},\"start\":{\"character\":18,\"line\":0}},\"severity\":1,\"source\":\"compass\"}],\"uri\":\"a\"}}",
            "{\"jsonrpc\":\"2.0\",\"method\":\"textDocument/publishDiagnostics\",\"params\":{\"diagnostics\":[{\"message\":\"'\u{E9}' (U+00E9) is no character of a line\",\"range\":{\"end\":{\"character\":19,\"line\":0},\"start\":{\"character\":18,\"line\":0}},\"severity\":1,\"source\":\"compass\"}],\"uri\":\"a\"}}",
            "{\"jsonrpc\":\"2.0\",\"method\":\"textDocument/publishDiagnostics\",\"params\":{\"diagnostics\":[{\"code\":\"U\",\"message\":\"no line gives R a value; it counts as 0\",\"range\":{\"end\":{\"character\":19,\"line\":0},\"start\":{\"character\":18,\"line\":0}},\"severity\":1,\"source\":\"compass\"}],\"uri\":\"a\"}}",
        ],
    ),
    // a character of two bytes and a tab in front of a symbol, by units of UTF-8: while they are there, the line has no flag
    (
        &[
            INITIALIZE_UTF8,
            "{\"jsonrpc\":\"2.0\",\"method\":\"textDocument/didOpen\",\"params\":{\"textDocument\":{\"uri\":\"a\",\"languageId\":\"compass\",\"text\":\"          SX1     \u{E9}\\tQ\"}}}",
            "{\"jsonrpc\":\"2.0\",\"method\":\"textDocument/didChange\",\"params\":{\"textDocument\":{\"uri\":\"a\"},\"contentChanges\":[{\"range\":{\"start\":{\"line\":0,\"character\":18},\"end\":{\"line\":0,\"character\":20}},\"text\":\"\"}]}}",
            "{\"jsonrpc\":\"2.0\",\"method\":\"textDocument/didChange\",\"params\":{\"textDocument\":{\"uri\":\"a\"},\"contentChanges\":[{\"range\":{\"start\":{\"line\":0,\"character\":18},\"end\":{\"line\":0,\"character\":19}},\"text\":\"\"}]}}",
            "{\"jsonrpc\":\"2.0\",\"method\":\"textDocument/didChange\",\"params\":{\"textDocument\":{\"uri\":\"a\"},\"contentChanges\":[{\"range\":{\"start\":{\"line\":0,\"character\":18},\"end\":{\"line\":0,\"character\":18}},\"text\":\"\u{E9}\"}]}}",
            "{\"jsonrpc\":\"2.0\",\"method\":\"textDocument/didChange\",\"params\":{\"textDocument\":{\"uri\":\"a\"},\"contentChanges\":[{\"range\":{\"start\":{\"line\":0,\"character\":18},\"end\":{\"line\":0,\"character\":21}},\"text\":\"R\"}]}}",
            EXIT,
        ],
        Ok(false),
        &[
            UTF8,
            "{\"jsonrpc\":\"2.0\",\"method\":\"textDocument/publishDiagnostics\",\"params\":{\"diagnostics\":[{\"message\":\"'\u{E9}' (U+00E9) is no character of a line\",\"range\":{\"end\":{\"character\":20,\"line\":0},\"start\":{\"character\":18,\"line\":0}},\"severity\":1,\"source\":\"compass\"},{\"message\":\"a tab is no character of a line; blanks to column 11, 18 or 30?\",\"range\":{\"end\":{\"character\":21,\"line\":0},\"start\":{\"character\":20,\"line\":0}},\"severity\":1,\"source\":\"compass\"}],\"uri\":\"a\"}}",
            "{\"jsonrpc\":\"2.0\",\"method\":\"textDocument/publishDiagnostics\",\"params\":{\"diagnostics\":[{\"message\":\"a tab is no character of a line; blanks to column 11, 18 or 30?\",\"range\":{\"end\":{\"character\":19,\"line\":0},\"start\":{\"character\":18,\"line\":0}},\"severity\":1,\"source\":\"compass\"}],\"uri\":\"a\"}}",
            "{\"jsonrpc\":\"2.0\",\"method\":\"textDocument/publishDiagnostics\",\"params\":{\"diagnostics\":[{\"code\":\"U\",\"message\":\"no line gives Q a value; it counts as 0\",\"range\":{\"end\":{\"character\":19,\"line\":0},\"start\":{\"character\":18,\"line\":0}},\"severity\":1,\"source\":\"compass\"}],\"uri\":\"a\"}}",
            "{\"jsonrpc\":\"2.0\",\"method\":\"textDocument/publishDiagnostics\",\"params\":{\"diagnostics\":[{\"message\":\"'\u{E9}' (U+00E9) is no character of a line\",\"range\":{\"end\":{\"character\":20,\"line\":0},\"start\":{\"character\":18,\"line\":0}},\"severity\":1,\"source\":\"compass\"}],\"uri\":\"a\"}}",
            "{\"jsonrpc\":\"2.0\",\"method\":\"textDocument/publishDiagnostics\",\"params\":{\"diagnostics\":[{\"code\":\"U\",\"message\":\"no line gives R a value; it counts as 0\",\"range\":{\"end\":{\"character\":19,\"line\":0},\"start\":{\"character\":18,\"line\":0}},\"severity\":1,\"source\":\"compass\"}],\"uri\":\"a\"}}",
        ],
    ),
];

#[test]
fn tells_of_texts(rt: HostRuntime) {
    for (at, row) in CONVERSATIONS.iter().enumerate() {
        assert_row(&rt, rt.alloc(), at, row);
    }
}

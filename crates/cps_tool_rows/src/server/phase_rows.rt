//! How conversations begin and end: by JSON-RPC 2.0 and the Language Server Protocol.
use super::conversation::{
    ConversationRow, EXIT, End, INITIALIZE, INITIALIZE_UTF8, SHUTDOWN, SHUTDOWN_SAID, ServerRun,
    UTF8, UTF16, assert_row, assert_served,
};
use cps_rpc::ServerFault;
use cps_text::Counted;

/// A request that no part of the introduction promises.
const MONIKER: &str =
    "{\"jsonrpc\":\"2.0\",\"id\":\"r\",\"method\":\"textDocument/moniker\",\"params\":{}}";

/// Conversations that open no text.
const CONVERSATIONS: [ConversationRow; 9] = [
    // all requests in each phase; nothing behind `exit` is answered
    (
        &[
            MONIKER,
            INITIALIZE_UTF8,
            INITIALIZE,
            MONIKER,
            SHUTDOWN,
            MONIKER,
            SHUTDOWN,
            INITIALIZE,
            EXIT,
            MONIKER,
        ],
        Ok(true),
        &[
            "{\"error\":{\"code\":-32002,\"message\":\"Server not initialized\"},\"id\":\"r\",\"jsonrpc\":\"2.0\"}",
            UTF8,
            "{\"error\":{\"code\":-32600,\"message\":\"Invalid Request\"},\"id\":1,\"jsonrpc\":\"2.0\"}",
            "{\"error\":{\"code\":-32601,\"message\":\"Method not found\"},\"id\":\"r\",\"jsonrpc\":\"2.0\"}",
            SHUTDOWN_SAID,
            "{\"error\":{\"code\":-32600,\"message\":\"Invalid Request\"},\"id\":\"r\",\"jsonrpc\":\"2.0\"}",
            "{\"error\":{\"code\":-32600,\"message\":\"Invalid Request\"},\"id\":9,\"jsonrpc\":\"2.0\"}",
            "{\"error\":{\"code\":-32600,\"message\":\"Invalid Request\"},\"id\":1,\"jsonrpc\":\"2.0\"}",
        ],
    ),
    // `exit` without `shutdown`
    (&[INITIALIZE, EXIT], Ok(false), &[UTF16]),
    // `exit` alone
    (&[EXIT, INITIALIZE], Ok(false), &[]),
    // `shutdown` before `initialize` shuts nothing down
    (
        &[SHUTDOWN, EXIT],
        Ok(false),
        &[
            "{\"error\":{\"code\":-32002,\"message\":\"Server not initialized\"},\"id\":9,\"jsonrpc\":\"2.0\"}",
        ],
    ),
    // the input ends
    (&[], Ok(false), &[]),
    // the input ends
    (&[INITIALIZE], Ok(false), &[UTF16]),
    // the input ends behind `shutdown`
    (&[INITIALIZE, SHUTDOWN], Ok(true), &[UTF16, SHUTDOWN_SAID]),
    // no JSON, an array, a request under null, and a response
    (
        &[
            "{\"jsonrpc\":",
            "[1]",
            "{\"jsonrpc\":\"2.0\",\"id\":null,\"method\":\"shutdown\"}",
            "{\"jsonrpc\":\"2.0\",\"id\":3,\"result\":null}",
        ],
        Ok(false),
        &[
            "{\"error\":{\"code\":-32700,\"message\":\"Parse error\"},\"id\":null,\"jsonrpc\":\"2.0\"}",
            "{\"error\":{\"code\":-32600,\"message\":\"Invalid Request\"},\"id\":null,\"jsonrpc\":\"2.0\"}",
            "{\"error\":{\"code\":-32600,\"message\":\"Invalid Request\"},\"id\":null,\"jsonrpc\":\"2.0\"}",
        ],
    ),
    // a notification that no server knows, and one that is no request
    (
        &[
            INITIALIZE,
            "{\"jsonrpc\":\"2.0\",\"method\":\"initialized\",\"params\":{}}",
            "{\"jsonrpc\":\"2.0\",\"method\":\"shutdown\"}",
            EXIT,
        ],
        Ok(false),
        &[UTF16],
    ),
];

#[test]
fn begins_and_ends(rt: HostRuntime) {
    for (at, row) in CONVERSATIONS.iter().enumerate() {
        assert_row(&rt, rt.alloc(), at, row);
    }
}

/// Inputs by their bytes, how the server ends, and the bytes that it says.
const BYTES: [(&[u8], End, &str); 3] = [
    // no name of a field begins with a brace; the message in front is answered
    (
        b"Content-Length: 2\r\n\r\n{}{}Content-Length: 2\r\n\r\n{}",
        Err(ServerFault::BadHeader),
        "Content-Length: 79\r\n\r\n{\"error\":{\"code\":-32600,\"message\":\"Invalid Request\"},\"id\":null,\"jsonrpc\":\"2.0\"}",
    ),
    // no length is told
    (
        b"Content-Type: text/plain\r\n\r\n{}",
        Err(ServerFault::BadHeader),
        "",
    ),
    // the input ends within the second message
    (
        b"Content-Length: 2\r\n\r\n{}Content-Length: 3\r\n\r\n{}",
        Ok(false),
        "Content-Length: 79\r\n\r\n{\"error\":{\"code\":-32600,\"message\":\"Invalid Request\"},\"id\":null,\"jsonrpc\":\"2.0\"}",
    ),
];

#[test]
fn reads_frames(rt: HostRuntime) {
    for (at, (input, end, said)) in BYTES.iter().enumerate() {
        let mut reader = Counted::new(*input);
        let want = ServerRun {
            end,
            said: said.as_bytes(),
        };
        assert_served(&rt, rt.alloc(), at, &mut reader, want);
    }
}

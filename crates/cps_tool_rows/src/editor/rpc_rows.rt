//! What messages ask, and messages that are sent: by JSON-RPC 2.0 and the Language Server Protocol.
use super::assertions::{assert_row, push_ended};
use cps_rpc::{ErrorCode, JsonFault, Message, json_of, refusal, response};
use serde_json::Value;
use std::alloc::Global;
use std::process::Abort;

/// Appends a JSON's text and what ends it.
fn push_json(rt: &impl Abort, alloc: Global, told: &mut Vec<u8>, json: &Value, end: u8) {
    let text = json.to_vec(alloc).expect(rt, "memory");
    push_ended(rt, told, &text, end);
    drop(text);
}

/// Asserts the text of a JSON.
fn assert_json(rt: &impl Abort, alloc: Global, at: usize, json: &Value, want: &str) {
    let text = json.to_vec(alloc).expect(rt, "memory");
    assert_row(rt, at, &text, want);
    drop(text);
}

/// Messages, and the text of their JSON: members stand in the order of their names. One is cut off, one is empty, and one is no UTF-8.
const TEXTS: [(&[u8], &str); 4] = [
    (
        b"{\"jsonrpc\": \"2.0\", \"id\": 1, \"method\": \"shutdown\"}",
        "{\"id\":1,\"jsonrpc\":\"2.0\",\"method\":\"shutdown\"}",
    ),
    (b"{\"id\": 1", "no JSON"),
    (b"", "no JSON"),
    (b"\"\xFF\"", "no JSON"),
];

#[test]
fn reads_json(rt: HostRuntime) {
    for (at, (message, want)) in TEXTS.iter().enumerate() {
        match json_of(rt.alloc(), message) {
            Ok(json) => {
                assert_json(&rt, rt.alloc(), at, &json, want);
                drop(json);
            }
            Err(JsonFault::NoJson) => assert_row(&rt, at, b"no JSON", want),
            Err(JsonFault::Memory) => assert_row(&rt, at, b"no memory", want),
        }
    }
}

/// Appends what a message asks, and a period.
fn push_message(rt: &impl Abort, alloc: Global, told: &mut Vec<u8>, message: Message) {
    match message {
        Message::Request { id, method } => {
            push_ended(rt, told, b"request", b' ');
            push_json(rt, alloc, told, id, b' ');
            push_ended(rt, told, method.as_bytes(), b'.');
        }
        Message::Notification { method } => {
            push_ended(rt, told, b"notification", b' ');
            push_ended(rt, told, method.as_bytes(), b'.');
        }
        Message::Response => push_ended(rt, told, b"response", b'.'),
        Message::Invalid => push_ended(rt, told, b"invalid", b'.'),
    }
}

/// Asserts what a message asks.
fn assert_message(rt: &impl Abort, alloc: Global, at: usize, message: &[u8], want: &str) {
    let json = json_of(alloc, message).expect(rt, "JSON");
    let mut told = Vec::new(alloc);
    push_message(rt, alloc, &mut told, Message::of(&json));
    assert_row(rt, at, &told, want);
    drop(told);
    drop(json);
}

/// Messages, and what they ask.
const MESSAGES: [(&[u8], &str); 11] = [
    (
        b"{\"jsonrpc\":\"2.0\",\"id\":7,\"method\":\"shutdown\"}",
        "request 7 shutdown.",
    ),
    (
        b"{\"jsonrpc\":\"2.0\",\"id\":\"a-7\",\"method\":\"shutdown\",\"params\":null}",
        "request \"a-7\" shutdown.",
    ),
    (
        b"{\"jsonrpc\":\"2.0\",\"method\":\"exit\"}",
        "notification exit.",
    ),
    (
        b"{\"jsonrpc\":\"2.0\",\"id\":7,\"result\":null}",
        "response.",
    ),
    (
        b"{\"jsonrpc\":\"2.0\",\"id\":7,\"error\":{\"code\":-32601,\"message\":\"\"}}",
        "response.",
    ),
    (b"{\"jsonrpc\":\"2.0\",\"id\":7}", "invalid."),
    (b"[7]", "invalid."),
    (b"{\"jsonrpc\":\"2.0\",\"id\":7,\"method\":3}", "invalid."),
    (b"{\"jsonrpc\":\"2.0\",\"method\":3}", "invalid."),
    (
        b"{\"jsonrpc\":\"2.0\",\"id\":7.5,\"method\":\"shutdown\"}",
        "invalid.",
    ),
    (
        b"{\"jsonrpc\":\"2.0\",\"id\":null,\"method\":\"shutdown\"}",
        "invalid.",
    ),
];

#[test]
fn reads_messages(rt: HostRuntime) {
    for (at, (message, want)) in MESSAGES.iter().enumerate() {
        assert_message(&rt, rt.alloc(), at, message, want);
    }
}

#[test]
fn writes_a_response(rt: HostRuntime) {
    let id = json_of(rt.alloc(), b"\"a-7\"").expect(&rt, "JSON");
    let found = json_of(rt.alloc(), b"{\"b\":[1,null],\"a\":true}").expect(&rt, "JSON");
    let json = response(rt.alloc(), &id, found).expect(&rt, "memory");
    let want = "{\"id\":\"a-7\",\"jsonrpc\":\"2.0\",\"result\":{\"a\":true,\"b\":[1,null]}}";
    assert_json(&rt, rt.alloc(), 0, &json, want);
    drop(json);
    drop(id);
}

/// Errors, and the refusals of request 7. The numbers and texts are those of the specifications, but for the last text, which is our own.
const REFUSALS: [(ErrorCode, &str); 5] = [
    (
        ErrorCode::ParseError,
        "{\"error\":{\"code\":-32700,\"message\":\"Parse error\"},\"id\":7,\"jsonrpc\":\"2.0\"}",
    ),
    (
        ErrorCode::InvalidRequest,
        "{\"error\":{\"code\":-32600,\"message\":\"Invalid Request\"},\"id\":7,\"jsonrpc\":\"2.0\"}",
    ),
    (
        ErrorCode::MethodNotFound,
        "{\"error\":{\"code\":-32601,\"message\":\"Method not found\"},\"id\":7,\"jsonrpc\":\"2.0\"}",
    ),
    (
        ErrorCode::InvalidParams,
        "{\"error\":{\"code\":-32602,\"message\":\"Invalid params\"},\"id\":7,\"jsonrpc\":\"2.0\"}",
    ),
    (
        ErrorCode::ServerNotInitialized,
        "{\"error\":{\"code\":-32002,\"message\":\"Server not initialized\"},\"id\":7,\"jsonrpc\":\"2.0\"}",
    ),
];

#[test]
fn writes_refusals(rt: HostRuntime) {
    let id = json_of(rt.alloc(), b"7").expect(&rt, "JSON");
    for (at, (code, want)) in REFUSALS.iter().enumerate() {
        let json = refusal(rt.alloc(), &id, *code).expect(&rt, "memory");
        assert_json(&rt, rt.alloc(), at, &json, want);
        drop(json);
    }
    drop(id);
}

//! Texts with as many marks as are told one by one, and with more.
use super::conversation::{EXIT, INITIALIZE, ServerRun, UTF16, assert_served};
use cps_rpc::push_frame;
use cps_text::Counted;
use std::alloc::Global;
use std::process::Abort;

/// Appends a text.
fn push(rt: &impl Abort, text: &mut Vec<u8>, more: &str) {
    text.extend_from_slice(more.as_bytes()).expect(rt, "memory");
}

/// Appends the frame of the message that opens a text of so many lines with a flag.
fn push_opening(rt: &impl Abort, alloc: Global, text: &mut Vec<u8>, count: u32) {
    let mut message = Vec::new(alloc);
    push(
        rt,
        &mut message,
        r#"{"jsonrpc":"2.0","method":"textDocument/didOpen","params":{"textDocument":{"uri":"a","version":3,"languageId":"compass","text":""#,
    );
    for _ in 0..count {
        push(rt, &mut message, "          SX1     Q\\n");
    }
    push(rt, &mut message, "\"}}}");
    push_frame(text, &message).expect(rt, "memory");
    drop(message);
}

/// Appends the diagnostic of a line, from 0.
fn push_told(rt: &impl Abort, alloc: Global, message: &mut Vec<u8>, line: u32) {
    let told = format!(in alloc;
        "{{\"code\":\"U\",\"message\":\"no line gives Q a value; it counts as 0\",\"range\":{{\"end\":{{\"character\":19,\"line\":{line}}},\"start\":{{\"character\":18,\"line\":{line}}}}},\"severity\":1,\"source\":\"compass\"}}"
    ).expect(rt, "memory");
    push(rt, message, if line > 0 { "," } else { "" });
    push(rt, message, &told);
    drop(told);
}

/// Appends the frame of the message that tells so many lines, and then this.
fn push_answer(rt: &impl Abort, alloc: Global, text: &mut Vec<u8>, count: u32, more: &str) {
    let mut message = Vec::new(alloc);
    push(
        rt,
        &mut message,
        r#"{"jsonrpc":"2.0","method":"textDocument/publishDiagnostics","params":{"diagnostics":["#,
    );
    for line in 0..count {
        push_told(rt, alloc, &mut message, line);
    }
    push(rt, &mut message, more);
    push(rt, &mut message, r#"],"uri":"a","version":3}}"#);
    push_frame(text, &message).expect(rt, "memory");
    drop(message);
}

/// How many lines a text has, how many of them are told one by one, and what is told behind these.
const ROWS: [(u32, u32, &str); 4] = [
    (999, 999, ""),
    (1_000, 1_000, ""),
    (
        1_001,
        1_000,
        r#",{"message":"and 1 more from here on","range":{"end":{"character":19,"line":1000},"start":{"character":18,"line":1000}},"severity":3,"source":"compass"}"#,
    ),
    (
        1_234,
        1_000,
        r#",{"message":"and 234 more from here on","range":{"end":{"character":19,"line":1000},"start":{"character":18,"line":1000}},"severity":3,"source":"compass"}"#,
    ),
];

#[test]
fn tells_how_many_more(rt: HostRuntime) {
    let alloc = rt.alloc();
    for (at, (count, told, more)) in ROWS.iter().enumerate() {
        let mut input = Vec::new(alloc);
        push_frame(&mut input, INITIALIZE.as_bytes()).expect(&rt, "memory");
        push_opening(&rt, alloc, &mut input, *count);
        push_frame(&mut input, EXIT.as_bytes()).expect(&rt, "memory");
        let mut want = Vec::new(alloc);
        push_frame(&mut want, UTF16.as_bytes()).expect(&rt, "memory");
        push_answer(&rt, alloc, &mut want, *told, *more);
        let end = Ok(false);
        let mut reader = Counted::new(input.as_slice());
        let served = ServerRun {
            end: &end,
            said: &want,
        };
        assert_served(&rt, alloc, at, &mut reader, served);
        drop(want);
        drop(input);
    }
}

//! Questions about an open text.
use super::conversation::{
    INITIALIZE, INITIALIZE_UTF8, ServerRun, UTF8, UTF16, assert_same, assert_served, framed, run,
};
use cps_rpc::push_frame;
use cps_text::Counted;
use std::alloc::Global;
use std::process::Abort;

/// The first message of an editor, and its answer.
pub type Beginning = (&'static str, &'static str);

pub const BY_UTF16: Beginning = (INITIALIZE, UTF16);

pub const BY_UTF8: Beginning = (INITIALIZE_UTF8, UTF8);

/// A request about the text: its method behind `textDocument/`, what its parameters have behind the text's URI, and its result.
pub type Question = (&'static str, &'static str, &'static str);

/// A text that is open as `a`, and questions about it.
#[derive(Clone, Copy)]
pub struct Inquiry {
    pub begins: Beginning,
    /// The lines of the text, as JSON has them. Each ends in a newline.
    pub lines: &'static [&'static str],
    /// The diagnostics that are told of the text.
    pub told: &'static str,
    pub questions: &'static [Question],
}

/// Appends the frame of a message that stands in parts.
fn push_parts(rt: &impl Abort, alloc: Global, text: &mut Vec<u8>, parts: &[&str]) {
    let mut message = Vec::new(alloc);
    for part in parts {
        message
            .extend_from_slice(part.as_bytes())
            .expect(rt, "memory");
    }
    push_frame(text, &message).expect(rt, "memory");
    drop(message);
}

/// Appends the frame of the message that opens lines.
fn push_opening(rt: &impl Abort, alloc: Global, text: &mut Vec<u8>, lines: &[&'static str]) {
    let mut parts = Vec::new(alloc);
    parts
        .push(
            r#"{"jsonrpc":"2.0","method":"textDocument/didOpen","params":{"textDocument":{"uri":"a","languageId":"compass","text":""#,
        )
        .expect(rt, "memory");
    for line in lines {
        parts.push(*line).expect(rt, "memory");
        parts.push("\\n").expect(rt, "memory");
    }
    parts.push("\"}}}").expect(rt, "memory");
    push_parts(rt, alloc, text, &parts);
    drop(parts);
}

/// The messages of the editor.
fn asked(rt: &impl Abort, alloc: Global, inquiry: &Inquiry) -> Vec<u8> {
    let mut text = framed(rt, alloc, &[inquiry.begins.0]);
    push_opening(rt, alloc, &mut text, inquiry.lines);
    for (method, more, _) in inquiry.questions {
        let folder = if method.contains("/") {
            ""
        } else {
            "textDocument/"
        };
        let parts = [
            r#"{"jsonrpc":"2.0","id":5,"method":""#,
            folder,
            *method,
            r#"","params":{"textDocument":{"uri":"a"}"#,
            *more,
            "}}",
        ];
        push_parts(rt, alloc, &mut text, &parts);
    }
    text
}

/// The messages of the server.
fn answered(rt: &impl Abort, alloc: Global, inquiry: &Inquiry) -> Vec<u8> {
    let mut text = framed(rt, alloc, &[inquiry.begins.1]);
    let parts = [
        r#"{"jsonrpc":"2.0","method":"textDocument/publishDiagnostics","params":{"diagnostics":"#,
        inquiry.told,
        r#","uri":"a"}}"#,
    ];
    push_parts(rt, alloc, &mut text, &parts);
    for (_, _, answer) in inquiry.questions {
        let parts = [r#"{"id":5,"jsonrpc":"2.0","result":"#, *answer, "}"];
        push_parts(rt, alloc, &mut text, &parts);
    }
    text
}

/// Asks the questions of a row, and asserts the answers.
pub fn assert_answers(rt: &impl Abort, alloc: Global, at: usize, inquiry: &Inquiry) {
    let input = asked(rt, alloc, inquiry);
    let want = answered(rt, alloc, inquiry);
    let end = Ok(false);
    let served = ServerRun {
        end: &end,
        said: &want,
    };
    assert_served(rt, alloc, at, &mut Counted::new(input.as_slice()), served);
    drop(want);
    drop(input);
}

/// Asserts that a text has a part, or that it doesn't.
fn assert_part(rt: &impl Abort, text: &[u8], part: &str, is_wanted: bool) {
    let has_part = match str::from_utf8(text) {
        Ok(text) => text.contains(part),
        Err(_) => false,
    };
    assert_eq!(rt; has_part, is_wanted, "{part}");
}

/// Asks the questions of a row, and asserts that the messages of the server have some parts and lack others.
pub fn assert_parts(
    rt: &impl Abort,
    alloc: Global,
    inquiry: &Inquiry,
    has: &[&str],
    lacks: &[&str],
) {
    let input = asked(rt, alloc, inquiry);
    let mut reader = Counted::new(input.as_slice());
    let mut writer = Counted::new(Vec::new(alloc));
    assert_same(rt, 0, &run(alloc, &mut reader, &mut writer), &Ok(false));
    let text = writer.into_inner();
    for part in has {
        assert_part(rt, &text, part, true);
    }
    for part in lacks {
        assert_part(rt, &text, part, false);
    }
    drop(text);
    drop(input);
}

//! Where the bytes of a conversation come in pieces, and where a read or a write fails.
use super::conversation::{ServerRun, assert_same, assert_served, run};
use crate::assertions::assert_taken;
use cps_rows::{FailsAt, SlowReader, SlowWriter};
use cps_rpc::ServerFault;
use cps_text::Counted;
use std::alloc::Global;
use std::io;
use std::io::Read;
use std::process::Abort;

/// Three messages, which end behind 68, 207 and 262 bytes: `initialize`, a text that is opened, in which no line defines Q, and `exit`.
const INPUT: &[u8] =
    b"Content-Length: 46\r\n\r\n{\"id\":1,\"method\":\"initialize\",\"jsonrpc\":\"2.0\"}\
Content-Length: 116\r\n\r\n{\"jsonrpc\":\"2.0\",\"method\":\"textDocument/didOpen\",\"params\":{\"textDocument\":{\"uri\":\"a\",\"text\":\"          SX1     Q\"}}}\
Content-Length: 33\r\n\r\n{\"jsonrpc\":\"2.0\",\"method\":\"exit\"}";

/// What is said to the first.
const INTRODUCED: &str =
    "Content-Length: 830\r\n\r\n{\"id\":1,\"jsonrpc\":\"2.0\",\"result\":{\"capabilities\":{\"codeActionProvider\":{\"codeActionKinds\":[\"quickfix\"]},\"completionProvider\":{},\"definitionProvider\":true,\"documentFormattingProvider\":true,\"documentHighlightProvider\":true,\"documentRangeFormattingProvider\":true,\"documentSymbolProvider\":true,\"foldingRangeProvider\":true,\"hoverProvider\":true,\"inlayHintProvider\":true,\"positionEncoding\":\"utf-16\",\"referencesProvider\":true,\"renameProvider\":{\"prepareProvider\":true},\"semanticTokensProvider\":{\"full\":true,\"legend\":{\"tokenModifiers\":[\"definition\",\"readonly\"],\"tokenTypes\":[\"keyword\",\"macro\",\"parameter\",\"variable\",\"namespace\",\"property\",\"number\",\"string\",\"comment\"]},\"range\":true},\"signatureHelpProvider\":{\"triggerCharacters\":[\" \",\",\"]},\"textDocumentSync\":{\"change\":2,\"openClose\":true}},\"serverInfo\":{\"name\":\"compass\",\"version\":\"0.9.0\"}}}";

/// What is said to all.
const SAID: &str =
    "Content-Length: 830\r\n\r\n{\"id\":1,\"jsonrpc\":\"2.0\",\"result\":{\"capabilities\":{\"codeActionProvider\":{\"codeActionKinds\":[\"quickfix\"]},\"completionProvider\":{},\"definitionProvider\":true,\"documentFormattingProvider\":true,\"documentHighlightProvider\":true,\"documentRangeFormattingProvider\":true,\"documentSymbolProvider\":true,\"foldingRangeProvider\":true,\"hoverProvider\":true,\"inlayHintProvider\":true,\"positionEncoding\":\"utf-16\",\"referencesProvider\":true,\"renameProvider\":{\"prepareProvider\":true},\"semanticTokensProvider\":{\"full\":true,\"legend\":{\"tokenModifiers\":[\"definition\",\"readonly\"],\"tokenTypes\":[\"keyword\",\"macro\",\"parameter\",\"variable\",\"namespace\",\"property\",\"number\",\"string\",\"comment\"]},\"range\":true},\"signatureHelpProvider\":{\"triggerCharacters\":[\" \",\",\"]},\"textDocumentSync\":{\"change\":2,\"openClose\":true}},\"serverInfo\":{\"name\":\"compass\",\"version\":\"0.9.0\"}}}\
Content-Length: 270\r\n\r\n{\"jsonrpc\":\"2.0\",\"method\":\"textDocument/publishDiagnostics\",\"params\":{\"diagnostics\":[{\"code\":\"U\",\"message\":\"no line gives Q a value; it counts as 0\",\"range\":{\"end\":{\"character\":19,\"line\":0},\"start\":{\"character\":18,\"line\":0}},\"severity\":1,\"source\":\"compass\"}],\"uri\":\"a\"}}";

/// A reader that gives two pieces, one a call, and then ends.
#[derive(Drop)]
struct Pieces<'a> {
    first: &'a [u8],
    second: &'a [u8],
}

impl Read for Pieces<'_> {
    fn read(&mut self, buf: &mut [u8]) -> io::Result<usize> {
        if self.first.is_empty() {
            return self.second.read(buf);
        }
        self.first.read(buf)
    }
}

/// Cut at each byte.
#[test]
fn answers_what_comes_in_two_pieces(rt: HostRuntime) {
    for cut in 0..=INPUT.len() {
        let mut reader = Counted::new(Pieces {
            first: &INPUT[..cut],
            second: &INPUT[cut..],
        });
        let end = Ok(false);
        let want = ServerRun {
            end: &end,
            said: SAID.as_bytes(),
        };
        assert_served(&rt, rt.alloc(), cut, &mut reader, want);
    }
}

/// Behind the last byte the reader would fail: `exit` has ended the server before.
#[test]
fn answers_bytes_that_come_alone(rt: HostRuntime) {
    let mut reader = Counted::new(SlowReader {
        rest: INPUT,
        fails: true,
    });
    let end = Ok(false);
    let want = ServerRun {
        end: &end,
        said: SAID.as_bytes(),
    };
    assert_served(&rt, rt.alloc(), 0, &mut reader, want);
    assert_same(&rt, 0, &reader.calls(), &262);
}

/// What is said where so many bytes have come.
fn said_to(came: usize) -> &'static str {
    match came {
        0..=67 => "",
        68..=206 => INTRODUCED,
        _ => SAID,
    }
}

/// At each read in turn: what has come whole is answered, and the failed device is not tried again.
#[test]
fn tells_a_failed_read(rt: HostRuntime) {
    for (came, failing) in (1..=262).enumerate() {
        let mut reader = Counted::new(FailsAt::new(INPUT, failing));
        let end = Err(ServerFault::ReadFault);
        let want = ServerRun {
            end: &end,
            said: said_to(came).as_bytes(),
        };
        assert_served(&rt, rt.alloc(), came, &mut reader, want);
        assert_same(&rt, came, &reader.calls(), &failing);
    }
}

/// Has the conversation with a writer that has room for these bytes, and asserts that it takes them.
fn assert_failed_write(rt: &impl Abort, alloc: Global, front: &[u8]) {
    let room = front.len();
    let mut reader = Counted::new(INPUT);
    let mut writer = Counted::new(SlowWriter {
        taken: Vec::new(alloc),
        room,
    });
    let end = run(alloc, &mut reader, &mut writer);
    assert_same(rt, room, &end, &Err(ServerFault::WriteFault));
    assert_taken(rt, writer, front);
}

/// At each write in turn: a front of what is said stands, and the failed device is not tried again.
#[test]
fn tells_a_failed_write(rt: HostRuntime) {
    let said = SAID.as_bytes();
    for room in 0..said.len() {
        assert_failed_write(&rt, rt.alloc(), &said[..room]);
    }
}

//! Conversations with a server. Only here one is run, and what it says is compared.
use cps_rpc::{ServerFault, push_frame};
use cps_server::run_server;
use cps_state::Hashing;
use cps_text::Counted;
use std::alloc::Global;
use std::fmt::Debug;
use std::io::{Read, Write};
use std::process::Abort;

/// How a server ends: whether `shutdown` came before.
pub type End = Result<bool, ServerFault>;

/// How a server ends, and the bytes that it says.
#[derive(Clone, Copy)]
pub struct ServerRun<'a> {
    pub end: &'a End,
    pub said: &'a [u8],
}

/// The messages of an editor, how the server ends, and its messages.
pub type ConversationRow = (&'static [&'static str], End, &'static [&'static str]);

/// From an editor that names no encodings.
pub const INITIALIZE: &str =
    "{\"jsonrpc\":\"2.0\",\"id\":1,\"method\":\"initialize\",\"params\":{\"capabilities\":{}}}";

/// From an editor that can count by UTF-8 too.
pub const INITIALIZE_UTF8: &str =
    "{\"jsonrpc\":\"2.0\",\"id\":1,\"method\":\"initialize\",\"params\":{\"capabilities\":{\"general\":{\"positionEncodings\":[\"utf-16\",\"utf-8\"]}}}}";

/// From editors that take a hover by Markdown: before plain text, and behind forms that none knows; and as plain text before that.
pub const INITIALIZE_MARKDOWN: &str =
    "{\"jsonrpc\":\"2.0\",\"id\":1,\"method\":\"initialize\",\"params\":{\"capabilities\":{\"textDocument\":{\"hover\":{\"contentFormat\":[\"markdown\",\"plaintext\"]}}}}}";

pub const INITIALIZE_UNKNOWN: &str =
    "{\"jsonrpc\":\"2.0\",\"id\":1,\"method\":\"initialize\",\"params\":{\"capabilities\":{\"textDocument\":{\"hover\":{\"contentFormat\":[\"html\",5,null,\"markdown\"]}}}}}";

pub const INITIALIZE_PLAIN: &str =
    "{\"jsonrpc\":\"2.0\",\"id\":1,\"method\":\"initialize\",\"params\":{\"capabilities\":{\"textDocument\":{\"hover\":{\"contentFormat\":[\"plaintext\",\"markdown\"]}}}}}";

/// From editors that offer no known form, or no list of forms.
pub const INITIALIZE_NONE: &str =
    "{\"jsonrpc\":\"2.0\",\"id\":1,\"method\":\"initialize\",\"params\":{\"capabilities\":{\"textDocument\":{\"hover\":{\"contentFormat\":[\"Markdown\",\"md\"]}}}}}";

pub const INITIALIZE_WRONG: &str =
    "{\"jsonrpc\":\"2.0\",\"id\":1,\"method\":\"initialize\",\"params\":{\"capabilities\":{\"textDocument\":{\"hover\":{\"contentFormat\":\"markdown\"}}}}}";

/// From an editor that takes an outline as a tree.
pub const INITIALIZE_TREES: &str =
    "{\"jsonrpc\":\"2.0\",\"id\":1,\"method\":\"initialize\",\"params\":{\"capabilities\":{\"textDocument\":{\"documentSymbol\":{\"hierarchicalDocumentSymbolSupport\":true}}}}}";

/// The answer to all but the one that offers UTF-8.
pub const UTF16: &str =
    "{\"id\":1,\"jsonrpc\":\"2.0\",\"result\":{\"capabilities\":{\"codeActionProvider\":{\"codeActionKinds\":[\"quickfix\"]},\"completionProvider\":{},\"definitionProvider\":true,\"documentFormattingProvider\":true,\"documentHighlightProvider\":true,\"documentRangeFormattingProvider\":true,\"documentSymbolProvider\":true,\"foldingRangeProvider\":true,\"hoverProvider\":true,\"inlayHintProvider\":true,\"positionEncoding\":\"utf-16\",\"referencesProvider\":true,\"renameProvider\":{\"prepareProvider\":true},\"semanticTokensProvider\":{\"full\":true,\"legend\":{\"tokenModifiers\":[\"definition\",\"readonly\"],\"tokenTypes\":[\"keyword\",\"macro\",\"parameter\",\"variable\",\"namespace\",\"property\",\"number\",\"string\",\"comment\"]},\"range\":true},\"signatureHelpProvider\":{\"triggerCharacters\":[\" \",\",\"]},\"textDocumentSync\":{\"change\":2,\"openClose\":true}},\"serverInfo\":{\"name\":\"compass\",\"version\":\"0.9.0\"}}}";

/// The answer to that one.
pub const UTF8: &str =
    "{\"id\":1,\"jsonrpc\":\"2.0\",\"result\":{\"capabilities\":{\"codeActionProvider\":{\"codeActionKinds\":[\"quickfix\"]},\"completionProvider\":{},\"definitionProvider\":true,\"documentFormattingProvider\":true,\"documentHighlightProvider\":true,\"documentRangeFormattingProvider\":true,\"documentSymbolProvider\":true,\"foldingRangeProvider\":true,\"hoverProvider\":true,\"inlayHintProvider\":true,\"positionEncoding\":\"utf-8\",\"referencesProvider\":true,\"renameProvider\":{\"prepareProvider\":true},\"semanticTokensProvider\":{\"full\":true,\"legend\":{\"tokenModifiers\":[\"definition\",\"readonly\"],\"tokenTypes\":[\"keyword\",\"macro\",\"parameter\",\"variable\",\"namespace\",\"property\",\"number\",\"string\",\"comment\"]},\"range\":true},\"signatureHelpProvider\":{\"triggerCharacters\":[\" \",\",\"]},\"textDocumentSync\":{\"change\":2,\"openClose\":true}},\"serverInfo\":{\"name\":\"compass\",\"version\":\"0.9.0\"}}}";

pub const SHUTDOWN: &str = "{\"jsonrpc\":\"2.0\",\"id\":9,\"method\":\"shutdown\"}";

pub const SHUTDOWN_SAID: &str = "{\"id\":9,\"jsonrpc\":\"2.0\",\"result\":null}";

pub const EXIT: &str = "{\"jsonrpc\":\"2.0\",\"method\":\"exit\"}";

/// Runs a server.
pub fn run<R: Read, W: Write>(
    alloc: Global,
    reader: &mut Counted<R>,
    writer: &mut Counted<W>,
) -> End {
    run_server(alloc, Hashing::by(1), reader, writer)
}

/// Asserts that two values of a row are the same.
pub fn assert_same<T: PartialEq + Debug>(rt: &impl Abort, at: usize, got: &T, want: &T) {
    assert_eq!(rt; got, want, "row {at}");
}

/// Asserts that two texts of a row are the same. The one that is wanted is UTF-8.
pub fn assert_text(rt: &impl Abort, at: usize, got: &[u8], want: &[u8]) {
    assert_eq!(rt;
        str::from_utf8(got).ok(),
        str::from_utf8(want).ok(),
        "row {at}"
    );
}

/// Messages one behind another, each in its frame.
pub fn framed(rt: &impl Abort, alloc: Global, messages: &[&str]) -> Vec<u8> {
    let mut text = Vec::new(alloc);
    for message in messages {
        push_frame(&mut text, message.as_bytes()).expect(rt, "memory");
    }
    text
}

/// Serves what a reader gives, and asserts how the server ends and what it says.
pub fn assert_served<R: Read>(
    rt: &impl Abort,
    alloc: Global,
    at: usize,
    reader: &mut Counted<R>,
    want: ServerRun<'_>,
) {
    let mut writer = Counted::new(Vec::new(alloc));
    assert_same(rt, at, &run(alloc, reader, &mut writer), want.end);
    let text = writer.into_inner();
    assert_text(rt, at, &text, want.said);
    drop(text);
}

/// Has the conversation of a row, all bytes of which come at once.
pub fn assert_row(rt: &impl Abort, alloc: Global, at: usize, row: &ConversationRow) {
    let (messages, end, said) = row;
    let input = framed(rt, alloc, messages);
    let want = framed(rt, alloc, said);
    let mut reader = Counted::new(input.as_slice());
    assert_served(rt, alloc, at, &mut reader, ServerRun { end, said: &want });
    drop(want);
    drop(input);
}

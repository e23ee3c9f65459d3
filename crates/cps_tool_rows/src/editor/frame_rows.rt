//! Messages of a stream: by the base protocol of the Language Server Protocol.
use super::assertions::{assert_row, push_ended};
use cps_rpc::{Stream, StreamFault, push_frame};
use std::alloc::Global;
use std::process::Abort;

/// Appends a message behind what stands there, and asserts the text that there is then.
fn assert_frame(rt: &impl Abort, alloc: Global, front: &[u8], message: &[u8], want: &str) {
    let mut text = Vec::new(alloc);
    text.extend_from_slice(front).expect(rt, "memory");
    push_frame(&mut text, message).expect(rt, "memory");
    assert_row(rt, 0, &text, want);
    drop(text);
}

/// A message alone, and one behind another. The length counts bytes: the first character of that text has two.
#[test]
fn writes_a_frame(rt: HostRuntime) {
    assert_frame(&rt, rt.alloc(), b"", b"{}", "Content-Length: 2\r\n\r\n{}");
    let front = b"Content-Length: 1\r\n\r\n0";
    let want = "Content-Length: 1\r\n\r\n0Content-Length: 12\r\n\r\n\"\u{E9}23456789\"";
    assert_frame(&rt, rt.alloc(), front, b"\"\xC3\xA923456789\"", want);
}

/// Takes messages, three at most, each told on a line, and then tells why no further one is given.
fn tell_messages(rt: &impl Abort, stream: &mut Stream, told: &mut Vec<u8>) {
    for _ in 0..3 {
        match stream.take() {
            Ok(Some(message)) => {
                push_ended(rt, told, &message, b'\n');
                drop(message);
            }
            Ok(None) => return push_ended(rt, told, b"part", b'\n'),
            Err(StreamFault::BadHeader) => return push_ended(rt, told, b"bad header", b'\n'),
            Err(StreamFault::Memory) => return push_ended(rt, told, b"no memory", b'\n'),
        }
    }
}

/// Asserts what is told of a stream whenever a piece of it has come.
fn assert_told(rt: &impl Abort, alloc: Global, at: usize, pieces: &[&[u8]], want: &str) {
    let mut stream = Stream::new(alloc);
    let mut told = Vec::new(alloc);
    for piece in pieces {
        stream.extend(piece).expect(rt, "memory");
        tell_messages(rt, &mut stream, &mut told);
    }
    assert_row(rt, at, &told, want);
    drop(told);
    drop(stream);
}

/// Pieces of streams.
const PIECES: [(&[&[u8]], &str); 6] = [
    // a part of a message stays until the rest comes
    (&[b"Content-Length: 2\r\n\r\n{", b"}"], "part\n{}\npart\n"),
    // the length counts bytes: this character has two
    (
        &[b"Content-Length: 4\r\n\r\n\"\xC3\xA9\""],
        "\"\u{E9}\"\npart\n",
    ),
    // the second length doesn't count
    (
        &[b"Content-Length: 2\r\nContent-Length: 3\r\n\r\n{}"],
        "{}\npart\n",
    ),
    // a message of no bytes
    (&[b"Content-Length: 0\r\n\r\n"], "\npart\n"),
    // a header without a length stays
    (
        &[b"Content-Type: text/plain\r\n\r\n{}", b""],
        "bad header\nbad header\n",
    ),
    // no name of a field begins with a brace; the message in front was taken
    (
        &[b"Content-Length: 1\r\n\r\n0{}\r\n\r\n", b"\r\n"],
        "0\nbad header\nbad header\n",
    ),
];

#[test]
fn takes_pieces(rt: HostRuntime) {
    for (at, (pieces, want)) in PIECES.iter().enumerate() {
        assert_told(&rt, rt.alloc(), at, pieces, want);
    }
}

/// Two messages, which end behind 80 and 104 bytes.
const TWO: &[u8] =
    b"Content-Length: 2\r\nContent-Type: application/vscode-jsonrpc; charset=utf-8\r\n\r\n{}\
CONTENT-LENGTH: 3\r\n\r\n[1]";

/// A message that comes behind them. Its header is one only if nothing was left in front.
const THIRD: &[u8] = b"Content-Length: 1\r\n\r\n0";

/// What is told where the first piece has so many bytes of them.
fn told_at(cut: usize) -> &'static str {
    match cut {
        0..=79 => "part\n{}\n[1]\npart\n0\npart\n",
        80..=103 => "{}\npart\n[1]\npart\n0\npart\n",
        _ => "{}\n[1]\npart\npart\n0\npart\n",
    }
}

/// However two messages are cut into two pieces, they are given as soon as they have come, and nothing is left.
#[test]
fn takes_two_messages_at_each_cut(rt: HostRuntime) {
    for cut in 0..=TWO.len() {
        let (front, behind) = TWO.split_at(cut);
        let pieces = [front, behind, THIRD];
        assert_told(&rt, rt.alloc(), cut, &pieces, told_at(cut));
    }
}

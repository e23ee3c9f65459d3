//! Calls of the program whose devices fail, and of its server.
use super::assertions::{assert_bytes, assert_same};
use cps_rows::{SlowReader, SlowWriter};
use cps_state::Hashing;
use cps_text::Counted;
use cps_tool::{Host, run_words};
use std::alloc::Global;
use std::io::{Read, Write};
use std::process::Abort;

/// What a call gives: its status, and what is written and told.
#[derive(Drop)]
pub struct Ending {
    pub status: u8,
    pub written: Vec<u8>,
    pub told: Vec<u8>,
}

pub fn call_with<R: Read>(alloc: Global, words: &[&str], reader: &mut Counted<R>) -> Ending {
    let mut writer = Counted::new(Vec::new(alloc));
    let mut errors = Counted::new(Vec::new(alloc));
    let status = call_into(alloc, words, reader, &mut writer, &mut errors);
    Ending {
        status,
        written: writer.into_inner(),
        told: errors.into_inner(),
    }
}

/// Makes a call with devices. Only here the program is called.
pub fn call_into<R: Read, W: Write, E: Write>(
    alloc: Global,
    words: &[&str],
    reader: &mut Counted<R>,
    writer: &mut Counted<W>,
    errors: &mut Counted<E>,
) -> u8 {
    let host = Host {
        alloc,
        hashing: Hashing::by(1),
        files: (),
    };
    run_words(&host, words, reader, writer, errors)
}

/// Asserts the status of a call, and what is written and told.
pub fn assert_call(rt: &impl Abort, got: &Ending, status: u8, written: &str, told: &str) {
    assert_same(rt, "the status", &got.status, &status);
    assert_bytes(rt, "what is written", &got.written, written);
    assert_bytes(rt, "what is told", &got.told, told);
}

/// A read that fails: of a script the replies up to there stand, of a source nothing is written.
#[test]
fn tells_failed_reads(rt: HostRuntime) {
    const ROWS: [(&[&str], &str); 2] = [
        (&["compass", "session"], "ok 1 lines\n"),
        (&["compass", "batch"], ""),
    ];
    for (words, written) in ROWS.iter() {
        let mut reader = Counted::new(SlowReader {
            rest: b"a\nb",
            fails: true,
        });
        let got = call_with(rt.alloc(), words, &mut reader);
        assert_call(&rt, &got, 2, written, "read fault\n");
    }
}

/// Asserts what is told of a call whose writer takes nothing, where the error writer has that much room.
fn assert_told(rt: &impl Abort, alloc: Global, words: &[&str], room: usize, told: &str) {
    let mut reader = Counted::new(b"a A\n".as_slice());
    let mut writer = Counted::new(full(alloc, 0));
    let mut errors = Counted::new(full(alloc, room));
    let status = call_into(alloc, words, &mut reader, &mut writer, &mut errors);
    assert_same(rt, "the status", &status, &2);
    assert_bytes(rt, "what is told", &errors.into_inner().taken, told);
}

/// A writer that is full after so many bytes.
pub fn full(alloc: Global, room: usize) -> SlowWriter {
    SlowWriter {
        taken: Vec::new(alloc),
        room,
    }
}

/// Where help can't be written that is told; where nothing can be told the status is still 2.
#[test]
fn tells_failed_writes(rt: HostRuntime) {
    const ROWS: [(&[&str], usize, &str); 5] = [
        (&["compass", "--help"], 99, "write fault\n"),
        (&["compass", "--help"], 5, "write"),
        (&["compass", "session"], 99, "write fault\n"),
        (&["compass", "batch"], 99, "write fault\n"),
        (&["compass", "other"], 0, ""),
    ];
    for (words, room, told) in ROWS.iter() {
        assert_told(&rt, rt.alloc(), words, *room, told);
    }
}

/// An editor that sends nothing is told nothing. Where it sends no message, that is told: its header tells no length, or a name
/// of a field begins with a brace.
#[test]
fn answers_an_editor(rt: HostRuntime) {
    const ROWS: [(&[u8], u8, &str); 3] = [
        (b"", 1, ""),
        (b"x: \n\n", 2, "bad header\n"),
        (b"{}\n\n", 2, "bad header\n"),
    ];
    for (input, status, told) in ROWS.iter() {
        let mut reader = Counted::new(*input);
        let got = call_with(rt.alloc(), &["compass", "server"], &mut reader);
        assert_call(&rt, &got, *status, "", told);
    }
}

/// An editor that can't be read.
#[test]
fn tells_an_editor_that_fails(rt: HostRuntime) {
    let mut reader = Counted::new(SlowReader {
        rest: b"",
        fails: true,
    });
    let got = call_with(rt.alloc(), &["compass", "server", "--stdio"], &mut reader);
    assert_call(&rt, &got, 2, "", "read fault\n");
}

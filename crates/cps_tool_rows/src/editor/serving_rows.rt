//! What a server says, however its input comes, and where a read or a write fails.
use super::assertions::{assert_row, assert_same};
use crate::assertions::assert_taken;
use cps_rows::{FailsAt, SlowReader, SlowWriter};
use cps_rpc::{ServerFault, Service, push_frame, serve};
use cps_text::Counted;
use std::alloc::{AllocError, Global};
use std::io::{Read, Write};
use std::process::Abort;

/// A service that says each message twice, but nothing to one of no bytes, and ends behind the message `end`.
#[derive(Drop)]
struct Echo {
    has_ended: bool,
}

impl Service for Echo {
    ghost use Rattle.std.specs.Prelude.{⊤};

    ghost answers = { λ _ _ _ _. ⊤ };

    ghost has_ended = { λ echo. echo.has_ended };

    fn answer(&mut self, message: &[u8], said: &mut Vec<u8>) -> Result<(), AllocError> {
        self.has_ended = message == b"end".as_slice();
        if message.is_empty() {
            return Ok(());
        }
        push_frame(said, message)?;
        push_frame(said, message)
    }

    fn has_ended(&self) -> bool {
        self.has_ended
    }
}

/// Serves by an echo. Only here a server is run.
fn run<R: Read, W: Write>(
    alloc: Global,
    reader: &mut Counted<R>,
    writer: &mut Counted<W>,
) -> Result<(), ServerFault> {
    let mut echo = Echo { has_ended: false };
    serve(alloc, &mut echo, reader, writer)
}

/// How serving ends, and what is said.
type EchoRun = (Result<(), ServerFault>, &'static str);

/// Serves what a reader gives, and asserts what comes of it.
fn assert_served<R: Read>(
    rt: &impl Abort,
    alloc: Global,
    at: usize,
    reader: &mut Counted<R>,
    want: EchoRun,
) {
    let (end, said) = want;
    let mut writer = Counted::new(Vec::new(alloc));
    assert_same(rt, at, &run(alloc, reader, &mut writer), &end);
    let text = writer.into_inner();
    assert_row(rt, at, &text, said);
    drop(text);
}

/// Inputs, what comes of serving them, and the number of reads where all bytes come at once and where each comes alone.
const INPUTS: [(&[u8], EchoRun, [u64; 2]); 6] = [
    (b"", (Ok(()), ""), [1, 1]),
    (TWO, (Ok(()), SAID), [2, 46]),
    // nothing is said to a message of no bytes
    (
        b"Content-Length: 0\r\n\r\nContent-Length: 1\r\n\r\nA",
        (Ok(()), SAID_TO_FIRST),
        [2, 44],
    ),
    // behind the message that ends the service nothing is read or answered
    (
        b"Content-Length: 3\r\n\r\nendContent-Length: 1\r\n\r\nA",
        (
            Ok(()),
            "Content-Length: 3\r\n\r\nendContent-Length: 3\r\n\r\nend",
        ),
        [1, 24],
    ),
    // no name of a field begins with a brace; the answer to the message in front is whole
    (
        b"Content-Length: 1\r\n\r\nA{}Content-Length: 1\r\n\r\nA",
        (Err(ServerFault::BadHeader), SAID_TO_FIRST),
        [1, 23],
    ),
    // the input ends within the second message
    (
        b"Content-Length: 1\r\n\r\nAContent-Length: 2\r\n\r\nB",
        (Ok(()), SAID_TO_FIRST),
        [2, 45],
    ),
];

/// Two messages, which end behind 22 and 45 bytes.
const TWO: &[u8] = b"Content-Length: 1\r\n\r\nAContent-Length: 2\r\n\r\nBC";

const SAID_TO_FIRST: &str = "Content-Length: 1\r\n\r\nAContent-Length: 1\r\n\r\nA";

/// What is said to both: 44 bytes to the first, and 46 to the second.
const SAID: &str = "Content-Length: 1\r\n\r\nAContent-Length: 1\r\n\r\nA\
Content-Length: 2\r\n\r\nBCContent-Length: 2\r\n\r\nBC";

#[test]
fn serves_bytes_that_come_at_once(rt: HostRuntime) {
    for (at, (input, want, reads)) in INPUTS.iter().enumerate() {
        let mut reader = Counted::new(*input);
        assert_served(&rt, rt.alloc(), at, &mut reader, *want);
        assert_same(&rt, at, &reader.calls(), &reads[0]);
    }
}

#[test]
fn serves_bytes_that_come_alone(rt: HostRuntime) {
    for (at, (input, want, reads)) in INPUTS.iter().enumerate() {
        let mut reader = Counted::new(SlowReader {
            rest: input,
            fails: false,
        });
        assert_served(&rt, rt.alloc(), at, &mut reader, *want);
        assert_same(&rt, at, &reader.calls(), &reads[1]);
    }
}

/// What is said to the two messages where so many bytes of them have come.
fn said_to(came: usize) -> &'static str {
    match came {
        0..=21 => "",
        22..=44 => SAID_TO_FIRST,
        _ => SAID,
    }
}

/// At each read in turn, the one at the end too: what has come whole is answered, and the failed device is not tried again.
#[test]
fn tells_a_failed_read(rt: HostRuntime) {
    for (came, failing) in (1..=46).enumerate() {
        let mut reader = Counted::new(FailsAt::new(TWO, failing));
        let want = (Err(ServerFault::ReadFault), said_to(came));
        assert_served(&rt, rt.alloc(), came, &mut reader, want);
        assert_same(&rt, came, &reader.calls(), &failing);
    }
}

/// Serves the two messages to a writer that has room for these bytes, and asserts that it takes them.
fn assert_failed_write(rt: &impl Abort, alloc: Global, front: &[u8]) {
    let room = front.len();
    let mut reader = Counted::new(TWO);
    let mut writer = Counted::new(SlowWriter {
        taken: Vec::new(alloc),
        room,
    });
    let end = run(alloc, &mut reader, &mut writer);
    assert_same(rt, room, &end, &Err(ServerFault::WriteFault));
    assert_taken(rt, writer, front);
}

/// At each write in turn: a front of what is said stands, and the failed device is not tried again.
#[test]
fn tells_a_failed_write(rt: HostRuntime) {
    let said = SAID.as_bytes();
    for room in 0..said.len() {
        assert_failed_write(&rt, rt.alloc(), &said[..room]);
    }
}

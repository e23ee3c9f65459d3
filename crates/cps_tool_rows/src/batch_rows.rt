//! Sources that are read whole.
use super::assertions::{assert_bytes, assert_same};
use super::running::{BatchRun, assemble_from, assemble_into};
use cps_batch::BatchFault;
use cps_list::Part;
use cps_rows::{Resuming, SlowReader, SlowWriter};
use cps_text::Counted;
use std::alloc::Global;
use std::process::Abort;

fn assert_written(
    rt: &impl Abort,
    how: &str,
    got: &BatchRun,
    want: Result<u32, BatchFault>,
    text: &str,
) {
    assert_same(rt, how, &got.end, &want);
    assert_bytes(rt, how, &got.text, text);
}

/// Assembles a source whose reader fails behind these bytes, and of which nothing is written.
fn assert_failed_read(rt: &impl Abort, alloc: Global, rest: &[u8]) {
    let calls = (rest.len() as u64).saturating_add(1);
    let mut reader = Counted::new(SlowReader { rest, fails: true });
    let mut writer = Counted::new(Vec::new(alloc));
    let end = assemble_into(alloc, &mut reader, &mut writer, Part::All);
    assert_same(rt, "the end", &end, &Err(BatchFault::ReadFault));
    assert_same(rt, "calls", &reader.calls(), &calls);
    assert_same(rt, "failures", &reader.failures(), &1);
    assert_same(rt, "idle calls", &reader.idle(), &1);
    assert_same(rt, "writes", &writer.calls(), &0);
}

/// A failed read goes before a wrong line: one with a wrong character, and one of 91 bytes.
#[test]
fn tells_a_failed_read(rt: HostRuntime) {
    const LONG: [u8; 91] = [b'X'; 91];
    assert_failed_read(&rt, rt.alloc(), b"`\n");
    assert_failed_read(&rt, rt.alloc(), &LONG);
}

/// At the end of the input nothing more is read, whatever would come.
#[test]
fn reads_nothing_after_the_end(rt: HostRuntime) {
    let mut reader = Counted::new(Resuming {
        text: b"  NO\n",
        has_given: false,
    });
    let got = assemble_from(rt.alloc(), &mut reader, Part::Binary);
    let want = "IDENT\n000000 46000000000000000000\n";
    assert_written(&rt, "the text", &got, Ok(0), want);
    assert_same(&rt, "calls", &reader.calls(), &2);
    assert_same(&rt, "idle calls", &reader.idle(), &1);
}

/// Assembles a source where a writer has that much room.
fn assert_failed_write(rt: &impl Abort, alloc: Global, room: usize, want: &[u8]) {
    let mut reader = Counted::new(b"*\nA".as_slice());
    let mut writer = Counted::new(SlowWriter {
        taken: Vec::new(alloc),
        room,
    });
    let end = assemble_into(alloc, &mut reader, &mut writer, Part::Flags);
    assert_same(rt, "the end", &end, &Err(BatchFault::WriteFault));
    assert_same(rt, "failures", &writer.failures(), &1);
    let taken = writer.into_inner().taken;
    assert_same(rt, "what is taken", &taken.as_slice(), &want);
}

/// At each write in turn: a front of the text stands, and the failed device is not tried again.
#[test]
fn tells_a_failed_write(rt: HostRuntime) {
    let whole = b"2 O\n1 flagged lines\n".as_slice();
    for room in 0..20 {
        assert_failed_write(&rt, rt.alloc(), room, &whole[..room]);
    }
}

/// One byte a call, read and written, changes nothing.
#[test]
fn assembles_byte_by_byte(rt: HostRuntime) {
    const SOURCE: &[u8] =
        b"         IDENT   T1\n         ORG     100B\n         SA1     B1+3\n         END\n";
    let mut reader = Counted::new(SlowReader {
        rest: SOURCE,
        fails: false,
    });
    let mut writer = Counted::new(SlowWriter {
        taken: Vec::new(rt.alloc()),
        room: 1_000,
    });
    let end = assemble_into(rt.alloc(), &mut reader, &mut writer, Part::Binary);
    assert_same(&rt, "the end", &end, &Ok(0));
    let text = "IDENT T1\n000100 51110000034600046000\n";
    assert_bytes(&rt, "the text", &writer.into_inner().taken, text);
}

//! Reads and writes that fail.
use super::assertions::assert_same;
use super::running::{ALL, run_between};
use crate::readers::SlowReader;
use crate::writers::SlowWriter;
use cps_compare::OctalFault;
use cps_input::InputFault;
use cps_text::Counted;
use std::alloc::Global;
use std::process::Abort;

const OCTAL: &[u8] = b"000100 00000000000000000001\n";

const SOURCE: &[u8] = b"          ORG     100B\n          DATA    1\n";

/// What is told of these two.
const TOLD: &[u8] =
    b"compared: 20 digits of 1 words, in 1 rows\n0 of 1 words differ (000100 to 000100)\n";

/// Where a read of the octal text fails the source isn't read.
#[test]
fn tells_a_failed_read_of_the_octal_text(rt: HostRuntime) {
    let mut octal = Counted::new(SlowReader {
        rest: OCTAL,
        fails: true,
    });
    let mut source = Counted::new(SOURCE);
    let mut writer = Counted::new(Vec::new(rt.alloc()));
    let end = run_between(rt.alloc(), ALL, &mut octal, &mut source, &mut writer);
    assert_same(&rt, "the end", &end, &Err(OctalFault::ReadFault));
    assert_same(&rt, "reads of the octal text", &octal.calls(), &29);
    assert_same(&rt, "reads of the source", &source.calls(), &0);
    assert_same(&rt, "writes", &writer.calls(), &0);
}

/// Where a read of the source fails the octal text was read to its end.
#[test]
fn tells_a_failed_read_of_the_source(rt: HostRuntime) {
    let mut octal = Counted::new(OCTAL);
    let mut source = Counted::new(SlowReader {
        rest: b"`\n",
        fails: true,
    });
    let mut writer = Counted::new(Vec::new(rt.alloc()));
    let end = run_between(rt.alloc(), ALL, &mut octal, &mut source, &mut writer);
    let want = Err(OctalFault::Source(InputFault::ReadFault));
    assert_same(&rt, "the end", &end, &want);
    assert_same(&rt, "reads of the octal text", &octal.calls(), &2);
    assert_same(&rt, "reads of the source", &source.calls(), &3);
    assert_same(&rt, "writes", &writer.calls(), &0);
}

fn assert_failed_write(rt: &impl Abort, alloc: Global, room: usize, want: &[u8]) {
    let mut octal = Counted::new(OCTAL);
    let mut source = Counted::new(SOURCE);
    let mut writer = Counted::new(SlowWriter {
        taken: Vec::new(alloc),
        room,
    });
    let end = run_between(alloc, ALL, &mut octal, &mut source, &mut writer);
    assert_same(rt, "the end", &end, &Err(OctalFault::WriteFault));
    assert_same(rt, "failures", &writer.failures(), &1);
    let taken = writer.into_inner().taken;
    assert_same(rt, "what is taken", &taken.as_slice(), &want);
}

/// At each write in turn: a front of the text stands, and the failed device is not tried again.
#[test]
fn tells_a_failed_write(rt: HostRuntime) {
    for room in 0..TOLD.len() {
        assert_failed_write(&rt, rt.alloc(), room, &TOLD[..room]);
    }
}

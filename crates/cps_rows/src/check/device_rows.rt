//! Inputs that fail, and outputs.
use super::assertions::assert_end;
use super::running::run;
use crate::readers::SlowReader;
use crate::writers::SlowWriter;
use cps_check::CheckFault;
use cps_text::Counted;
use std::alloc::Global;
use std::process::Abort;

/// Where a read fails nothing is written.
#[test]
fn tells_a_failed_read(rt: HostRuntime) {
    let mut reader = Counted::new(SlowReader {
        rest: b"A\n",
        fails: true,
    });
    let mut writer = Counted::new(Vec::new(rt.alloc()));
    let end = run(rt.alloc(), &mut reader, &mut writer);
    assert_end(&rt, end, Err(CheckFault::ReadFault));
    assert_eq!(rt; writer.calls(), 0);
}

/// Checks a source of which something is told, where a writer has that much room.
fn assert_failed_write(rt: &impl Abort, alloc: Global, room: usize, want: &[u8]) {
    let mut reader = Counted::new(b"TAG".as_slice());
    let mut writer = Counted::new(SlowWriter {
        taken: Vec::new(alloc),
        room,
    });
    let end = run(alloc, &mut reader, &mut writer);
    assert_end(rt, end, Err(CheckFault::WriteFault));
    assert_eq!(rt; writer.failures(), 1);
    let taken = writer.into_inner().taken;
    assert_eq!(rt; taken.as_slice(), want);
}

/// At writes here and there: a front of the text stands, and the failed device is not tried again.
#[test]
fn tells_a_failed_write(rt: HostRuntime) {
    let whole =
        b"a.cps:1:1: error: O: no operation stands behind TAG\n    1 | TAG\n      | ^^^\n".as_slice();
    for room in 0..whole.len() {
        assert_failed_write(&rt, rt.alloc(), room, &whole[..room]);
    }
}

//! What is done with readers and writers that are slow or fail, and what is counted of them.
use super::assertions::{assert_bytes, assert_same};
use super::running::{ScriptRun, run};
use cps_rows::{FailsAt, Idle, Noting, Resuming, SlowReader, SlowWriter, TellingWriter};
use cps_text::Counted;
use cps_tool::RunFault;
use std::alloc::Global;
use std::cell::Cell;
use std::process::Abort;

/// Asserts how a run ended, how many lines the source has, and how the first begins.
fn assert_ran(
    rt: &impl Abort,
    ran: &ScriptRun,
    end: Result<u32, RunFault>,
    count: u32,
    first: Option<u8>,
) {
    assert_same(rt, "the end", &ran.end, &end);
    assert_same(rt, "lines", &ran.count, &count);
    assert_same(rt, "the first byte", &ran.first, &first);
}

/// Runs a script where a writer has that much room.
fn assert_failed_write(rt: &impl Abort, alloc: Global, room: usize, want: &[u8]) {
    let mut reader = Counted::new(b"a X\nbinary\na\n".as_slice());
    let mut writer = Counted::new(SlowWriter {
        taken: Vec::new(alloc),
        room,
    });
    let ran = run(alloc, &mut reader, &mut writer);
    assert_ran(rt, &ran, Err(RunFault::WriteFault), 1, Some(b'X'));
    assert_same(rt, "failures", &writer.failures(), &1);
    let taken = writer.into_inner().taken;
    assert_same(rt, "what is taken", &taken.as_slice(), &want);
}

#[test]
fn stops_at_a_failed_write(rt: HostRuntime) {
    let whole = b"ok 1 lines\nIDENT\n".as_slice();
    for room in 0..15 {
        assert_failed_write(&rt, rt.alloc(), room, &whole[..room]);
    }
}

#[test]
fn stops_at_a_failed_read(rt: HostRuntime) {
    const ROWS: [(&[u8], u32, Option<u8>, &str); 2] = [
        (b"a X", 0, None, ""),
        (b"a X\n", 1, Some(b'X'), "ok 1 lines\n"),
    ];
    for (rest, count, first, replies) in ROWS.iter() {
        let mut reader = Counted::new(SlowReader {
            rest: *rest,
            fails: true,
        });
        let mut writer = Counted::new(Vec::new(rt.alloc()));
        let ran = run(rt.alloc(), &mut reader, &mut writer);
        assert_ran(&rt, &ran, Err(RunFault::ReadFault), *count, *first);
        assert_same(&rt, "failures", &reader.failures(), &1);
        assert_bytes(&rt, "the replies", &writer.into_inner(), replies);
    }
}

#[test]
fn counts_a_write_that_takes_nothing(rt: HostRuntime) {
    let mut writer = Counted::new(Idle);
    assert_same(&rt, "nothing", &writer.write(&[]), &Some(0));
    assert_same(&rt, "no failure", &writer.failures(), &0);
    assert_same(&rt, "an idle call", &writer.idle(), &1);
    assert_same(&rt, "a byte", &writer.write(b"X"), &None);
    assert_same(&rt, "a failure", &writer.failures(), &1);
    assert_same(&rt, "idle calls", &writer.idle(), &2);
    assert_same(&rt, "calls", &writer.calls(), &2);
}

#[test]
fn replies_before_it_reads_on(rt: HostRuntime) {
    let written = Cell::new(0);
    let mut reader = Counted::new(Noting {
        lines: &[b"a\n", b"list \n", b"a\n"],
        written: &written,
        seen: Vec::new(rt.alloc()),
    });
    let mut writer = Counted::new(TellingWriter { written: &written });
    let ran = run(rt.alloc(), &mut reader, &mut writer);
    assert_ran(&rt, &ran, Ok(0), 2, None);
    let seen = reader.into_inner().seen;
    assert_same(&rt, "bytes", &seen.as_slice(), &[0, 11, 33, 44].as_slice());
}

/// Calls, failures, calls that moved no byte, and bytes of the last call.
type DeviceCounts = (u64, u64, u64, usize);

/// Asserts what is counted of a device, and that the device counted the same.
fn assert_counts(rt: &impl Abort, counted: Counted<FailsAt<'_>>, want: DeviceCounts) {
    let got = (
        counted.calls(),
        counted.failures(),
        counted.idle(),
        counted.moved(),
    );
    assert_same(rt, "counts", &got, &want);
    let device = counted.into_inner();
    let got = (device.calls, device.failures);
    assert_same(rt, "the device's counts", &got, &(want.0, want.1));
}

#[test]
fn counts_what_the_devices_count(rt: HostRuntime) {
    // The script, the failing read and write, the end, and of the reader and the writer what is counted. The read behind `quit` and its
    // newline would fail, and isn't made.
    const ROWS: [(
        &[u8],
        u64,
        u64,
        Result<u32, RunFault>,
        DeviceCounts,
        DeviceCounts,
    ); 6] = [
        (b"x\nquit\nx\n", 0, 0, Ok(0), (7, 0, 0, 1), (22, 0, 0, 1)),
        (b"x\nquit\nx\n", 8, 0, Ok(0), (7, 0, 0, 1), (22, 0, 0, 1)),
        (b"x\n", 0, 0, Ok(0), (3, 0, 1, 0), (22, 0, 0, 1)),
        (
            b"x\nquit\nx\n",
            4,
            0,
            Err(RunFault::ReadFault),
            (4, 1, 1, 0),
            (22, 0, 0, 1),
        ),
        (
            b"x\nquit\nx\n",
            0,
            3,
            Err(RunFault::WriteFault),
            (2, 0, 0, 1),
            (3, 1, 1, 0),
        ),
        (
            b"",
            1,
            0,
            Err(RunFault::ReadFault),
            (1, 1, 1, 0),
            (0, 0, 0, 0),
        ),
    ];
    for (script, failing_read, failing_write, want, reads, writes) in ROWS.iter() {
        let mut reader = Counted::new(FailsAt::new(script, *failing_read));
        let mut writer = Counted::new(FailsAt::new(b"", *failing_write));
        let ran = run(rt.alloc(), &mut reader, &mut writer);
        assert_same(&rt, "the end", &ran.end, want);
        assert_counts(&rt, reader, *reads);
        assert_counts(&rt, writer, *writes);
    }
}

/// At the end of the input nothing more is read, whatever would come.
#[test]
fn reads_nothing_after_the_end(rt: HostRuntime) {
    let mut reader = Counted::new(Resuming {
        text: b"a\na",
        has_given: false,
    });
    let mut writer = Counted::new(Vec::new(rt.alloc()));
    let ran = run(rt.alloc(), &mut reader, &mut writer);
    assert_ran(&rt, &ran, Ok(0), 2, None);
    assert_same(&rt, "calls", &reader.calls(), &2);
    assert_same(&rt, "idle calls", &reader.idle(), &1);
    let replies = "ok 1 lines\nok 2 lines\n";
    assert_bytes(&rt, "the replies", &writer.into_inner(), replies);
}

/// One byte a call, read and written, changes nothing.
#[test]
fn goes_byte_by_byte(rt: HostRuntime) {
    const SCRIPT: &[u8] =
        b"a          IDENT   T1\na          ORG     100B\na          SA1     B1+3\na          END\nbinary\n";
    let mut reader = Counted::new(SlowReader {
        rest: SCRIPT,
        fails: false,
    });
    let mut writer = Counted::new(SlowWriter {
        taken: Vec::new(rt.alloc()),
        room: 1_000,
    });
    let ran = run(rt.alloc(), &mut reader, &mut writer);
    assert_ran(&rt, &ran, Ok(0), 4, Some(b' '));
    let replies =
        "ok 1 lines\nok 2 lines\nok 3 lines\nok 4 lines\nIDENT T1\n000100 51110000034600046000\n";
    assert_bytes(&rt, "the replies", &writer.into_inner().taken, replies);
}

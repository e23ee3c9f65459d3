//! Readers that give one byte a call and never end: the call that would be one too many counts as a read that failed. Built by LLVM each
//! test takes half a second, and by `rt try --test` a minute or two, so give that `--seconds 300`.
use super::assertions::assert_same;
use super::running::{assemble_into, run};
use cps_batch::BatchFault;
use cps_list::Part;
use cps_rows::{Endless, Tallying};
use cps_text::Counted;
use cps_tool::RunFault;
use std::alloc::Global;
use std::process::Abort;

/// A batch or a script reads so many times.
const MOST_READS: u64 = 16_777_216;

/// Asserts that so many reads were made, and that none failed.
fn assert_reads(rt: &impl Abort, reader: &Counted<Endless>) {
    assert_same(rt, "reads", &reader.calls(), &MOST_READS);
    assert_same(rt, "failed reads", &reader.failures(), &0);
}

/// Assembles a source of this byte alone, of which nothing is written.
fn assert_nothing_written(rt: &impl Abort, alloc: Global, byte: u8) {
    let mut reader = Counted::new(Endless { byte });
    let mut writer = Counted::new(Vec::new(alloc));
    let end = assemble_into(alloc, &mut reader, &mut writer, Part::All);
    assert_same(rt, "the end", &end, &Err(BatchFault::ReadFault));
    assert_reads(rt, &reader);
    assert_same(rt, "writes", &writer.calls(), &0);
}

#[test]
fn a_source_of_blanks_is_read_in_vain(rt: HostRuntime) {
    assert_nothing_written(&rt, rt.alloc(), b' ');
}

#[test]
fn a_source_of_empty_lines_is_read_in_vain(rt: HostRuntime) {
    assert_nothing_written(&rt, rt.alloc(), b'\n');
}

/// Each line of a script is answered that was read.
#[test]
fn a_script_of_empty_lines_is_answered_line_by_line(rt: HostRuntime) {
    let mut reader = Counted::new(Endless { byte: b'\n' });
    let mut writer = Counted::new(Tallying {
        text: b"refused 5 bad command\n",
        times: 0,
        others: 0,
    });
    let ran = run(rt.alloc(), &mut reader, &mut writer);
    assert_same(&rt, "the end", &ran.end, &Err(RunFault::ReadFault));
    assert_reads(&rt, &reader);
    let replies = writer.into_inner();
    let got = (replies.times, replies.others);
    assert_same(&rt, "replies", &got, &(MOST_READS, 0));
}

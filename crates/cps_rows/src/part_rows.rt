//! The texts of a session, one by one and all at once.
use super::edit_rows::insert;
use super::text_assertions::{assert_row, assert_same};
use crate::writers::{Idle, SlowWriter};
use cps_list::{
    ListFault, Part, View, write_all_parts, write_binary, write_flags, write_listing, write_symbols,
};
use cps_live::Session;
use cps_state::{Hashing, Work};
use cps_text::Counted;
use std::alloc::{AllocError, Global};
use std::io::Write;
use std::process::Abort;

const PROGRAM: &str = "         IDENT   T1
         ABS
         ORG     100B
START    SA1     B1+3
         SX6     X1
         SA6     A1
         EQ      START
         END
";

const LISTING: &str = "                                          1          IDENT   T1
                                          2          ABS
         000100                           3          ORG     100B
         000100 5111000003                4 START    SA1     B1+3
         000100 73610                     5          SX6     X1
         000100 54610                     6          SA6     A1
         000101 0400000100                7          EQ      START
                                          8          END
";

const BINARY: &str = "IDENT T1\n000100 51110000037361054610\n000101 04000001004600046000\n";

const SYMBOLS: &str = "START    00000000000000000100 4 7\n";

const FLAGS: &str = "0 flagged lines\n";

/// All texts of the program.
fn whole_text(alloc: Global) -> Result<String, AllocError> {
    format!(in alloc; "{LISTING}{BINARY}{SYMBOLS}{FLAGS}")
}

/// Writes a part of a view's texts.
fn write_view<V: View, W: Write>(
    alloc: Global,
    view: &V,
    part: Part,
    writer: &mut Counted<W>,
) -> Result<(), ListFault> {
    match part {
        Part::Listing => write_listing(alloc, view, writer),
        Part::Binary => write_binary(alloc, view, writer),
        Part::Symbols => write_symbols(alloc, view, writer),
        Part::Flags => write_flags(alloc, view, writer),
        Part::All => write_all_parts(alloc, view, writer),
    }
}

/// Enters lines after the last one. Where there is no memory one is missing.
pub fn enter_source(alloc: Global, session: &mut Session, source: &str) {
    for text in source.lines() {
        let after = session.count();
        let _ = insert(alloc, session, &mut Work::new(), after, text.as_bytes());
    }
}

/// Writes a part of a source's texts from a session.
fn write_session<W: Write>(
    alloc: Global,
    source: &str,
    part: Part,
    writer: &mut Counted<W>,
) -> Result<(), ListFault> {
    let mut session = Session::new(alloc, Hashing::by(1));
    enter_source(alloc, &mut session, source);
    let done = write_view(alloc, &session, part, writer);
    drop(session);
    done
}

/// Asserts what is written of the program.
fn assert_part(rt: &impl Abort, alloc: Global, at: usize, part: Part, want: &str) {
    let mut writer = Counted::new(Vec::new(alloc));
    let done = write_session(alloc, PROGRAM, part, &mut writer);
    assert_same(rt, "the answer", &done, &Ok(()));
    assert_row(rt, at, "a text", &writer.into_inner(), want);
}

#[test]
fn writes_parts(rt: HostRuntime) -> Result<(), AllocError> {
    const ROWS: [(Part, &str); 4] = [
        (Part::Listing, LISTING),
        (Part::Binary, BINARY),
        (Part::Symbols, SYMBOLS),
        (Part::Flags, FLAGS),
    ];
    for (at, (part, want)) in ROWS.iter().enumerate() {
        assert_part(&rt, rt.alloc(), at, *part, want);
    }
    let whole = whole_text(rt.alloc())?;
    assert_part(&rt, rt.alloc(), 4, Part::All, &whole);
    Ok(())
}

/// Writes all texts of the program where a writer takes one byte a call and has that much room.
fn assert_failed_write(rt: &impl Abort, alloc: Global, room: usize, whole: &str) {
    let mut writer = Counted::new(SlowWriter {
        taken: Vec::new(alloc),
        room,
    });
    let done = write_session(alloc, PROGRAM, Part::All, &mut writer);
    let fails = room < whole.len();
    let want = if fails {
        Err(ListFault::WriteFault)
    } else {
        Ok(())
    };
    assert_same(rt, "the answer", &done, &want);
    let calls = (room as u64).saturating_add(u64::from(fails));
    assert_same(rt, "calls", &writer.calls(), &calls);
    let taken = writer.into_inner().taken;
    assert_same(rt, "taken", &taken.as_slice(), &front(whole, room));
}

fn front(whole: &str, room: usize) -> &[u8] {
    let (front, _) = whole.as_bytes().split_at(room.min(whole.len()));
    front
}

/// A failure at each call in turn: what was taken is a front of the texts, and nothing is written after it.
#[test]
fn stops_at_a_failed_write(rt: HostRuntime) -> Result<(), AllocError> {
    let whole = whole_text(rt.alloc())?;
    for room in 0..=whole.len() {
        assert_failed_write(&rt, rt.alloc(), room, &whole);
    }
    Ok(())
}

/// A writer that takes nothing counts as one that fails, at its first call.
#[test]
fn stops_where_nothing_is_taken(rt: HostRuntime) {
    let mut writer = Counted::new(Idle);
    let done = write_session(rt.alloc(), PROGRAM, Part::All, &mut writer);
    assert_same(&rt, "the answer", &done, &Err(ListFault::WriteFault));
    assert_same(&rt, "calls", &writer.calls(), &1);
    assert_same(&rt, "failures", &writer.failures(), &1);
}

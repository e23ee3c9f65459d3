//! What is told, and which files are placed.
use super::running::run;
use cps_words::Outputs;
use std::alloc::Global;
use std::process::Abort;

const PROGRAM: &str = "         IDENT   T1
         ABS
         ORG     100B
START    SA1     B1+3
         SX6     X1
         SA6     A1
         EQ      START
         END
";

const LISTING: &str = "                                          1          IDENT   T1
                                          2          ABS
         000100                           3          ORG     100B
         000100 5111000003                4 START    SA1     B1+3
         000100 73610                     5          SX6     X1
         000100 54610                     6          SA6     A1
         000101 0400000100                7          EQ      START
                                          8          END
";

const BINARY: &str = "IDENT T1\n000100 51110000037361054610\n000101 04000001004600046000\n";

const SYMBOLS: &str = "START    00000000000000000100 4 7\n";

const FLAGS: &str = "0 flagged lines\n";

/// A file: its name and its text.
type File = (&'static str, &'static str);

/// The files in the order in which they are placed.
const FILES: [File; 4] = [
    ("t1.list", LISTING),
    ("t1.oct", BINARY),
    ("t1.refs", SYMBOLS),
    ("t1.flags", FLAGS),
];

const ALL: Outputs<'static> = Outputs {
    listing: Some("t1.list"),
    binary: Some("t1.oct"),
    symbols: Some("t1.refs"),
    flags: Some("t1.flags"),
    page: None,
};

/// A call that fails, and what is told then.
type WriteRow = (u64, Option<&'static str>);

/// Asserts what is told where one call fails, and that these files are placed and no other, and no draft is left.
fn assert_row(
    rt: &impl Abort,
    alloc: Global,
    outputs: Outputs<'_>,
    row: &WriteRow,
    files: &[File],
) {
    let (failing, told) = *row;
    let ran = run(rt, alloc, PROGRAM, outputs, failing);
    assert_text(rt, failing, ran.told.as_deref(), told);
    assert_count(rt, failing, ran.waiting as usize, 0);
    assert_count(rt, failing, ran.placed.len(), files.len());
    for (placed, (name, text)) in ran.placed.iter().zip(files) {
        assert_text(rt, failing, Some(placed.name.as_str()), Some(*name));
        assert_text(rt, failing, str::from_utf8(&placed.bytes).ok(), Some(*text));
    }
    drop(ran);
}

fn assert_text(rt: &impl Abort, failing: u64, got: Option<&str>, want: Option<&str>) {
    assert_eq!(rt; got, want, "call {failing}");
}

fn assert_count(rt: &impl Abort, failing: u64, got: usize, want: usize) {
    assert_eq!(rt; got, want, "call {failing}, drafts or files");
}

/// Each text is made as a draft, written and flushed, the last one first: calls 1 to 12. No file is placed where one of these fails.
#[test]
fn places_nothing_after_a_failed_write(rt: HostRuntime) {
    const ROWS: [WriteRow; 12] = [
        (1, Some("cannot write t1.flags: No space left on device")),
        (2, Some("cannot write t1.flags: No space left on device")),
        (3, Some("cannot write t1.flags: No space left on device")),
        (4, Some("cannot write t1.refs: No space left on device")),
        (5, Some("cannot write t1.refs: No space left on device")),
        (6, Some("cannot write t1.refs: No space left on device")),
        (7, Some("cannot write t1.oct: No space left on device")),
        (8, Some("cannot write t1.oct: No space left on device")),
        (9, Some("cannot write t1.oct: No space left on device")),
        (10, Some("cannot write t1.list: No space left on device")),
        (11, Some("cannot write t1.list: No space left on device")),
        (12, Some("cannot write t1.list: No space left on device")),
    ];
    for row in ROWS.iter() {
        assert_row(&rt, rt.alloc(), ALL, row, &[]);
    }
}

/// The files are placed at calls 13 to 16. Those before a failed one stay.
#[test]
fn places_files_in_order(rt: HostRuntime) {
    const ROWS: [(WriteRow, usize); 6] = [
        (
            (13, Some("cannot write t1.list: No space left on device")),
            0,
        ),
        (
            (14, Some("cannot write t1.oct: No space left on device")),
            1,
        ),
        (
            (15, Some("cannot write t1.refs: No space left on device")),
            2,
        ),
        (
            (16, Some("cannot write t1.flags: No space left on device")),
            3,
        ),
        ((17, None), 4),
        ((0, None), 4),
    ];
    for (row, count) in ROWS.iter() {
        assert_row(&rt, rt.alloc(), ALL, row, &FILES[..*count]);
    }
}

#[test]
fn writes_what_is_wanted(rt: HostRuntime) {
    let binary = Outputs {
        binary: Some("t1.oct"),
        ..Outputs::none()
    };
    assert_row(&rt, rt.alloc(), binary, &(0, None), &FILES[1..2]);
    let page = Outputs {
        page: Some("t1.html"),
        ..Outputs::none()
    };
    assert_row(
        &rt,
        rt.alloc(),
        page,
        &(0, None),
        &[("t1.html", "A PAGE\n")],
    );
    assert_row(&rt, rt.alloc(), Outputs::none(), &(1, None), &[]);
}

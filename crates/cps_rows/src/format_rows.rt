//! Lines of which the fields go into columns. Where more than half of a deck's fields stand is worked out by hand in each row.
use super::rename::certified::edited;
use super::rename::renamed::lines_of;
use super::text_assertions::assert_row;
use crate::assertions;
use crate::mention::told::session_of;
use cps_mention::{LineRange, format_edits, is_same_unblanked};
use std::alloc::Global;
use std::process::Abort;

/// Lines of a source, the first and the last that may change, and those that do, from the last on.
type FormatRow = (&'static [&'static str], u32, u32, &'static str);

/// The lines that change, each behind its number and `:`.
fn formatted(alloc: Global, texts: &[&str], lines: LineRange) -> Option<Vec<u8>> {
    let session = session_of(alloc, texts)?;
    let edits = format_edits(alloc, &session, lines).ok()?;
    let after = edited(alloc, texts, &edits)?;
    lines_of(alloc, b"", &after, &edits).ok()
}

fn assert_formats(rt: &impl Abort, alloc: Global, rows: &[FormatRow]) {
    for (at, (deck, first, last, want)) in rows.iter().enumerate() {
        let lines = LineRange {
            first: *first,
            last: *last,
        };
        let got = formatted(alloc, deck, lines).expect(rt, "memory");
        assert_row(rt, at, "format", &got, want);
    }
}

const FORMATS: [FormatRow; 9] = [
    // fields in the usual columns, where more than half have none other; comments too; a comment's line stays
    (
        &[
            "          IDENT  PROG",
            "LOOP SA1 TABLE  COUNT THEM",
            "  SX2    B1+5   NEXT",
            " LONGNAME BSS 1",
            "TABLE      CON   1,2,3         WORDS",
            "* COMMENT   STAYS",
            "         END",
        ],
        1,
        99,
        "7:          END\n5:TABLE     CON    1,2,3       WORDS\n4: LONGNAME BSS    1\n3:          SX2    B1+5        NEXT\n2:LOOP      SA1    TABLE       COUNT THEM\n",
    ),
    // in those that more than half have
    (
        &[
            "       IDENT   PROG",
            "       SA1     B1             LOAD",
            "       SA2     B2             LOAD",
            "          SA3  B3    LOAD",
            "       END",
        ],
        1,
        99,
        "4:       SA3     B3             LOAD\n",
    ),
    // half is no more than half
    (
        &[
            "       SA1     B1",
            "       SA2     B2",
            "          SA3    B3",
            "          SA4    B4",
        ],
        1,
        99,
        "2:          SA2    B2\n1:          SA1    B1\n",
    ),
    // only lines of a range
    (
        &[
            "  SA1 B1",
            "  SA2 B2",
            "  SA3 B3",
            "  SA4 B4",
            "          SA5    B5",
            "          SA6    B6",
            "          SA7    B7",
            "          SX1    B1",
        ],
        2,
        3,
        "3:          SA3    B3\n2:          SA2    B2\n",
    ),
    // a comment one blank behind operands stays there; without operands it stays in column 30 or later
    (
        &[
            "  SA1 B1 LOAD",
            "  PS                             HALT",
            "          PS                 HALT",
            "          SA1    B1",
        ],
        1,
        99,
        "2:          PS                 HALT\n1:          SA1    B1 LOAD\n",
    ),
    // a comment moves to the left to end in column 72; without room the line stays
    (
        &[
            "  SA1 B1  ..................................................",
            "  SA1 B1  ....................................................",
            "          SA1    B1",
            "          SA1    B1",
        ],
        1,
        99,
        "1:          SA1    B1   ..................................................\n",
    ),
    // texts and arguments move whole; blanks at the end go
    (
        &[
            "  DIS 2,A  B C",
            "   TITLE A  B",
            "    M (A  B),C  NOTE",
            "     DATA 3HA B,1  NOTE",
            "      SA1  B1   ",
        ],
        1,
        99,
        "5:          SA1    B1\n4:          DATA   3HA B,1     NOTE\n3:          M      (A  B),C    NOTE\n2:          TITLE  A  B\n1:          DIS    2,A  B C\n",
    ),
    // columns 73 on stay; a long location leaves a blank
    (
        &[
            "  SA1 B1                                                                SEQ00010",
            "LONGLOCATION   SA1 B1",
            "          SA1    B1",
        ],
        1,
        99,
        "2:LONGLOCATION SA1 B1\n1:          SA1    B1                                                     SEQ00010\n",
    ),
    // what is no statement stays
    (&[", SA1 B1", "", "   ", "LABEL"], 1, 99, ""),
];

#[test]
fn formats_lines(rt: HostRuntime) {
    assert_formats(&rt, rt.alloc(), &FORMATS);
}

/// Two lines, and whether they have the same characters beside their blanks.
const BLANKS: [(&str, &str, bool); 6] = [
    ("", "", true),
    ("  ", "", true),
    (" SA1  B1", "SA1 B1 ", true),
    ("SA1 B1", "SA1B 1", true),
    ("SA1 B1", "SA1 B2", false),
    ("SA1 B1", "SB1 A1", false),
];

#[test]
fn compares_lines_without_blanks(rt: HostRuntime) {
    for (at, (was, is, want)) in BLANKS.iter().enumerate() {
        let got = is_same_unblanked(rt.alloc(), was.as_bytes(), is.as_bytes()).expect(
            &rt, "memory",
        );
        assertions::assert_row(&rt, at, &got, want);
    }
}

//! Sources that are made for octal texts: planted drafts, and why none is made.
use super::assertions::assert_row;
use cps_claims::{OctalFormat, read_octal};
use cps_disassembly::{Attempt, Selection, Wanted, try_draft};
use cps_draft::Draft;
use cps_expr::Machine;
use cps_state::Hashing;
use std::alloc::Global;
use std::process::Abort;

/// All words of the central processor.
const ALL: Selection = Selection {
    machine: Machine::Cp,
    format: OctalFormat::Rows,
    columns: None,
    from: None,
    to: None,
};

/// What is wanted of a draft: the addresses of words that are wrong or made by flagged lines, and the number of lines of no source.
#[derive(Debug, PartialEq, Eq)]
enum Found {
    Made,
    Failed(&'static [u32]),
    Unfit(usize),
}

/// Lines of a draft with the words that they make, and what is found.
type PlantedRow = (&'static [(&'static str, Option<u32>)], Found);

/// Two words.
const TWO: &str = "100 51110000037361054610\n101 00000000000000000007\n";

const PLANTED: &[PlantedRow] = &[
    (
        &[
            ("          IDENT  A", None),
            ("          ABS", None),
            ("          ORG    100B", None),
            ("          DATA   51110000037361054610B", Some(0o100)),
            ("          DATA   7", Some(0o101)),
            ("          END", None),
        ],
        Found::Made,
    ),
    // another digit
    (
        &[
            ("          IDENT  A", None),
            ("          ABS", None),
            ("          ORG    100B", None),
            ("          DATA   51110000037361054611B", Some(0o100)),
            ("          DATA   7", Some(0o101)),
            ("          END", None),
        ],
        Found::Failed(&[0o100]),
    ),
    // no word where one is wanted
    (
        &[
            ("          IDENT  A", None),
            ("          ABS", None),
            ("          ORG    100B", None),
            ("          DATA   51110000037361054610B", Some(0o100)),
            ("          END", None),
        ],
        Found::Failed(&[0o101]),
    ),
    // a word behind the last, far behind it, and before the first
    (
        &[
            ("          IDENT  A", None),
            ("          ABS", None),
            ("          ORG    100B", None),
            ("          DATA   51110000037361054610B", Some(0o100)),
            ("          DATA   7,0", Some(0o101)),
            ("          ORG    377777B", None),
            ("          DATA   0", Some(0o377777)),
            ("          ORG    0", None),
            ("          DATA   1", Some(0)),
            ("          END", None),
        ],
        Found::Failed(&[0, 0o102, 0o377777]),
    ),
    // a line that is flagged, though each word is right
    (
        &[
            ("          IDENT  A", None),
            ("          ABS", None),
            ("          ORG    100B", None),
            ("          DATA   51110000037361054610B", Some(0o100)),
            ("TWICE     EQU    3", None),
            ("TWICE     DATA   7", Some(0o101)),
            ("          END", None),
        ],
        Found::Failed(&[0o101]),
    ),
    // a source for the other machine
    (
        &[
            ("          IDENT  A", None),
            ("          PERIPH", None),
            ("          END", None),
        ],
        Found::Unfit(3),
    ),
    // a line of 91 characters
    (
        &[
            ("          IDENT  A", None),
            (
                "*234567890123456789012345678901234567890123456789012345678901234567890123456789012345678901",
                None,
            ),
        ],
        Found::Unfit(2),
    ),
];

fn draft_of(rt: &impl Abort, alloc: Global, lines: &[(&str, Option<u32>)]) -> Draft {
    let mut text = Vec::new(alloc);
    let mut words = Vec::new(alloc);
    for (line, word) in lines {
        text.extend_from_slice(line.as_bytes()).expect(rt, "memory");
        text.push(b'\n').expect(rt, "memory");
        words.push(*word).expect(rt, "memory");
    }
    Draft { text, words }
}

fn wanted_of(rt: &impl Abort, alloc: Global, octal: &str, selection: Selection) -> Wanted {
    let reading = read_octal(alloc, octal.as_bytes(), selection.layout()).expect(rt, "memory");
    Wanted::of(alloc, reading.words, selection).expect(rt, "memory")
}

fn assert_planted(rt: &impl Abort, alloc: Global, at: usize, wanted: &Wanted, row: &PlantedRow) {
    let draft = draft_of(rt, alloc, row.0);
    let attempt = try_draft(alloc, Hashing::by(1), wanted, draft).expect(rt, "memory");
    match (attempt, &row.1) {
        (Attempt::Made(text), Found::Made) => {
            let draft = draft_of(rt, alloc, row.0);
            assert_row(rt, at, &text.as_slice(), &draft.text.as_slice());
        }
        (Attempt::Failed(words), Found::Failed(want)) => {
            assert_row(rt, at, &words.as_slice(), want);
        }
        (Attempt::Unfit(lines), Found::Unfit(want)) => assert_row(rt, at, &lines, want),
        _ => assert_row(rt, at, &"another one", &"what is found"),
    }
}

#[test]
fn certifies_planted_drafts(rt: HostRuntime) {
    let alloc = rt.alloc();
    let wanted = wanted_of(&rt, alloc, TWO, ALL);
    for (at, row) in PLANTED.iter().enumerate() {
        assert_planted(&rt, alloc, at, &wanted, row);
    }
}

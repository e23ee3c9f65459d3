//! Names that lead to one file. On the shelf each name is a file of its own.
use super::shelf::{Calls, Shelf};
use cps_state::Hashing;
use cps_words::{Export, Outputs, find_clash};
use std::alloc::Global;
use std::process::Abort;

/// The name of the source, those of a listing and of a flags text, and what is told of them.
type NameRow = (
    Option<&'static str>,
    Option<&'static str>,
    Option<&'static str>,
    Option<&'static str>,
);

const ROWS: [NameRow; 7] = [
    (Some("deck"), Some("list"), Some("flags"), None),
    (None, Some("list"), None, None),
    (
        Some("deck"),
        Some("list"),
        Some("deck"),
        Some("cannot write deck: it is the same file as deck, the source"),
    ),
    (
        None,
        Some("/dev/stdin"),
        None,
        Some("cannot write /dev/stdin: it is the same file as /dev/stdin, the source"),
    ),
    (
        Some("deck"),
        Some("list"),
        Some("list"),
        Some("cannot write list: it is the same file as list, where another text goes"),
    ),
    // the source goes before other texts
    (
        Some("deck"),
        Some("deck"),
        Some("deck"),
        Some("cannot write deck: it is the same file as deck, the source"),
    ),
    // what is open already goes on where it is
    (Some("deck"), Some("/dev/stderr"), Some("/dev/stderr"), None),
];

/// Asserts what is told of names.
fn assert_row(rt: &impl Abort, alloc: Global, row: &NameRow) {
    let (source, listing, flags, told) = *row;
    let calls = Calls::failing_at(0);
    let shelf = Shelf::new(alloc, &calls);
    let export = Export {
        hashing: Hashing::by(1),
        source,
        outputs: Outputs {
            listing,
            flags,
            ..Outputs::none()
        },
        part: None,
    };
    let clash = find_clash(&shelf, export);
    let got = clash.map(|clash| clash.text(alloc).expect(rt, "memory"));
    assert_eq!(rt; got.as_deref(), told, "{listing:?} and {flags:?}");
    drop(got);
    drop(shelf);
}

#[test]
fn finds_names_that_clash(rt: HostRuntime) {
    for row in ROWS.iter() {
        assert_row(&rt, rt.alloc(), row);
    }
}

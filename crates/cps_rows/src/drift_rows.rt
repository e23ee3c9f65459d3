//! Where code moved: what is told of an octal text that is laid beside a source.
use super::assertions::{assert_row, assert_row_text};
use cps_batch::Source;
use cps_claims::{OctalFormat, OctalLayout, WordForm, WordOffset, read_octal};
use cps_drift::drift_rows;
use cps_input::read_lines;
use cps_state::Hashing;
use cps_text::{Counted, push_octal};
use std::alloc::Global;
use std::process::Abort;

/// Rows of an octal text, lines of a source, and what is told.
type DriftRow = (
    &'static [&'static str],
    &'static [&'static str],
    &'static str,
);

/// What is told of all addresses that an octal text has.
fn told(rt: &impl Abort, alloc: Global, form: WordForm, octal: &[u8], source: &[u8]) -> Vec<u8> {
    let mut reader = Counted::new(source);
    let lines = read_lines(alloc, &mut reader).ok().expect(rt, "a source");
    let source = Source::of(alloc, Hashing::by(1), lines).expect(rt, "memory");
    let layout = OctalLayout {
        format: OctalFormat::Rows,
        form,
        columns: None,
        offset: WordOffset::Up(0),
    };
    let reading = read_octal(alloc, octal, layout).expect(rt, "memory");
    let low = reading.words.first().unwrap_or(0);
    let high = reading.words.last().unwrap_or(0);
    drift_rows(alloc, &source, &reading.words, low, high).expect(rt, "memory")
}

fn joined(rt: &impl Abort, alloc: Global, lines: &[&str]) -> Vec<u8> {
    let mut text = Vec::new(alloc);
    for line in lines {
        text.extend_from_slice(line.as_bytes()).expect(rt, "memory");
        text.push(b'\n').expect(rt, "memory");
    }
    text
}

fn assert_told(rt: &impl Abort, alloc: Global, form: WordForm, at: usize, row: &DriftRow) {
    let (octal, source, want) = *row;
    let octal = joined(rt, alloc, octal);
    let source = joined(rt, alloc, source);
    let got = told(rt, alloc, form, &octal, &source);
    assert_row_text(rt, at, &got, want);
}

fn assert_rows(rt: &impl Abort, alloc: Global, form: WordForm, rows: &[DriftRow]) {
    for (at, row) in rows.iter().enumerate() {
        assert_told(rt, alloc, form, at, row);
    }
}

/// A program of six words and a few more lines.
const LOST: &[&str] = &[
    "          ORG     100B",
    "          SX1     1",
    "          SA1     D",
    "          SX3     3",
    "          BX6     X1",
    "          SA6     D",
    "          EQ      *",
    "D         CON     7",
    "          CON     8",
    "          END",
];

/// The octal of that program with a line more, `SX2 2` behind the line 3.
const WHOLE: &[&str] = &[
    "000100 71100000015110000104",
    "000101 71200000027130000003",
    "000102 10611516000010446000",
    "000103 04000001034600046000",
    "000104 00000000000000000007",
    "000105 00000000000000000010",
];

/// Lines that one side has and the other hasn't.
const LINES: [DriftRow; 3] = [
    // a line is lost from the source
    (
        WHOLE,
        LOST,
        "drift: 000101 only OCTAL has 7120000002 (row 2)\ndrift: from 000104 on OCTAL stands 1 higher than the deck\n\
        drift: so laid, 8 of 9 codes agree; 3 of them hold an address that moved along\n",
    ),
    // the line stands twice
    (
        WHOLE,
        &[
            "          ORG     100B",
            "          SX1     1",
            "          SA1     D",
            "          SX2     2",
            "          SX2     2",
            "          SX3     3",
            "          BX6     X1",
            "          SA6     D",
            "          EQ      *",
            "D         CON     7",
            "          CON     8",
            "          END",
        ],
        "drift: 000101 only the deck has 7120000002 (line 5)\n\
        drift: so laid, 9 of 9 codes agree; 0 of them hold an address that moved along\n",
    ),
    // a line is lost, and an address is another one; a digit can't be read
    (
        &[
            "000100 71100000015110000104",
            "000101 71200000027130000003",
            "000102 10611516000010646000",
            "000103 04000001034600046000",
            "000104 00000000000000000007",
            "000105 000000?0000000000010",
        ],
        LOST,
        "drift: 000101 only OCTAL has 7120000002 (row 2)\ndrift: from 000104 on OCTAL stands 1 higher than the deck\n\
        drift: 000102 octal 5160000106, deck 5160000103 (line 6)\n\
        drift: so laid, 7 of 9 codes agree; 2 of them hold an address that moved along\n",
    ),
];

#[test]
fn tells_lines_that_one_side_has(rt: HostRuntime) {
    assert_rows(&rt, rt.alloc(), WordForm::Central, &LINES);
}

/// Words that stand elsewhere.
const PLACES: [DriftRow; 2] = [
    // all of them
    (
        &[
            "004000 76110 71200 01000 76330",
            "004001 73412 46000 46000 46000",
            "004002 73510 46000 46000 46000",
        ],
        &[
            "          SX1     B1",
            "          SX2     1000B",
            "          SX3     B3",
            "          SX4     X1+B2",
            "+         SX5     X1",
            "          END",
        ],
        "drift: from 004000 on OCTAL stands 4000 higher than the deck\n\
        drift: so laid, 5 of 5 codes agree; 0 of them hold an address that moved along\n",
    ),
    // a stretch of four, behind one that stands where the source does
    (
        &[
            "000105 00000000000000000006 00000000000000000007",
            "000200 00000000000000000001 00000000000000000002 00000000000000000003 00000000000000000004",
        ],
        &[
            "          ORG     100B",
            "          DATA    1,2,3,4,5,6,7",
            "          END",
        ],
        "drift: from 000200 on OCTAL stands 100 higher than the deck\n\
        drift: so laid, 6 of 6 codes agree; 0 of them hold an address that moved along\n",
    ),
];

#[test]
fn tells_words_that_stand_elsewhere(rt: HostRuntime) {
    assert_rows(&rt, rt.alloc(), WordForm::Central, &PLACES);
}

/// Texts of which nothing is told.
const NOTHING: [DriftRow; 2] = [
    // two words are other ones, and nothing moved
    (
        &[
            "000100 71100000015110000103",
            "000101 71300000031061146000",
            "000102 51600001030400000102",
            "000103 00000000000000000006",
            "000104 00000000000000000011",
        ],
        LOST,
        "",
    ),
    // fewer than half of the codes agree
    (
        &[
            "000100 71100000015110000103",
            "000101 00000000000000000001",
            "000102 00000000000000000003",
            "000103 00000000000000000005",
            "000104 00000000000000000011",
        ],
        LOST,
        "",
    ),
];

#[test]
fn tells_nothing_where_nothing_moved(rt: HostRuntime) {
    assert_rows(&rt, rt.alloc(), WordForm::Central, &NOTHING);
}

/// Words that aren't made of instructions: fields of 18 and 30 bits hold addresses, and at most eight parcels are shown.
const DATA: [DriftRow; 2] = [
    (
        &[
            "000100 00070001050000000105",
            "000101 00000001050000000106",
            "000102 71100000057120000006",
            "000103 71100000074600046000",
            "000104 04000001044600046000",
            "000105 00000000000000000001",
            "000106 00000000000000000002",
        ],
        &[
            "          ORG     100B",
            "          VFD     12/7,18/T,30/T",
            "          VFD     30/T,30/T+1",
            "          SX1     5",
            "          SX2     6",
            "          EQ      *",
            "T         DATA    1",
            "          DATA    2",
            "          END",
        ],
        "drift: 000103 only OCTAL has 7110000007 (row 4)\ndrift: from 000104 on OCTAL stands 1 higher than the deck\n\
        drift: so laid, 7 of 8 codes agree; 3 of them hold an address that moved along\n",
    ),
    (
        &[
            "000000 00000000000000000001 00000000000000000002 00000000000000000003",
            "000003 00000000000000000145 00000000000000000146 00000000000000000147",
            "000006 00000000000000000004 00000000000000000005 00000000000000000006",
            "000011 00000000000000000007 00000000000000000010",
        ],
        &[
            "          DATA    1,2,3",
            "          DATA    4,5",
            "          DATA    6,7,8",
            "          END",
        ],
        "drift: 000003 only OCTAL has 0000000000000000014500000000000000000146 .. (row 2)\n\
        drift: from 000006 on OCTAL stands 3 higher than the deck\n\
        drift: so laid, 8 of 9 codes agree; 0 of them hold an address that moved along\n",
    ),
];

#[test]
fn tells_words_of_data(rt: HostRuntime) {
    assert_rows(&rt, rt.alloc(), WordForm::Central, &DATA);
}

/// A driver of a peripheral processor with a word more in its text: second words and near jumps hold addresses.
const DRIVER: DriftRow = (
    &[
        "0100 2000",
        "0101 0112",
        "0102 5401",
        "0103 0112",
        "0104 0573",
        "0105 0100",
        "0106 0111",
        "0107 1405",
        "0110 1406",
        "0111 0367",
        "0112 0007",
        "0113 0010",
    ],
    &[
        "          PERIPH",
        "          IDENT   DRV",
        "          ORG     100B",
        "A         LDC     T",
        "          STM     T,1",
        "          NJN     A",
        "          LJM     B",
        "          LDN     5",
        "B         UJN     A",
        "T         DATA    7",
        "          DATA    10B",
        "          END",
    ],
    "drift: 000110 only OCTAL has 1406 (row 9)\ndrift: from 000111 on OCTAL stands 1 higher than the deck\n\
    drift: so laid, 8 of 9 codes agree; 4 of them hold an address that moved along\n",
);

#[test]
fn tells_words_of_a_peripheral_processor(rt: HostRuntime) {
    assert_told(&rt, rt.alloc(), WordForm::Peripheral, 0, &DRIVER);
}

/// The rows of 199 words, and of as many lines, but for each thirteenth word.
fn with_lost_words(rt: &impl Abort, alloc: Global) -> (Vec<u8>, Vec<u8>) {
    let mut octal = Vec::new(alloc);
    let mut source = Vec::new(alloc);
    let mut address: u64 = 0;
    for number in 1..200 {
        if number % 13 != 0 {
            push_octal(&mut octal, address, 6).expect(rt, "memory");
            octal.push(b' ').expect(rt, "memory");
            push_octal(&mut octal, number, 20).expect(rt, "memory");
            octal.push(b'\n').expect(rt, "memory");
            address = address.saturating_add(1);
        }
        source
            .extend_from_slice(b"          DATA    ")
            .expect(rt, "memory");
        push_octal(&mut source, number, 6).expect(rt, "memory");
        source.extend_from_slice(b"B\n").expect(rt, "memory");
    }
    (octal, source)
}

/// What is told behind 24 rows.
const LEFT_OUT: &[u8] =
    b"drift: 6 more rows\ndrift: so laid, 184 of 184 codes agree; 0 of them hold an address that moved along\n";

/// The rows that are told are few, and the others are counted.
#[test]
fn counts_rows_that_are_left_out(rt: HostRuntime) {
    let (octal, source) = with_lost_words(&rt, rt.alloc());
    let got = told(&rt, rt.alloc(), WordForm::Central, &octal, &source);
    let rows = got.iter().filter(|byte| **byte == b'\n').count();
    assert_row(&rt, 0, &rows, &26);
    assert_row(&rt, 1, &got.ends_with(LEFT_OUT), &true);
}

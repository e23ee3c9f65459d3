//! What the rows of an octal text are, and which digits they claim.
use super::assertions::{assert_row, assert_row_text};
use cps_claims::{
    OctalFormat, OctalLayout, OctalReading, ReadColumns, UnreadReason, WordForm, WordOffset,
    read_octal,
};
use cps_text::push_octal;
use std::alloc::Global;
use std::process::Abort;

/// The words of the central processor, all columns, and addresses as they are written.
const CENTRAL: OctalLayout = OctalLayout {
    format: OctalFormat::Rows,
    form: WordForm::Central,
    columns: None,
    offset: WordOffset::Up(0),
};

/// The same in a dump.
const CENTRAL_DUMP: OctalLayout = OctalLayout {
    format: OctalFormat::Dump,
    form: WordForm::Central,
    columns: None,
    offset: WordOffset::Up(0),
};

/// The words of a peripheral processor in a dump.
const PERIPHERAL_DUMP: OctalLayout = OctalLayout {
    format: OctalFormat::Dump,
    form: WordForm::Peripheral,
    columns: None,
    offset: WordOffset::Up(0),
};

fn reading(rt: &impl Abort, alloc: Global, text: &str, layout: OctalLayout) -> OctalReading {
    read_octal(alloc, text.as_bytes(), layout).expect(rt, "memory")
}

/// How many rows are read, blank, other text, and not read.
fn counts_of(reading: &OctalReading) -> (usize, usize, usize, usize) {
    let counts = reading.rows.counts;
    (counts.read, counts.blank, counts.other, counts.unread)
}

/// The number of a row that isn't read, and why: a letter, and the digits of a group that is wrong.
fn unread_at(reading: &OctalReading, at: usize) -> Option<(usize, u8, usize)> {
    let row = reading.rows.unread.get(at)?;
    let (reason, digits) = match row.reason {
        UnreadReason::DamagedDigits => (b'D', 0),
        UnreadReason::GroupOf(digits) => (b'G', digits),
        UnreadReason::NoAddress => (b'A', 0),
        UnreadReason::BehindUnread => (b'B', 0),
        UnreadReason::NoSuchAddress => (b'S', 0),
        UnreadReason::NoWholeWords => (b'W', 0),
        UnreadReason::EndlessRepetition => (b'E', 0),
        UnreadReason::UnevenRepetition => (b'U', 0),
        UnreadReason::TooManyRepetitions => (b'T', 0),
    };
    Some((row.number, reason, digits))
}

/// The digits that are shown of a word, and the contrary ones.
fn shown_at(rt: &impl Abort, alloc: Global, reading: &OctalReading, address: u32) -> Vec<u8> {
    let word = reading.words.word(address);
    let mut text = Vec::new(alloc);
    for digit in &word.digits {
        text.push(digit.shown).expect(rt, "memory");
    }
    text.push(b'|').expect(rt, "memory");
    for digit in &word.digits {
        text.push(digit.again).expect(rt, "memory");
    }
    text
}

/// How many digits are claimed below an address that can be read, and how many that can't be.
fn claimed_below(reading: &OctalReading, end: u32) -> (usize, usize) {
    let mut known: usize = 0;
    let mut marks: usize = 0;
    for address in 0..end {
        let digits = reading.words.word(address).digits;
        known = known.saturating_add(digits.iter().filter(|digit| digit.is_known()).count());
        marks = marks.saturating_add(digits.iter().filter(|digit| digit.is_unknown()).count());
    }
    (known, marks)
}

/// A listing of a few words: rows without an address, a group of four digits and the row behind it, a heading, a blank row, a letter for a
/// digit, and a digit that nobody can read.
const LISTING: &str =
    "   225   51300 00262  SA3     262B\n         12631        BX6     X3+X1\n         4600\n         46000\nCOMPASS  PAGE   1\n\n   226   5130O\n   227   0000?0000\n   230   0000?00000";

#[test]
fn tells_what_each_row_is(rt: HostRuntime) {
    let listing = reading(&rt, rt.alloc(), LISTING, CENTRAL);
    assert_row(&rt, 0, &counts_of(&listing), &(3, 1, 1, 4));
    assert_row(&rt, 1, &listing.rows.first_other, &Some(5));
    let unread = [
        Some((3, b'G', 4)),
        Some((4, b'B', 0)),
        Some((7, b'D', 0)),
        Some((8, b'G', 9)),
        None,
    ];
    for (at, want) in unread.iter().enumerate() {
        assert_row(&rt, at, &unread_at(&listing, at), want);
    }
}

#[test]
fn keeps_what_rows_claim(rt: HostRuntime) {
    let listing = reading(&rt, rt.alloc(), LISTING, CENTRAL);
    let words = &listing.words;
    let ends = (words.first(), words.last());
    assert_row(&rt, 0, &ends, &(Some(0o225), Some(0o230)));
    assert_row(&rt, 1, &claimed_below(&listing, 0o1000), &(24, 1));
    let shown = shown_at(&rt, rt.alloc(), &listing, 0o225);
    assert_row_text(&rt, 2, &shown, "513000026212631     |                    ");
    let shown = shown_at(&rt, rt.alloc(), &listing, 0o230);
    assert_row_text(&rt, 3, &shown, "0000?00000          |                    ");
    let agrees = !words.differs(0o225, Some(b"51300002621263146000"));
    let differs = words.differs(0o225, Some(b"51300002621263246000"));
    let lacks = words.differs(0o225, None);
    assert_row(&rt, 4, &(agrees, differs, lacks), &(true, true, true));
    assert_row(&rt, 5, &words.differs(0o226, None), &false);
}

#[test]
fn keeps_contrary_digits(rt: HostRuntime) {
    let text = "000000 00000000000000000001\n000000 00000000000000000002\n";
    let twice = reading(&rt, rt.alloc(), text, CENTRAL);
    let shown = shown_at(&rt, rt.alloc(), &twice, 0);
    assert_row_text(&rt, 0, &shown, "00000000000000000001|                   2");
    let first = twice.words.differs(0, Some(b"00000000000000000001"));
    let second = twice.words.differs(0, Some(b"00000000000000000002"));
    assert_row(&rt, 1, &(first, second), &(true, true));
    let word = twice.words.word(0);
    let rows = (word.first_row, word.last_row, word.again_row);
    assert_row(&rt, 2, &rows, &(1, 1, 2));
}

#[test]
fn moves_addresses_and_cuts_columns(rt: HostRuntime) {
    let text = "000010 00000000000000000007\n000007 00000000000000000006";
    let mut layout = CENTRAL;
    layout.offset = WordOffset::Down(8);
    let down = reading(&rt, rt.alloc(), text, layout);
    assert_row(&rt, 0, &down.words.first(), &Some(0));
    assert_row(&rt, 1, &unread_at(&down, 0), &Some((2, b'S', 0)));
    layout.offset = WordOffset::Up(0o777_770);
    let up = reading(&rt, rt.alloc(), text, layout);
    assert_row(&rt, 2, &up.words.last(), &Some(0o777_777));
    assert_row(&rt, 3, &unread_at(&up, 0), &Some((1, b'S', 0)));
    layout.offset = WordOffset::Up(0);
    layout.form = WordForm::Peripheral;
    let text = "12: 1 0070 5";
    let whole = reading(&rt, rt.alloc(), text, layout);
    assert_row(&rt, 4, &unread_at(&whole, 0), &Some((1, b'G', 1)));
    layout.columns = Some(ReadColumns { first: 5, last: 10 });
    let cut = reading(&rt, rt.alloc(), text, layout);
    let shown = shown_at(&rt, rt.alloc(), &cut, 1);
    assert_row_text(&rt, 5, &shown, "0070                |                    ");
    assert_row(&rt, 6, &cut.words.differs(1, Some(b"0070")), &false);
}

/// Where a program of 32,768 words ends.
const END: u32 = 0o100_000;

#[test]
fn reads_a_whole_memory(rt: HostRuntime) {
    let mut text = Vec::new(rt.alloc());
    for address in 0..END {
        push_octal(&mut text, u64::from(address), 6).expect(&rt, "memory");
        text.push(b' ').expect(&rt, "memory");
        push_octal(&mut text, u64::from(address), 20).expect(&rt, "memory");
        text.push(b'\n').expect(&rt, "memory");
    }
    let all = read_octal(rt.alloc(), &text, CENTRAL).expect(&rt, "memory");
    assert_row(&rt, 0, &counts_of(&all), &(32_768, 1, 0, 0));
    assert_row(&rt, 1, &claimed_below(&all, END), &(655_360, 0));
    assert_row(&rt, 2, &all.words.last(), &Some(END - 1));
    let last = !all.words.differs(END - 1, Some(b"00000000000000077777"));
    assert_row(&rt, 3, &last, &true);
}

/// Two words that stand again twice, behind another one.
const AGAIN: &str =
    "000100 00000000000000000001\n000101 00000000000000000003 00000000000000000004\n*\n000107 00000000000000000002\n";

#[test]
fn reads_repeated_words(rt: HostRuntime) {
    let dump = reading(&rt, rt.alloc(), AGAIN, CENTRAL_DUMP);
    assert_row(&rt, 0, &counts_of(&dump), &(4, 1, 0, 0));
    assert_row(&rt, 1, &claimed_below(&dump, 0o1000), &(160, 0));
    for (address, digit, row) in [
        (0o102, b'4', 2),
        (0o103, b'3', 3),
        (0o106, b'4', 3),
        (0o107, b'2', 4),
    ] {
        let word = dump.words.word(address);
        let found = (word.digits[19].shown, word.first_row, word.last_row);
        assert_row(&rt, address as usize, &found, &(digit, row, row));
    }
    let listing = reading(&rt, rt.alloc(), AGAIN, CENTRAL);
    assert_row(&rt, 2, &counts_of(&listing), &(3, 1, 1, 0));
    assert_row(&rt, 3, &listing.rows.first_other, &Some(3));
    assert_row(&rt, 4, &claimed_below(&listing, 0o1000), &(80, 0));
}

#[test]
fn refuses_repetitions(rt: HostRuntime) {
    let uneven =
        "000100 00000000000000000001\n000101 00000000000000000000 00000000000000000000 00000000000000000000 00000000000000000000\nDUPLICATE LINES\n000107 00000000000000000002";
    let first = "*\n000001 00000000000000000001";
    let unaddressed = "000000 00000000000000000001\nsame\n       00000000000000000002";
    let last = "000000 00000000000000000001\nRepeated\n\n000002 00000000000000000001";
    let below = "000005 00000000000000000001\n*\n000003 00000000000000000002";
    let texts = [
        (uneven, (3, 0, 0, 1), [Some((3, b'U', 0)), None]),
        (first, (1, 0, 0, 1), [Some((1, b'E', 0)), None]),
        (
            unaddressed,
            (1, 0, 0, 2),
            [Some((2, b'E', 0)), Some((3, b'B', 0))],
        ),
        (last, (2, 1, 0, 1), [Some((2, b'E', 0)), None]),
        (below, (2, 0, 0, 1), [Some((2, b'U', 0)), None]),
    ];
    for (row, (text, counts, unread)) in texts.iter().enumerate() {
        let dump = reading(&rt, rt.alloc(), text, CENTRAL_DUMP);
        assert_row(&rt, row, &counts_of(&dump), counts);
        for (at, want) in unread.iter().enumerate() {
            assert_row(&rt, row, &unread_at(&dump, at), want);
        }
    }
}

#[test]
fn goes_on_with_the_next_words(rt: HostRuntime) {
    let text =
        "000000 76110 71200 01000 76330\n       73412 46000 46000 46000\n       73510 46000 46000 46000";
    let dump = reading(&rt, rt.alloc(), text, CENTRAL_DUMP);
    assert_row(&rt, 0, &counts_of(&dump), &(3, 0, 0, 0));
    assert_row(&rt, 1, &claimed_below(&dump, 0o1000), &(60, 0));
    let differs = dump.words.differs(2, Some(b"73510460004600046000"));
    assert_row(&rt, 2, &differs, &false);
    let listing = reading(&rt, rt.alloc(), text, CENTRAL);
    assert_row(&rt, 3, &counts_of(&listing), &(1, 0, 0, 2));
    assert_row(&rt, 4, &unread_at(&listing, 0), &Some((2, b'A', 0)));
}

#[test]
fn reads_whole_words_in_a_dump(rt: HostRuntime) {
    let text =
        "000000 76110 71200 01000\n       73412 46000 46000 46000\n*\n000001 7341246000460004600\n000002 73510 46000 46000 46000";
    let dump = reading(&rt, rt.alloc(), text, CENTRAL_DUMP);
    assert_row(&rt, 0, &counts_of(&dump), &(1, 0, 0, 4));
    let unread = [
        Some((1, b'W', 0)),
        Some((2, b'B', 0)),
        Some((3, b'E', 0)),
        Some((4, b'G', 19)),
        None,
    ];
    for (at, want) in unread.iter().enumerate() {
        assert_row(&rt, at, &unread_at(&dump, at), want);
    }
    assert_row(&rt, 5, &dump.words.first(), &Some(2));
}

#[test]
fn repeats_words_of_a_peripheral_processor(rt: HostRuntime) {
    let mut layout = PERIPHERAL_DUMP;
    layout.offset = WordOffset::Down(0o100);
    let text = "0100 0001 0002\n*\n0106 0003";
    let dump = reading(&rt, rt.alloc(), text, layout);
    assert_row(&rt, 0, &counts_of(&dump), &(3, 0, 0, 0));
    for (address, word) in [
        b"0001", b"0002", b"0001", b"0002", b"0001", b"0002", b"0003",
    ]
    .iter()
    .enumerate()
    {
        let differs = dump.words.differs(address as u32, Some(*word));
        assert_row(&rt, address, &differs, &false);
    }
    assert_row(&rt, 7, &dump.words.last(), &Some(6));
    let text = "0 0001\n*\n3 TEXT\n*\n11 0007\n*\n14 TEXT\n*\n17 0005\n";
    let dump = reading(&rt, rt.alloc(), text, PERIPHERAL_DUMP);
    assert_row(&rt, 8, &counts_of(&dump), &(6, 1, 2, 1));
    assert_row(&rt, 9, &unread_at(&dump, 0), &Some((8, b'U', 0)));
    assert_row(&rt, 10, &claimed_below(&dump, 0o1000), &(52, 0));
}

#[test]
fn bounds_repetitions(rt: HostRuntime) {
    let text = "0 0001\n*\n777777 0002\n0 0001\n*\n3 0003\n0 0001\n*\n2 0004";
    let dump = reading(&rt, rt.alloc(), text, PERIPHERAL_DUMP);
    assert_row(&rt, 0, &counts_of(&dump), &(8, 0, 0, 1));
    assert_row(&rt, 1, &unread_at(&dump, 0), &Some((8, b'T', 0)));
    assert_row(&rt, 2, &claimed_below(&dump, 262_144), &(4 * 262_144, 0));
}

#[test]
fn tells_reasons_in_words(rt: HostRuntime) {
    let reasons = [
        (UnreadReason::DamagedDigits, "damaged digits"),
        (UnreadReason::GroupOf(14), "a group of 14 digits"),
        (UnreadReason::NoAddress, "no address"),
        (UnreadReason::BehindUnread, "behind a row that isn't read"),
        (UnreadReason::NoSuchAddress, "no such address"),
        (UnreadReason::NoWholeWords, "no whole words"),
        (
            UnreadReason::EndlessRepetition,
            "a repetition without an end",
        ),
        (
            UnreadReason::UnevenRepetition,
            "a repetition that doesn't come out even",
        ),
        (UnreadReason::TooManyRepetitions, "too many repetitions"),
    ];
    for (row, (reason, want)) in reasons.iter().enumerate() {
        let told = reason.to_string(rt.alloc()).expect(&rt, "memory");
        assert_row_text(&rt, row, told.as_bytes(), want);
    }
}

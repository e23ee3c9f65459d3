//! Drafts of sources: the lines that are made of words.
use super::assertions::{assert_row, assert_row_text, assert_same};
use cps_draft::{
    AddressRange, Boldness, Draft, GivenWord, Hints, Knowledge, KnownName, find_ident, make_draft,
    read_names,
};
use cps_expr::Machine;
use std::alloc::Global;
use std::process::Abort;

/// Words, each with its address, its number and how many digits are given; and the lines behind ORG and in front of END, each with its three
/// fields.
type DraftRow = (&'static [(u32, u64, u8)], &'static str);

/// Instructions of the central processor, each from a manual's code. All words are said to be code.
const CENTRAL_CODE: [DraftRow; 14] = [
    (
        &[(0o100, 0o51110000037361054610, 20)],
        "|SA1|B1+3; |SX6|X1; |SA6|A1; ",
    ),
    (
        &[(0o100, 0o04000001004600046000, 20)],
        "L000100|EQ|L000100; ",
    ),
    (
        &[(0, 0o04000000007312046000, 20)],
        "L000000|EQ|L000000; -|SX1|X2; ",
    ),
    (
        &[(0o100, 0o06210000050601000005, 20)],
        "|GE|B2,B1,5; |LE|B1,5; ",
    ),
    (
        &[(0o100, 0o06100000050600000005, 20)],
        "|PL|B1,5; |GE|B0,B0,5; ",
    ),
    (
        &[(0o100, 0o50117777765110777777, 20)],
        "|SA1|A1-1; |SA1|777777B; ",
    ),
    (
        &[(0o100, 0o10611430742030677601, 20)],
        "|BX6|X1; |MX0|60; |LX3|6; |SX6|-B1; ",
    ),
    (
        &[
            (0o100, 0o01000001020014000100, 20),
            (0o101, 0o46000460004600046000, 20),
            (0o102, 0o00000000004600046000, 20),
        ],
        "L000100|RJ|S000102; -|VFD|12/14B,18/L000100; |NO|; S000102|PS|; ",
    ),
    (
        &[
            (0o144, 0o04004001444600046000, 20),
            (0o145, 0o66200460004600046000, 20),
            (0o146, 0o76110460004600046000, 20),
        ],
        "|EQ|*+400000B; |SB2|B0; +|SX1|B1; ",
    ),
    (
        &[(0o100, 0o02200001000210000000, 20)],
        "L000100|JP|B2+L000100; -|JP|B1; ",
    ),
    (
        &[(0o100, 0o14102461001001213746, 20)],
        "|VFD|15/14102B; |VFD|15/46100B; |VFD|15/10012B; |BX7|X4-X6; ",
    ),
    (
        &[(0o100, 0o24203242034300020306, 20)],
        "|NX2|X3; |NX2|X3; |MX0|0; |LX3|6; ",
    ),
    (
        &[
            (0, 0o51110000037361046000, 20),
            (1, 0o51500000004600046000, 20),
        ],
        "L000000|SA1|B1+3; |SX6|X1; |SA5|L000000; ",
    ),
    (
        &[
            (0o100, 0o511, 3),
            (0o101, 0o43074, 5),
            (0o102, 0o0400000101, 10),
        ],
        "|VFD|9/511B; L000101|MX0|60; +|EQ|L000101; ",
    ),
];

/// Instructions of a peripheral processor. All words are said to be code.
const PERIPHERAL_CODE: [DraftRow; 2] = [
    (
        &[
            (0, 0o2012, 4),
            (1, 0o3456, 4),
            (2, 0o1074, 4),
            (3, 0o0376, 4),
            (4, 0o5005, 4),
            (5, 0o7000, 4),
        ],
        "|LDC|123456B; L0002|SHN|-3; |UJN|L0002; |LDM|7000B,5; ",
    ),
    (
        &[
            (0o100, 0o0100, 4),
            (0o101, 0o0000, 4),
            (0o102, 0o1400, 4),
            (0o103, 0o0374, 4),
            (0o104, 0o0200, 4),
            (0o105, 0o0101, 4),
            (0o106, 0o7700, 4),
            (0o107, 0o0012, 4),
            (0o110, 0o0377, 4),
        ],
        "L0100|LJM|0; S0101|EQU|*-1; |LDN|0; |UJN|L0100; |RJM|S0101; |FNC|12B,0; |DATA|0377B; ",
    ),
];

/// Words of the central processor of which nothing is said.
const GUESSED: [DraftRow; 2] = [
    (
        &[
            (0o100, 0o10051414175500000000, 20),
            (0o101, 0, 20),
            (0o102, 0o77777777777777777772, 20),
            (0o103, 0o144, 20),
        ],
        "|DATA|6LHELLO; |BSSZ|1; |DATA|-5; |DATA|144B; ",
    ),
    (
        &[
            (0o100, 0o10051414175527172214, 20),
            (0o101, 0o04000000000000000000, 20),
            (0o102, 0, 20),
        ],
        "|DIS|,*HELLO WORLD*; |BSSZ|1; ",
    ),
];

/// Words of the central processor with gaps. What is from 102 on is said to be code.
const GAPS: [DraftRow; 2] = [
    (
        &[(0o100, 1, 1), (0o103, 0o0400000102, 10)],
        "|VFD|3/1; |BSS|1; D000102|BSS|1; |EQ|D000102; ",
    ),
    (
        &[
            (0o100, 0o20010500040500000103, 20),
            (0o103, 0o04000001034600046000, 20),
        ],
        "|VFD|42/20010500040500B,18/L000103; |BSS|2; L000103|EQ|L000103; ",
    ),
];

/// What is known: that words from an address on are code, and no more.
fn code_from(rt: &impl Abort, alloc: Global, first: u32) -> Hints {
    let mut code = Vec::new(alloc);
    code.push(AddressRange {
        first,
        last: 0o377777,
    })
    .expect(rt, "memory");
    Hints {
        entries: Vec::new(alloc),
        code,
        data: Vec::new(alloc),
        names: Vec::new(alloc),
        ident: None,
        is_bare: true,
    }
}

/// Appends a field of a line, in columns that count from 0, without the blanks around it.
fn push_part(rt: &impl Abort, told: &mut Vec<u8>, line: &[u8], first: usize, end: usize) {
    let part = line.get(first..end.min(line.len())).unwrap_or(b"");
    told.extend_from_slice(part.trim_ascii())
        .expect(rt, "memory");
}

/// The lines of a draft but those in front of the words and END, each with its three fields.
fn lines_of(rt: &impl Abort, alloc: Global, text: &[u8]) -> Vec<u8> {
    let mut told = Vec::new(alloc);
    for line in text.split(|byte| *byte == b'\n').skip(3) {
        if line.is_empty() || line.ends_with(b"END") {
            continue;
        }
        push_part(rt, &mut told, line, 1, 9);
        told.push(b'|').expect(rt, "memory");
        push_part(rt, &mut told, line, 10, 17);
        told.push(b'|').expect(rt, "memory");
        push_part(rt, &mut told, line, 17, 80);
        told.extend_from_slice(b"; ").expect(rt, "memory");
    }
    told
}

/// What the rows of a table have in common.
#[derive(Drop)]
struct Common {
    alloc: Global,
    machine: Machine,
    hints: Hints,
}

/// The draft of words.
fn draft_of(
    rt: &impl Abort,
    common: &Common,
    rows: &[(u32, u64, u8)],
    boldness: &Boldness,
) -> Draft {
    let mut words = Vec::new(common.alloc);
    for (address, value, digits) in rows {
        let word = GivenWord {
            address: *address,
            value: *value,
            digits: *digits,
            unread: 0,
        };
        words.push(word).expect(rt, "memory");
    }
    let known = told_by_hints(&common.hints);
    let made = make_draft(common.alloc, common.machine, &words, known, boldness);
    made.expect(rt, "memory")
}

/// What hints alone tell.
fn told_by_hints(hints: &Hints) -> Knowledge<'_> {
    Knowledge {
        hints,
        ident: None,
        unread: None,
    }
}

/// Asserts that the drafts of the rows of a table have the lines that are wanted.
fn assert_drafts(rt: &impl Abort, common: &Common, table: &[DraftRow]) {
    for (at, (rows, want)) in table.iter().enumerate() {
        let draft = draft_of(rt, common, rows, &Boldness::Draft);
        assert_row_text(rt, at, &lines_of(rt, common.alloc, &draft.text), want);
    }
}

/// The central processor, or a peripheral one, with words from an address on that are code.
fn with_code_from(rt: &impl Abort, alloc: Global, machine: Machine, first: u32) -> Common {
    Common {
        alloc,
        machine,
        hints: code_from(rt, alloc, first),
    }
}

#[test]
fn drafts_code_of_the_central_processor(rt: HostRuntime) {
    let all = with_code_from(&rt, rt.alloc(), Machine::Cp, 0);
    assert_drafts(&rt, &all, &CENTRAL_CODE);
}

#[test]
fn drafts_code_of_a_peripheral_processor(rt: HostRuntime) {
    let all = with_code_from(&rt, rt.alloc(), Machine::Pp, 0);
    assert_drafts(&rt, &all, &PERIPHERAL_CODE);
}

#[test]
fn drafts_data(rt: HostRuntime) {
    let none = with_code_from(&rt, rt.alloc(), Machine::Cp, 0o377777);
    assert_drafts(&rt, &none, &GUESSED);
}

#[test]
fn drafts_gaps(rt: HostRuntime) {
    let some = with_code_from(&rt, rt.alloc(), Machine::Cp, 0o102);
    assert_drafts(&rt, &some, &GAPS);
}

/// A subroutine of which the name is known, and a program that calls it for ever.
const CALLS: [(u32, u64, u8); 4] = [
    (0o100, 0o01000001024600046000, 20),
    (0o101, 0o04000001004600046000, 20),
    (0o102, 0o00000000004600046000, 20),
    (0o103, 0o04000001024600046000, 20),
];

const CALLS_DRAFT: &str = "          IDENT  CALLS
          ABS
*
*         4 WORDS FROM 000100 TO 000103, 4 OF THEM CODE.
*
          ORG    100B
 L000100  RJ     SUB                    000100 0100000102
          EQ     L000100                000101 0400000100
*
*         SUB IS CALLED AT 000100.
 SUB      PS                            000102 0000000000
          EQ     SUB                    000103 0400000102
          END    L000100
";

#[test]
fn drafts_names_and_comments(rt: HostRuntime) {
    let mut known = with_code_from(&rt, rt.alloc(), Machine::Cp, 0);
    let hints = &mut known.hints;
    hints.is_bare = false;
    hints.ident = Some(b"CALLS".to_vec(rt.alloc()).expect(&rt, "memory"));
    hints.entries.push(0o100).expect(&rt, "memory");
    let name = b"SUB".to_vec(rt.alloc()).expect(&rt, "memory");
    let sub = KnownName { name, value: 0o102 };
    hints.names.push(sub).expect(&rt, "memory");
    let draft = draft_of(&rt, &known, &CALLS, &Boldness::Draft);
    assert_row_text(&rt, 0, &draft.text, CALLS_DRAFT);
}

/// Asserts the lines of a draft of the words of a row, by how much is guessed.
fn assert_bold(rt: &impl Abort, common: &Common, boldness: &Boldness, at: usize, want: &str) {
    let (rows, _) = GUESSED[0];
    let draft = draft_of(rt, common, rows, boldness);
    assert_row_text(rt, at, &lines_of(rt, common.alloc, &draft.text), want);
}

#[test]
fn drafts_more_plainly(rt: HostRuntime) {
    let none = with_code_from(&rt, rt.alloc(), Machine::Cp, 0o377777);
    let placed = "|DATA|6LHELLO; |ORG|101B; |BSSZ|1; |ORG|102B; |DATA|-5; |ORG|103B; |DATA|144B; ";
    assert_bold(&rt, &none, &Boldness::Placed, 0, placed);
    let mut failed = Vec::new(rt.alloc());
    failed.push(0o102).expect(&rt, "memory");
    let without = "|DATA|6LHELLO; |BSSZ|1; |DATA|77777777777777777772B; |DATA|144B; ";
    assert_bold(&rt, &none, &Boldness::Without(failed), 1, without);
    let plain =
        "|DATA|10051414175500000000B; |DATA|00000000000000000000B; |DATA|77777777777777777772B; |DATA|00000000000000000144B; ";
    assert_bold(&rt, &none, &Boldness::Plain, 2, plain);
}

/// The addresses of the words that the lines make of the program with a subroutine, without comments.
const CALLS_WORDS: [Option<u32>; 8] = [
    None,
    None,
    None,
    Some(0o100),
    Some(0o101),
    Some(0o102),
    Some(0o103),
    None,
];

#[test]
fn tells_the_word_of_each_line(rt: HostRuntime) {
    let all = with_code_from(&rt, rt.alloc(), Machine::Cp, 0);
    let draft = draft_of(&rt, &all, &CALLS, &Boldness::Draft);
    assert_same(&rt, "lines", &draft.words.len(), &CALLS_WORDS.len());
    for (at, (got, want)) in draft.words.iter().zip(&CALLS_WORDS).enumerate() {
        assert_row(&rt, at, got, want);
    }
}

/// A word of which the third digit can't be read, where all is said to be code.
#[test]
fn drafts_unread_digits_as_data(rt: HostRuntime) {
    let all = with_code_from(&rt, rt.alloc(), Machine::Cp, 0);
    let word = GivenWord {
        address: 0o100,
        value: 0o51010000037361054610,
        digits: 20,
        unread: 0b100,
    };
    let words = [word];
    let known = told_by_hints(&all.hints);
    let made = make_draft(all.alloc, all.machine, &words, known, &Boldness::Draft);
    let draft = made.expect(&rt, "memory");
    let lines = lines_of(&rt, all.alloc, &draft.text);
    assert_row_text(&rt, 0, &lines, "|DATA|51010000037361054610B; ");
}

/// Rows of which two tell names.
const NAME_ROWS: &[u8] = b"SYMBOLS

SUM      00000000000000000110 44 27
  tens 114B
X1 5
8 7
TENS 8
LONGNAMES 1
";

const ROWS_NAMES: [(&str, u64); 2] = [("SUM", 0o110), ("TENS", 0o114)];

#[test]
fn reads_names(rt: HostRuntime) {
    let names = read_names(rt.alloc(), NAME_ROWS).expect(&rt, "memory");
    assert_same(&rt, "names", &names.len(), &ROWS_NAMES.len());
    for (at, (got, want)) in names.iter().zip(&ROWS_NAMES).enumerate() {
        assert_row_text(&rt, at, &got.name, want.0);
        assert_row(&rt, at, &got.value, &want.1);
    }
}

/// Octal texts, and the program's name that each tells in its first row, or nothing.
const IDENT_ROWS: [(&str, &str); 12] = [
    ("IDENT SUM\n000100 00000000000000000001\n", "SUM"),
    ("          ident  sum  ADDS UP\r\n", "SUM"),
    (
        "                                          1          IDENT  SUM",
        "SUM",
    ),
    ("\tIDENT\tABCDEFGH", "ABCDEFGH"),
    ("IDENT", ""),
    ("IDENT\nSUM", ""),
    ("\nIDENT SUM", ""),
    ("IDENT ABCDEFGHI", ""),
    ("IDENT SUM,100", ""),
    ("IDENT 1SUM", ""),
    ("IDENTS SUM", ""),
    ("", ""),
];

#[test]
fn reads_the_name_of_a_program(rt: HostRuntime) {
    for (at, (text, want)) in IDENT_ROWS.iter().enumerate() {
        let name = find_ident(text.as_bytes());
        let got: &[u8] = match &name {
            Some(name) => name.text(),
            None => b"",
        };
        assert_row_text(&rt, at, got, want);
    }
}

//! Calls that make a source for the words of an octal text.
use super::assertions::{assert_bytes, assert_same};
use super::call_rows::{assert_call, call_into, call_with, full};
use cps_rows::SlowReader;
use cps_text::Counted;
use std::alloc::Global;
use std::process::Abort;

/// The source that a disassembly with these options writes for an octal text, assembled: the binary text.
fn words_again(rt: &impl Abort, alloc: Global, words: &[&str], octal: &str) -> Vec<u8> {
    let mut reader = Counted::new(octal.as_bytes());
    let made = call_with(alloc, words, &mut reader);
    assert_same(rt, "the status", &made.status, &0);
    assert_bytes(rt, "what is told", &made.told, "");
    let mut source = Counted::new(made.written.as_slice());
    let again = call_with(
        alloc,
        &["compass", "batch", "--part", "binary"],
        &mut source,
    );
    assert_same(rt, "the status of the source", &again.status, &0);
    again.written
}

/// The rows of a text but for the first.
fn behind_first_row(text: &[u8]) -> &[u8] {
    let end = match text.iter().position(|byte| *byte == b'\n') {
        Some(at) => at.saturating_add(1),
        None => 0,
    };
    text.split_at(end.min(text.len())).1
}

/// The words of a call, the octal text that it is given, and what comes of it.
type CallRow = (&'static [&'static str], &'static str, &'static str);

/// Calls that make a source, each with the words that the source makes.
const AGAIN: [CallRow; 7] = [
    (
        &["compass", "disassemble"],
        "000100 51110000037361054610\n000101 04000001004600046000\n",
        "000100 51110000037361054610\n000101 04000001004600046000\n",
    ),
    (
        &["compass", "disassemble", "--central", "-"],
        "000100 04000 00100\n       46000 46000\n000104 77777 77777 77777 77772\n",
        "000100 04000001004600046000\n000104 77777777777777777772\n",
    ),
    (
        &["compass", "disassemble", "--from", "101", "--to=102"],
        "000100 51110000037361054610\n000102 04000001024600046000\n000103 04000001034600046000\n",
        "000102 04000001024600046000\n",
    ),
    (
        &["compass", "disassemble", "--columns", "9-36"],
        "  17778 000100 51110000037361054610\n",
        "000100 51110000037361054610\n",
    ),
    (
        &["compass", "disassemble", "--peripheral", "--format", "dump"],
        "0100 2012 3456\n     1074\n",
        "0100 2012\n0101 3456\n0102 1074\n",
    ),
    (
        &[
            "compass",
            "disassemble",
            "--entry",
            "101,100",
            "--code=100-101",
            "--data",
            "102",
        ],
        "000100 51110000037361054610\n000101 04000001004600046000\n000102 04000001004600046000\n",
        "000100 51110000037361054610\n000101 04000001004600046000\n000102 04000001004600046000\n",
    ),
    (
        &["compass", "disassemble", "--ident", "x", "--bare"],
        "000100 04000001004600046000\n",
        "000100 04000001004600046000\n",
    ),
];

/// The words of an octal text are those of the source that is made: all of them, those of a range, of columns, or of a machine that is named.
#[test]
fn makes_the_words_again(rt: HostRuntime) {
    for (words, octal, want) in AGAIN.iter() {
        let got = words_again(&rt, rt.alloc(), words, octal);
        assert_bytes(&rt, octal, behind_first_row(&got), want);
    }
}

/// The program has the name of `--ident`, else that of the text's first row, else DUMP.
#[test]
fn names_the_program(rt: HostRuntime) {
    const ROWS: [(&[&str], &str, &str); 4] = [
        (
            &["compass", "disassemble"],
            "000100 04000001004600046000\n",
            "IDENT DUMP\n000100 04000001004600046000\n",
        ),
        (
            &["compass", "disassemble"],
            "IDENT LOADER\n000100 04000001004600046000\n",
            "IDENT LOADER\n000100 04000001004600046000\n",
        ),
        (
            &["compass", "disassemble", "--ident", "x"],
            "IDENT LOADER\n000100 04000001004600046000\n",
            "IDENT X\n000100 04000001004600046000\n",
        ),
        (
            &["compass", "disassemble", "--bare", "--columns", "10-36"],
            "                                          1          IDENT  LOADER\n         000100 04000001004600046000  3 AGAIN    EQ  AGAIN\n",
            "IDENT LOADER\n000100 04000001004600046000\n",
        ),
    ];
    for (words, octal, want) in ROWS.iter() {
        let got = words_again(&rt, rt.alloc(), words, octal);
        assert_bytes(&rt, octal, &got, want);
    }
}

/// A comment tells how many rows aren't read: of one a group of three digits, of the other letters that are taken for figures.
#[test]
fn tells_rows_that_are_not_read(rt: HostRuntime) {
    const ROWS: [(&str, &str); 2] = [
        (
            "000100 00000000000000000001\n000101 123\n",
            "*         1 ROW OF OCTAL ISN'T READ: ROW 2.\n",
        ),
        (
            "WORDS\n000101 123\n000100 00000000000000000001\n000102 O1O1O\n",
            "*         2 ROWS OF OCTAL AREN'T READ, THE FIRST IS ROW 2.\n",
        ),
    ];
    for (octal, remark) in ROWS.iter() {
        let mut reader = Counted::new(octal.as_bytes());
        let got = call_with(rt.alloc(), &["compass", "disassemble"], &mut reader);
        let mut want = Vec::new(rt.alloc());
        for part in [SOURCE_FRONT, remark, SOURCE_END] {
            want.extend_from_slice(part.as_bytes())
                .expect(&rt, "memory");
        }
        let want = str::from_utf8(&want).unwrap_or("");
        assert_call(&rt, &got, 0, want, "");
    }
}

/// The source of a word at 100, up to what is said of its rows, and from there on.
const SOURCE_FRONT: &str = "          IDENT  DUMP
          ABS
*
*         1 WORD FROM 000100 TO 000100, 0 OF THEM CODE.
";

const SOURCE_END: &str = "*
          ORG    100B
          DATA   1                      000100 00000000000000000001
          END
";

/// Calls that make no source, with what each tells.
const NOT_MADE: [CallRow; 10] = [
    (
        &["compass", "disassemble"],
        "",
        "no row of OCTAL has an address and octal digits\n",
    ),
    (
        &["compass", "disassemble"],
        "000100 .....\n",
        "no digit of OCTAL is taken\n",
    ),
    (
        &["compass", "disassemble", "--from", "101"],
        "000100 11111\n",
        "no digit of OCTAL is taken\n",
    ),
    (
        &["compass", "disassemble", "--peripheral"],
        "010000 1234\n",
        "no program has a word at 010000\n",
    ),
    (
        &["compass", "disassemble", "--central"],
        "400000 1????\n",
        "no program has a word at 400000\n",
    ),
    (
        &["compass", "disassemble", "--central"],
        "000100 51110000037361054610\n000100 51110000037361054611\n",
        "row 2: a digit of the word at 000100 has another value in a row before it\n",
    ),
    (
        &["compass", "disassemble", "--central", "--peripheral"],
        "000100 11111\n",
        "error: the argument '--central' cannot be used with '--peripheral'\n\nFor more information, try '--help'.\n",
    ),
    (
        &["compass", "disassemble", "--code", "177-100"],
        "000100 11111\n",
        "error: invalid value '177-100' for '--code <LIST>': write ranges of octal addresses, as 100-177,300\n\nFor more information, try '--help'.\n",
    ),
    (
        &["compass", "disassemble", "--names", "old.sym"],
        "000100 11111\n",
        "error: no file is read or written here\n",
    ),
    (
        &["compass", "disassemble", "old.oct"],
        "000100 11111\n",
        "error: no file is read or written here\n",
    ),
];

/// Where no source is made, why is told and nothing is written.
#[test]
fn tells_why_no_source_is_made(rt: HostRuntime) {
    for (words, octal, told) in NOT_MADE.iter() {
        let mut reader = Counted::new(octal.as_bytes());
        let got = call_with(rt.alloc(), words, &mut reader);
        assert_call(&rt, &got, 2, "", told);
    }
}

/// Of an octal text that can't be read to its end nothing is written. A source that can't be written is told.
#[test]
fn tells_failed_devices(rt: HostRuntime) {
    let words = ["compass", "disassemble"];
    let mut failing = Counted::new(SlowReader {
        rest: b"000100 11111\n",
        fails: true,
    });
    let got = call_with(rt.alloc(), &words, &mut failing);
    assert_call(&rt, &got, 2, "", "OCTAL: read fault\n");
    let mut reader = Counted::new(b"000100 11111\n".as_slice());
    let mut writer = Counted::new(full(rt.alloc(), 3));
    let mut errors = Counted::new(Vec::new(rt.alloc()));
    let status = call_into(rt.alloc(), &words, &mut reader, &mut writer, &mut errors);
    assert_same(&rt, "the status", &status, &2);
    assert_same(&rt, "what is written", &writer.into_inner().taken.len(), &3);
    assert_bytes(&rt, "what is told", &errors.into_inner(), "write fault\n");
}

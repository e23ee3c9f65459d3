//! What an editor shows in a window of its own: the rows that the listing has of lines.
use super::asking::{BY_UTF16, Inquiry, assert_answers, assert_parts};
use super::decks::{NAMES, PAIR, UNDEFINED, UNDEFINED_TOLD};

/// Lines of a program. `docs/TUTORIAL.md` has its listing. The last line of a range counts, wherever the range ends in it.
const PROGRAM: Inquiry = Inquiry {
    begins: BY_UTF16,
    lines: NAMES,
    told: "[]",
    questions: &[
        (
            "compass/rows",
            r#","range":{"start":{"line":2,"character":5},"end":{"line":4,"character":0}}"#,
            r#"["         000100                           3           ORG    100B\n","         000100 7160000005                4 START     SX6    COUNT\n","         000100 5160000102                5           SA6    ANSWER\n"]"#,
        ),
        // as far as there are lines
        (
            "compass/rows",
            r#","range":{"start":{"line":7,"character":0},"end":{"line":4294967295,"character":0}}"#,
            r#"["                00000000000000000005      8 COUNT     EQU    5\n","         000102                           9 ANSWER    BSS    1\n","                                         10           END\n"]"#,
        ),
        // no lines
        (
            "compass/rows",
            r#","range":{"start":{"line":10,"character":0},"end":{"line":12,"character":0}}"#,
            "[]",
        ),
        (
            "compass/rows",
            r#","range":{"start":{"line":5,"character":0},"end":{"line":4,"character":0}}"#,
            "[]",
        ),
    ],
};

/// A line of a macro, and its call with the rows of the expansion.
const CALL: Inquiry = Inquiry {
    begins: BY_UTF16,
    lines: PAIR,
    told: "[]",
    questions: &[(
        "compass/rows",
        r#","range":{"start":{"line":3,"character":0},"end":{"line":4,"character":0}}"#,
        r#"["                                          4           ENDM\n","                                          5           PAIR   FIRST\n         000000                           + FIRST         BSS    1\n         000001                           + SECOND    BSS    1\n"]"#,
    )],
};

/// A line with a flag.
const FLAGGED: Inquiry = Inquiry {
    begins: BY_UTF16,
    lines: UNDEFINED,
    told: UNDEFINED_TOLD,
    questions: &[(
        "compass/rows",
        r#","range":{"start":{"line":0,"character":0},"end":{"line":0,"character":18}}"#,
        r#"["U        000000 7110000000                1           SX1    Q\n"]"#,
    )],
};

const LISTINGS: [Inquiry; 3] = [PROGRAM, CALL, FLAGGED];

#[test]
fn lists_lines(rt: HostRuntime) {
    for (at, inquiry) in LISTINGS.iter().enumerate() {
        assert_answers(&rt, rt.alloc(), at, inquiry);
    }
}

/// A comment, and forty repetitions of it: more rows than a hover has.
const MORE: Inquiry = Inquiry {
    begins: BY_UTF16,
    lines: &["          DUP    40,1", "*"],
    told: "[]",
    questions: &[(
        "compass/rows",
        r#","range":{"start":{"line":1,"character":0},"end":{"line":1,"character":1}}"#,
        "",
    )],
};

#[test]
fn lists_all_rows(rt: HostRuntime) {
    let mut rows = Vec::new(rt.alloc());
    for _ in 0..40 {
        rows.extend_from_slice(b"\\n                                          + *")
            .expect(&rt, "memory");
    }
    let repetitions = str::from_utf8(&rows).unwrap_or("");
    assert_parts(&rt, rt.alloc(), &MORE, &[repetitions], &["..\\n"]);
    drop(rows);
}

//! Words that may be typed: by the field in which they stand, in the place of the word there.
use super::asking::{BY_UTF8, BY_UTF16, Inquiry, assert_answers, assert_parts};
use super::decks::{
    LETTERS, NAMES, PAIR, SETTINGS, UNDEFINED, UNDEFINED_TOLD, WIDE, WIDE_UTF8, WIDE_UTF16,
};

/// A location field: what lines read and none defines, at a line's begin, in a word, and behind the last line.
const LOCATION: Inquiry = Inquiry {
    begins: BY_UTF16,
    lines: UNDEFINED,
    told: UNDEFINED_TOLD,
    questions: &[
        (
            "completion",
            r#","position":{"line":0,"character":0}"#,
            r#"[{"detail":"undefined","kind":21,"label":"Q","textEdit":{"newText":"Q","range":{"end":{"character":0,"line":0},"start":{"character":0,"line":0}}}}]"#,
        ),
        // column 2
        (
            "completion",
            r#","position":{"line":0,"character":1}"#,
            r#"[{"detail":"undefined","kind":21,"label":"Q","textEdit":{"newText":"Q","range":{"end":{"character":1,"line":0},"start":{"character":1,"line":0}}}}]"#,
        ),
        // behind the last line
        (
            "completion",
            r#","position":{"line":7,"character":9}"#,
            r#"[{"detail":"undefined","kind":21,"label":"Q","textEdit":{"newText":"Q","range":{"end":{"character":0,"line":7},"start":{"character":0,"line":7}}}}]"#,
        ),
    ],
};

/// Each symbol that is read is defined.
const COMPLETE: Inquiry = Inquiry {
    begins: BY_UTF16,
    lines: NAMES,
    told: "[]",
    questions: &[
        (
            "completion",
            r#","position":{"line":3,"character":2}"#,
            "[]",
        ),
        (
            "completion",
            r#","position":{"line":9,"character":0}"#,
            "[]",
        ),
    ],
};

/// A comment, and in another one the place of its first character: a letter there is a location. In the empty line one is, too.
const REMARKS: Inquiry = Inquiry {
    begins: BY_UTF16,
    lines: LETTERS,
    told: r#"[{"message":"nothing reads ONE1","range":{"end":{"character":4,"line":3},"start":{"character":0,"line":3}},"severity":4,"source":"compass"}]"#,
    questions: &[
        (
            "completion",
            r#","position":{"line":0,"character":12}"#,
            "[]",
        ),
        (
            "completion",
            r#","position":{"line":0,"character":0}"#,
            "[]",
        ),
        (
            "completion",
            r#","position":{"line":4,"character":0}"#,
            "[]",
        ),
    ],
};

/// Behind the operands, by units: the two characters of é count as two blanks of the card.
const BEHIND: Inquiry = Inquiry {
    begins: BY_UTF8,
    lines: WIDE,
    told: WIDE_UTF8,
    questions: &[(
        "completion",
        r#","position":{"line":0,"character":21}"#,
        "[]",
    )],
};

/// A line that continues another, a word behind column 72, the place of column 73 behind an operation, and one in column 30 behind an operation
/// without operands.
const UNREAD: Inquiry = Inquiry {
    begins: BY_UTF16,
    lines: &[
        "ONE       EQU    1",
        ",         ONE",
        "          SX1    ONE                                                    ON",
        "          CON    1                                                        ",
        "          PS                     ",
    ],
    told: r#"[{"code":"E","message":"no line goes on in the next one, so no comma may stand in column 1","range":{"end":{"character":1,"line":1},"start":{"character":0,"line":1}},"severity":1,"source":"compass"}]"#,
    questions: &[
        (
            "completion",
            r#","position":{"line":1,"character":12}"#,
            "[]",
        ),
        (
            "completion",
            r#","position":{"line":2,"character":73}"#,
            "[]",
        ),
        (
            "completion",
            r#","position":{"line":3,"character":72}"#,
            "[]",
        ),
        (
            "completion",
            r#","position":{"line":4,"character":29}"#,
            "[]",
        ),
    ],
};

/// An operand for a peripheral processor, which has no registers. A symbol that several lines define stands there once.
const PERIPHERAL: Inquiry = Inquiry {
    begins: BY_UTF16,
    lines: PERIPHERAL_DECK,
    told: "[]",
    questions: &[
        (
            "completion",
            r#","position":{"line":4,"character":18}"#,
            r#"[{"detail":"00000000000000000002","kind":21,"label":"N","textEdit":{"newText":"N","range":{"end":{"character":19,"line":4},"start":{"character":17,"line":4}}}},{"detail":"00000000000000000000","kind":21,"label":"LP","textEdit":{"newText":"LP","range":{"end":{"character":19,"line":4},"start":{"character":17,"line":4}}}}]"#,
        ),
        // in column 29, where the operands may begin
        (
            "completion",
            r#","position":{"line":5,"character":28}"#,
            r#"[{"detail":"00000000000000000002","kind":21,"label":"N","textEdit":{"newText":"N","range":{"end":{"character":28,"line":5},"start":{"character":28,"line":5}}}},{"detail":"00000000000000000000","kind":21,"label":"LP","textEdit":{"newText":"LP","range":{"end":{"character":28,"line":5},"start":{"character":28,"line":5}}}}]"#,
        ),
    ],
};

/// A peripheral processor's deck. Line 5 has blanks up to column 28.
const PERIPHERAL_DECK: &[&str] = &[
    "          PERIPH",
    "N         SET    1",
    "LP        LDN    N",
    "N         SET    N+1",
    "          UJN    LP",
    "          PSN               ",
];

const ROWS: [Inquiry; 6] = [LOCATION, COMPLETE, REMARKS, BEHIND, UNREAD, PERIPHERAL];

#[test]
fn completes_by_field(rt: HostRuntime) {
    for (at, row) in ROWS.iter().enumerate() {
        assert_answers(&rt, rt.alloc(), at, row);
    }
}

/// Within a word of an operand.
const TYPED: Inquiry = Inquiry {
    begins: BY_UTF16,
    lines: NAMES,
    told: "[]",
    questions: &[("completion", r#","position":{"line":3,"character":18}"#, "")],
};

/// The symbols come first, and behind them the registers. Each takes the place of the word: of COUNT in columns 18 to 22.
#[test]
fn completes_operands(rt: HostRuntime) {
    let has = [
        r#"{"id":5,"jsonrpc":"2.0","result":[{"detail":"00000000000000000100","kind":21,"label":"START","textEdit":{"newText":"START","range":{"end":{"character":22,"line":3},"start":{"character":17,"line":3}}}},{"detail":"00000000000000000005","kind":21,"label":"COUNT","textEdit":{"newText":"COUNT","range":{"end":{"character":22,"line":3},"start":{"character":17,"line":3}}}},{"detail":"00000000000000000102","kind":21,"label":"ANSWER","textEdit":{"newText":"ANSWER","range":{"end":{"character":22,"line":3},"start":{"character":17,"line":3}}}},{"detail":"register","kind":6,"label":"A0","textEdit":{"newText":"A0","range":{"end":{"character":22,"line":3},"start":{"character":17,"line":3}}}},{"detail":"register","kind":6,"label":"A1","textEdit":{"newText":"A1","range":{"end":{"character":22,"line":3},"start":{"character":17,"line":3}}}}"#,
        r#"{"detail":"register","kind":6,"label":"A7","textEdit":{"newText":"A7","range":{"end":{"character":22,"line":3},"start":{"character":17,"line":3}}}},{"detail":"register","kind":6,"label":"B0","textEdit":{"newText":"B0","range":{"end":{"character":22,"line":3},"start":{"character":17,"line":3}}}}"#,
        r#"{"detail":"register","kind":6,"label":"X7","textEdit":{"newText":"X7","range":{"end":{"character":22,"line":3},"start":{"character":17,"line":3}}}}]}"#,
    ];
    let lacks = [r#""kind":14"#, r#""kind":3,"#, r#""label":"X8""#];
    assert_parts(&rt, rt.alloc(), &TYPED, &has, &lacks);
}

/// In the place of the operation SA1 in columns 11 to 13: macros, statements, and the instructions of the central processor, those of set instructions with the
/// digit of each register.
const OPERATION: Inquiry = Inquiry {
    begins: BY_UTF16,
    lines: PAIR,
    told: "[]",
    questions: &[("completion", r#","position":{"line":5,"character":12}"#, "")],
};

#[test]
fn completes_operations(rt: HostRuntime) {
    let has = [
        r#"{"id":5,"jsonrpc":"2.0","result":[{"detail":"macro","kind":3,"label":"PAIR","textEdit":{"newText":"PAIR","range":{"end":{"character":13,"line":5},"start":{"character":10,"line":5}}}},{"detail":"statement","kind":14,"label":"IDENT","textEdit":{"newText":"IDENT","range":{"end":{"character":13,"line":5},"start":{"character":10,"line":5}}}},"#,
        r#"{"detail":"statement","kind":14,"label":"LIST","textEdit":{"newText":"LIST","range":{"end":{"character":13,"line":5},"start":{"character":10,"line":5}}}},{"detail":"central processor","kind":14,"label":"SA0","textEdit":{"newText":"SA0","range":{"end":{"character":13,"line":5},"start":{"character":10,"line":5}}}},{"detail":"central processor","kind":14,"label":"SA1","textEdit":{"newText":"SA1","range":{"end":{"character":13,"line":5},"start":{"character":10,"line":5}}}},"#,
        r#"{"detail":"central processor","kind":14,"label":"SX7","textEdit":{"newText":"SX7","range":{"end":{"character":13,"line":5},"start":{"character":10,"line":5}}}},{"detail":"central processor","kind":14,"label":"JP","textEdit":{"newText":"JP","range":{"end":{"character":13,"line":5},"start":{"character":10,"line":5}}}}"#,
        r#"{"detail":"central processor","kind":14,"label":"CX7","textEdit":{"newText":"CX7","range":{"end":{"character":13,"line":5},"start":{"character":10,"line":5}}}}"#,
    ];
    let lacks = [
        r#""label":"LDN""#,
        r#""label":"FIRST""#,
        r#""kind":21"#,
        r#""kind":6,"#,
        r#""label":"SA""#,
        r#""label":"SAi""#,
    ];
    assert_parts(&rt, rt.alloc(), &OPERATION, &has, &lacks);
}

/// The operation of a peripheral processor's deck behind PERIPH, and that of PERIPH itself.
const TRANSFER: Inquiry = Inquiry {
    begins: BY_UTF16,
    lines: PERIPHERAL_DECK,
    told: "[]",
    questions: &[("completion", r#","position":{"line":1,"character":10}"#, "")],
};

const DECLARED: Inquiry = Inquiry {
    begins: BY_UTF16,
    lines: PERIPHERAL_DECK,
    told: "[]",
    questions: &[("completion", r#","position":{"line":0,"character":16}"#, "")],
};

/// Above PERIPH a source is for the central processor.
#[test]
fn completes_for_the_machine_of_a_line(rt: HostRuntime) {
    let has = [
        r#"{"id":5,"jsonrpc":"2.0","result":[{"detail":"statement","kind":14,"label":"IDENT","textEdit":{"newText":"IDENT","range":{"end":{"character":13,"line":1},"start":{"character":10,"line":1}}}},"#,
        r#"{"detail":"statement","kind":14,"label":"LIST","textEdit":{"newText":"LIST","range":{"end":{"character":13,"line":1},"start":{"character":10,"line":1}}}},{"detail":"peripheral processor","kind":14,"label":"PSN","textEdit":{"newText":"PSN","range":{"end":{"character":13,"line":1},"start":{"character":10,"line":1}}}},"#,
    ];
    let lacks = [r#""central processor""#, r#""label":"SA0""#, r#""kind":3,"#];
    assert_parts(&rt, rt.alloc(), &TRANSFER, &has, &lacks);
    let has = [
        r#"{"id":5,"jsonrpc":"2.0","result":[{"detail":"statement","kind":14,"label":"IDENT","textEdit":{"newText":"IDENT","range":{"end":{"character":16,"line":0},"start":{"character":10,"line":0}}}},"#,
        r#"{"detail":"central processor","kind":14,"label":"CX7","textEdit":{"newText":"CX7","range":{"end":{"character":16,"line":0},"start":{"character":10,"line":0}}}}]}"#,
    ];
    let lacks = [r#""peripheral processor""#, r#""label":"LDN""#];
    assert_parts(&rt, rt.alloc(), &DECLARED, &has, &lacks);
}

/// A symbol with a point, of which a part is typed behind a sign.
const POINTED: &[&str] = &["F.STATUS  EQU    1", "          SX1    X1+f.STATU", ""];

/// What is told of it: no line defines F.STATU.
const POINTED_TOLD: &str =
    r#"[{"code":"U","message":"no line gives F.STATU a value; it counts as 0","range":{"end":{"character":27,"line":1},"start":{"character":20,"line":1}},"severity":1,"source":"compass"},{"message":"nothing reads F.STATUS","range":{"end":{"character":8,"line":0},"start":{"character":0,"line":0}},"severity":4,"source":"compass"}]"#;

/// A place of a text, the word that is offered first there, and the range in the place of which that is.
const PLACES: [(Inquiry, &str, &str); 6] = [
    // behind the word that is typed, of which the point is a part
    (
        Inquiry {
            begins: BY_UTF16,
            lines: POINTED,
            told: POINTED_TOLD,
            questions: &[("completion", r#","position":{"line":1,"character":27}"#, "")],
        },
        "F.STATUS",
        r#"{"end":{"character":27,"line":1},"start":{"character":20,"line":1}}"#,
    ),
    // behind the point: all of the word
    (
        Inquiry {
            begins: BY_UTF16,
            lines: POINTED,
            told: POINTED_TOLD,
            questions: &[("completion", r#","position":{"line":1,"character":22}"#, "")],
        },
        "F.STATUS",
        r#"{"end":{"character":27,"line":1},"start":{"character":20,"line":1}}"#,
    ),
    // between blanks, in column 5: no word, and the field of an operation
    (
        Inquiry {
            begins: BY_UTF16,
            lines: POINTED,
            told: POINTED_TOLD,
            questions: &[("completion", r#","position":{"line":1,"character":4}"#, "")],
        },
        "IDENT",
        r#"{"end":{"character":4,"line":1},"start":{"character":4,"line":1}}"#,
    ),
    // behind the last line: a location
    (
        Inquiry {
            begins: BY_UTF16,
            lines: POINTED,
            told: POINTED_TOLD,
            questions: &[("completion", r#","position":{"line":3,"character":0}"#, "")],
        },
        "F.STATU",
        r#"{"end":{"character":0,"line":3},"start":{"character":0,"line":3}}"#,
    ),
    // behind characters of two and four bytes, by units of UTF-16
    (
        Inquiry {
            begins: BY_UTF16,
            lines: WIDE,
            told: WIDE_UTF16,
            questions: &[("completion", r#","position":{"line":1,"character":20}"#, "")],
        },
        "LP",
        r#"{"end":{"character":21,"line":1},"start":{"character":19,"line":1}}"#,
    ),
    // a symbol to which two lines give a value
    (
        Inquiry {
            begins: BY_UTF16,
            lines: SETTINGS,
            told: "[]",
            questions: &[("completion", r#","position":{"line":1,"character":17}"#, "")],
        },
        "N",
        r#"{"end":{"character":18,"line":1},"start":{"character":17,"line":1}}"#,
    ),
];

#[test]
fn completes_the_word_at_a_place(rt: HostRuntime) {
    let alloc = rt.alloc();
    for (inquiry, name, range) in &PLACES {
        let has = format!(in alloc;
            "\"label\":\"{name}\",\"textEdit\":{{\"newText\":\"{name}\",\"range\":{range}}}}}"
        ).expect(&rt, "memory");
        assert_parts(&rt, alloc, inquiry, &[has.as_str()], &[]);
        drop(has);
    }
}

//! What an editor shows behind lines: the address and the code of the first row that has one, as the listing has them.
use super::asking::{BY_UTF8, BY_UTF16, Inquiry, assert_answers};
use super::decks::{NAMES, PAIR, UNDEFINED, UNDEFINED_TOLD, WIDE, WIDE_UTF8, WIDE_UTF16};

/// Addresses, codes and a value. The last line of a range counts, wherever the range ends in it.
const PROGRAM: Inquiry = Inquiry {
    begins: BY_UTF16,
    lines: NAMES,
    told: "[]",
    questions: &[
        (
            "inlayHint",
            r#","range":{"start":{"line":0,"character":0},"end":{"line":3,"character":0}}"#,
            r#"[{"label":"000100","paddingLeft":true,"position":{"character":21,"line":2}},{"label":"000100 7160000005","paddingLeft":true,"position":{"character":22,"line":3}}]"#,
        ),
        (
            "inlayHint",
            r#","range":{"start":{"line":6,"character":99},"end":{"line":4294967295,"character":0}}"#,
            r#"[{"label":"000101 0000000000","paddingLeft":true,"position":{"character":12,"line":6}},{"label":"00000000000000000005","paddingLeft":true,"position":{"character":18,"line":7}},{"label":"000102","paddingLeft":true,"position":{"character":18,"line":8}}]"#,
        ),
        // lines with neither
        (
            "inlayHint",
            r#","range":{"start":{"line":0,"character":0},"end":{"line":1,"character":0}}"#,
            "[]",
        ),
        // no lines
        (
            "inlayHint",
            r#","range":{"start":{"line":10,"character":0},"end":{"line":12,"character":0}}"#,
            "[]",
        ),
        (
            "inlayHint",
            r#","range":{"start":{"line":5,"character":0},"end":{"line":4,"character":0}}"#,
            "[]",
        ),
    ],
};

/// Lines that make several words and fields. `examples/programs/data.texts` has the listing.
const DATA: Inquiry = Inquiry {
    begins: BY_UTF16,
    lines: &[
        "          CON    1,-1,TEXT",
        "TEXT      DIS    ,*HELLO, WORLD*",
        "          DATA   3LABC,100",
        "          VFD    12/1,18/TEXT,30/0",
        "          BSSZ   2",
        "          END",
    ],
    told: "[]",
    questions: &[
        (
            "inlayHint",
            r#","range":{"start":{"line":1,"character":0},"end":{"line":5,"character":13}}"#,
            r#"[{"label":"000003 10051414175655271722 ..","paddingLeft":true,"position":{"character":32,"line":1}},{"label":"000005 01020300000000000000 ..","paddingLeft":true,"position":{"character":26,"line":2}},{"label":"000007 0001 ..","paddingLeft":true,"position":{"character":34,"line":3}},{"label":"000010","paddingLeft":true,"position":{"character":18,"line":4}}]"#,
        ),
        (
            "inlayHint",
            r#","range":{"start":{"line":0,"character":0},"end":{"line":0,"character":0}}"#,
            r#"[{"label":"000000 00000000000000000001 ..","paddingLeft":true,"position":{"character":26,"line":0}}]"#,
        ),
    ],
};

/// A call without a symbol has neither an address nor a code: shown is the first of its expansion, behind which more stand.
const CALL: Inquiry = Inquiry {
    begins: BY_UTF16,
    lines: PAIR,
    told: "[]",
    questions: &[(
        "inlayHint",
        r#","range":{"start":{"line":0,"character":0},"end":{"line":6,"character":0}}"#,
        r#"[{"label":"000000 ..","paddingLeft":true,"position":{"character":24,"line":4}},{"label":"000002 5110000000","paddingLeft":true,"position":{"character":22,"line":5}},{"label":"000002 5120000001","paddingLeft":true,"position":{"character":23,"line":6}}]"#,
    )],
};

/// A call with a symbol has the address.
const LABELLED: Inquiry = Inquiry {
    begins: BY_UTF16,
    lines: &[
        "TWICE     MACRO  K",
        "          CON    K",
        "          CON    K",
        "          ENDM",
        "AT        TWICE  7",
        "          PS",
    ],
    told: r#"[{"message":"nothing reads AT","range":{"end":{"character":2,"line":4},"start":{"character":0,"line":4}},"severity":4,"source":"compass"}]"#,
    questions: &[(
        "inlayHint",
        r#","range":{"start":{"line":0,"character":0},"end":{"line":5,"character":12}}"#,
        r#"[{"label":"000000 ..","paddingLeft":true,"position":{"character":18,"line":4}},{"label":"000002 0000000000","paddingLeft":true,"position":{"character":12,"line":5}}]"#,
    )],
};

/// Calls without a symbol: of one word, behind a comment and a value that a SET gives; of a value alone; and of none that has either.
const EXPANDED: Inquiry = Inquiry {
    begins: BY_UTF16,
    lines: &[
        "ONE       MACRO  K",
        "*         ONE WORD",
        "          CON    K",
        "          ENDM",
        "NEXT      MACRO",
        "N         SET    7",
        "          ENDM",
        "NONE      MACRO",
        "          BASE   O",
        "          ENDM",
        "          ONE    5",
        "          NEXT",
        "          NONE",
    ],
    told: "[]",
    questions: &[(
        "inlayHint",
        r#","range":{"start":{"line":9,"character":0},"end":{"line":12,"character":0}}"#,
        r#"[{"label":"000000 00000000000000000005","paddingLeft":true,"position":{"character":18,"line":10}},{"label":"00000000000000000007","paddingLeft":true,"position":{"character":14,"line":11}}]"#,
    )],
};

/// Words of a peripheral processor, in lines with blanks and with a carriage return at their ends. `docs/LANGUAGE.md` has the rows.
const WORDS: Inquiry = Inquiry {
    begins: BY_UTF16,
    lines: &[
        r"          PERIPH\r",
        r"          LDC    123456B\r",
        r"          SHN    -3  \r",
        "          UJN    *-1  ",
        r"          LDM    1000B,5\r",
    ],
    told: "[]",
    questions: &[(
        "inlayHint",
        r#","range":{"start":{"line":0,"character":0},"end":{"line":5,"character":0}}"#,
        r#"[{"label":"000000 2012 3456","paddingLeft":true,"position":{"character":24,"line":1}},{"label":"000002 1074","paddingLeft":true,"position":{"character":21,"line":2}},{"label":"000003 0376","paddingLeft":true,"position":{"character":22,"line":3}},{"label":"000004 5005 1000","paddingLeft":true,"position":{"character":24,"line":4}}]"#,
    )],
};

/// A line with a flag.
const FLAGGED: Inquiry = Inquiry {
    begins: BY_UTF16,
    lines: UNDEFINED,
    told: UNDEFINED_TOLD,
    questions: &[(
        "inlayHint",
        r#","range":{"start":{"line":0,"character":0},"end":{"line":1,"character":0}}"#,
        r#"[{"label":"000000 7110000000","paddingLeft":true,"position":{"character":18,"line":0}}]"#,
    )],
};

/// Ends of lines by units of UTF-16, and by bytes.
const UNITS: Inquiry = Inquiry {
    begins: BY_UTF16,
    lines: WIDE,
    told: WIDE_UTF16,
    questions: &[(
        "inlayHint",
        r#","range":{"start":{"line":0,"character":0},"end":{"line":1,"character":21}}"#,
        r#"[{"label":"000000 7110000001","paddingLeft":true,"position":{"character":20,"line":0}},{"label":"000000 7120000000","paddingLeft":true,"position":{"character":21,"line":1}}]"#,
    )],
};

const BYTES: Inquiry = Inquiry {
    begins: BY_UTF8,
    lines: WIDE,
    told: WIDE_UTF8,
    questions: &[(
        "inlayHint",
        r#","range":{"start":{"line":0,"character":0},"end":{"line":1,"character":24}}"#,
        r#"[{"label":"000000 7110000001","paddingLeft":true,"position":{"character":21,"line":0}},{"label":"000000 7120000000","paddingLeft":true,"position":{"character":24,"line":1}}]"#,
    )],
};

const ROWS: [Inquiry; 9] = [
    PROGRAM, DATA, CALL, LABELLED, EXPANDED, WORDS, FLAGGED, UNITS, BYTES,
];

#[test]
fn hints_at_words(rt: HostRuntime) {
    for (at, row) in ROWS.iter().enumerate() {
        assert_answers(&rt, rt.alloc(), at, row);
    }
}

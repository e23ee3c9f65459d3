//! The outline of a text: symbols, macros and headings.
use super::asking::{BY_UTF8, BY_UTF16, Beginning, Inquiry, assert_answers};
use super::conversation::{INITIALIZE_TREES, UTF16};
use super::decks::{
    LETTERS, NAMES, PAIR, SETTINGS, UNDEFINED, UNDEFINED_TOLD, WIDE, WIDE_UTF8, WIDE_UTF16,
};

/// A label, a value and a word, by the lines that define them.
const PROGRAM: Inquiry = Inquiry {
    begins: BY_UTF16,
    lines: NAMES,
    told: "[]",
    questions: &[(
        "documentSymbol",
        "",
        r#"[{"detail":"00000000000000000100","kind":14,"name":"START","range":{"end":{"character":22,"line":3},"start":{"character":0,"line":3}},"selectionRange":{"end":{"character":5,"line":3},"start":{"character":0,"line":3}}},{"detail":"00000000000000000005","kind":14,"name":"COUNT","range":{"end":{"character":18,"line":7},"start":{"character":0,"line":7}},"selectionRange":{"end":{"character":5,"line":7},"start":{"character":0,"line":7}}},{"detail":"00000000000000000102","kind":14,"name":"ANSWER","range":{"end":{"character":18,"line":8},"start":{"character":0,"line":8}},"selectionRange":{"end":{"character":6,"line":8},"start":{"character":0,"line":8}}}]"#,
    )],
};

/// Symbols that are read in small letters.
const SMALL: Inquiry = Inquiry {
    begins: BY_UTF16,
    lines: LETTERS,
    told: r#"[{"message":"nothing reads ONE1","range":{"end":{"character":4,"line":3},"start":{"character":0,"line":3}},"severity":4,"source":"compass"}]"#,
    questions: &[(
        "documentSymbol",
        "",
        r#"[{"detail":"00000000000000000001","kind":14,"name":"ONE","range":{"end":{"character":18,"line":1},"start":{"character":0,"line":1}},"selectionRange":{"end":{"character":3,"line":1},"start":{"character":0,"line":1}}},{"detail":"00000000000000000001","kind":14,"name":"ONE1","range":{"end":{"character":20,"line":3},"start":{"character":0,"line":3}},"selectionRange":{"end":{"character":4,"line":3},"start":{"character":0,"line":3}}}]"#,
    )],
};

/// Symbols of an expansion, of which one doesn't stand in the line of the call; and the macro.
const EXPANSION: Inquiry = Inquiry {
    begins: BY_UTF16,
    lines: PAIR,
    told: "[]",
    questions: &[(
        "documentSymbol",
        "",
        r#"[{"detail":"00000000000000000000","kind":14,"name":"FIRST","range":{"end":{"character":22,"line":4},"start":{"character":10,"line":4}},"selectionRange":{"end":{"character":22,"line":4},"start":{"character":17,"line":4}}},{"detail":"00000000000000000001","kind":14,"name":"SECOND","range":{"end":{"character":22,"line":4},"start":{"character":10,"line":4}},"selectionRange":{"end":{"character":22,"line":4},"start":{"character":10,"line":4}}},{"detail":"macro","kind":12,"name":"PAIR","range":{"end":{"character":18,"line":0},"start":{"character":0,"line":0}},"selectionRange":{"end":{"character":4,"line":0},"start":{"character":0,"line":0}}}]"#,
    )],
};

/// Each call defines a generated name, which isn't shown.
const GENERATED: Inquiry = Inquiry {
    begins: BY_UTF16,
    lines: &[
        "W         MACRO  N",
        "          LOCAL  LP",
        "LP        SB1    B1+N",
        "          EQ     LP",
        "          ENDM",
        "          W      1",
        "AT        W      2",
    ],
    told: r#"[{"message":"nothing reads AT","range":{"end":{"character":2,"line":6},"start":{"character":0,"line":6}},"severity":4,"source":"compass"}]"#,
    questions: &[(
        "documentSymbol",
        "",
        r#"[{"detail":"00000000000000000001","kind":14,"name":"AT","range":{"end":{"character":18,"line":6},"start":{"character":0,"line":6}},"selectionRange":{"end":{"character":2,"line":6},"start":{"character":0,"line":6}}},{"detail":"macro","kind":12,"name":"W","range":{"end":{"character":18,"line":0},"start":{"character":0,"line":0}},"selectionRange":{"end":{"character":1,"line":0},"start":{"character":0,"line":0}}}]"#,
    )],
};

/// A symbol that two lines define has its last value.
const SET: Inquiry = Inquiry {
    begins: BY_UTF16,
    lines: SETTINGS,
    told: "[]",
    questions: &[(
        "documentSymbol",
        "",
        r#"[{"detail":"00000000000000000002","kind":14,"name":"N","range":{"end":{"character":18,"line":0},"start":{"character":0,"line":0}},"selectionRange":{"end":{"character":1,"line":0},"start":{"character":0,"line":0}}},{"detail":"00000000000000000002","kind":14,"name":"N","range":{"end":{"character":20,"line":2},"start":{"character":0,"line":2}},"selectionRange":{"end":{"character":1,"line":2},"start":{"character":0,"line":2}}}]"#,
    )],
};

/// Macros alone, of which the second one is defined twice: told is the first.
const MACROS: Inquiry = Inquiry {
    begins: BY_UTF16,
    lines: &[
        "*         MACROS",
        " first    MACRO",
        "          ENDM",
        "SECOND    MACRO  A,B   TWICE",
        "          SA1    A",
        "          ENDM",
        "SECOND    MACRO  A",
        "          ENDM",
    ],
    told: "[]",
    questions: &[(
        "documentSymbol",
        "",
        r#"[{"detail":"macro","kind":12,"name":"FIRST","range":{"end":{"character":15,"line":1},"start":{"character":1,"line":1}},"selectionRange":{"end":{"character":6,"line":1},"start":{"character":1,"line":1}}},{"detail":"macro","kind":12,"name":"SECOND","range":{"end":{"character":28,"line":3},"start":{"character":0,"line":3}},"selectionRange":{"end":{"character":6,"line":3},"start":{"character":0,"line":3}}}]"#,
    )],
};

/// Headings: the words between asterisks. A line of asterisks alone is none, nor is one with a blank between two.
const HEADINGS: Inquiry = Inquiry {
    begins: BY_UTF16,
    lines: &[
        "** TABLES **",
        "ONE       CON    1",
        "**********",
        "* * NO HEADING",
        "***  Read, and write",
        "**",
    ],
    told: r#"[{"message":"nothing reads ONE","range":{"end":{"character":3,"line":1},"start":{"character":0,"line":1}},"severity":4,"source":"compass"}]"#,
    questions: &[(
        "documentSymbol",
        "",
        r#"[{"detail":"00000000000000000000","kind":14,"name":"ONE","range":{"end":{"character":18,"line":1},"start":{"character":0,"line":1}},"selectionRange":{"end":{"character":3,"line":1},"start":{"character":0,"line":1}}},{"detail":"heading","kind":3,"name":"TABLES","range":{"end":{"character":12,"line":0},"start":{"character":0,"line":0}},"selectionRange":{"end":{"character":9,"line":0},"start":{"character":3,"line":0}}},{"detail":"heading","kind":3,"name":"Read, and write","range":{"end":{"character":20,"line":4},"start":{"character":0,"line":4}},"selectionRange":{"end":{"character":20,"line":4},"start":{"character":5,"line":4}}}]"#,
    )],
};

/// A symbol that no line defines.
const NOWHERE: Inquiry = Inquiry {
    begins: BY_UTF16,
    lines: UNDEFINED,
    told: UNDEFINED_TOLD,
    questions: &[("documentSymbol", "", "[]")],
};

/// Ends of lines by units of UTF-16, and by bytes.
const UNITS: Inquiry = Inquiry {
    begins: BY_UTF16,
    lines: WIDE,
    told: WIDE_UTF16,
    questions: &[(
        "documentSymbol",
        "",
        r#"[{"detail":"00000000000000000000","kind":14,"name":"LP","range":{"end":{"character":20,"line":0},"start":{"character":0,"line":0}},"selectionRange":{"end":{"character":2,"line":0},"start":{"character":0,"line":0}}}]"#,
    )],
};

const BYTES: Inquiry = Inquiry {
    begins: BY_UTF8,
    lines: WIDE,
    told: WIDE_UTF8,
    questions: &[(
        "documentSymbol",
        "",
        r#"[{"detail":"00000000000000000000","kind":14,"name":"LP","range":{"end":{"character":21,"line":0},"start":{"character":0,"line":0}},"selectionRange":{"end":{"character":2,"line":0},"start":{"character":0,"line":0}}}]"#,
    )],
};

/// The first message of an editor that takes a tree.
const BY_TREES: Beginning = (INITIALIZE_TREES, UTF16);

/// A symbol in front of all headings, a macro and a symbol beneath the first one, and a symbol beneath the last. A section goes up to the next one.
const TREE: Inquiry = Inquiry {
    begins: BY_TREES,
    lines: &[
        "ZERO      EQU    0",
        "** TABLES **",
        "PUT       MACRO  N",
        "          CON    N",
        "          ENDM",
        "TABLE     CON    ZERO",
        "**        CODE",
        "START     SA1    TABLE",
        "          PUT    START",
    ],
    told: "[]",
    questions: &[(
        "documentSymbol",
        "",
        r#"[{"detail":"00000000000000000000","kind":14,"name":"ZERO","range":{"end":{"character":18,"line":0},"start":{"character":0,"line":0}},"selectionRange":{"end":{"character":4,"line":0},"start":{"character":0,"line":0}}},{"children":[{"detail":"macro","kind":12,"name":"PUT","range":{"end":{"character":18,"line":2},"start":{"character":0,"line":2}},"selectionRange":{"end":{"character":3,"line":2},"start":{"character":0,"line":2}}},{"detail":"00000000000000000000","kind":14,"name":"TABLE","range":{"end":{"character":21,"line":5},"start":{"character":0,"line":5}},"selectionRange":{"end":{"character":5,"line":5},"start":{"character":0,"line":5}}}],"detail":"heading","kind":3,"name":"TABLES","range":{"end":{"character":0,"line":6},"start":{"character":0,"line":1}},"selectionRange":{"end":{"character":9,"line":1},"start":{"character":3,"line":1}}},{"children":[{"detail":"00000000000000000001","kind":14,"name":"START","range":{"end":{"character":22,"line":7},"start":{"character":0,"line":7}},"selectionRange":{"end":{"character":5,"line":7},"start":{"character":0,"line":7}}}],"detail":"heading","kind":3,"name":"CODE","range":{"end":{"character":0,"line":9},"start":{"character":0,"line":6}},"selectionRange":{"end":{"character":14,"line":6},"start":{"character":10,"line":6}}}]"#,
    )],
};

/// Without headings all stand by their lines; two of one line in the order in which it defines them.
const UNHEADED: Inquiry = Inquiry {
    begins: BY_TREES,
    lines: PAIR,
    told: "[]",
    questions: &[(
        "documentSymbol",
        "",
        r#"[{"detail":"macro","kind":12,"name":"PAIR","range":{"end":{"character":18,"line":0},"start":{"character":0,"line":0}},"selectionRange":{"end":{"character":4,"line":0},"start":{"character":0,"line":0}}},{"detail":"00000000000000000000","kind":14,"name":"FIRST","range":{"end":{"character":22,"line":4},"start":{"character":10,"line":4}},"selectionRange":{"end":{"character":22,"line":4},"start":{"character":17,"line":4}}},{"detail":"00000000000000000001","kind":14,"name":"SECOND","range":{"end":{"character":22,"line":4},"start":{"character":10,"line":4}},"selectionRange":{"end":{"character":22,"line":4},"start":{"character":10,"line":4}}}]"#,
    )],
};

/// Two headings in lines behind one another, of which the first one has nothing beneath it.
const BARE: Inquiry = Inquiry {
    begins: BY_TREES,
    lines: &[
        "** ONE",
        "** TWO",
        "A         EQU    1",
        "          CON    A",
    ],
    told: "[]",
    questions: &[(
        "documentSymbol",
        "",
        r#"[{"children":[],"detail":"heading","kind":3,"name":"ONE","range":{"end":{"character":0,"line":1},"start":{"character":0,"line":0}},"selectionRange":{"end":{"character":6,"line":0},"start":{"character":3,"line":0}}},{"children":[{"detail":"00000000000000000001","kind":14,"name":"A","range":{"end":{"character":18,"line":2},"start":{"character":0,"line":2}},"selectionRange":{"end":{"character":1,"line":2},"start":{"character":0,"line":2}}}],"detail":"heading","kind":3,"name":"TWO","range":{"end":{"character":0,"line":4},"start":{"character":0,"line":1}},"selectionRange":{"end":{"character":6,"line":1},"start":{"character":3,"line":1}}}]"#,
    )],
};

const ROWS: [Inquiry; 13] = [
    PROGRAM, SMALL, EXPANSION, GENERATED, SET, MACROS, HEADINGS, NOWHERE, UNITS, BYTES, TREE,
    UNHEADED, BARE,
];

#[test]
fn outlines_texts(rt: HostRuntime) {
    for (at, row) in ROWS.iter().enumerate() {
        assert_answers(&rt, rt.alloc(), at, row);
    }
}

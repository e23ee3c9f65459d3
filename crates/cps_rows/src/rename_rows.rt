//! Renames: the lines that change, why others are refused, and what a source is where a place was left out.
use super::rename::renamed::{Asked, edits_told, renamed, said_without};
use super::text_assertions::assert_row;
use std::alloc::Global;
use std::process::Abort;

/// Lines of a source.
type Deck = &'static [&'static str];

/// A line and a column, what the name there will be called, and the lines that change, from the last on, or why it is refused.
type RenameRow = (Deck, u32, usize, &'static str, &'static str);

fn assert_renames(rt: &impl Abort, alloc: Global, rows: &[RenameRow]) {
    for (at, (deck, line, column, new_name, want)) in rows.iter().enumerate() {
        let asked = Asked {
            line: *line,
            column: *column,
            new_name: *new_name,
        };
        let got = renamed(alloc, deck, asked).expect(rt, "memory");
        assert_row(rt, at, "rename", &got, want);
    }
}

/// A label, in comments too.
const LABEL: Deck = &[
    "          IDENT   PROG",
    "DATA      CON     7       DATA",
    "          SA1     DATA+1  DATA",
    "*         DATA",
    "          SA2     DATA-DATA",
    "          END     DATA",
];

/// A symbol that SET gives values.
const SETTING: Deck = &[
    "N         SET     1",
    "          CON     N",
    "N         SET     N+1",
    "          CON     N",
    "          END",
];

const BLOCK: Deck = &[
    "          USE     BUF",
    "          BSS     2",
    "          USE     0",
    "          USE     BUF",
    "          END",
];

/// Symbols and blocks.
const NAMES: [RenameRow; 8] = [
    // a shorter name: the next field stays where it is, and so do comments
    (
        LABEL,
        2,
        1,
        "D",
        "6:          END     D\n\
        5:          SA2     D-D\n\
        3:          SA1     D+1     DATA\n\
        2:D         CON     7       DATA\n",
    ),
    // the place behind a name; a longer one leaves a blank before the comment
    (
        LABEL,
        3,
        23,
        "LONGNAME",
        "6:          END     LONGNAME\n\
        5:          SA2     LONGNAME-LONGNAME\n\
        3:          SA1     LONGNAME+1 DATA\n\
        2:LONGNAME  CON     7       DATA\n",
    ),
    // small letters are written as they are asked for
    (
        LABEL,
        6,
        20,
        "item",
        "6:          END     item\n\
        5:          SA2     item-item\n\
        3:          SA1     item+1  DATA\n\
        2:item      CON     7       DATA\n",
    ),
    (
        SETTING,
        2,
        19,
        "COUNT",
        "4:          CON     COUNT\n\
        3:COUNT     SET     COUNT+1\n\
        2:          CON     COUNT\n\
        1:COUNT     SET     1\n",
    ),
    (
        BLOCK,
        4,
        21,
        "BUFFER",
        "4:          USE     BUFFER\n1:          USE     BUFFER\n",
    ),
    // a block may be called as a symbol is
    (
        &[
            "X         EQU     1",
            "          USE     B",
            "          END",
        ],
        2,
        19,
        "X",
        "2:          USE     X\n",
    ),
    // skipped lines
    (
        &[
            "T         EQU     1",
            "          IFEQ    T,2,1",
            "          CON     T,T+T   T",
            "          END",
        ],
        1,
        1,
        "TT",
        "3:          CON     TT,TT+TT T\n\
        2:          IFEQ    TT,2,1\n\
        1:TT        EQU     1\n",
    ),
    // columns 73 on stay
    (
        &[
            "T         CON     1                                                     SEQ00010",
            "          CON     T       T                                             SEQ00020",
            "          END",
        ],
        1,
        1,
        "TABLE",
        "2:          CON     TABLE   T                                             SEQ00020\n\
        1:TABLE     CON     1                                                     SEQ00010\n",
    ),
];

#[test]
fn renames_symbols_and_blocks(rt: HostRuntime) {
    assert_renames(&rt, rt.alloc(), &NAMES);
}

/// A macro with a parameter that a comment of its body has too, and a local name.
const MACRO: Deck = &[
    "M         MACRO   P,Q",
    "          LOCAL   L",
    "*         P",
    "L         SA1     P       P",
    "          EQ      L",
    "          ENDM",
    "          M       DATA",
    "DATA      CON     1",
    "          END",
];

/// Macros.
const MACROS: [RenameRow; 7] = [
    (
        MACRO,
        7,
        11,
        "LOADER",
        "7:          LOADER  DATA\n1:LOADER    MACRO   P,Q\n",
    ),
    // a parameter, in a comment behind operands too, and not in a comment's line
    (
        MACRO,
        1,
        19,
        "WHERE",
        "4:L         SA1     WHERE   WHERE\n1:M         MACRO   WHERE,Q\n",
    ),
    (
        MACRO,
        2,
        19,
        "LOOP",
        "5:          EQ      LOOP\n4:LOOP      SA1     P       P\n2:          LOCAL   LOOP\n",
    ),
    // an argument
    (
        MACRO,
        8,
        1,
        "WORD",
        "8:WORD      CON     1\n7:          M       WORD\n",
    ),
    // a comment that kept its column would become an operand of the call without arguments, so all moves along
    (
        &[
            "M         MACRO   P",
            "          SA1     P           COMMENT",
            "          ENDM",
            "          M",
            "COMMENT   CON     1",
            "          END",
        ],
        1,
        19,
        "PARAMETR",
        "moved\n2:          SA1     PARAMETR           COMMENT\n1:M         MACRO   PARAMETR\n",
    ),
    // a comment behind arguments stays in its column
    (
        &[
            "M         MACRO   P,Q",
            "          CON     P",
            "          ENDM",
            "          M       A,         COMMENT",
            "A         EQU     1",
            "          END",
        ],
        5,
        1,
        "LONGNAME",
        "5:LONGNAME  EQU     1\n4:          M       LONGNAME,  COMMENT\n",
    ),
    // a macro that nothing calls
    (
        &[
            "N         MACRO   P",
            "          SA1     P_X",
            "          ENDM",
            "          END",
        ],
        2,
        19,
        "PART",
        "2:          SA1     PART_X\n1:N         MACRO   PART\n",
    ),
];

#[test]
fn renames_in_macros(rt: HostRuntime) {
    assert_renames(&rt, rt.alloc(), &MACROS);
}

/// A name that stands for a symbol and for a macro, and names that are joined.
const JOINED: Deck = &[
    "M         MACRO   P",
    "          CON     P",
    "          P",
    "          CON     P_X",
    "          ENDM",
    "T         MACRO",
    "          ENDM",
    "          M       T",
    "T         CON     1",
    "TX        CON     2",
    "N         MACRO   P",
    "          CON     P_X",
    "          CON     P",
    "          ENDM",
    "          N       FNC",
    "FNC       CON     1",
    "FNCX      CON     FNC",
    "          END",
];

/// Refusals of what stands there.
const PLACES: [RenameRow; 10] = [
    (LABEL, 4, 11, "D", "no name stands here"),
    (LABEL, 2, 27, "D", "no name stands here"),
    (LABEL, 3, 24, "D", "no name stands here"),
    (LABEL, 1, 19, "D", "it is the program's name"),
    (JOINED, 8, 19, "D", "the columns mean two things in line 8"),
    (JOINED, 9, 1, "D", "the columns mean two things in line 8"),
    (
        JOINED,
        15,
        19,
        "D",
        "the columns mean two things in line 15",
    ),
    (JOINED, 17, 1, "D", "FNCX is joined of parts in line 15"),
    (
        JOINED,
        16,
        1,
        "D",
        "FNC is a part of FNCX, which line 15 joins",
    ),
    // a parameter that is a part of a joined name may be renamed
    (
        JOINED,
        11,
        19,
        "PART",
        "13:          CON     PART\n12:          CON     PART_X\n11:N         MACRO   PART\n",
    ),
];

#[test]
fn refuses_what_stands_there(rt: HostRuntime) {
    assert_renames(&rt, rt.alloc(), &PLACES);
}

/// Names that mean nothing, and names in skipped lines.
const TAKEN: Deck = &[
    "M         MACRO   P",
    "          LOCAL   L",
    "L         SA1     P+LATER",
    "          SA2     DATA    BEHIND",
    "          ENDM",
    "          IFEQ    1,2,1",
    "          CON     SKIPPED",
    "DATA      CON     1",
    "OTHER     CON     2",
    "          USE     BUF",
    "          USE     BUF2",
    "          M       DATA",
    "          END",
];

/// Refusals of names.
const NEW_NAMES: [RenameRow; 17] = [
    (LABEL, 2, 1, "B1", "no name of this kind"),
    (LABEL, 2, 1, "NINECHARS", "no name of this kind"),
    (LABEL, 2, 1, "1ST", "no name of this kind"),
    (LABEL, 2, 1, "", "no name of this kind"),
    (LABEL, 2, 1, "~0000001", "no name of this kind"),
    (MACRO, 1, 19, "A=B", "no name of this kind"),
    (MACRO, 7, 11, "SA1", "SA1 is an operation"),
    (MACRO, 7, 11, "use", "USE is an operation"),
    (LABEL, 2, 1, "data", "it has this name"),
    (TAKEN, 8, 1, "OTHER", "OTHER is taken in line 9"),
    // a symbol that nothing done mentions
    (TAKEN, 8, 1, "SKIPPED", "SKIPPED is taken in line 7"),
    (TAKEN, 10, 19, "BUF2", "BUF2 is taken in line 11"),
    // a parameter, where the symbol stands in the body
    (TAKEN, 8, 1, "P", "P is taken in line 1"),
    (TAKEN, 8, 1, "L", "L is taken in line 1"),
    // for a parameter or a local name any run of the body
    (TAKEN, 1, 19, "L", "L is taken in line 2"),
    (TAKEN, 1, 19, "BEHIND", "BEHIND is taken in line 4"),
    (TAKEN, 2, 19, "LATER", "LATER is taken in line 3"),
];

#[test]
fn refuses_names(rt: HostRuntime) {
    assert_renames(&rt, rt.alloc(), &NEW_NAMES);
}

/// Refusals of lines.
const LINES: [RenameRow; 3] = [
    // the comment ends in column 72
    (
        &[
            "          SA1     DATA .................................................",
            "DATA      CON     1",
            "          END",
        ],
        2,
        1,
        "DATUM",
        "line 1 has no room",
    ),
    // a character less, and the comment moves to end there
    (
        &[
            "          SA1     DATA ................................................",
            "DATA      CON     1",
            "          END",
        ],
        2,
        1,
        "DATUM",
        "2:DATUM     CON     1\n\
        1:          SA1     DATUM ................................................\n",
    ),
    // with a longer argument the body's operand passes column 72
    (
        &[
            "M         MACRO   P",
            "          CON     P+P+P+P+P+P+P+P",
            "          ENDM",
            "          M       A",
            "A         EQU     1",
            "          END",
        ],
        5,
        1,
        "LONGNAME",
        "line 4 would change",
    ),
];

#[test]
fn refuses_lines(rt: HostRuntime) {
    assert_renames(&rt, rt.alloc(), &LINES);
}

/// A rename whose edits are told.
type EditRow = (Deck, u32, usize, &'static str, &'static str);

const EDITS: [EditRow; 2] = [
    // from the first column that changes to the last, from the last line to the first
    (
        LABEL,
        2,
        1,
        "DELTA",
        "6:20-21 EL\n5:20-26 ELTA-DEL\n3:20-26 ELTA+1\n2:2-6 ELTA\n",
    ),
    // letters that stay aren't written once more
    (
        SETTING,
        2,
        19,
        "NN",
        "4:20-20 N\n3:2-19 N        SET     N\n2:20-20 N\n1:2-3 N\n",
    ),
];

#[test]
fn tells_edits(rt: HostRuntime) {
    for (at, (deck, line, column, new_name, want)) in EDITS.iter().enumerate() {
        let asked = Asked {
            line: *line,
            column: *column,
            new_name: *new_name,
        };
        let got = edits_told(rt.alloc(), deck, asked).expect(&rt, "memory");
        assert_row(&rt, at, "edits", &got, want);
    }
}

/// A rename, an edit of it that is left out, counted from 0, and what is said of the source then.
type LeftOutRow = (Deck, u32, usize, &'static str, usize, &'static str);

const LEFT_OUT: [LeftOutRow; 6] = [
    // what END names isn't obeyed, so only the names tell it
    (LABEL, 2, 1, "D", 0, "same otherwise 6"),
    // a symbol that isn't defined
    (LABEL, 2, 1, "D", 1, "other 5 otherwise 5"),
    (LABEL, 2, 1, "D", 3, "other 3 otherwise 2"),
    // SET
    (SETTING, 2, 19, "COUNT", 1, "other 3 otherwise 3"),
    // a local name that isn't local any more
    (MACRO, 2, 19, "LOOP", 0, "other 7 otherwise 5"),
    // a macro of another name
    (MACRO, 7, 11, "LOADER", 0, "other 7 otherwise 4"),
];

#[test]
fn tells_what_was_left_out(rt: HostRuntime) {
    for (at, (deck, line, column, new_name, left_out, want)) in LEFT_OUT.iter().enumerate() {
        let asked = Asked {
            line: *line,
            column: *column,
            new_name: *new_name,
        };
        let got = said_without(rt.alloc(), deck, asked, *left_out).expect(&rt, "memory");
        assert_row(&rt, at, "left out", &got, want);
    }
}

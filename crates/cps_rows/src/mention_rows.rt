//! Where sources write names, and what these mean there.
use super::mention::agreement::differences;
use super::mention::large::{large_session, large_told};
use super::mention::told::{mentions_told, told_of};
use super::text_assertions::{assert_row, assert_same};
use cps_mention::mentions_in;
use std::alloc::Global;
use std::process::Abort;

/// Lines of a source, and what is told of its names.
type MentionRow = (&'static [&'static str], &'static str);

fn assert_rows(rt: &impl Abort, alloc: Global, rows: &[MentionRow]) {
    for (at, (source, want)) in rows.iter().enumerate() {
        let got = mentions_told(alloc, source).expect(rt, "memory");
        assert_row(rt, at, "mentions", &got, want);
        let differ = differences(alloc, source).expect(rt, "memory");
        assert_row(rt, at, "cross-reference", &differ, "");
    }
}

/// Symbols.
const SYMBOLS: [MentionRow; 5] = [
    // a label that is read before it is defined and behind it, and once more defined
    (
        &[
            "          SA1     DATA+1",
            "DATA      CON     7",
            "          SA2     DATA",
            "DATA      CON     8",
            "          END",
        ],
        "1:19-22 reads symbol DATA by 1 from 2:1-4\n\
        2:1-4 defines symbol DATA by 2\n\
        3:19-22 reads symbol DATA by 3 from 2:1-4\n\
        4:1-4 clashes symbol DATA by 4 from 2:1-4\n",
    ),
    // SET counts from its line on; what END names is idle
    (
        &[
            "N         SET     1",
            "          CON     N",
            "N         SET     N+1",
            "          CON     N",
            "          END     N",
        ],
        "1:1-1 defines symbol N by 1\n\
        2:19-19 reads symbol N by 2 from 1:1-1\n\
        3:1-1 defines symbol N by 3\n\
        3:19-19 reads symbol N by 3 from 1:1-1\n\
        4:19-19 reads symbol N by 4 from 3:1-1\n\
        5:19-19 reads symbol N idle\n",
    ),
    // no value: a symbol that nothing defines; operands that can't be read; a name that nothing done mentions
    (
        &[
            "          SA1     GONE",
            "T         CON     T+(",
            "          CON     T,T",
            "T         CON     NONE+(",
            "          END     NONE",
        ],
        "1:19-22 reads symbol GONE by 1\n\
        2:1-1 defines symbol T by 2\n\
        2:19-19 reads symbol T idle\n\
        3:19-19 reads symbol T by 3 from 2:1-1\n\
        3:21-21 reads symbol T by 3 from 2:1-1\n\
        4:1-1 clashes symbol T by 4 from 2:1-1\n",
    ),
    // both parts of VFD, the count of DIS, and the name behind DEF
    (
        &[
            "W         EQU     30",
            "          VFD     W/V,30/W",
            "V         CON     1",
            "          DIS     W-28,W",
            "          IF      DEF,W,1",
            "          DATA    1LW",
            "          END",
        ],
        "1:1-1 defines symbol W by 1\n\
        2:19-19 reads symbol W by 2 from 1:1-1\n\
        2:21-21 reads symbol V by 2 from 3:1-1\n\
        2:26-26 reads symbol W by 2 from 1:1-1\n\
        3:1-1 defines symbol V by 3\n\
        4:19-19 reads symbol W by 4 from 1:1-1\n\
        5:23-23 reads symbol W by 5 from 1:1-1\n",
    ),
    // lines behind END, texts and comments
    (
        &[
            "T         CON     1     T",
            "*         T",
            "          TITLE   T",
            "          END",
            "          SA1     T",
        ],
        "1:1-1 defines symbol T by 1\n\
        5:19-19 reads symbol T idle\n",
    ),
];

#[test]
fn tells_symbols(rt: HostRuntime) {
    assert_rows(&rt, rt.alloc(), &SYMBOLS);
}

/// Ranges, lines of DUP, blocks and the program.
const RANGES: [MentionRow; 4] = [
    // a range that is skipped, and one that isn't
    (
        &[
            "N         EQU     2",
            "          IFEQ    N,1",
            "          SA1     T",
            "          ELSE",
            "          SA2     T",
            "          ENDIF",
            "T         CON     1",
            "          IF      DEF,T",
            "U         CON     N",
            "          ENDIF",
            "          END",
        ],
        "1:1-1 defines symbol N by 1\n\
        2:19-19 reads symbol N by 2 from 1:1-1\n\
        3:19-19 reads symbol T idle\n\
        5:19-19 reads symbol T by 5 from 7:1-1\n\
        7:1-1 defines symbol T by 7\n\
        8:23-23 reads symbol T by 8 from 7:1-1\n\
        9:1-1 defines symbol U by 9\n\
        9:19-19 reads symbol N by 9 from 1:1-1\n",
    ),
    // SET in DUP: the first value is that of the line before it
    (
        &[
            "I         SET     0",
            "          DUP     3",
            "I         SET     I+1",
            "          CON     I",
            "          ENDD",
            "          END",
        ],
        "1:1-1 defines symbol I by 1\n\
        3:1-1 defines symbol I by 5\n\
        3:19-19 reads symbol I by 5 from 1:1-1+3:1-1\n\
        4:19-19 reads symbol I by 5 from 3:1-1\n",
    ),
    // DUP of counted lines in DUP, and one of no turns
    (
        &[
            "T         CON     1",
            "          DUP     2",
            "          DUP     2,1",
            "          CON     T",
            "          ENDD",
            "          DUP     0,1",
            "          CON     T",
            "          END",
        ],
        "1:1-1 defines symbol T by 1\n\
        4:19-19 reads symbol T by 5 from 1:1-1\n\
        7:19-19 reads symbol T idle\n",
    ),
    // the program's name, and blocks
    (
        &[
            "          IDENT   PROG",
            "          USE     BUF",
            "          BSS     2",
            "          USE     *",
            "          USE     BUF",
            "          USE     0",
            "          END",
        ],
        "1:19-22 defines program PROG by 1\n\
        2:19-21 defines block BUF by 2\n\
        5:19-21 uses block BUF by 5 from 2:19-21\n",
    ),
];

#[test]
fn tells_what_lines_do(rt: HostRuntime) {
    assert_rows(&rt, rt.alloc(), &RANGES);
}

/// Macros.
const MACROS: [MentionRow; 5] = [
    // parameters and local names; an argument that the body doesn't write
    (
        &[
            "M         MACRO   P,Q",
            "          LOCAL   L",
            "L         SA1     P",
            "          EQ      L",
            "          ENDM",
            "          M       DATA,DATA",
            "DATA      CON     1",
            "          END",
        ],
        "1:1-1 defines macro M by 1\n\
        1:19-19 defines parameter P of 1 by 1\n\
        1:21-21 defines parameter Q of 1 by 1\n\
        2:19-19 defines local L of 1 by 5\n\
        3:1-1 defines local L of 1 by 6\n\
        3:1-1 reads local L of 1 by 5 from 2:19-19\n\
        3:19-19 reads parameter P of 1 by 5 from 1:19-19\n\
        4:19-19 reads local L of 1 by 5,6 from 2:19-19+3:1-1\n\
        6:11-11 calls macro M by 6 from 1:1-1\n\
        6:19-22 reads symbol DATA by 6 from 7:1-4\n\
        6:24-27 reads symbol DATA idle\n\
        7:1-4 defines symbol DATA by 7\n",
    ),
    // names that `_` joins
    (
        &[
            "M         MACRO   P",
            "TAB_P     CON     1",
            "          CON     P_X",
            "          ENDM",
            "          M       A",
            "          SA1     TABA",
            "AX        EQU     5",
            "          END",
        ],
        "1:1-1 defines macro M by 1\n\
        1:19-19 defines parameter P of 1 by 1\n\
        2:1-3+5:19-19 defines symbol TABA by 5\n\
        2:5-5 reads parameter P of 1 by 4 from 1:19-19\n\
        3:19-19 reads parameter P of 1 by 4 from 1:19-19\n\
        5:11-11 calls macro M by 5 from 1:1-1\n\
        5:19-19+3:21-21 reads symbol AX by 5 from 7:1-2\n\
        6:19-22 reads symbol TABA by 6 from 2:1-3\n\
        7:1-2 defines symbol AX by 7\n",
    ),
    // an argument that goes through two macros
    (
        &[
            "IN        MACRO   A",
            "          SA1     A",
            "          ENDM",
            "OUT       MACRO   B",
            "          IN      B",
            "          ENDM",
            "          OUT     D",
            "D         CON     1",
            "          END",
        ],
        "1:1-2 defines macro IN by 1\n\
        1:19-19 defines parameter A of 1 by 1\n\
        2:19-19 reads parameter A of 1 by 3 from 1:19-19\n\
        4:1-3 defines macro OUT by 4\n\
        4:19-19 defines parameter B of 4 by 4\n\
        5:11-12 calls macro IN by 7 from 1:1-2\n\
        5:19-19 reads parameter B of 4 by 6 from 4:19-19\n\
        7:11-13 calls macro OUT by 7 from 4:1-3\n\
        7:19-19 reads symbol D by 7 from 8:1-1\n\
        8:1-1 defines symbol D by 8\n",
    ),
    // a local name that is handed on is still that local name
    (
        &[
            "IN        MACRO   A",
            "          EQ      A",
            "          ENDM",
            "OUT       MACRO",
            "          LOCAL   L",
            "L         IN      L",
            "          ENDM",
            "          OUT",
            "          END",
        ],
        "1:1-2 defines macro IN by 1\n\
        1:19-19 defines parameter A of 1 by 1\n\
        2:19-19 reads parameter A of 1 by 3 from 1:19-19\n\
        4:1-3 defines macro OUT by 4\n\
        5:19-19 defines local L of 4 by 7\n\
        6:1-1 defines local L of 4 by 8\n\
        6:1-1 reads local L of 4 by 7 from 5:19-19\n\
        6:11-12 calls macro IN by 8 from 1:1-2\n\
        6:19-19 reads local L of 4 by 7,8 from 5:19-19+6:1-1\n\
        8:11-13 calls macro OUT by 8 from 4:1-3\n",
    ),
    // an argument in parentheses, a body that nothing calls, and a call that is dropped
    (
        &[
            "M         MACRO   P",
            "          CON     P",
            "          ENDM",
            "          M       (T,T+1)",
            "T         CON     1",
            "N         MACRO   P",
            "          SA1     T",
            "          SA2     T_P",
            "          N",
            "          ENDM",
            "R         MACRO",
            "          R",
            "          ENDM",
            "          R",
            "          END",
        ],
        "1:1-1 defines macro M by 1\n\
        1:19-19 defines parameter P of 1 by 1\n\
        2:19-19 reads parameter P of 1 by 3 from 1:19-19\n\
        4:11-11 calls macro M by 4 from 1:1-1\n\
        4:20-20 reads symbol T by 4 from 5:1-1\n\
        4:22-22 reads symbol T by 4 from 5:1-1\n\
        5:1-1 defines symbol T by 5\n\
        6:1-1 defines macro N by 6\n\
        6:19-19 defines parameter P of 6 by 6\n\
        7:19-19 reads symbol T idle\n\
        8:21-21 reads parameter P of 6 by 10 from 6:19-19\n\
        9:11-11 calls macro N idle\n\
        11:1-1 defines macro R by 11\n\
        12:11-11 calls macro R idle\n\
        14:11-11 calls macro R idle\n",
    ),
];

#[test]
fn tells_names_of_macros(rt: HostRuntime) {
    assert_rows(&rt, rt.alloc(), &MACROS);
}

/// A source of 9,999 lines.
#[test]
fn tells_many_names(rt: HostRuntime) {
    let session = large_session(rt.alloc()).expect(&rt, "memory");
    let mentions = mentions_in(rt.alloc(), &session, session.traces()).expect(&rt, "memory");
    let got = told_of(rt.alloc(), &mentions).expect(&rt, "memory");
    let want = large_told(rt.alloc()).expect(&rt, "memory");
    assert_same(&rt, "mentions", &got.len(), &want.len());
    assert_same(&rt, "mentions as they are wanted", &(got == want), &true);
}

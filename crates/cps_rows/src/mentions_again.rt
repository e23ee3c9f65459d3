//! Mentions that are told once more where memory was refused: then they are what they would have been. So the test stands whichever growth
//! is refused, and `scripts/gate/refuse-memory --again` refuses each in turn.
use super::mention::told::{session_of, told_of};
use super::text_assertions::assert_row;
use cps_live::Session;
use cps_mention::{Mention, mentions_in};
use std::alloc::Global;

/// All that has names: a program, a macro, blocks and symbols; lines of DUP, and a range that is skipped.
const SOURCE: [&str; 18] = [
    "          IDENT   PROG",
    "M         MACRO   P",
    "          LOCAL   L",
    "L         SA1     P",
    "          EQ      L",
    "          ENDM",
    "          M       DATA",
    "N         SET     1",
    "          USE     BUF",
    "DATA      CON     N",
    "          DUP     2",
    "N         SET     N+1",
    "          ENDD",
    "          USE     BUF",
    "          IFEQ    N,1",
    "          CON     DATA",
    "          ENDIF",
    "          END",
];

const TOLD: &str = "1:19-22 defines program PROG by 1\n\
    2:1-1 defines macro M by 2\n\
    2:19-19 defines parameter P of 2 by 2\n\
    3:19-19 defines local L of 2 by 6\n\
    4:1-1 defines local L of 2 by 7\n\
    4:1-1 reads local L of 2 by 6 from 3:19-19\n\
    4:19-19 reads parameter P of 2 by 6 from 2:19-19\n\
    5:19-19 reads local L of 2 by 6,7 from 3:19-19+4:1-1\n\
    7:11-11 calls macro M by 7 from 2:1-1\n\
    7:19-22 reads symbol DATA by 7 from 10:1-4\n\
    8:1-1 defines symbol N by 8\n\
    9:19-21 defines block BUF by 9\n\
    10:1-4 defines symbol DATA by 10\n\
    10:19-19 reads symbol N by 10 from 8:1-1\n\
    12:1-1 defines symbol N by 13\n\
    12:19-19 reads symbol N by 13 from 8:1-1+12:1-1\n\
    14:19-21 uses block BUF by 14 from 9:19-21\n\
    15:19-19 reads symbol N by 15 from 12:1-1\n\
    16:19-22 reads symbol DATA idle\n";

fn session_again(alloc: Global) -> Option<Session> {
    match session_of(alloc, &SOURCE) {
        Some(session) => Some(session),
        None => session_of(alloc, &SOURCE),
    }
}

fn mentions_again(alloc: Global, session: &Session) -> Option<Vec<Mention>> {
    match mentions_in(alloc, session, session.traces()) {
        Ok(mentions) => Some(mentions),
        Err(_) => mentions_in(alloc, session, session.traces()).ok(),
    }
}

fn text_again(alloc: Global, mentions: &[Mention]) -> Option<Vec<u8>> {
    match told_of(alloc, mentions) {
        Ok(text) => Some(text),
        Err(_) => told_of(alloc, mentions).ok(),
    }
}

#[test]
fn tells_mentions_again(rt: HostRuntime) {
    let session = session_again(rt.alloc()).expect(&rt, "memory");
    let mentions = mentions_again(rt.alloc(), &session).expect(&rt, "memory");
    let text = text_again(rt.alloc(), &mentions).expect(&rt, "memory");
    assert_row(&rt, 0, "mentions", &text, TOLD);
}

//! Calls that are made once more where memory was refused to them: then they do what they would have done. So the tests stand whichever
//! growth is refused, and `scripts/gate/refuse-memory --again` refuses each in turn.
use super::assertions::{assert_row_text, assert_same};
use cps_code::{Piece, Words};
use cps_text::push_octal;
use std::process::Abort;

fn deposit_again(rt: &impl Abort, words: &mut Words, piece: Piece) {
    if words.deposit(piece).is_err() {
        words.deposit(piece).expect(rt, "memory");
    }
}

/// An instruction, two words of zeros far behind it, and another instruction in the first word.
#[test]
fn deposits_again(rt: HostRuntime) {
    const FIRST: Piece = Piece {
        address: 0,
        first: 0,
        width: 30,
        number: 0o51100_00003,
        times: 1,
    };
    const ZEROS: Piece = Piece {
        address: 100,
        first: 0,
        width: 60,
        number: 0,
        times: 2,
    };
    const SECOND: Piece = Piece {
        address: 0,
        first: 30,
        width: 15,
        number: 0o46000,
        times: 1,
    };
    let mut words = Words::new(rt.alloc());
    deposit_again(&rt, &mut words, FIRST);
    deposit_again(&rt, &mut words, ZEROS);
    deposit_again(&rt, &mut words, SECOND);
    let first = Some(0o51100_00003_46000_00000);
    assert_same(&rt, "the first word", &words.get(0), &first);
    assert_same(&rt, "no word", &words.get(1), &None);
    assert_same(&rt, "a word of zeros", &words.get(100), &Some(0));
    assert_same(&rt, "another one", &words.get(101), &Some(0));
    assert_same(&rt, "the end", &words.get(102), &None);
}

fn push_again(rt: &impl Abort, text: &mut Vec<u8>, number: u64, digits: u8) {
    if push_octal(text, number, digits).is_err() {
        push_octal(text, number, digits).expect(rt, "memory");
    }
}

#[test]
fn pushes_octal_again(rt: HostRuntime) {
    let mut text = Vec::new(rt.alloc());
    push_again(&rt, &mut text, 0o1234567, 4);
    push_again(&rt, &mut text, 7, 3);
    push_again(&rt, &mut text, 0o51100_00003_46000_00000, 20);
    assert_row_text(&rt, 0, &text, "456700751100000034600000000");
}

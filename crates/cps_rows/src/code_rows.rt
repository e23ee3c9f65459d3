//! The codes of statements, and the words that they make.
use super::assertions::{assert_row, assert_same};
use super::same_value::UNDEFINED;
use cps_code::{
    CpForm, Filled, Force, FormFault, Operand, Piece, Place, PlacedInstruction, Words, cp_form,
    place_next,
};
use cps_expr::{Radix, Value};
use std::alloc::Global;
use std::process::Abort;

fn read(alloc: Global, operation: &[u8], tail: &[u8], radix: Radix) -> Result<CpForm, FormFault> {
    cp_form(alloc, operation, tail, radix)
}

/// The value of an expression where no name is defined, or a literal's word in place of its address.
pub fn number_of(rt: &impl Abort, operand: &Operand, here: i64) -> i64 {
    match operand {
        Operand::Expression(expression) => {
            let valued = expression.value(&UNDEFINED, Value::plain(here));
            valued.value.expect(rt, "a value").offset
        }
        Operand::Literal(word) => i64::try_from(*word).expect(rt, "a word"),
    }
}

/// The code of a form with its operand's number in its hole, `*` being 3.
pub fn filled(rt: &impl Abort, form: &CpForm) -> Filled {
    match form.holes() {
        [] => form.fill(&[]),
        [hole] => form.fill(&[number_of(rt, &hole.operand, 3)]),
        _ => rt.panic("more than one hole"),
    }
}

#[test]
fn codes_statements(rt: HostRuntime) {
    const ROWS: [(&[u8], &[u8], u64, bool); 26] = [
        (b"SA1", b"B1+3", 0o5111000003, false),
        (b"SX6", b"X1", 0o73610, false),
        (b"SA6", b"A1", 0o54610, false),
        (b"EQ", b"100B", 0o0400000100, false),
        (b"EQ", b"-1+101B", 0o0400000100, false),
        (b"SA1", b"B0+1", 0o5110000001, false),
        (b"SX6", b"-B1", 0o77601, false),
        (b"SX1", b"-377777B", 0o7110400000, false),
        (b"SX1", b"-400000B", 0o7110377777, true),
        (b"SA1", b"1000000B", 0o5110000000, true),
        (b"SA1", b"A1-1", 0o5011777776, false),
        (b"SA1", b"*+B1", 0o5111000003, false),
        (b"SX1", b"-7/2+X2", 0o7212777774, false),
        (b"EQ", b"***", 0o0400000011, false),
        (b"NO", b"", 0o46000, false),
        (b"sa1", b"b1+3", 0o5111000003, false),
        (b"eq", b"start", 0o0400000000, false),
        (b"no", b"", 0o46000, false),
        (b"sA1", b"b1+B2", 0o56112, false),
        (b"Sx6", b"-b1", 0o77601, false),
        (b"eQ", b"17b", 0o0400000017, false),
        (b"No", b"1,2", 0o46000, false),
        (b"SA1", b"=17B", 0o5110000017, false),
        (b"JP", b"=1RA", 0o0200000001, false),
        (b"NE", b"B1,B2,=3RA,b", 0o0512015602, false),
        (b"EQ", b"=r/ a/ X", 0o0400005501, false),
    ];
    for (at, (operation, tail, digits, is_truncated)) in ROWS.iter().enumerate() {
        let form = read(rt.alloc(), operation, tail, Radix::Decimal).expect(&rt, "a form");
        let want = Filled {
            digits: *digits,
            is_truncated: *is_truncated,
            is_out_of_range: false,
        };
        assert_row(&rt, at, &filled(&rt, &form), &want);
    }
}

#[test]
fn refuses_statements(rt: HostRuntime) {
    const ROWS: [(&[u8], &[u8], Radix, FormFault); 16] = [
        (b"XX", b"1", Radix::Decimal, FormFault::NoOperation),
        (b"SA1", b"-X1", Radix::Decimal, FormFault::Unreadable),
        (b"EQ", b"X1", Radix::Decimal, FormFault::Unreadable),
        (b"EQ", b"B1,B2,X5", Radix::Decimal, FormFault::Unreadable),
        (b"SA1", b"18", Radix::Octal, FormFault::Unreadable),
        (b"SA1", b"B1*2", Radix::Decimal, FormFault::Unreadable),
        (b"SA1", b"2*B1+1", Radix::Decimal, FormFault::Unreadable),
        (b"SA1", b"=8", Radix::Octal, FormFault::Unreadable),
        (b"SA1", b"=1+B1", Radix::Decimal, FormFault::Unreadable),
        (b"SA1", b"B1+B2+2*", Radix::Decimal, FormFault::Unreadable),
        (b"xx", b"1", Radix::Decimal, FormFault::NoOperation),
        (b"sa8", b"1", Radix::Decimal, FormFault::NoOperation),
        (b"sa1", b"-x1", Radix::Decimal, FormFault::Unreadable),
        (b"EQ", b"1,2", Radix::Decimal, FormFault::Unreadable),
        (b"EQ", b" 1", Radix::Decimal, FormFault::Unreadable),
        (b"EQ", b"=3HA BC", Radix::Decimal, FormFault::Unreadable),
    ];
    for (at, (operation, tail, radix, fault)) in ROWS.iter().enumerate() {
        let refused = read(rt.alloc(), operation, tail, *radix).err();
        assert_row(&rt, at, &refused, &Some(*fault));
    }
}

/// Puts bits of a number over a word's, from a place on.
fn deposit(rt: &impl Abort, words: &mut Words, start: Place, width: u8, number: u64) {
    let (address, first) = (start.word, start.used);
    assert!(rt; address < 1000 && first < 60 && 0 < width && width <= 60 - first);
    assert!(rt; number < 1 << width);
    let piece = Piece {
        address,
        first,
        width,
        number,
        times: 1,
    };
    words.deposit(piece).expect(rt, "memory");
}

/// Where the next bits begin. What fills the bits before them is put into the words.
fn advance(
    rt: &impl Abort,
    words: &mut Words,
    place: Place,
    bits: u8,
    force: Force,
) -> PlacedInstruction {
    assert!(rt; place.word < 100 && (bits == 0 || bits == 15 || bits == 30));
    let placed = place_next(place, bits, force);
    if let Some(filling) = placed.filling {
        assert!(rt; filling.first == place.used);
        deposit(rt, words, place, filling.width, filling.number);
    }
    placed
}

fn beginning() -> Place {
    Place {
        word: 0,
        used: 0,
        is_pending: false,
    }
}

/// Puts a statement's code into the words. Gives where it begins, and the place after it.
fn put(rt: &impl Abort, words: &mut Words, place: Place, form: &CpForm) -> (Place, Place) {
    let code = filled(rt, form);
    let placed = advance(rt, words, place, form.bits(), Force::Free);
    let start = placed.start;
    deposit(rt, words, start, form.bits(), code.digits);
    let after = Place {
        word: placed.after.word,
        used: placed.after.used,
        is_pending: form.forces_after(),
    };
    (start, after)
}

/// Puts a statement so many times into words, then another one. The words, and where the last one begins.
fn packed(
    rt: &impl Abort,
    alloc: Global,
    form: &CpForm,
    times: u8,
    last: &CpForm,
) -> (Words, Place) {
    let mut words = Words::new(alloc);
    let mut place = beginning();
    for _ in 0..times {
        let (_, after) = put(rt, &mut words, place, form);
        place = after;
    }
    let (start, after) = put(rt, &mut words, place, last);
    advance(rt, &mut words, after, 0, Force::NewWord);
    (words, start)
}

#[test]
fn packs_words(rt: HostRuntime) {
    // A statement, how often it stands in front, and the first word.
    const ROWS: [(&[u8], &[u8], u8, u64); 2] = [
        (b"NO", b"", 3, 0o46000_46000_46000_46000),
        (b"EQ", b"0", 1, 0o04000_00000_46000_46000),
    ];
    let last = read(rt.alloc(), b"SA1", b"B0+1", Radix::Decimal).expect(&rt, "a form");
    for (at, (operation, tail, times, first_word)) in ROWS.iter().enumerate() {
        let form = read(rt.alloc(), operation, tail, Radix::Decimal).expect(&rt, "a form");
        let (words, start) = packed(&rt, rt.alloc(), &form, *times, &last);
        assert_row(&rt, at, &(start.word, start.used), &(1, 0));
        assert_row(&rt, at, &words.get(0), &Some(*first_word));
        assert_row(&rt, at, &words.get(1), &Some(0o51100_00001_46000_46000));
        assert_row(&rt, at, &words.get(2), &None);
    }
}

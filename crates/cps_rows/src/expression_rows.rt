//! Expressions and data items.
use super::assertions::{assert_row, assert_row_text, assert_same};
use super::same_value::{SameValue, UNDEFINED};
use cps_expr::{Expr, ExprFault, Machine, Radix, Value, read_item};
use std::alloc::Global;
use std::process::Abort;

/// The greatest number of an expression.
const GREATEST: i64 = 576_460_752_303_423_487;

fn read(alloc: Global, text: &[u8], radix: Radix) -> Result<Expr, ExprFault> {
    Expr::read(alloc, text, radix)
}

/// The value of an expression, and whether it has an undefined name.
fn valued(expression: &Expr, names: &SameValue, here: Value) -> (Option<Value>, bool) {
    let valued = expression.value(names, here);
    (valued.value, valued.undefined)
}

/// The names of an expression, each with a blank behind it.
fn named(rt: &impl Abort, alloc: Global, expression: &Expr) -> Vec<u8> {
    let mut text = Vec::new(alloc);
    for name in expression.names() {
        text.extend_from_slice(name.text()).expect(rt, "memory");
        text.push(b' ').expect(rt, "memory");
    }
    text
}

/// The value of an expression, which is plain.
fn plain_value(
    rt: &impl Abort,
    alloc: Global,
    text: &[u8],
    radix: Radix,
) -> Result<Option<i64>, ExprFault> {
    match read(alloc, text, radix)?
        .value(&UNDEFINED, Value::plain(3))
        .value
    {
        Some(value) => {
            assert_same(rt, "a plain value", &value, &Value::plain(value.offset));
            Ok(Some(value.offset))
        }
        None => Ok(None),
    }
}

#[test]
fn values_expressions(rt: HostRuntime) {
    // `*` is plain 3, and no name is defined.
    const ROWS: [(&[u8], Radix, Result<Option<i64>, ExprFault>); 34] = [
        (b"2+3*4", Radix::Decimal, Ok(Some(14))),
        (b"7/2*2", Radix::Decimal, Ok(Some(6))),
        (b"-7/2", Radix::Decimal, Ok(Some(-3))),
        (b"7/-2", Radix::Decimal, Err(ExprFault::Unreadable)),
        (b"1/0", Radix::Decimal, Ok(Some(0))),
        (b"2**", Radix::Decimal, Ok(Some(6))),
        (b"***", Radix::Decimal, Ok(Some(9))),
        (b"*/*-*", Radix::Decimal, Ok(Some(-2))),
        (b"+10B-8D", Radix::Decimal, Ok(Some(0))),
        (b"-1-1*0", Radix::Decimal, Ok(Some(-1))),
        (b"17B", Radix::Decimal, Ok(Some(15))),
        (b"17O", Radix::Decimal, Ok(Some(15))),
        (b"17b", Radix::Decimal, Ok(Some(15))),
        (b"18D", Radix::Decimal, Ok(Some(18))),
        (b"18B", Radix::Decimal, Err(ExprFault::Unreadable)),
        (b"17", Radix::Octal, Ok(Some(15))),
        (b"18", Radix::Octal, Err(ExprFault::Unreadable)),
        (b"18D", Radix::Octal, Ok(Some(18))),
        (b"576460752303423487", Radix::Decimal, Ok(Some(GREATEST))),
        (
            b"576460752303423488",
            Radix::Decimal,
            Err(ExprFault::Unreadable),
        ),
        (b"576460752303423487+1", Radix::Decimal, Ok(None)),
        (b"576460752303423487+1-1", Radix::Decimal, Ok(None)),
        (b"576460752303423487*2/2", Radix::Decimal, Ok(None)),
        (
            b"-576460752303423487*-1",
            Radix::Decimal,
            Err(ExprFault::Unreadable),
        ),
        (b"(1)", Radix::Decimal, Err(ExprFault::Unreadable)),
        (b"", Radix::Decimal, Err(ExprFault::Unreadable)),
        (b"1+", Radix::Decimal, Err(ExprFault::Unreadable)),
        (b"1--1", Radix::Decimal, Err(ExprFault::Unreadable)),
        (b"2*", Radix::Decimal, Err(ExprFault::Unreadable)),
        (b"*2", Radix::Decimal, Err(ExprFault::Unreadable)),
        (b"2//2", Radix::Decimal, Err(ExprFault::Unreadable)),
        (b"1+B1", Radix::Decimal, Err(ExprFault::Unreadable)),
        (b"1 ", Radix::Decimal, Err(ExprFault::Unreadable)),
        (b"A=9", Radix::Decimal, Ok(Some(0))),
    ];
    for (at, (text, radix, want)) in ROWS.iter().enumerate() {
        assert_row(&rt, at, &plain_value(&rt, rt.alloc(), text, *radix), want);
    }
}

#[test]
fn tells_undefined_names(rt: HostRuntime) {
    let text = b"first*2-7/first+second";
    let expression = read(rt.alloc(), text, Radix::Decimal).expect(&rt, "an expression");
    let names = named(&rt, rt.alloc(), &expression);
    assert_row_text(&rt, 0, &names, "FIRST FIRST SECOND ");
    assert!(rt; !expression.has_counter());
    let got = valued(&expression, &UNDEFINED, Value::plain(3));
    assert_same(&rt, "undefined", &got, &(Some(Value::plain(0)), true));
    let defined = SameValue {
        value: Some(Value::plain(7)),
    };
    let got = valued(&expression, &defined, Value::plain(3));
    assert_same(&rt, "defined", &got, &(Some(Value::plain(20)), false));
}

/// The value that a text has as a number alone.
fn number_alone(alloc: Global, text: &[u8]) -> Result<Option<i64>, ExprFault> {
    match read(alloc, text, Radix::Decimal)?.constant() {
        Some(value) => Ok(Some(value.offset)),
        None => Ok(None),
    }
}

#[test]
fn tells_numbers_alone(rt: HostRuntime) {
    const ROWS: [(&[u8], Option<i64>); 9] = [
        (b"60", Some(60)),
        (b"0", Some(0)),
        (b"17B", Some(15)),
        (b"576460752303423487", Some(GREATEST)),
        (b"-1", None),
        (b"1+1", None),
        (b"2*3", None),
        (b"*", None),
        (b"A", None),
    ];
    for (at, (text, want)) in ROWS.iter().enumerate() {
        assert_row(&rt, at, &number_alone(rt.alloc(), text), &Ok(*want));
    }
}

#[test]
fn tells_a_counter(rt: HostRuntime) {
    let counted = read(rt.alloc(), b"2*3**", Radix::Decimal).expect(&rt, "an expression");
    assert!(rt; counted.has_counter());
    assert!(rt; counted.names().is_empty());
}

fn add_term(
    expression: &mut Expr,
    minus: bool,
    text: &[u8],
    radix: Radix,
) -> Result<(), ExprFault> {
    expression.add_term(minus, text, radix)
}

#[test]
fn adds_terms(rt: HostRuntime) {
    let mut expression = Expr::new(rt.alloc());
    add_term(&mut expression, false, b"2*A", Radix::Decimal).expect(&rt, "a term");
    add_term(&mut expression, true, b"17", Radix::Octal).expect(&rt, "a term");
    let refused = add_term(&mut expression, false, b"B1", Radix::Decimal).err();
    assert_same(&rt, "a register", &refused, &Some(ExprFault::Unreadable));
    let defined = SameValue {
        value: Some(Value::plain(7)),
    };
    let got = valued(&expression, &defined, Value::plain(3));
    assert_same(&rt, "the value", &got, &(Some(Value::plain(-1)), false));
}

/// The data item in base 10 that a text begins with: its word, and how many characters it takes.
fn item(text: &[u8], machine: Machine) -> Option<(u64, usize)> {
    read_item(text, Radix::Decimal, machine)
}

#[test]
fn reads_items(rt: HostRuntime) {
    const ROWS: [(&[u8], Machine, Option<(u64, usize)>); 5] = [
        (b"3LABC,", Machine::Cp, Some((0o01020_30000_00000_00000, 5))),
        (b"L*AB*", Machine::Cp, Some((0o01020_00000_00000_00000, 5))),
        (b"-1,", Machine::Pp, Some((0o7776, 2))),
        (b",1", Machine::Cp, None),
        (b"18B", Machine::Cp, None),
    ];
    for (at, (text, machine, want)) in ROWS.iter().enumerate() {
        assert_row(&rt, at, &item(text, *machine), want);
    }
}

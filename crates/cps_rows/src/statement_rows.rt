//! The rows of statements.
use super::assertions::{assert_row, assert_row_text, assert_same};
use super::same_value::UNDEFINED;
use cps_expr::{Expr, Machine, Operation, Pseudo, Radix, Stmt, StmtFault, Value, read_locals};
use std::alloc::Global;
use std::process::Abort;

fn read(
    alloc: Global,
    operation: &[u8],
    tail: &[u8],
    machine: Machine,
    radix: Radix,
) -> Result<Stmt, StmtFault> {
    Stmt::read(alloc, operation, tail, machine, radix)
}

/// Why the machine's operands in base 10 are not read.
fn refused(alloc: Global, operation: &str, tail: &str) -> Option<StmtFault> {
    let operation = operation.as_bytes();
    let tail = tail.as_bytes();
    read(alloc, operation, tail, Machine::Cp, Radix::Decimal).err()
}

#[test]
fn refuses_operands(rt: HostRuntime) {
    const UNREADABLE: [(&str, &str); 48] = [
        ("IDENT", ""),
        ("IDENT", "X1"),
        ("BASE", ""),
        ("BASE", "MIXED"),
        ("BASE", "8"),
        ("EQU", ""),
        ("EQU", "1,2"),
        ("=", "18B"),
        ("SET", "A,"),
        ("ORG", "X1"),
        ("ORG", "1,WORK"),
        ("USE", "W,V"),
        ("USE", "00"),
        ("USE", "X1"),
        ("USE", "/A/"),
        ("BSS", ""),
        ("BSSZ", "1,1"),
        ("CON", ""),
        ("CON", "1,,2"),
        ("CON", "1,=2"),
        ("DATA", ""),
        ("DATA", "1,"),
        ("DATA", "1,,2"),
        ("DATA", "18B"),
        ("DATA", "3LABCD"),
        ("VFD", ""),
        ("VFD", "12"),
        ("VFD", "12/"),
        ("VFD", "/1"),
        ("VFD", "6/1,"),
        ("DIS", ""),
        ("DIS", "2"),
        ("DIS", ",*AB"),
        ("DIS", ", AB "),
        ("DIS", ",*A~B*"),
        ("DIS", "2 ,AB"),
        ("IFEQ", "1"),
        ("IFEQ", "1,2,3,4"),
        ("IF", "DEF"),
        ("IF", "SET,A"),
        ("IF", "DEF,X1"),
        ("DUP", "1,2,3"),
        ("MACRO", "A,B,a"),
        ("MACRO", "A=,B"),
        ("LOCAL", ""),
        ("LOCAL", "A,B,a"),
        ("LOCAL", "A=,B"),
        ("LOCAL", "A,X1"),
    ];
    for (at, (operation, tail)) in UNREADABLE.iter().enumerate() {
        let fault = refused(rt.alloc(), operation, tail);
        assert_row(&rt, at, &fault, &Some(StmtFault::Unreadable));
    }
    const UNKNOWN: [&str; 6] = ["SA1", "NO", "MXX", "RE", "", "IFEQQ"];
    for (at, operation) in UNKNOWN.iter().enumerate() {
        let fault = refused(rt.alloc(), operation, "1");
        assert_row(&rt, at, &fault, &Some(StmtFault::NoOperation));
        let found = Operation::named(operation.as_bytes());
        assert_row(&rt, at, &found, &None);
    }
}

/// The values of an operation's expressions, taken out of the statement.
fn taken(rt: &impl Abort, alloc: Global, statement: Stmt) -> Vec<i64> {
    match statement.into_row() {
        Pseudo::Con(values) => numbers_of(rt, alloc, &values.into_vec()),
        _ => rt.panic("not CON"),
    }
}

/// The values of expressions, `*` being 3.
fn numbers_of(rt: &impl Abort, alloc: Global, values: &[Expr]) -> Vec<i64> {
    let mut numbers = Vec::new(alloc);
    for expression in values {
        let value = expression.value(&UNDEFINED, Value::plain(3)).value;
        let offset = value.expect(rt, "a value").offset;
        numbers.push(offset).expect(rt, "memory");
    }
    numbers
}

#[test]
fn takes_operands_out(rt: HostRuntime) {
    let tail = b"1,2**,17B";
    let statement = read(rt.alloc(), b"CON", tail, Machine::Cp, Radix::Decimal);
    let numbers = taken(&rt, rt.alloc(), statement.expect(&rt, "a statement"));
    assert_same(&rt, "values", &numbers.as_slice(), &[1, 6, 15].as_slice());
}

/// The local names of a tail, each with a bar behind it.
fn joined_names(rt: &impl Abort, alloc: Global, tail: &[u8]) -> Vec<u8> {
    let names = read_locals(alloc, tail).expect(rt, "names");
    let mut text = Vec::new(alloc);
    for name in names.as_slice() {
        text.extend_from_slice(name.text()).expect(rt, "memory");
        text.push(b'|').expect(rt, "memory");
    }
    text
}

#[test]
fn reads_local_names(rt: HostRuntime) {
    const ROWS: [(&str, &str); 3] = [
        ("LP", "LP|"),
        ("LP,b COMMENT", "LP|B|"),
        (".1,A.B,LONGNAME,lp", ".1|A.B|LONGNAME|LP|"),
    ];
    for (at, (tail, want)) in ROWS.iter().enumerate() {
        let text = joined_names(&rt, rt.alloc(), tail.as_bytes());
        assert_row_text(&rt, at, &text, want);
    }
}

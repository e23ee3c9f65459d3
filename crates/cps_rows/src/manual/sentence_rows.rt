//! What is told of letters of flags and of statements, and of words that are nothing.
use super::assertions::{assert_named, assert_told};

const SENTENCES: [(&[u8], &str); 10] = [
    (b"T", "T: a value that was cut\n"),
    (
        b"v",
        "V: a width of VFD that isn't plain, or isn't from 1 to 60\n",
    ),
    (
        b"VFD",
        "VFD\nOperands: one or more of n/e: a width now, and a value later\nEffect: fields of n bits\n",
    ),
    (
        b"bss",
        "BSS\nOperands: one expression, now: plain, 0 or more\nEffect: reserves so many words\n",
    ),
    (
        b"=",
        "EQU, =\nOperands: one expression, now\nEffect: gives the location symbol its value\n",
    ),
    (
        b"Eject",
        "TITLE SPACE EJECT LIST\nOperands: not read\nEffect: accepted and listed, and does nothing\n",
    ),
    (
        b"xj",
        "xj is an operation of COMPASS that is left out here: it is an instruction of some central processors; write a VFD of its code\n",
    ),
    (
        b"R=",
        "R= is an operation of COMPASS that is left out here: it sets a register; SA, SB or SX does that\n",
    ),
    (
        b"ENDIF",
        "ENDIF\nOperands: not read\nEffect: ends the range. E without one\n",
    ),
    (
        b"IDENT",
        "IDENT\nOperands: a symbol, the first operand; the rest isn't read\nEffect: names the program. E if another one named it before, or if it stands after the head\n",
    ),
];

/// The letters of flags, and the names of statements.
const NAMES: [&[u8]; 42] = [
    b"A", b"D", b"E", b"L", b"O", b"T", b"U", b"V", b"IDENT", b"ABS", b"PERIPH", b"BASE", b"EQU",
    b"=", b"SET", b"ORG", b"USE", b"BSS", b"BSSZ", b"CON", b"DATA", b"VFD", b"DIS", b"IFEQ",
    b"IFNE", b"IFGT", b"IFGE", b"IFLT", b"IFLE", b"IF", b"ELSE", b"ENDIF", b"DUP", b"ENDD",
    b"MACRO", b"LOCAL", b"ENDM", b"END", b"TITLE", b"SPACE", b"EJECT", b"LIST",
];

/// Words of which nothing is told.
const NOTHING: [&[u8]; 15] = [
    b"", b"B", b"AA", b"S", b"SA8", b"SA10", b"SAI", b"RJ0", b"RJ1", b"LDN0", b"LD", b"FORTRAN",
    b"VFDS", b"0", b"SA ",
];

#[test]
fn tells_sentences(rt: HostRuntime) {
    assert_told(&rt, rt.alloc(), &SENTENCES);
}

#[test]
fn tells_of_each_name(rt: HostRuntime) {
    for name in NAMES {
        assert_named(&rt, rt.alloc(), name);
    }
}

#[test]
fn tells_nothing(rt: HostRuntime) {
    for word in NOTHING {
        assert_told(&rt, rt.alloc(), &[(word, "nothing")]);
    }
}

//! The text of macros, characters and fields.
use super::assertions::{assert_row, assert_row_text, assert_same};
use super::given::{line, name};
use cps_text::{
    ArgFault, Fields, Line, LineFault, Name, Statement, Substitute, Substitutes, arguments,
    display, insert_by, insert_text, push_octal,
};
use std::alloc::Global;
use std::process::Abort;

/// The arguments of a tail, each with a bar behind it.
fn joined_arguments(rt: &impl Abort, alloc: Global, tail: &[u8]) -> Vec<u8> {
    let found = arguments(alloc, tail).expect(rt, "arguments");
    let mut text = Vec::new(alloc);
    for argument in &found {
        text.extend_from_slice(argument).expect(rt, "memory");
        text.push(b'|').expect(rt, "memory");
    }
    text
}

#[test]
fn parts_arguments(rt: HostRuntime) {
    const ROWS: [(&str, &str); 12] = [
        ("", ""),
        (" A", ""),
        ("A,B", "A|B|"),
        ("A,,B C", "A||B|"),
        ("A,", "A||"),
        ("(A,B),C", "A,B|C|"),
        ("(A B) C", "A B|"),
        ("((A))", "(A)|"),
        ("()", "|"),
        ("(A)(B)", "(A)(B)|"),
        ("(A)B", "(A)B|"),
        ("),A", ")|A|"),
    ];
    for (at, (tail, want)) in ROWS.iter().enumerate() {
        let text = joined_arguments(&rt, rt.alloc(), tail.as_bytes());
        assert_row_text(&rt, at, &text, want);
    }
    const UNCLOSED: [&str; 3] = ["(A", "A,(B,(C)", ")("];
    for (at, tail) in UNCLOSED.iter().enumerate() {
        let fault = arguments(rt.alloc(), tail.as_bytes()).err();
        assert_row(&rt, at, &fault, &Some(ArgFault::Unclosed));
    }
}

#[test]
fn inserts_arguments(rt: HostRuntime) {
    const ROWS: [(&str, &str); 6] = [
        ("         SX_R    X_R+K", "         SX5    X5+10B"),
        ("* R_K", "* R_K"),
        ("   KR K.R RK_", "   KR K.R RK"),
        ("   k_r", "   10B5"),
        ("   LONG=_K_", "   K_R=10B"),
        ("", ""),
    ];
    let pairs = [
        (name(&rt, b"R"), b"5".as_slice()),
        (name(&rt, b"K"), b"10B".as_slice()),
        (name(&rt, b"K"), b"20B".as_slice()),
        (name(&rt, b"LONG"), b"K_R".as_slice()),
    ];
    for (at, (body, want)) in ROWS.iter().enumerate() {
        let text = insert_text(rt.alloc(), body.as_bytes(), &pairs).expect(&rt, "memory");
        assert_row_text(&rt, at, &text, want);
    }
}

/// More names than are looked through one by one.
const NAMES: [(&str, u32); 17] = [
    ("A", 1),
    ("B", 2),
    ("C", 3),
    ("D", 4),
    ("E", 5),
    ("F", 6),
    ("G", 7),
    ("H", 8),
    ("I", 9),
    ("J", 10),
    ("K", 11),
    ("L", 12),
    ("M", 13),
    ("N", 14),
    ("O", 15),
    ("P1", 16),
    ("P17", 17),
];

/// Puts a generated name in the place of each.
fn push_names(rt: &impl Abort, known: &mut Substitutes<'_>) {
    for (text, number) in NAMES.iter() {
        let generated = Substitute::Generated(Name::generated(*number));
        let name = name(rt, text.as_bytes());
        known.push(name, generated).expect(rt, "memory");
    }
}

/// What stands for the last of many names, in small letters too, and for a parameter.
#[test]
fn inserts_generated_names(rt: HostRuntime) {
    const ROWS: [(&str, &str); 4] = [
        (
            "A        CON     p17,P1,a",
            "~0000001        CON     ~0000017,~0000016,~0000001",
        ),
        (
            "P        CON     P_A,P1_7",
            "ARG        CON     ARG~0000001,~00000167",
        ),
        ("* A", "* A"),
        ("X_Y      CON     AB", "XY      CON     AB"),
    ];
    let arguments = [(name(&rt, b"P"), b"ARG".as_slice())];
    let mut known = Substitutes::of(rt.alloc(), &arguments).expect(&rt, "memory");
    push_names(&rt, &mut known);
    for (at, (body, want)) in ROWS.iter().enumerate() {
        let text = insert_by(rt.alloc(), body.as_bytes(), &known).expect(&rt, "memory");
        assert_row_text(&rt, at, &text, want);
    }
}

/// A generated name stands in statements of expansions, and in no line of a source.
#[test]
fn tells_statements_from_lines(rt: HostRuntime) {
    const TILDES: [u8; 91] = [b'~'; 91];
    let rows: [(&[u8], Option<LineFault>, Option<LineFault>); 5] = [
        (b"~0000001 NO", None, Some(LineFault::BadCharacter)),
        (
            b"~0000001 NO {",
            Some(LineFault::BadCharacter),
            Some(LineFault::BadCharacter),
        ),
        (b"         NO", None, None),
        (&TILDES[..90], None, Some(LineFault::BadCharacter)),
        (
            &TILDES,
            Some(LineFault::LineTooLong),
            Some(LineFault::LineTooLong),
        ),
    ];
    for (at, (text, statement, line)) in rows.iter().enumerate() {
        assert_row(&rt, at, &Statement::new(rt.alloc(), *text).err(), statement);
        assert_row(&rt, at, &Line::new(rt.alloc(), *text).err(), line);
    }
}

/// A statement with a generated name in its location field.
#[test]
fn cuts_generated_names(rt: HostRuntime) {
    let whole = Statement::new(rt.alloc(), b"~0000001 NO").expect(&rt, "a statement");
    assert_row_text(&rt, 0, whole.bytes(), "~0000001 NO");
    assert_fields(&rt, &whole.fields(), &["~0000001", "NO", "", "", ""]);
}

/// Asserts what the fields of a statement are: location, operation, variable, comment and tail.
fn assert_fields(rt: &impl Abort, got: &Fields<'_>, want: &[&str; 5]) {
    let Fields::Statement(got) = got else {
        rt.panic("not a statement");
    };
    let got = [
        got.location,
        got.operation,
        got.variable,
        got.comment,
        got.tail,
    ];
    for (at, (got, want)) in got.iter().zip(want).enumerate() {
        assert_row_text(rt, at, got, want);
    }
}

#[test]
fn codes_characters(rt: HostRuntime) {
    const ROWS: [(u8, u8); 16] = [
        (b':', 0o00),
        (b'A', 0o01),
        (b'a', 0o01),
        (b'Z', 0o32),
        (b'0', 0o33),
        (b'9', 0o44),
        (b'+', 0o45),
        (b'=', 0o54),
        (b' ', 0o55),
        (b',', 0o56),
        (b'.', 0o57),
        (b'#', 0o60),
        (b'_', 0o65),
        (b'&', 0o67),
        (b'\'', 0o70),
        (b';', 0o77),
    ];
    for (at, (character, code)) in ROWS.iter().enumerate() {
        assert_row(&rt, at, &display(*character), &Some(*code));
    }
    assert_same(&rt, "no code", &display(b'~'), &None);
    let mut text = Vec::new(rt.alloc());
    push_octal(&mut text, 0o1234567, 4).expect(&rt, "memory");
    push_octal(&mut text, 7, 3).expect(&rt, "memory");
    assert_row_text(&rt, 0, &text, "4567007");
}

#[test]
fn cuts_fields(rt: HostRuntime) {
    let whole = line(&rt, rt.alloc(), b" Start   SA1     B1+3,X COMMENT here");
    let want = [
        "Start",
        "SA1",
        "B1+3,X",
        "COMMENT here",
        "B1+3,X COMMENT here",
    ];
    assert_fields(&rt, &whole.fields(), &want);
    let comment = line(&rt, rt.alloc(), b"*SA1");
    assert!(rt; matches!(comment.fields(), Fields::Comment));
    let continued = line(&rt, rt.alloc(), b",SA1");
    assert!(rt; matches!(continued.fields(), Fields::Continued));
}

//! The codes of a peripheral processor's statements.
use super::assertions::assert_row;
use super::code_rows::number_of;
use cps_code::{Filled, FormFault, PpForm, pp_form};
use cps_expr::Radix;
use std::alloc::Global;
use std::process::Abort;

/// The code of a form with its operands' numbers in its holes, `*` being 0.
fn filled(rt: &impl Abort, form: &PpForm) -> Filled {
    match form.holes() {
        [] => form.fill(&[]),
        [hole] => form.fill(&[number_of(rt, &hole.operand, 0)]),
        [first, second] => {
            let number = number_of(rt, &first.operand, 0);
            let next = number_of(rt, &second.operand, 0);
            form.fill(&[number, next])
        }
        _ => rt.panic("more than two holes"),
    }
}

/// The form of a statement, with decimal numbers.
fn read(alloc: Global, operation: &[u8], tail: &[u8]) -> Result<PpForm, FormFault> {
    pp_form(alloc, operation, tail, Radix::Decimal)
}

#[test]
fn codes_peripheral_statements(rt: HostRuntime) {
    // A statement, its bits, its code, and whether a distance is out of range.
    const ROWS: [(&[u8], &[u8], u8, u64, bool); 7] = [
        (b"PSN", b"5", 12, 0o0000, false),
        (b"LDD", b"12B", 12, 0o3012, false),
        (b"LJM", b"3456B,12B", 24, 0o01123456, false),
        (b"LDC", b"123456B", 24, 0o20123456, false),
        (b"LDM", b"=5,1", 24, 0o50010005, false),
        (b"ujn", b"-31", 12, 0o0340, false),
        (b"UJN", b"32", 12, 0o0300, true),
    ];
    for (at, (operation, tail, bits, digits, is_out_of_range)) in ROWS.iter().enumerate() {
        let want = Filled {
            digits: *digits,
            is_truncated: false,
            is_out_of_range: *is_out_of_range,
        };
        let form = read(rt.alloc(), operation, tail).expect(&rt, "a form");
        assert_row(&rt, at, &form.bits(), bits);
        assert_row(&rt, at, &filled(&rt, &form), &want);
    }
}

#[test]
fn refuses_peripheral_statements(rt: HostRuntime) {
    const ROWS: [(&[u8], &[u8], FormFault); 11] = [
        (b"NO", b"", FormFault::NoOperation),
        (b"LDX", b"5", FormFault::NoOperation),
        (b"LD", b"5", FormFault::NoOperation),
        (b"LDN", b"", FormFault::Unreadable),
        (b"LDN", b"5,6", FormFault::Unreadable),
        (b"LDN", b"X1", FormFault::Unreadable),
        (b"LJM", b"5,", FormFault::Unreadable),
        (b"LJM", b"5,6,7", FormFault::Unreadable),
        (b"LDN", b"=5", FormFault::Unreadable),
        (b"LDM", b"5,=5", FormFault::Unreadable),
        (b"LDC", b"=4096", FormFault::Unreadable),
    ];
    for (at, (operation, tail, fault)) in ROWS.iter().enumerate() {
        let got = read(rt.alloc(), operation, tail).err();
        assert_row(&rt, at, &got, &Some(*fault));
    }
}

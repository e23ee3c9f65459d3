//! For which machine an octal text seems to be. Nothing is promised of it: a source for the other machine isn't certified.

use cps_expr::Machine;

/// The digits of a word of a peripheral processor.
const WORD: u64 = 4;

/// What a row of an octal text seems to have: an address, and so many digits behind it.
#[derive(Clone, Copy)]
struct SeenRow {
    address: u64,
    digits: u64,
}

/// The machine by two neighbouring rows: where their addresses are apart by as many words of 4 digits as the first row has, it is a
/// peripheral processor. By one row alone it is one where the row has 4 digits.
pub fn guess_machine(octal: &[u8]) -> Machine {
    let mut before: Option<SeenRow> = None;
    for row in octal.split(|byte| *byte == b'\n') {
        let Some(row) = seen_row(row) else {
            continue;
        };
        if let Some(before) = before {
            return machine_of(before, row.address.saturating_sub(before.address));
        }
        before = Some(row);
    }
    match before {
        Some(row) => machine_of(row, 1),
        None => Machine::Cp,
    }
}

/// The machine, where the row behind a row is so many words apart.
fn machine_of(row: SeenRow, apart: u64) -> Machine {
    if row.digits > 0 && row.digits == apart.saturating_mul(WORD) {
        Machine::Pp
    } else {
        Machine::Cp
    }
}

/// A row that begins with an address of at most six octal digits, behind which a digit stands.
fn seen_row(row: &[u8]) -> Option<SeenRow> {
    let mut address: u64 = 0;
    let mut before = 0;
    let mut digits: u64 = 0;
    let mut is_behind = false;
    for byte in row {
        match *byte {
            b'0'..=b'7' if is_behind => digits = digits.saturating_add(1),
            b'0'..=b'7' if before < 6 => {
                address = address
                    .wrapping_mul(8)
                    .wrapping_add(u64::from(*byte - b'0'));
                before += 1;
            }
            b' ' | b'\t' => is_behind = is_behind || before > 0,
            _ => break,
        }
    }
    if digits == 0 {
        return None;
    }
    Some(SeenRow { address, digits })
}

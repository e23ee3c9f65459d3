//! Columns of a row that are written over its blanks.
ghost use Rattle.std.specs.Prelude.{◌≡◌, ◌+◌, ◌≤◌, ℕ, List, length, IfSome};
ghost use Rattle.cps_text.specs.Octal.{octal};
ghost use Rattle.cps_state.specs.Flags.{letters};
ghost use Rattle.cps_list.specs.Columns.{at_right, laid_out};
ghost use Rattle.cps_list.specs.Code.Front.{IsFront, IsNarrow, front_columns, with_text};
ghost use Rattle.cps_list.specs.Listing as texts;

use crate::columns::{
    ADDRESS_DIGITS, BEFORE_ADDRESS, BEFORE_CODE, BEFORE_NUMBER, NUMBER_COLUMNS, last_of,
};
use cps_final::{OctalDigits, Row};
use cps_text::write_octal;
use itoa::Buffer;

/// Writes the address, the code and the number of a row over the blanks behind its flags.
#[inline(always)]
pub fn write_front(front: &mut [u8], number: u32, row: &Row)
    requires columns { length front.old ≡ 44 }
    requires narrow { IsNarrow row.now }
    requires begun { IsFront front.old (letters row.now.flags) 9 }
    ensures { IsFront front.new (laid_out (front_columns number row.now)) 43 }
{
    write_address(front, row.location);
    write_code(front, row.code.digits());
    if !row.is_later {
        write_number(front, row.depth, number);
    }
}

/// Writes an address.
#[inline(always)]
fn write_address(front: &mut [u8], location: Option<u64>)
    requires { length front.old ≡ 44 }
    ensures columns { length front.new ≡ 44 }
    ensures front { (begun : List ℕ) → IsFront front.old begun 9 → IsFront front.new (with_text begun 10 (texts.address_text location)) 16 }
{
    if let Some(address) = location {
        write_octal_at(front, BEFORE_ADDRESS, address, ADDRESS_DIGITS);
    }
}

/// Writes the digits of a code.
#[inline(always)]
fn write_code(front: &mut [u8], code: Option<OctalDigits>)
    requires columns { length front.old ≡ 44 }
    requires few { IfSome code (λ code. code.count ≤ 20) }
    ensures columns { length front.new ≡ 44 }
    ensures front { (begun : List ℕ) → IsFront front.old begun 16 → IsFront front.new (with_text begun 17 (texts.code_text code)) 37 }
{
    if let Some(digits) = code {
        write_octal_at(front, BEFORE_CODE, digits.number, digits.count);
    }
}

/// Writes the last digits of a line's number, or `+` for a statement of an expansion, at the right of the number's columns.
#[inline(always)]
fn write_number(front: &mut [u8], depth: u8, number: u32)
    requires { length front.old ≡ 44 }
    ensures { (begun : List ℕ) → IsFront front.old begun 37
        → IsFront front.new (with_text begun 38 (at_right 6 (texts.number_text depth number))) 43 }
{
    if depth > 0 {
        write_at_right(front, b"+");
    } else {
        let mut digits = Buffer::new();
        write_at_right(
            front,
            last_of(NUMBER_COLUMNS, digits.format(number).as_bytes()),
        );
    }
}

/// Writes a text at the right of the number's columns.
#[inline(always)]
fn write_at_right(front: &mut [u8], shown: &[u8])
    requires columns { length front.old ≡ 44 }
    requires few { length shown.now ≤ 6 }
    ensures { (begun : List ℕ) → IsFront front.old begun 37 → IsFront front.new (with_text begun 38 (at_right 6 shown.now)) 43 }
{
    let end = BEFORE_NUMBER + NUMBER_COLUMNS;
    front[end - shown.len()..end].copy_from_slice(shown);
}

/// Writes a text behind so many columns.
#[inline(always)]
pub fn write_text_at(front: &mut [u8], before: usize, shown: &[u8])
    requires columns { length front.old ≡ 44 }
    requires within { before + length shown.now ≤ 44 }
    ensures columns { length front.new ≡ 44 }
    ensures front { (begun : List ℕ) → IsFront front.old begun before
        → IsFront front.new (with_text begun (before + 1) shown.now) (before + length shown.now) }
{
    front[before..before + shown.len()].copy_from_slice(shown);
}

/// Writes a number's octal digits behind so many columns.
#[inline(always)]
pub fn write_octal_at(front: &mut [u8], before: usize, number: u64, digits: u8)
    requires columns { length front.old ≡ 44 }
    requires within { before + digits ≤ 44 }
    ensures columns { length front.new ≡ 44 }
    ensures front { (begun : List ℕ) → IsFront front.old begun before
        → IsFront front.new (with_text begun (before + 1) (octal digits number)) (before + digits) }
{
    write_octal(&mut front[before..before + usize::from(digits)], number);
}

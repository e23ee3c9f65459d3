ghost use Rattle.std.specs.Prelude.{◌≡◌, ◌<◌, ◌≤◌, ◌^◌, ◌+◌, ◌-◌, ◌*◌, ◌||◌, length, All};
ghost use Rattle.cps_code.specs.Bits.{word_bits, parcel_bits};
ghost use Rattle.cps_code.specs.Form.{IsHole, fits_width, complemented, put_value, put_in, put_values, is_cut, is_cut_in, is_out, is_out_in, room_of};

use super::filled::Filled;
use super::hole::{Hole, HoleKind};
use crate::widths::WORD;

/// All ones in the bits of a word.
const ALL_ONES: u64 = (1 << WORD) - 1;

/// A code with numbers in its holes.
pub fn fill_holes(bits: u8, code: u64, holes: &[Hole], numbers: &[i64]) -> Filled
    requires short { bits ≤ 2 * parcel_bits }
    requires few { length holes.now ≤ 2 }
    requires holes { All (IsHole bits) holes.now }
    requires room { code + room_of bits holes.now < 2 ^ bits }
    requires one_each { length numbers.now ≡ length holes.now }
    ensures digits { result.digits ≡ code + put_values bits holes.now numbers.now }
    ensures truncated { result.is_truncated ≡ is_cut holes.now numbers.now }
    ensures out_of_range { result.is_out_of_range ≡ is_out holes.now numbers.now }
    ensures fits { result.digits < 2 ^ bits }
{
    match (holes, numbers) {
        ([], []) => Filled {
            digits: code,
            is_truncated: false,
            is_out_of_range: false,
        },
        ([hole], [number]) => {
            let put = put_number(bits, hole, *number);
            Filled {
                digits: code + put.digits,
                ..put
            }
        }
        ([hole, other_hole], [number, other_number]) => {
            let put = joined(
                put_number(bits, hole, *number),
                put_number(bits, other_hole, *other_number),
            );
            Filled {
                digits: code + put.digits,
                ..put
            }
        }
        _ => unreachable!(),
    }
}

/// Two numbers in their holes.
fn joined(put: Filled, other: Filled) -> Filled
    requires { put.digits + other.digits < 2 ^ 60 }
    ensures digits { result.digits ≡ put.digits + other.digits }
    ensures truncated { result.is_truncated ≡ (put.is_truncated || other.is_truncated) }
    ensures out_of_range { result.is_out_of_range ≡ (put.is_out_of_range || other.is_out_of_range) }
{
    Filled {
        digits: put.digits + other.digits,
        is_truncated: put.is_truncated || other.is_truncated,
        is_out_of_range: put.is_out_of_range || other.is_out_of_range,
    }
}

/// A number in its hole, all other bits of the code 0.
fn put_number(bits: u8, hole: &Hole, number: i64) -> Filled
    requires short { bits ≤ 2 * parcel_bits }
    requires hole { IsHole bits hole.now }
    ensures digits { result.digits ≡ put_in hole.now.kind hole.now.width number * 2 ^ (bits - hole.now.first - hole.now.width) }
    ensures truncated { result.is_truncated ≡ is_cut_in hole.now.kind hole.now.width number }
    ensures out_of_range { result.is_out_of_range ≡ is_out_in hole.now.kind hole.now.width number }
    ensures most { result.digits ≤ (2 ^ hole.now.width - 1) * 2 ^ (bits - hole.now.first - hole.now.width) }
{
    if is_out(hole.kind, number, hole.width) {
        return Filled {
            digits: 0,
            is_truncated: false,
            is_out_of_range: true,
        };
    }
    let below = bits - hole.first - hole.width;
    Filled {
        digits: bits_of_value(number, hole.width) << below,
        is_truncated: !fits_width(number, hole.width),
        is_out_of_range: false,
    }
}

/// Whether a number is none that a hole of this kind can hold.
fn is_out(kind: HoleKind, number: i64, width: u8) -> bool
    requires width { width ≤ 2 * parcel_bits }
    requires some { 0 < width }
    ensures { result ≡ is_out_in kind width number }
{
    match kind {
        HoleKind::Value => false,
        HoleKind::Count => number < 0,
        HoleKind::Target => number.unsigned_abs() >= 1 << (width - 1),
    }
}

/// The low bits of a number in ones' complement of 60 bits. Of a number that fits they are those in its own width.
pub fn bits_of_value(number: i64, width: u8) -> u64
    requires width { width ≤ word_bits }
    requires some { 0 < width }
    ensures value { result ≡ put_value width number }
    ensures small { result < 2 ^ width }
{
    complement(number) & ((1 << width) - 1)
}

/// A number in ones' complement of 60 bits; 0 for one below their range.
pub fn complement(number: i64) -> u64
    ensures { result ≡ complemented word_bits number }
{
    if number < 0 {
        ALL_ONES.saturating_sub(number.unsigned_abs())
    } else {
        number.unsigned_abs()
    }
}

/// Whether a number fits a width: from -(2^(width-1) - 1) to 2^width - 1.
pub fn fits_width(number: i64, width: u8) -> bool
    requires width { width ≤ word_bits }
    requires some { 0 < width }
    ensures { result ≡ fits_width width number }
{
    if number < 0 {
        number.unsigned_abs() < 1 << (width - 1)
    } else {
        number.unsigned_abs() < 1 << width
    }
}

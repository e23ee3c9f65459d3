//! Numbers that the operand of a statement gives in pass one.
ghost use Rattle.std.specs.Prelude.{◌≡◌, ◌≤◌, IfSome};
ghost use Rattle.cps_pass.specs.Numbers as numbers;

use crate::placing::{Site, placing_flags, unread_flags};
use crate::value_now::ValueNow;
use cps_state::Flags;

/// No number below 0.
pub fn not_negative(offset: i64) -> Option<u64>
    ensures { result ≡ numbers.not_negative offset }
{
    if offset < 0 {
        None
    } else {
        Some(offset.unsigned_abs())
    }
}

/// A value that is plain and not below 0.
pub fn plain_number(value: ValueNow) -> Option<u64>
    ensures { result ≡ numbers.plain_number value }
{
    match value {
        ValueNow::Known(value) => match value.block {
            None => not_negative(value.offset),
            Some(_) => None,
        },
        _ => None,
    }
}

/// A number from one to another.
pub fn between(least: u8, most: u8, number: Option<u64>) -> Option<u8>
    ensures between { result ≡ numbers.between least most number }
    ensures range { IfSome result (λ number. (least ≤ number) × (number ≤ most)) }
{
    match number {
        Some(number) if u64::from(least) <= number && number <= u64::from(most) => {
            Some(number as u8)
        }
        _ => None,
    }
}

/// The flags of a value that is no number that the statement takes.
pub fn no_number_flags(site: Site, value: ValueNow) -> Flags
    ensures { result ≡ numbers.no_number_flags site value }
{
    match value {
        ValueNow::Undefined => {
            let mut flags = placing_flags(site);
            flags.undefined = true;
            flags
        }
        _ => unread_flags(site),
    }
}

//! Parcels: those of 15 bits in which the central processor's codes are counted, and the words of a peripheral processor, which count as one each.
ghost use Rattle.std.specs.Prelude.{◌<◌, ◌≤◌};

use cps_expr::Machine;

/// A parcel that does nothing.
pub const NOTHING: u16 = 0o46000;

/// The parcels of a word of the central processor.
pub const WORD_PARCELS: usize = 4;

/// The bits of a parcel.
pub fn parcel_bits(machine: Machine) -> u32
    ensures { result < 16 }
{
    match machine {
        Machine::Cp => 15,
        Machine::Pp => 12,
    }
}

/// The octal digits of a parcel.
pub fn parcel_digits(machine: Machine) -> u8
    ensures { result ≤ 5 }
{
    match machine {
        Machine::Cp => 5,
        Machine::Pp => 4,
    }
}

/// How many parcels a word has.
pub fn parcels_of(machine: Machine) -> usize
    ensures { result ≤ WORD_PARCELS }
{
    match machine {
        Machine::Cp => WORD_PARCELS,
        Machine::Pp => 1,
    }
}

//! Places in a line, as bytes and as units.
ghost use Rattle.std.specs.Prelude.{◌≡◌, ◌≤◌, length, min};
ghost use Rattle.cps_rpc.specs.Positions.{place_in, units_before};

use crate::encoding::Encoding;

/// The place in a line before which so many units stand, as a number of bytes: the last such place between two characters, and the end of a line that has fewer.
pub fn place_in(encoding: Encoding, line: &[u8], units: u32) -> usize
    ensures place { result ≡ place_in encoding line.now units }
    ensures within { result ≤ length line.now }
{
    let mut left = units;
    for (at, byte) in line.iter().enumerate() {
        let units = encoding.units_of(*byte);
        if units > left {
            return at;
        }
        left -= units;
    }
    line.len()
}

/// The units of the characters that begin before a place in a line, and `u32::MAX` where there are more.
pub fn units_before(encoding: Encoding, line: &[u8], place: usize) -> u32
    ensures { result ≡ min (units_before encoding line.now place) u32.MAX }
{
    let front = &line[..place.min(line.len())];
    let mut units: u32 = 0;
    for byte in front {
        units = units.saturating_add(encoding.units_of(*byte));
    }
    units
}

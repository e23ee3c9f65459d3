//! Places in a line, as bytes and as units.
use super::assertions::assert_same;
use cps_rpc::{Encoding, place_in, units_before};

/// A character of one byte, one of two, one of four, which are two units of UTF-16, and one of one.
const LINE: &[u8] = b"A\xC3\xA9\xF0\x9F\x98\x80B";

/// Units, and the place before which they stand. Inside a character it is the one before it, and behind the line its end.
const PLACES: [(Encoding, u32, usize); 13] = [
    (Encoding::Utf16, 0, 0),
    (Encoding::Utf16, 1, 1),
    (Encoding::Utf16, 2, 3),
    (Encoding::Utf16, 3, 3),
    (Encoding::Utf16, 4, 7),
    (Encoding::Utf16, 5, 8),
    (Encoding::Utf16, 6, 8),
    (Encoding::Utf8, 1, 1),
    (Encoding::Utf8, 2, 1),
    (Encoding::Utf8, 3, 3),
    (Encoding::Utf8, 6, 3),
    (Encoding::Utf8, 7, 7),
    (Encoding::Utf8, 9, 8),
];

#[test]
fn finds_places(rt: HostRuntime) {
    for (at, (encoding, units, want)) in PLACES.iter().enumerate() {
        assert_same(&rt, at, &place_in(*encoding, LINE, *units), want);
    }
}

/// Places, and the units of the characters that begin before them.
const UNITS: [(Encoding, usize, u32); 11] = [
    (Encoding::Utf16, 0, 0),
    (Encoding::Utf16, 1, 1),
    (Encoding::Utf16, 3, 2),
    (Encoding::Utf16, 4, 4),
    (Encoding::Utf16, 7, 4),
    (Encoding::Utf16, 8, 5),
    (Encoding::Utf16, 9, 5),
    (Encoding::Utf8, 1, 1),
    (Encoding::Utf8, 3, 3),
    (Encoding::Utf8, 7, 7),
    (Encoding::Utf8, 8, 8),
];

#[test]
fn counts_units(rt: HostRuntime) {
    for (at, (encoding, place, want)) in UNITS.iter().enumerate() {
        assert_same(&rt, at, &units_before(*encoding, LINE, *place), want);
    }
}

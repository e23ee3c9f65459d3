//! Listings of this program beside sources.
use super::assertions::{OctalRow, assert_told};
use super::running::OWN;

/// Fields that are rounded up to digits, and an address with more of them than a word has.
const LISTED: [OctalRow; 2] = [
    // fields of 1, 2 and 57 bits
    (
        &[
            "         000000 1                         1           VFD    1/1,2/3,57/2",
            "         000000 3",
            "         000000 0000000000000000003",
        ],
        &["          VFD    1/1,2/3,57/2"],
        1,
        &[
            "000000 deck  130000000000000000002",
            "       octal 130000000000000000003  rows 1 to 3",
            "                                 ^",
            "       line 1: VFD    1/1,2/3,57/2",
            "compared: 21 digits of 1 words, in 3 rows",
            "1 of 1 words differ (000000 to 000000)",
        ],
    ),
    // ORG goes back
    (
        &[
            "         000000 00000000000000000001      1           CON    1",
            "         000000 000000000000000000?4      3           CON    3",
        ],
        &[
            "          CON    1",
            "          ORG    0",
            "          CON    3",
        ],
        1,
        &[
            "000000 deck  0000000000000000000100000000000000000003",
            "       octal 00000000000000000001000000000000000000?4  rows 1 to 2",
            "                                                    ^",
            "       line 3: CON    3",
            "compared: 39 digits of 1 words, in 2 rows",
            "unknown: 1 digits, first at 000000",
            "1 of 1 words differ (000000 to 000000)",
        ],
    ),
];

#[test]
fn compares_listings(rt: HostRuntime) {
    for (at, row) in LISTED.iter().enumerate() {
        assert_told(&rt, rt.alloc(), at, row, OWN);
    }
}

//! What is told of octal codes: by the tables of the reference manuals of the machines.
use super::assertions::assert_told;

const CENTRAL: [(&[u8], &str); 9] = [
    (b"5111000120", "SA1   B1+K      30 bits  51ijK, K=000120\n"),
    (b"36123", "IX1   X2+X3     15 bits  36ijk\n"),
    (b"67123", "SB1   B2-B3     15 bits  67ijk\n"),
    (b"10122", "BX1   X2        15 bits  10ijj\n"),
    (b"20106", "LX1   n         15 bits  20in, n=06\n"),
    (
        b"0100000200",
        "RJ    K         30 bits  0100K, K=000200; the next instruction begins a word\n",
    ),
    (b"46000", "NO    not read  15 bits  46000\n"),
    (
        b"0000000000",
        "PS    not read  30 bits  0000000000; the next instruction begins a word\n",
    ),
    (b"47122", "CX1   X2        15 bits  47ikk\n"),
];

/// Codes that several forms have.
const SEVERAL: [(&[u8], &str); 4] = [
    (
        b"5110000120",
        "\
SA1   K         30 bits  51i0K, K=000120
SA1   B0+K      30 bits  51ijK, K=000120
",
    ),
    (
        b"0400000200",
        "\
ZR    B0,K      30 bits  04i0K, K=000200
EQ    B0,B0,K   30 bits  04ijK, K=000200
EQ    B0,K      30 bits  04i0K, K=000200
EQ    K         30 bits  0400K, K=000200; the next instruction begins a word
",
    ),
    (
        b"0612000004",
        "\
GE    B1,B2,K   30 bits  06ijK, K=000004
LE    B2,B1,K   30 bits  06jiK, K=000004
",
    ),
    (
        b"22345",
        "\
LX3   B4,X5     15 bits  22ijk
LX3   X5,B4     15 bits  22ijk
",
    ),
];

const PERIPHERAL: [(&[u8], &str); 5] = [
    (b"1405", "LDN   d         12 bits  14dd, d=05\n"),
    (b"0376", "UJN   a target  12 bits  03dd, d=76\n"),
    (b"0000", "PSN   not read  12 bits  0000\n"),
    (
        b"20123456",
        "LDC   c         24 bits  20cc cccc, c=123456\n",
    ),
    (
        b"01051234",
        "LJM   m or m,d  24 bits  01dd mmmm, d=05, m=1234\n",
    ),
];

/// Codes that no form has: one whose two digits for j differ, one beside NO, one of 15 bits where the form has 30.
const NO_CENTRAL: [&[u8]; 4] = [b"10123", b"46001", b"01000", b"4612345670"];

const NO_PERIPHERAL: [&[u8]; 4] = [b"0001", b"2400", b"2012", b"14051405"];

/// Words that are no codes.
const NO_CODES: [&[u8]; 6] = [
    b"7",
    b"123",
    b"123456",
    b"51118",
    b"51110001201",
    b"511100012A",
];

#[test]
fn tells_of_central_codes(rt: HostRuntime) {
    assert_told(&rt, rt.alloc(), &CENTRAL);
    assert_told(&rt, rt.alloc(), &SEVERAL);
}

#[test]
fn tells_of_peripheral_codes(rt: HostRuntime) {
    assert_told(&rt, rt.alloc(), &PERIPHERAL);
}

#[test]
fn tells_what_is_no_code(rt: HostRuntime) {
    for word in NO_CENTRAL {
        let want = "No instruction of the central processor has this code.\n";
        assert_told(&rt, rt.alloc(), &[(word, want)]);
    }
    for word in NO_PERIPHERAL {
        let want = "No instruction of a peripheral processor has this code.\n";
        assert_told(&rt, rt.alloc(), &[(word, want)]);
    }
    for word in NO_CODES {
        assert_told(&rt, rt.alloc(), &[(word, "nothing")]);
    }
}

//! What is told of instructions: by the reference manuals of the machines.
use super::assertions::assert_told;

/// Instructions of the central processor.
const CENTRAL: [(&[u8], &str); 7] = [
    (
        b"SA",
        "\
An instruction of the central processor: i, j and k are digits of registers,
K is an expression or a literal, n an expression.
SAi   K         30 bits  51i0K       Set Ai to K; A1 to A5 read to Xi, A6 and A7 write Xi
SAi   Aj+K      30 bits  50ijK       Set Ai to (Aj) + K; A1 to A5 read to Xi, A6 and A7 write Xi
SAi   Bj+K      30 bits  51ijK       Set Ai to (Bj) + K; A1 to A5 read to Xi, A6 and A7 write Xi
SAi   Xj+K      30 bits  52ijK       Set Ai to (Xj) + K; A1 to A5 read to Xi, A6 and A7 write Xi
SAi   Xj        15 bits  53ij0       Set Ai to (Xj); A1 to A5 read to Xi, A6 and A7 write Xi
SAi   Aj        15 bits  54ij0       Set Ai to (Aj); A1 to A5 read to Xi, A6 and A7 write Xi
SAi   Bj        15 bits  56ij0       Set Ai to (Bj); A1 to A5 read to Xi, A6 and A7 write Xi
SAi   -Bk       15 bits  57i0k       Set Ai to -(Bk); A1 to A5 read to Xi, A6 and A7 write Xi
SAi   Xj+Bk     15 bits  53ijk       Set Ai to (Xj) + (Bk); A1 to A5 read to Xi, A6 and A7 write Xi
SAi   Aj+Bk     15 bits  54ijk       Set Ai to (Aj) + (Bk); A1 to A5 read to Xi, A6 and A7 write Xi
SAi   Aj-Bk     15 bits  55ijk       Set Ai to (Aj) - (Bk); A1 to A5 read to Xi, A6 and A7 write Xi
SAi   Bj+Bk     15 bits  56ijk       Set Ai to (Bj) + (Bk); A1 to A5 read to Xi, A6 and A7 write Xi
SAi   Bj-Bk     15 bits  57ijk       Set Ai to (Bj) - (Bk); A1 to A5 read to Xi, A6 and A7 write Xi
",
    ),
    (
        b"bx6",
        "\
An instruction of the central processor: i, j and k are digits of registers,
K is an expression or a literal, n an expression.
BXi   Xj        15 bits  10ijj       Transmit (Xj) to Xi
BXi   Xj*Xk     15 bits  11ijk       Logical product of (Xj) and (Xk) to Xi
BXi   Xj+Xk     15 bits  12ijk       Logical sum of (Xj) and (Xk) to Xi
BXi   Xj-Xk     15 bits  13ijk       Logical difference of (Xj) and (Xk) to Xi
BXi   -Xk       15 bits  14ikk       Transmit the complement of (Xk) to Xi
BXi   -Xk*Xj    15 bits  15ijk       Logical product of (Xj) and the complement of (Xk) to Xi
BXi   -Xk+Xj    15 bits  16ijk       Logical sum of (Xj) and the complement of (Xk) to Xi
BXi   -Xk-Xj    15 bits  17ijk       Logical difference of (Xj) and the complement of (Xk) to Xi
",
    ),
    (
        b"LX",
        "\
An instruction of the central processor: i, j and k are digits of registers,
K is an expression or a literal, n an expression.
LXi   n         15 bits  20in        Left shift (Xi) n places, end around
LXi   Bj,Xk     15 bits  22ijk       Left shift (Xk) nominally (Bj) places to Xi; right if (Bj) < 0
LXi   Xk,Bj     15 bits  22ijk       Left shift (Xk) nominally (Bj) places to Xi; right if (Bj) < 0
",
    ),
    (
        b"mx",
        "\
An instruction of the central processor: i, j and k are digits of registers,
K is an expression or a literal, n an expression.
MXi   n         15 bits  43in        Form a mask of n ones at the left of Xi
",
    ),
    (
        b"RJ",
        "\
An instruction of the central processor: i, j and k are digits of registers,
K is an expression or a literal, n an expression.
RJ    K         30 bits  0100K       Return jump to K; the next instruction begins a word
",
    ),
    (
        b"JP",
        "\
An instruction of the central processor: i, j and k are digits of registers,
K is an expression or a literal, n an expression.
JP    Bi+K      30 bits  02i0K       Jump to (Bi) + K; the next instruction begins a word
JP    K         30 bits  0200K       Jump to K; the next instruction begins a word
JP    Bi        30 bits  02i0000000  Jump to (Bi); the next instruction begins a word
",
    ),
    (
        b"NO",
        "\
An instruction of the central processor: i, j and k are digits of registers,
K is an expression or a literal, n an expression.
NO    not read  15 bits  46000       No operation: pass
",
    ),
];

/// More of them.
const MORE_CENTRAL: [(&[u8], &str); 4] = [
    (
        b"PS",
        "\
An instruction of the central processor: i, j and k are digits of registers,
K is an expression or a literal, n an expression.
PS    not read  30 bits  0000000000  Program stop; the next instruction begins a word
",
    ),
    (
        b"EQ",
        "\
An instruction of the central processor: i, j and k are digits of registers,
K is an expression or a literal, n an expression.
EQ    Bi,Bj,K   30 bits  04ijK       Branch to K if (Bi) = (Bj)
EQ    Bi,K      30 bits  04i0K       Branch to K if (Bi) = 0
EQ    K         30 bits  0400K       Branch to K; the next instruction begins a word
",
    ),
    (
        b"SX7",
        "\
An instruction of the central processor: i, j and k are digits of registers,
K is an expression or a literal, n an expression.
SXi   K         30 bits  71i0K       Set Xi to K
SXi   Aj+K      30 bits  70ijK       Set Xi to (Aj) + K
SXi   Bj+K      30 bits  71ijK       Set Xi to (Bj) + K
SXi   Xj+K      30 bits  72ijK       Set Xi to (Xj) + K
SXi   Xj        15 bits  73ij0       Set Xi to (Xj)
SXi   Aj        15 bits  74ij0       Set Xi to (Aj)
SXi   Bj        15 bits  76ij0       Set Xi to (Bj)
SXi   -Bk       15 bits  77i0k       Set Xi to -(Bk)
SXi   Xj+Bk     15 bits  73ijk       Set Xi to (Xj) + (Bk)
SXi   Aj+Bk     15 bits  74ijk       Set Xi to (Aj) + (Bk)
SXi   Aj-Bk     15 bits  75ijk       Set Xi to (Aj) - (Bk)
SXi   Bj+Bk     15 bits  76ijk       Set Xi to (Bj) + (Bk)
SXi   Bj-Bk     15 bits  77ijk       Set Xi to (Bj) - (Bk)
",
    ),
    (
        b"MI",
        "\
An instruction of the central processor: i, j and k are digits of registers,
K is an expression or a literal, n an expression.
MI    Xj,K      30 bits  033jK       Branch to K if (Xj) is negative
MI    Bi,K      30 bits  07i0K       Branch to K if (Bi) is negative
",
    ),
];

/// Instructions of a peripheral processor, one of each layout.
const PERIPHERAL: [(&[u8], &str); 6] = [
    (
        b"LDN",
        "\
An instruction of a peripheral processor: d, m, c and a target are expressions,
m and c may be literals.
LDN   d         12 bits  14dd        Load A with d
",
    ),
    (
        b"ljm",
        "\
An instruction of a peripheral processor: d, m, c and a target are expressions,
m and c may be literals.
LJM   m or m,d  24 bits  01dd mmmm   Long jump to m + (d); m alone if d is 0
",
    ),
    (
        b"LDC",
        "\
An instruction of a peripheral processor: d, m, c and a target are expressions,
m and c may be literals.
LDC   c         24 bits  20cc cccc   Load A with c
",
    ),
    (
        b"Ujn",
        "\
An instruction of a peripheral processor: d, m, c and a target are expressions,
m and c may be literals.
UJN   a target  12 bits  03dd        Unconditional jump by d
",
    ),
    (
        b"PSN",
        "\
An instruction of a peripheral processor: d, m, c and a target are expressions,
m and c may be literals.
PSN   not read  12 bits  0000        Pass
",
    ),
    (
        b"FNC",
        "\
An instruction of a peripheral processor: d, m, c and a target are expressions,
m and c may be literals.
FNC   m or m,d  24 bits  77dd mmmm   Function m on channel d
",
    ),
];

#[test]
fn tells_of_central_instructions(rt: HostRuntime) {
    assert_told(&rt, rt.alloc(), &CENTRAL);
    assert_told(&rt, rt.alloc(), &MORE_CENTRAL);
}

#[test]
fn tells_of_peripheral_instructions(rt: HostRuntime) {
    assert_told(&rt, rt.alloc(), &PERIPHERAL);
}

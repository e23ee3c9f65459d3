//! What instructions do, in the terms of the machine's reference manual: a sentence for each form.
ghost use Rattle.std.specs.Prelude.{◌≡◌};
ghost use Rattle.cps_check.specs.Sentences.{words_among};
ghost use Rattle.cps_check.specs.Code.Kept.{sentence_values};

use cps_text::capital;

/// What a form does: its operands as its row has them, or of a peripheral processor the name of its operation, and words.
pub type Sentence = (&'static [u8], &'static [u8]);

static SA: [Sentence; 13] = [
    (
        b"K",
        b"Set Ai to K; A1 to A5 read to Xi, A6 and A7 write Xi",
    ),
    (
        b"Aj+K",
        b"Set Ai to (Aj) + K; A1 to A5 read to Xi, A6 and A7 write Xi",
    ),
    (
        b"Bj+K",
        b"Set Ai to (Bj) + K; A1 to A5 read to Xi, A6 and A7 write Xi",
    ),
    (
        b"Xj+K",
        b"Set Ai to (Xj) + K; A1 to A5 read to Xi, A6 and A7 write Xi",
    ),
    (
        b"Xj",
        b"Set Ai to (Xj); A1 to A5 read to Xi, A6 and A7 write Xi",
    ),
    (
        b"Aj",
        b"Set Ai to (Aj); A1 to A5 read to Xi, A6 and A7 write Xi",
    ),
    (
        b"Bj",
        b"Set Ai to (Bj); A1 to A5 read to Xi, A6 and A7 write Xi",
    ),
    (
        b"-Bk",
        b"Set Ai to -(Bk); A1 to A5 read to Xi, A6 and A7 write Xi",
    ),
    (
        b"Xj+Bk",
        b"Set Ai to (Xj) + (Bk); A1 to A5 read to Xi, A6 and A7 write Xi",
    ),
    (
        b"Aj+Bk",
        b"Set Ai to (Aj) + (Bk); A1 to A5 read to Xi, A6 and A7 write Xi",
    ),
    (
        b"Aj-Bk",
        b"Set Ai to (Aj) - (Bk); A1 to A5 read to Xi, A6 and A7 write Xi",
    ),
    (
        b"Bj+Bk",
        b"Set Ai to (Bj) + (Bk); A1 to A5 read to Xi, A6 and A7 write Xi",
    ),
    (
        b"Bj-Bk",
        b"Set Ai to (Bj) - (Bk); A1 to A5 read to Xi, A6 and A7 write Xi",
    ),
];

static SB: [Sentence; 13] = [
    (b"K", b"Set Bi to K"),
    (b"Aj+K", b"Set Bi to (Aj) + K"),
    (b"Bj+K", b"Set Bi to (Bj) + K"),
    (b"Xj+K", b"Set Bi to (Xj) + K"),
    (b"Xj", b"Set Bi to (Xj)"),
    (b"Aj", b"Set Bi to (Aj)"),
    (b"Bj", b"Set Bi to (Bj)"),
    (b"-Bk", b"Set Bi to -(Bk)"),
    (b"Xj+Bk", b"Set Bi to (Xj) + (Bk)"),
    (b"Aj+Bk", b"Set Bi to (Aj) + (Bk)"),
    (b"Aj-Bk", b"Set Bi to (Aj) - (Bk)"),
    (b"Bj+Bk", b"Set Bi to (Bj) + (Bk)"),
    (b"Bj-Bk", b"Set Bi to (Bj) - (Bk)"),
];

static SX: [Sentence; 13] = [
    (b"K", b"Set Xi to K"),
    (b"Aj+K", b"Set Xi to (Aj) + K"),
    (b"Bj+K", b"Set Xi to (Bj) + K"),
    (b"Xj+K", b"Set Xi to (Xj) + K"),
    (b"Xj", b"Set Xi to (Xj)"),
    (b"Aj", b"Set Xi to (Aj)"),
    (b"Bj", b"Set Xi to (Bj)"),
    (b"-Bk", b"Set Xi to -(Bk)"),
    (b"Xj+Bk", b"Set Xi to (Xj) + (Bk)"),
    (b"Aj+Bk", b"Set Xi to (Aj) + (Bk)"),
    (b"Aj-Bk", b"Set Xi to (Aj) - (Bk)"),
    (b"Bj+Bk", b"Set Xi to (Bj) + (Bk)"),
    (b"Bj-Bk", b"Set Xi to (Bj) - (Bk)"),
];

static JP: [Sentence; 3] = [
    (b"Bi+K", b"Jump to (Bi) + K"),
    (b"K", b"Jump to K"),
    (b"Bi", b"Jump to (Bi)"),
];

static PS: [Sentence; 1] = [(b"not read", b"Program stop")];

static NO: [Sentence; 1] = [(b"not read", b"No operation: pass")];

static RJ: [Sentence; 1] = [(b"K", b"Return jump to K")];

static ZR: [Sentence; 2] = [
    (b"Xj,K", b"Branch to K if (Xj) = 0"),
    (b"Bi,K", b"Branch to K if (Bi) = 0"),
];

static NZ: [Sentence; 2] = [
    (b"Xj,K", b"Branch to K if (Xj) is not 0"),
    (b"Bi,K", b"Branch to K if (Bi) is not 0"),
];

static PL: [Sentence; 2] = [
    (b"Xj,K", b"Branch to K if (Xj) is positive"),
    (b"Bi,K", b"Branch to K if (Bi) is positive"),
];

static NG: [Sentence; 2] = [
    (b"Xj,K", b"Branch to K if (Xj) is negative"),
    (b"Bi,K", b"Branch to K if (Bi) is negative"),
];

static IR: [Sentence; 1] = [(b"Xj,K", b"Branch to K if (Xj) is in range")];

static OR: [Sentence; 1] = [(b"Xj,K", b"Branch to K if (Xj) is out of range")];

static DF: [Sentence; 1] = [(b"Xj,K", b"Branch to K if (Xj) is definite")];

static ID: [Sentence; 1] = [(b"Xj,K", b"Branch to K if (Xj) is indefinite")];

static EQ: [Sentence; 3] = [
    (b"Bi,Bj,K", b"Branch to K if (Bi) = (Bj)"),
    (b"Bi,K", b"Branch to K if (Bi) = 0"),
    (b"K", b"Branch to K"),
];

static NE: [Sentence; 2] = [
    (b"Bi,Bj,K", b"Branch to K if (Bi) is not (Bj)"),
    (b"Bi,K", b"Branch to K if (Bi) is not 0"),
];

static GE: [Sentence; 2] = [
    (b"Bi,Bj,K", b"Branch to K if (Bi) >= (Bj)"),
    (b"Bi,K", b"Branch to K if (Bi) >= 0"),
];

static LT: [Sentence; 2] = [
    (b"Bi,Bj,K", b"Branch to K if (Bi) < (Bj)"),
    (b"Bi,K", b"Branch to K if (Bi) < 0"),
];

static LE: [Sentence; 2] = [
    (b"Bi,Bj,K", b"Branch to K if (Bi) <= (Bj)"),
    (b"Bi,K", b"Branch to K if (Bi) <= 0"),
];

static GT: [Sentence; 2] = [
    (b"Bi,Bj,K", b"Branch to K if (Bi) > (Bj)"),
    (b"Bi,K", b"Branch to K if (Bi) > 0"),
];

static BX: [Sentence; 8] = [
    (b"Xj", b"Transmit (Xj) to Xi"),
    (b"Xj*Xk", b"Logical product of (Xj) and (Xk) to Xi"),
    (b"Xj+Xk", b"Logical sum of (Xj) and (Xk) to Xi"),
    (b"Xj-Xk", b"Logical difference of (Xj) and (Xk) to Xi"),
    (b"-Xk", b"Transmit the complement of (Xk) to Xi"),
    (
        b"-Xk*Xj",
        b"Logical product of (Xj) and the complement of (Xk) to Xi",
    ),
    (
        b"-Xk+Xj",
        b"Logical sum of (Xj) and the complement of (Xk) to Xi",
    ),
    (
        b"-Xk-Xj",
        b"Logical difference of (Xj) and the complement of (Xk) to Xi",
    ),
];

static LX: [Sentence; 3] = [
    (b"n", b"Left shift (Xi) n places, end around"),
    (
        b"Bj,Xk",
        b"Left shift (Xk) nominally (Bj) places to Xi; right if (Bj) < 0",
    ),
    (
        b"Xk,Bj",
        b"Left shift (Xk) nominally (Bj) places to Xi; right if (Bj) < 0",
    ),
];

static AX: [Sentence; 3] = [
    (b"n", b"Arithmetic right shift (Xi) n places"),
    (
        b"Bj,Xk",
        b"Arithmetic right shift (Xk) (Bj) places to Xi; left if (Bj) < 0",
    ),
    (
        b"Xk,Bj",
        b"Arithmetic right shift (Xk) (Bj) places to Xi; left if (Bj) < 0",
    ),
];

static MX: [Sentence; 1] = [(b"n", b"Form a mask of n ones at the left of Xi")];

static NX: [Sentence; 3] = [
    (b"Bj,Xk", b"Normalize (Xk) to Xi, the shift count to Bj"),
    (b"Xk,Bj", b"Normalize (Xk) to Xi, the shift count to Bj"),
    (b"Xk", b"Normalize (Xk) to Xi"),
];

static ZX: [Sentence; 3] = [
    (
        b"Bj,Xk",
        b"Round and normalize (Xk) to Xi, the shift count to Bj",
    ),
    (
        b"Xk,Bj",
        b"Round and normalize (Xk) to Xi, the shift count to Bj",
    ),
    (b"Xk", b"Round and normalize (Xk) to Xi"),
];

static UX: [Sentence; 3] = [
    (
        b"Bj,Xk",
        b"Unpack (Xk): its coefficient to Xi, its exponent to Bj",
    ),
    (
        b"Xk,Bj",
        b"Unpack (Xk): its coefficient to Xi, its exponent to Bj",
    ),
    (b"Xk", b"Unpack (Xk): its coefficient to Xi"),
];

static PX: [Sentence; 3] = [
    (
        b"Bj,Xk",
        b"Pack the coefficient (Xk) and the exponent (Bj) to Xi",
    ),
    (
        b"Xk,Bj",
        b"Pack the coefficient (Xk) and the exponent (Bj) to Xi",
    ),
    (b"Xk", b"Pack the coefficient (Xk) and the exponent 0 to Xi"),
];

static FX: [Sentence; 4] = [
    (b"Xj+Xk", b"Floating sum of (Xj) and (Xk) to Xi"),
    (b"Xj-Xk", b"Floating difference of (Xj) and (Xk) to Xi"),
    (b"Xj*Xk", b"Floating product of (Xj) and (Xk) to Xi"),
    (b"Xj/Xk", b"Floating divide (Xj) by (Xk) to Xi"),
];

static DX: [Sentence; 3] = [
    (
        b"Xj+Xk",
        b"Floating double precision sum of (Xj) and (Xk) to Xi",
    ),
    (
        b"Xj-Xk",
        b"Floating double precision difference of (Xj) and (Xk) to Xi",
    ),
    (
        b"Xj*Xk",
        b"Floating double precision product of (Xj) and (Xk) to Xi",
    ),
];

static RX: [Sentence; 4] = [
    (b"Xj+Xk", b"Round floating sum of (Xj) and (Xk) to Xi"),
    (
        b"Xj-Xk",
        b"Round floating difference of (Xj) and (Xk) to Xi",
    ),
    (b"Xj*Xk", b"Round floating product of (Xj) and (Xk) to Xi"),
    (b"Xj/Xk", b"Round floating divide (Xj) by (Xk) to Xi"),
];

static IX: [Sentence; 2] = [
    (b"Xj+Xk", b"Integer sum of (Xj) and (Xk) to Xi"),
    (b"Xj-Xk", b"Integer difference of (Xj) and (Xk) to Xi"),
];

static CX: [Sentence; 1] = [(b"Xk", b"Count of the ones in (Xk) to Xi")];

static WITH_A: [Sentence; 10] = [
    (b"ADN", b"Add d to (A)"),
    (b"ADD", b"Add (d) to (A)"),
    (b"AOD", b"Replace add one: (d) + 1 to A and d"),
    (b"ADI", b"Add ((d)) to (A)"),
    (b"AOI", b"Replace add one: ((d)) + 1 to A and (d)"),
    (b"ACN", b"Activate channel d"),
    (b"ADC", b"Add c to (A)"),
    (b"ADM", b"Add (m + (d)) to (A); m alone if d is 0"),
    (
        b"AOM",
        b"Replace add one: (m + (d)) + 1 to A, m + (d); m if d is 0",
    ),
    (b"AJM", b"Jump to m if channel d is active"),
];

static WITH_C: [Sentence; 4] = [
    (b"CRD", b"Central read of one word from (A) to d"),
    (b"CWD", b"Central write of one word to (A) from d"),
    (b"CRM", b"Central read of (d) words from (A) to m"),
    (b"CWM", b"Central write of (d) words to (A) from m"),
];

static WITH_D: [Sentence; 1] = [(b"DCN", b"Disconnect channel d")];

static WITH_E: [Sentence; 2] = [
    (
        b"EXN",
        b"Exchange jump of the central processor, with the package at (A)",
    ),
    (b"EJM", b"Jump to m if channel d is empty"),
];

static WITH_F: [Sentence; 3] = [
    (b"FAN", b"Function (A) on channel d"),
    (b"FJM", b"Jump to m if channel d is full"),
    (b"FNC", b"Function m on channel d"),
];

static WITH_I: [Sentence; 3] = [
    (b"IAN", b"Input to A from channel d"),
    (b"IJM", b"Jump to m if channel d is inactive"),
    (b"IAM", b"Input (A) words to m from channel d"),
];

static WITH_L: [Sentence; 14] = [
    (b"LMN", b"Logical difference of (A) and d to A"),
    (b"LPN", b"Logical product of (A) and d to A"),
    (b"LDN", b"Load A with d"),
    (b"LCN", b"Load A with the complement of d"),
    (b"LDD", b"Load A with (d)"),
    (b"LMD", b"Logical difference of (A) and (d) to A"),
    (b"LDI", b"Load A with ((d))"),
    (b"LMI", b"Logical difference of (A) and ((d)) to A"),
    (b"LDC", b"Load A with c"),
    (b"LPC", b"Logical product of (A) and c to A"),
    (b"LMC", b"Logical difference of (A) and c to A"),
    (b"LJM", b"Long jump to m + (d); m alone if d is 0"),
    (b"LDM", b"Load A with (m + (d)); m alone if d is 0"),
    (
        b"LMM",
        b"Logical difference of (A) and (m + (d)) to A; m alone if d is 0",
    ),
];

static WITH_M: [Sentence; 1] = [(b"MJN", b"Minus jump by d: if (A) is negative")];

static WITH_N: [Sentence; 1] = [(b"NJN", b"Nonzero jump by d: if (A) is not 0")];

static WITH_O: [Sentence; 2] = [
    (b"OAN", b"Output from A on channel d"),
    (b"OAM", b"Output (A) words from m on channel d"),
];

static WITH_P: [Sentence; 2] = [
    (b"PSN", b"Pass"),
    (b"PJN", b"Plus jump by d: if (A) is positive"),
];

static WITH_R: [Sentence; 5] = [
    (b"RPN", b"Read the central processor's program address to A"),
    (b"RAD", b"Replace add: (d) + (A) to A and d"),
    (b"RAI", b"Replace add: ((d)) + (A) to A and (d)"),
    (b"RJM", b"Return jump to m + (d); m alone if d is 0"),
    (
        b"RAM",
        b"Replace add: (m + (d)) + (A) to A, m + (d); m if d is 0",
    ),
];

static WITH_S: [Sentence; 12] = [
    (
        b"SHN",
        b"Shift (A) left by d, end around; right if d is negative",
    ),
    (b"SCN", b"Selective clear of (A): where d has ones"),
    (b"SBN", b"Subtract d from (A)"),
    (b"SBD", b"Subtract (d) from (A)"),
    (b"STD", b"Store (A) at d"),
    (b"SOD", b"Replace subtract one: (d) - 1 to A and d"),
    (b"SBI", b"Subtract ((d)) from (A)"),
    (b"STI", b"Store (A) at (d)"),
    (b"SOI", b"Replace subtract one: ((d)) - 1 to A and (d)"),
    (b"SBM", b"Subtract (m + (d)) from (A); m alone if d is 0"),
    (b"STM", b"Store (A) at m + (d); m alone if d is 0"),
    (
        b"SOM",
        b"Replace subtract one: (m + (d)) - 1 to A, m + (d); m if d is 0",
    ),
];

static WITH_U: [Sentence; 1] = [(b"UJN", b"Unconditional jump by d")];

static WITH_Z: [Sentence; 1] = [(b"ZJN", b"Zero jump by d: if (A) = 0")];

/// What the forms of an operation of the central processor do. Nothing of another operation.
pub fn central_sentences(name: &[u8]) -> &'static [Sentence] {
    match name {
        [first, second, ..] => match capital(*second) {
            b'X' => computing(capital(*first)),
            second => others(capital(*first), second),
        },
        _ => &[],
    }
}

/// Those of the operations of a register X.
fn computing(letter: u8) -> &'static [Sentence] {
    match letter {
        b'S' => &SX,
        b'B' => &BX,
        b'L' => &LX,
        b'A' => &AX,
        b'M' => &MX,
        b'N' => &NX,
        b'Z' => &ZX,
        b'U' => &UX,
        b'P' => &PX,
        b'F' => &FX,
        b'D' => &DX,
        b'R' => &RX,
        b'I' => &IX,
        b'C' => &CX,
        _ => &[],
    }
}

fn others(first: u8, second: u8) -> &'static [Sentence] {
    match (first, second) {
        (b'S', b'A') => &SA,
        (b'S', b'B') => &SB,
        (b'J', b'P') => &JP,
        (b'P', b'S') => &PS,
        (b'N', b'O') => &NO,
        (b'R', b'J') => &RJ,
        (b'Z', b'R') => &ZR,
        (b'N', b'Z') => &NZ,
        (b'P', b'L') => &PL,
        (b'N', b'G') | (b'M', b'I') => &NG,
        (b'I', b'R') => &IR,
        (b'O', b'R') => &OR,
        (b'D', b'F') => &DF,
        (b'I', b'D') => &ID,
        (b'E', b'Q') => &EQ,
        (b'N', b'E') => &NE,
        (b'G', b'E') => &GE,
        (b'L', b'T') => &LT,
        (b'L', b'E') => &LE,
        (b'G', b'T') => &GT,
        _ => &[],
    }
}

/// What operations of a peripheral processor do: those that begin with the letter of a name.
pub fn peripheral_sentences(name: &[u8]) -> &'static [Sentence] {
    match name {
        [first, ..] => peripheral_with(capital(*first)),
        [] => &[],
    }
}

fn peripheral_with(letter: u8) -> &'static [Sentence] {
    match letter {
        b'A' => &WITH_A,
        b'C' => &WITH_C,
        b'D' => &WITH_D,
        b'E' => &WITH_E,
        b'F' => &WITH_F,
        b'I' => &WITH_I,
        b'L' => &WITH_L,
        b'M' => &WITH_M,
        b'N' => &WITH_N,
        b'O' => &WITH_O,
        b'P' => &WITH_P,
        b'R' => &WITH_R,
        b'S' => &WITH_S,
        b'U' => &WITH_U,
        b'Z' => &WITH_Z,
        _ => &[],
    }
}

/// The words on operands, or on an operation of a peripheral processor. Nothing where there are none.
pub fn words_of(sentences: &[Sentence], key: &[u8]) -> &'static [u8]
    ensures { result.now ≡ words_among (sentence_values sentences.now) key.now }
{
    for (shown, words) in sentences {
        if *shown == key {
            return *words;
        }
    }
    b""
}

//! The table of the operations of the central processor, by the first letters of their names.
ghost use Rattle.std.specs.Prelude.{◌≡◌};
ghost use Rattle.cps_code.specs.Table.{cp_operations};
ghost use Rattle.cps_code.specs.Code.Operations.{operation_values, beginning_with};

use super::operation::{FieldForm, Forms};

static A: [(&'static [u8], Forms); 1] = [(
    b"AXi",
    Forms::Fields(&[
        FieldForm::Count(b"21i"),
        FieldForm::Short(&[b"Bj", b"Xk"], b"23ijk"),
        FieldForm::Short(&[b"Xk", b"Bj"], b"23ijk"),
    ]),
)];

static B: [(&'static [u8], Forms); 1] = [(
    b"BXi",
    Forms::Fields(&[
        FieldForm::Short(&[b"Xj"], b"10ijj"),
        FieldForm::Short(&[b"Xj*Xk"], b"11ijk"),
        FieldForm::Short(&[b"Xj+Xk"], b"12ijk"),
        FieldForm::Short(&[b"Xj-Xk"], b"13ijk"),
        FieldForm::Short(&[b"-Xk"], b"14ikk"),
        FieldForm::Short(&[b"-Xk*Xj"], b"15ijk"),
        FieldForm::Short(&[b"-Xk+Xj"], b"16ijk"),
        FieldForm::Short(&[b"-Xk-Xj"], b"17ijk"),
    ]),
)];

static C: [(&'static [u8], Forms); 1] = [(
    b"CXi",
    Forms::Fields(&[FieldForm::Short(&[b"Xk"], b"47ikk")]),
)];

static D: [(&'static [u8], Forms); 2] = [
    (
        b"DF",
        Forms::Fields(&[FieldForm::Constant(&[b"Xj"], b"036j")]),
    ),
    (
        b"DXi",
        Forms::Fields(&[
            FieldForm::Short(&[b"Xj+Xk"], b"32ijk"),
            FieldForm::Short(&[b"Xj-Xk"], b"33ijk"),
            FieldForm::Short(&[b"Xj*Xk"], b"42ijk"),
        ]),
    ),
];

static E: [(&'static [u8], Forms); 1] = [(
    b"EQ",
    Forms::Fields(&[
        FieldForm::Constant(&[b"Bi", b"Bj"], b"04ij"),
        FieldForm::Constant(&[b"Bi"], b"04i0"),
        FieldForm::Forcing(&[], b"0400"),
    ]),
)];

static F: [(&'static [u8], Forms); 1] = [(
    b"FXi",
    Forms::Fields(&[
        FieldForm::Short(&[b"Xj+Xk"], b"30ijk"),
        FieldForm::Short(&[b"Xj-Xk"], b"31ijk"),
        FieldForm::Short(&[b"Xj*Xk"], b"40ijk"),
        FieldForm::Short(&[b"Xj/Xk"], b"44ijk"),
    ]),
)];

static G: [(&'static [u8], Forms); 2] = [
    (
        b"GE",
        Forms::Fields(&[
            FieldForm::Constant(&[b"Bi", b"Bj"], b"06ij"),
            FieldForm::Constant(&[b"Bi"], b"06i0"),
        ]),
    ),
    (
        b"GT",
        Forms::Fields(&[
            FieldForm::Constant(&[b"Bi", b"Bj"], b"07ji"),
            FieldForm::Constant(&[b"Bi"], b"070i"),
        ]),
    ),
];

static I: [(&'static [u8], Forms); 3] = [
    (
        b"IR",
        Forms::Fields(&[FieldForm::Constant(&[b"Xj"], b"034j")]),
    ),
    (
        b"ID",
        Forms::Fields(&[FieldForm::Constant(&[b"Xj"], b"037j")]),
    ),
    (
        b"IXi",
        Forms::Fields(&[
            FieldForm::Short(&[b"Xj+Xk"], b"36ijk"),
            FieldForm::Short(&[b"Xj-Xk"], b"37ijk"),
        ]),
    ),
];

static J: [(&'static [u8], Forms); 1] = [(b"JP", Forms::Jump)];

static L: [(&'static [u8], Forms); 3] = [
    (
        b"LT",
        Forms::Fields(&[
            FieldForm::Constant(&[b"Bi", b"Bj"], b"07ij"),
            FieldForm::Constant(&[b"Bi"], b"07i0"),
        ]),
    ),
    (
        b"LE",
        Forms::Fields(&[
            FieldForm::Constant(&[b"Bi", b"Bj"], b"06ji"),
            FieldForm::Constant(&[b"Bi"], b"060i"),
        ]),
    ),
    (
        b"LXi",
        Forms::Fields(&[
            FieldForm::Count(b"20i"),
            FieldForm::Short(&[b"Bj", b"Xk"], b"22ijk"),
            FieldForm::Short(&[b"Xk", b"Bj"], b"22ijk"),
        ]),
    ),
];

static M: [(&'static [u8], Forms); 2] = [
    (
        b"MI",
        Forms::Fields(&[
            FieldForm::Constant(&[b"Xj"], b"033j"),
            FieldForm::Constant(&[b"Bi"], b"07i0"),
        ]),
    ),
    (b"MXi", Forms::Fields(&[FieldForm::Count(b"43i")])),
];

static N: [(&'static [u8], Forms); 5] = [
    (b"NO", Forms::Pass),
    (
        b"NZ",
        Forms::Fields(&[
            FieldForm::Constant(&[b"Xj"], b"031j"),
            FieldForm::Constant(&[b"Bi"], b"05i0"),
        ]),
    ),
    (
        b"NG",
        Forms::Fields(&[
            FieldForm::Constant(&[b"Xj"], b"033j"),
            FieldForm::Constant(&[b"Bi"], b"07i0"),
        ]),
    ),
    (
        b"NE",
        Forms::Fields(&[
            FieldForm::Constant(&[b"Bi", b"Bj"], b"05ij"),
            FieldForm::Constant(&[b"Bi"], b"05i0"),
        ]),
    ),
    (
        b"NXi",
        Forms::Fields(&[
            FieldForm::Short(&[b"Bj", b"Xk"], b"24ijk"),
            FieldForm::Short(&[b"Xk", b"Bj"], b"24ijk"),
            FieldForm::Short(&[b"Xk"], b"24i0k"),
        ]),
    ),
];

static O: [(&'static [u8], Forms); 1] = [(
    b"OR",
    Forms::Fields(&[FieldForm::Constant(&[b"Xj"], b"035j")]),
)];

static P: [(&'static [u8], Forms); 3] = [
    (b"PS", Forms::Stop),
    (
        b"PL",
        Forms::Fields(&[
            FieldForm::Constant(&[b"Xj"], b"032j"),
            FieldForm::Constant(&[b"Bi"], b"06i0"),
        ]),
    ),
    (
        b"PXi",
        Forms::Fields(&[
            FieldForm::Short(&[b"Bj", b"Xk"], b"27ijk"),
            FieldForm::Short(&[b"Xk", b"Bj"], b"27ijk"),
            FieldForm::Short(&[b"Xk"], b"27i0k"),
        ]),
    ),
];

static R: [(&'static [u8], Forms); 2] = [
    (b"RJ", Forms::Fields(&[FieldForm::Forcing(&[], b"0100")])),
    (
        b"RXi",
        Forms::Fields(&[
            FieldForm::Short(&[b"Xj+Xk"], b"34ijk"),
            FieldForm::Short(&[b"Xj-Xk"], b"35ijk"),
            FieldForm::Short(&[b"Xj*Xk"], b"41ijk"),
            FieldForm::Short(&[b"Xj/Xk"], b"45ijk"),
        ]),
    ),
];

static S: [(&'static [u8], Forms); 3] = [
    (b"SAi", Forms::SetA),
    (b"SBi", Forms::SetB),
    (b"SXi", Forms::SetX),
];

static U: [(&'static [u8], Forms); 1] = [(
    b"UXi",
    Forms::Fields(&[
        FieldForm::Short(&[b"Bj", b"Xk"], b"26ijk"),
        FieldForm::Short(&[b"Xk", b"Bj"], b"26ijk"),
        FieldForm::Short(&[b"Xk"], b"26i0k"),
    ]),
)];

static Z: [(&'static [u8], Forms); 2] = [
    (
        b"ZR",
        Forms::Fields(&[
            FieldForm::Constant(&[b"Xj"], b"030j"),
            FieldForm::Constant(&[b"Bi"], b"04i0"),
        ]),
    ),
    (
        b"ZXi",
        Forms::Fields(&[
            FieldForm::Short(&[b"Bj", b"Xk"], b"25ijk"),
            FieldForm::Short(&[b"Xk", b"Bj"], b"25ijk"),
            FieldForm::Short(&[b"Xk"], b"25i0k"),
        ]),
    ),
];

/// The operations whose names begin with a letter.
#[tactic(auto, unfolding(crate::specs::Table::cp_operations))]
pub fn operations_with(letter: u8) -> &'static [(&'static [u8], Forms)]
    ensures { operation_values result.now ≡ beginning_with letter cp_operations }
{
    match letter {
        b'A' => &A,
        b'B' => &B,
        b'C' => &C,
        b'D' => &D,
        b'E' => &E,
        b'F' => &F,
        b'G' => &G,
        b'I' => &I,
        b'J' => &J,
        b'L' => &L,
        b'M' => &M,
        b'N' => &N,
        b'O' => &O,
        b'P' => &P,
        b'R' => &R,
        b'S' => &S,
        b'U' => &U,
        b'Z' => &Z,
        _ => &[],
    }
}

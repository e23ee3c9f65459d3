//! The table of the operations of a peripheral processor, by the first letters of their names.
ghost use Rattle.std.specs.Prelude.{◌≡◌};
ghost use Rattle.cps_code.specs.PeripheralTable.{pp_table};
ghost use Rattle.cps_code.specs.Code.PeripheralRows.{row_values, beginning_with};

use super::layout::Layout;

static A: [(&'static [u8], Layout, u8); 10] = [
    (b"ADN", Layout::Short, 0o16),
    (b"ADD", Layout::Short, 0o31),
    (b"AOD", Layout::Short, 0o36),
    (b"ADI", Layout::Short, 0o41),
    (b"AOI", Layout::Short, 0o46),
    (b"ACN", Layout::Short, 0o74),
    (b"ADC", Layout::Constant, 0o21),
    (b"ADM", Layout::Memory, 0o51),
    (b"AOM", Layout::Memory, 0o56),
    (b"AJM", Layout::Memory, 0o64),
];

static C: [(&'static [u8], Layout, u8); 4] = [
    (b"CRD", Layout::Short, 0o60),
    (b"CWD", Layout::Short, 0o62),
    (b"CRM", Layout::Memory, 0o61),
    (b"CWM", Layout::Memory, 0o63),
];

static D: [(&'static [u8], Layout, u8); 1] = [(b"DCN", Layout::Short, 0o75)];

static E: [(&'static [u8], Layout, u8); 2] = [
    (b"EXN", Layout::Short, 0o26),
    (b"EJM", Layout::Memory, 0o67),
];

static F: [(&'static [u8], Layout, u8); 3] = [
    (b"FAN", Layout::Short, 0o76),
    (b"FJM", Layout::Memory, 0o66),
    (b"FNC", Layout::Memory, 0o77),
];

static I: [(&'static [u8], Layout, u8); 3] = [
    (b"IAN", Layout::Short, 0o70),
    (b"IJM", Layout::Memory, 0o65),
    (b"IAM", Layout::Memory, 0o71),
];

static L: [(&'static [u8], Layout, u8); 14] = [
    (b"LMN", Layout::Short, 0o11),
    (b"LPN", Layout::Short, 0o12),
    (b"LDN", Layout::Short, 0o14),
    (b"LCN", Layout::Short, 0o15),
    (b"LDD", Layout::Short, 0o30),
    (b"LMD", Layout::Short, 0o33),
    (b"LDI", Layout::Short, 0o40),
    (b"LMI", Layout::Short, 0o43),
    (b"LDC", Layout::Constant, 0o20),
    (b"LPC", Layout::Constant, 0o22),
    (b"LMC", Layout::Constant, 0o23),
    (b"LJM", Layout::Memory, 0o01),
    (b"LDM", Layout::Memory, 0o50),
    (b"LMM", Layout::Memory, 0o53),
];

static M: [(&'static [u8], Layout, u8); 1] = [(b"MJN", Layout::Target, 0o07)];

static N: [(&'static [u8], Layout, u8); 1] = [(b"NJN", Layout::Target, 0o05)];

static O: [(&'static [u8], Layout, u8); 2] = [
    (b"OAN", Layout::Short, 0o72),
    (b"OAM", Layout::Memory, 0o73),
];

static P: [(&'static [u8], Layout, u8); 2] = [
    (b"PSN", Layout::Unread, 0o00),
    (b"PJN", Layout::Target, 0o06),
];

static R: [(&'static [u8], Layout, u8); 5] = [
    (b"RPN", Layout::Short, 0o27),
    (b"RAD", Layout::Short, 0o35),
    (b"RAI", Layout::Short, 0o45),
    (b"RJM", Layout::Memory, 0o02),
    (b"RAM", Layout::Memory, 0o55),
];

static S: [(&'static [u8], Layout, u8); 12] = [
    (b"SHN", Layout::Short, 0o10),
    (b"SCN", Layout::Short, 0o13),
    (b"SBN", Layout::Short, 0o17),
    (b"SBD", Layout::Short, 0o32),
    (b"STD", Layout::Short, 0o34),
    (b"SOD", Layout::Short, 0o37),
    (b"SBI", Layout::Short, 0o42),
    (b"STI", Layout::Short, 0o44),
    (b"SOI", Layout::Short, 0o47),
    (b"SBM", Layout::Memory, 0o52),
    (b"STM", Layout::Memory, 0o54),
    (b"SOM", Layout::Memory, 0o57),
];

static U: [(&'static [u8], Layout, u8); 1] = [(b"UJN", Layout::Target, 0o03)];

static Z: [(&'static [u8], Layout, u8); 1] = [(b"ZJN", Layout::Target, 0o04)];

/// The operations whose names begin with a letter, each with its layout and its number.
#[tactic(auto, unfolding(crate::specs::PeripheralTable::pp_table))]
pub fn operations_with(letter: u8) -> &'static [(&'static [u8], Layout, u8)]
    ensures { row_values result.now ≡ beginning_with letter pp_table }
{
    match letter {
        b'A' => &A,
        b'C' => &C,
        b'D' => &D,
        b'E' => &E,
        b'F' => &F,
        b'I' => &I,
        b'L' => &L,
        b'M' => &M,
        b'N' => &N,
        b'O' => &O,
        b'P' => &P,
        b'R' => &R,
        b'S' => &S,
        b'U' => &U,
        b'Z' => &Z,
        _ => &[],
    }
}

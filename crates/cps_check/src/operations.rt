//! The operations of both machines, in the order of their tables.
ghost use Rattle.std.specs.Prelude.{◌≡◌};
ghost use Rattle.cps_code.specs.Code.Operations.{texts};
ghost use Rattle.cps_check.specs.Codes.{central_names, peripheral_names};

/// Those of the central processor, with 0 for the digit of a register.
static CENTRAL: [&'static [u8]; 35] = [
    b"SA0", b"SB0", b"SX0", b"JP", b"PS", b"NO", b"RJ", b"ZR", b"NZ", b"PL", b"NG", b"MI", b"IR",
    b"OR", b"DF", b"ID", b"EQ", b"NE", b"GE", b"LT", b"LE", b"GT", b"BX0", b"LX0", b"AX0", b"MX0",
    b"NX0", b"ZX0", b"UX0", b"PX0", b"FX0", b"DX0", b"RX0", b"IX0", b"CX0",
];

/// Those of a peripheral processor.
static PERIPHERAL: [&'static [u8]; 62] = [
    b"PSN", b"UJN", b"ZJN", b"NJN", b"PJN", b"MJN", b"SHN", b"LMN", b"LPN", b"SCN", b"LDN", b"LCN",
    b"ADN", b"SBN", b"EXN", b"RPN", b"LDD", b"ADD", b"SBD", b"LMD", b"STD", b"RAD", b"AOD", b"SOD",
    b"LDI", b"ADI", b"SBI", b"LMI", b"STI", b"RAI", b"AOI", b"SOI", b"CRD", b"CWD", b"IAN", b"OAN",
    b"ACN", b"DCN", b"FAN", b"LDC", b"ADC", b"LPC", b"LMC", b"LJM", b"RJM", b"LDM", b"ADM", b"SBM",
    b"LMM", b"STM", b"RAM", b"AOM", b"SOM", b"CRM", b"CWM", b"AJM", b"IJM", b"FJM", b"EJM", b"IAM",
    b"OAM", b"FNC",
];

/// The operations of the central processor.
#[tactic(auto, unfolding(crate::specs::Codes::central_names, cps_code::specs::Table::cp_operations))]
pub fn central_names() -> &'static [&'static [u8]]
    ensures { texts result.now ≡ central_names }
{
    &CENTRAL
}

/// The operations of a peripheral processor.
#[tactic(auto, unfolding(crate::specs::Codes::peripheral_names, cps_code::specs::PeripheralTable::pp_table))]
pub fn peripheral_names() -> &'static [&'static [u8]]
    ensures { texts result.now ≡ peripheral_names }
{
    &PERIPHERAL
}

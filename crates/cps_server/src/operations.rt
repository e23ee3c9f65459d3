//! The names of operations, as they are offered.
ghost use Rattle.std.specs.Prelude.{◌≡◌};
ghost use Rattle.cps_server.specs.Completions as completions;
ghost use Rattle.cps_server.specs.Code.Telling.{texts};

use cps_expr::Machine;

/// The names of statements, but for macros.
static STATEMENTS: [&str; 34] = [
    "IDENT", "ABS", "PERIPH", "BASE", "EQU", "=", "SET", "ORG", "USE", "BSS", "BSSZ", "CON",
    "DATA", "VFD", "DIS", "IFEQ", "IFNE", "IFGT", "IFGE", "IFLT", "IFLE", "IF", "ELSE", "ENDIF",
    "DUP", "ENDD", "MACRO", "LOCAL", "ENDM", "END", "TITLE", "SPACE", "EJECT", "LIST",
];

/// The names of instructions of the central processor. An `i` at their end stands for the digit of a register.
static CENTRAL: [&str; 35] = [
    "SAi", "SBi", "SXi", "JP", "PS", "NO", "RJ", "ZR", "NZ", "PL", "NG", "MI", "IR", "OR", "DF",
    "ID", "EQ", "NE", "GE", "LT", "LE", "GT", "BXi", "LXi", "AXi", "MXi", "NXi", "ZXi", "UXi",
    "PXi", "FXi", "DXi", "RXi", "IXi", "CXi",
];

/// The names of instructions of a peripheral processor.
static PERIPHERAL: [&str; 62] = [
    "PSN", "UJN", "ZJN", "NJN", "PJN", "MJN", "SHN", "LMN", "LPN", "SCN", "LDN", "LCN", "ADN",
    "SBN", "EXN", "RPN", "LDD", "ADD", "SBD", "LMD", "STD", "RAD", "AOD", "SOD", "LDI", "ADI",
    "SBI", "LMI", "STI", "RAI", "AOI", "SOI", "CRD", "CWD", "IAN", "OAN", "ACN", "DCN", "FAN",
    "LDC", "ADC", "LPC", "LMC", "LJM", "RJM", "LDM", "ADM", "SBM", "LMM", "STM", "RAM", "AOM",
    "SOM", "CRM", "CWM", "AJM", "IJM", "FJM", "EJM", "IAM", "OAM", "FNC",
];

/// The letters of registers that operands of the central processor name.
static REGISTERS: [&str; 3] = ["A", "B", "X"];

/// The names of statements.
pub fn statement_names() -> &'static [&'static str]
    ensures { texts result.now ≡ completions.statement_names }
{
    &STATEMENTS
}

/// The names of a machine's instructions.
pub fn instruction_names(machine: Machine) -> &'static [&'static str]
    ensures { texts result.now ≡ completions.table_names machine }
{
    match machine {
        Machine::Cp => &CENTRAL,
        Machine::Pp => &PERIPHERAL,
    }
}

/// What is told beside a machine's instructions.
pub fn machine_name(machine: Machine) -> &'static [u8]
    ensures { result.now ≡ completions.machine_name machine }
{
    match machine {
        Machine::Cp => b"central processor",
        Machine::Pp => b"peripheral processor",
    }
}

/// The letters of the registers that operands for a machine name.
pub fn register_letters(machine: Machine) -> &'static [&'static str]
    ensures { texts result.now ≡ completions.registers machine }
{
    match machine {
        Machine::Cp => &REGISTERS,
        Machine::Pp => &[],
    }
}

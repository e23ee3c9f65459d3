//! Operations that COMPASS has and this assembler leaves out.
ghost use Rattle.std.specs.Prelude.{◌≡◌, is_some};
ghost use Rattle.cps_cause.specs.LeftOut.{is_left_out, is_named_among, is_same, left_out_names};
ghost use Rattle.cps_cause.specs.Code.LeftOutNames.{names};

/// What operations that are left out have in common.
#[derive(Clone, Copy, PartialEq, Eq)]
pub enum LeftOut {
    /// What tells the loader, the operating system or the listing something.
    Told,
    /// What has no way round.
    Bare,
    /// A test of what machine the program is for.
    MachineTest,
    Skip,
    Err,
    /// Flags its line if an expression is zero, not zero and so on.
    ErrTest,
    SetRegister,
    RegisterOne,
    Pool,
    Repeat,
    Synonym,
    Nothing,
    NamedArguments,
    Digits,
    MadeInstruction,
    Characters,
    /// An instruction of later central processors.
    Central,
    /// An instruction that compares or moves fields of characters.
    Fields,
    /// An instruction of later peripheral processors.
    Peripheral,
}

/// The operations, and what each has in common with others.
static OPERATIONS: [(&[u8], LeftOut); 78] = [
    (b"ENTRY", LeftOut::Told),
    (b"EXT", LeftOut::Told),
    (b"SST", LeftOut::Told),
    (b"SYSCOM", LeftOut::Told),
    (b"COMMENT", LeftOut::Told),
    (b"CTEXT", LeftOut::Told),
    (b"ENDX", LeftOut::Told),
    (b"TTL", LeftOut::Told),
    (b"NOREF", LeftOut::Told),
    (b"XREF", LeftOut::Told),
    (b"NOLABEL", LeftOut::Told),
    (b"QUAL", LeftOut::Bare),
    (b"MICRO", LeftOut::Bare),
    (b"ECHO", LeftOut::Bare),
    (b"STOPDUP", LeftOut::Bare),
    (b"IRP", LeftOut::Bare),
    (b"OPDEF", LeftOut::Bare),
    (b"PURGMAC", LeftOut::Bare),
    (b"PURGDEF", LeftOut::Bare),
    (b"RMT", LeftOut::Bare),
    (b"HERE", LeftOut::Bare),
    (b"LOC", LeftOut::Bare),
    (b"POS", LeftOut::Bare),
    (b"COL", LeftOut::Bare),
    (b"XTEXT", LeftOut::Bare),
    (b"STEXT", LeftOut::Bare),
    (b"SEG", LeftOut::Bare),
    (b"SEGMENT", LeftOut::Bare),
    (b"LCC", LeftOut::Bare),
    (b"PPU", LeftOut::Bare),
    (b"ENTRYC", LeftOut::Bare),
    (b"USELCM", LeftOut::Bare),
    (b"ORGC", LeftOut::Bare),
    (b"MACHINE", LeftOut::Bare),
    (b"MICCNT", LeftOut::Bare),
    (b"MAX", LeftOut::Bare),
    (b"MIN", LeftOut::Bare),
    (b"IFC", LeftOut::Bare),
    (b"IFPL", LeftOut::Bare),
    (b"IFMI", LeftOut::Bare),
    (b"IFCP", LeftOut::MachineTest),
    (b"IFCP6", LeftOut::MachineTest),
    (b"IFCP7", LeftOut::MachineTest),
    (b"IFPP", LeftOut::MachineTest),
    (b"IFPP6", LeftOut::MachineTest),
    (b"IFPP7", LeftOut::MachineTest),
    (b"SKIP", LeftOut::Skip),
    (b"ERR", LeftOut::Err),
    (b"ERRZR", LeftOut::ErrTest),
    (b"ERRNZ", LeftOut::ErrTest),
    (b"ERRPL", LeftOut::ErrTest),
    (b"ERRNG", LeftOut::ErrTest),
    (b"ERRMI", LeftOut::ErrTest),
    (b"R=", LeftOut::SetRegister),
    (b"B1=1", LeftOut::RegisterOne),
    (b"B7=1", LeftOut::RegisterOne),
    (b"LIT", LeftOut::Pool),
    (b"REP", LeftOut::Repeat),
    (b"REPC", LeftOut::Repeat),
    (b"REPI", LeftOut::Repeat),
    (b"OPSYN", LeftOut::Synonym),
    (b"CPSYN", LeftOut::Synonym),
    (b"NIL", LeftOut::Nothing),
    (b"MACROE", LeftOut::NamedArguments),
    (b"DECMIC", LeftOut::Digits),
    (b"OCTMIC", LeftOut::Digits),
    (b"CPOP", LeftOut::MadeInstruction),
    (b"CODE", LeftOut::Characters),
    (b"CHAR", LeftOut::Characters),
    (b"RE", LeftOut::Central),
    (b"WE", LeftOut::Central),
    (b"XJ", LeftOut::Central),
    (b"MJ", LeftOut::Central),
    (b"IM", LeftOut::Fields),
    (b"DM", LeftOut::Fields),
    (b"CC", LeftOut::Fields),
    (b"CU", LeftOut::Fields),
    (b"MXN", LeftOut::Peripheral),
];

impl LeftOut {
    /// Of an operation that COMPASS has and this assembler leaves out. Lower-case letters stand for capitals.
    pub fn named(word: &[u8]) -> Option<LeftOut>
        ensures { is_some result ≡ is_left_out word.now }
    {
        find_operation(operations(), word)
    }

    /// What it does in COMPASS, and the way round where there is one.
    pub fn words(self) -> &'static [u8] {
        match self {
            LeftOut::Told => {
                b"where nothing hangs on it, an empty macro of its name takes its place, called behind ABS or PERIPH"
            }
            LeftOut::Bare => b"no other operation takes its place",
            LeftOut::Pool =>
                b"it puts items into the literal pool; DATA behind the last instruction does that",
            LeftOut::SetRegister => b"it sets a register; SA, SB or SX does that",
            LeftOut::Characters => b"it chooses another code than display code; write numbers",
            _ => self.more_words(),
        }
    }

    /// The words of macros, tests and instructions.
    fn more_words(self) -> &'static [u8] {
        match self {
            LeftOut::MachineTest => {
                b"it asks for the machine; write IFEQ 0,0 for a test that holds, IFEQ 0,1 for another"
            }
            LeftOut::Skip => b"it skips lines; write IFEQ 0,1 with the number of lines",
            LeftOut::Err => b"it flags its line, as this flag does",
            LeftOut::ErrTest => {
                b"it flags its line by a value; write a test of that value, and ERR in its range"
            }
            LeftOut::RegisterOne => {
                b"it says that a register has 1; an empty macro of its name takes its place"
            }
            LeftOut::Repeat => b"it has the loader repeat words; write DUP around them",
            LeftOut::Synonym => {
                b"it names an operation anew; write a macro that calls the operation"
            }
            LeftOut::Nothing => b"it does nothing; write an empty macro",
            _ => self.last_words(),
        }
    }

    fn last_words(self) -> &'static [u8] {
        match self {
            LeftOut::NamedArguments =>
                b"its calls name parameters; write MACRO, and arguments in their order",
            LeftOut::Digits => b"it makes a micro of a value's digits; write the digits",
            LeftOut::MadeInstruction =>
                b"it makes an instruction of a code; write a macro with a VFD of the code",
            LeftOut::Central => {
                b"it is an instruction of some central processors; write a VFD of its code"
            }
            LeftOut::Fields =>
                b"it is an instruction that compares or moves characters, which few machines have",
            _ => b"it is an instruction of some peripheral processors; write DATA of its code",
        }
    }
}

#[tactic(auto, unfolding(crate::specs::LeftOut::left_out_names))]
fn operations() -> &'static [(&'static [u8], LeftOut)]
    ensures { names result.now ≡ left_out_names }
{
    &OPERATIONS
}

fn find_operation(operations: &'static [(&'static [u8], LeftOut)], word: &[u8]) -> Option<LeftOut>
    ensures { is_some result ≡ is_named_among (names operations.now) word.now }
{
    for (name, left_out) in operations {
        if is_same(name, word) {
            return Some(*left_out);
        }
    }
    None
}

/// Whether a word is a name, in capitals or not.
#[tactic(auto, unfolding(crate::specs::LeftOut::is_same))]
fn is_same(name: &[u8], word: &[u8]) -> bool
    ensures { result ≡ is_same name.now word.now }
{
    name.eq_ignore_ascii_case(word)
}

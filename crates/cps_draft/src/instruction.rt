//! An instruction, as a line shows it.
use super::number::push_decimal;
use std::alloc::AllocError;

/// What the address in an instruction is.
#[derive(Clone, Copy, PartialEq, Eq)]
pub enum Role {
    /// Where execution goes on.
    Jump,
    /// A word that is read or written.
    Cell,
    /// A number that may be an address.
    Value,
    /// A number that is none.
    Count,
    /// Places of a shift.
    Shift,
}

/// Where execution goes on behind an instruction.
#[derive(Clone, Copy, PartialEq, Eq)]
pub enum Flow {
    /// Behind it.
    On,
    /// Behind it, or at its address.
    Branch,
    /// Not behind it.
    Stop,
    /// At its address, and then behind it.
    Call,
}

/// A register.
#[derive(Clone, Copy)]
pub struct Register {
    pub letter: u8,
    pub digit: u8,
}

/// The operands in front of an address; all operands where there is no address.
#[derive(Clone, Copy)]
pub enum Front {
    Nothing,
    One(Register),
    /// Behind a minus.
    Minus(Register),
    /// With the character between them.
    Pair(Register, u8, Register),
    /// The same behind a minus.
    MinusPair(Register, u8, Register),
    Count(u8),
}

/// An instruction.
#[derive(Clone, Copy)]
pub struct Instruction {
    /// How many parcels it has, of a peripheral processor how many words.
    pub size: usize,
    pub operation: &'static [u8],
    /// The digit of a register behind the operation.
    pub digit: Option<u8>,
    pub front: Front,
    /// K, m, d or the target.
    pub address: Option<u32>,
    pub role: Role,
    /// Whether a register, or the word at d, is added to the address.
    pub is_beside: bool,
    /// The d behind m.
    pub behind: Option<u8>,
    pub flow: Flow,
    /// The bits that its operation and its registers cost as code.
    pub cost: u32,
}

impl Instruction {
    /// An instruction that has no address.
    pub fn plain(size: usize, operation: &'static [u8], cost: u32) -> Instruction {
        Instruction {
            size,
            operation,
            digit: None,
            front: Front::Nothing,
            address: None,
            role: Role::Count,
            is_beside: false,
            behind: None,
            flow: Flow::On,
            cost,
        }
    }

    pub fn with_digit(self, digit: u8) -> Instruction {
        Instruction {
            digit: Some(digit),
            ..self
        }
    }

    pub fn with_front(self, front: Front) -> Instruction {
        Instruction { front, ..self }
    }

    pub fn with_address(self, address: u32, role: Role) -> Instruction {
        Instruction {
            address: Some(address),
            role,
            ..self
        }
    }

    pub fn with_behind(self, behind: u8) -> Instruction {
        Instruction {
            behind: Some(behind),
            ..self
        }
    }

    pub fn with_flow(self, flow: Flow) -> Instruction {
        Instruction { flow, ..self }
    }

    pub fn beside(self) -> Instruction {
        Instruction {
            is_beside: true,
            ..self
        }
    }

    /// Whether the instruction behind it begins a word.
    pub fn is_forcing(&self) -> bool {
        matches!(self.flow, Flow::Stop | Flow::Call)
    }

    /// Whether it is RJ.
    pub fn is_return_jump(&self) -> bool {
        matches!(self.operation, b"RJ")
    }

    /// Whether execution goes on behind it.
    pub fn goes_on(&self) -> bool {
        self.flow != Flow::Stop
    }

    /// Whether its address is a displacement from what an A register has.
    pub fn is_displaced(&self) -> bool {
        match self.front {
            Front::One(register) => register.letter == b'A',
            _ => false,
        }
    }

    /// The address where it may go on, if that is written in it.
    pub fn target(&self) -> Option<u32> {
        if self.role == Role::Jump {
            self.address
        } else {
            None
        }
    }

    /// Appends the operands in front of an address.
    pub fn push_front(&self, text: &mut Vec<u8>) -> Result<(), AllocError> {
        match self.front {
            Front::Nothing => Ok(()),
            Front::One(register) => push_register(text, register),
            Front::Minus(register) => {
                text.push(b'-')?;
                push_register(text, register)
            }
            Front::Pair(first, between, second) => push_pair(text, first, between, second),
            Front::MinusPair(first, between, second) => {
                text.push(b'-')?;
                push_pair(text, first, between, second)
            }
            Front::Count(count) => push_decimal(text, usize::from(count)),
        }
    }

    /// The character between the operands in front and the address; None where there are no such operands.
    pub fn joint(&self) -> Option<u8> {
        if matches!(self.front, Front::Nothing) {
            return None;
        }
        if self.flow == Flow::Branch {
            return Some(b',');
        }
        Some(b'+')
    }
}

fn push_pair(
    text: &mut Vec<u8>,
    first: Register,
    between: u8,
    second: Register,
) -> Result<(), AllocError> {
    push_register(text, first)?;
    text.push(between)?;
    push_register(text, second)
}

fn push_register(text: &mut Vec<u8>, register: Register) -> Result<(), AllocError> {
    text.push(register.letter)?;
    push_decimal(text, usize::from(register.digit))
}

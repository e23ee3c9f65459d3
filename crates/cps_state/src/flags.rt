//! Flags of a line.
ghost use Rattle.std.specs.Prelude.{◌≡◌, [], ◌∷◌, ◌++◌, OnOk};
ghost use Rattle.cps_state.specs.Flags as flags;
ghost use Rattle.cps_state.specs.Made.{no_flags};

use std::alloc::AllocError;

/// What is wrong with a line.
#[derive(Clone, Copy, PartialEq, Eq)]
pub struct Flags {
    /// A: an operand.
    pub operand: bool,
    /// D: its symbol has a value already.
    pub twice: bool,
    /// E: where it stands, or a limit.
    pub structure: bool,
    /// L: the location field.
    pub location: bool,
    /// O: the operation.
    pub operation: bool,
    /// T: a value was cut.
    pub cut: bool,
    /// U: a name that is not defined.
    pub undefined: bool,
    /// V: the width of a field.
    pub width: bool,
}

impl Flags {
    pub fn none() -> Flags
        ensures { result ≡ no_flags }
    {
        Flags {
            operand: false,
            twice: false,
            structure: false,
            location: false,
            operation: false,
            cut: false,
            undefined: false,
            width: false,
        }
    }

    /// The flags of both.
    pub fn joined(self, other: Flags) -> Flags
        ensures { result ≡ flags.joined self other }
    {
        Flags {
            operand: self.operand | other.operand,
            twice: self.twice | other.twice,
            structure: self.structure | other.structure,
            location: self.location | other.location,
            operation: self.operation | other.operation,
            cut: self.cut | other.cut,
            undefined: self.undefined | other.undefined,
            width: self.width | other.width,
        }
    }

    pub fn has_flag(self) -> bool
        ensures { result ≡ flags.has_flag self }
    {
        self.operand
            || self.twice
            || self.structure
            || self.location
            || self.operation
            || self.cut
            || self.undefined
            || self.width
    }

    /// Appends the letters in alphabetical order.
    #[inline(always)]
    pub fn push_letters(self, text: &mut Vec<u8>) -> Result<(), AllocError>
        ensures { OnOk result (text.new.items ≡ text.old.items ++ flags.letters self) }
    {
        if !self.has_flag() {
            return Ok(());
        }
        self.push_each(text)
    }

    /// Appends the letters, where there are some.
    fn push_each(self, text: &mut Vec<u8>) -> Result<(), AllocError>
        ensures { OnOk result (text.new.items ≡ text.old.items ++ flags.letters self) }
    {
        push_letter(text, self.operand, b'A')?;
        push_letter(text, self.twice, b'D')?;
        push_letter(text, self.structure, b'E')?;
        push_letter(text, self.location, b'L')?;
        push_letter(text, self.operation, b'O')?;
        push_letter(text, self.cut, b'T')?;
        push_letter(text, self.undefined, b'U')?;
        push_letter(text, self.width, b'V')
    }
}

fn push_letter(text: &mut Vec<u8>, is_there: bool, letter: u8) -> Result<(), AllocError>
    ensures { OnOk result (text.new.items ≡ text.old.items ++ flags.letter is_there (letter ∷ [])) }
{
    if is_there {
        text.push(letter)?;
    }
    Ok(())
}

//! The letters of flags.
ghost use Rattle.std.specs.Prelude.{◌≡◌, ◌<◌, true, length};
ghost use Rattle.cps_state.specs.Flags.{joined};
ghost use Rattle.cps_cause.specs.Letters.{has, only};

use cps_state::Flags;

/// The letter of a flag.
#[derive(Clone, Copy, PartialEq, Eq)]
pub enum Letter {
    /// An operand.
    A,
    /// A symbol that has a value already.
    D,
    /// The order of statements, or a limit.
    E,
    /// The location field.
    L,
    /// The operation.
    O,
    /// A value that was cut.
    T,
    /// A symbol without a value.
    U,
    /// The width of a field.
    V,
}

impl Letter {
    /// Whether it is among flags.
    pub fn is_among(self, flags: Flags) -> bool
        ensures { result ≡ has self flags }
    {
        match self {
            Letter::A => flags.operand,
            Letter::D => flags.twice,
            Letter::E => flags.structure,
            Letter::L => flags.location,
            Letter::O => flags.operation,
            Letter::T => flags.cut,
            Letter::U => flags.undefined,
            Letter::V => flags.width,
        }
    }

    /// Flags, and the flag of this letter.
    pub fn added_to(self, flags: Flags) -> Flags
        ensures { result ≡ joined (only self true) flags }
    {
        match self {
            Letter::A => Flags {
                operand: true,
                ..flags
            },
            Letter::D => Flags {
                twice: true,
                ..flags
            },
            Letter::E => Flags {
                structure: true,
                ..flags
            },
            Letter::L => Flags {
                location: true,
                ..flags
            },
            Letter::O => Flags {
                operation: true,
                ..flags
            },
            Letter::T => Flags { cut: true, ..flags },
            Letter::U => Flags {
                undefined: true,
                ..flags
            },
            Letter::V => Flags {
                width: true,
                ..flags
            },
        }
    }

    /// What a flag of this letter says, where no more is known.
    pub fn meaning(self) -> &'static [u8]
        ensures { 0 < length result.now }
    {
        match self {
            Letter::A => b"an operand is wrong",
            Letter::D => b"a symbol has a value already, and keeps it",
            Letter::E => b"this may not stand here, or passes a limit",
            Letter::L => b"the location field is wrong",
            Letter::O => b"there is no such operation",
            Letter::T => b"a value was cut",
            Letter::U => b"a symbol has no value",
            Letter::V => b"a field has 1 to 60 bits",
        }
    }

    /// The letter itself.
    pub fn byte(self) -> u8 {
        match self {
            Letter::A => b'A',
            Letter::D => b'D',
            Letter::E => b'E',
            Letter::L => b'L',
            Letter::O => b'O',
            Letter::T => b'T',
            Letter::U => b'U',
            Letter::V => b'V',
        }
    }
}

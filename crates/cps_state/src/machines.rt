//! The words of the two machines.
ghost use Rattle.std.specs.Prelude.{◌≡◌, ◌+◌, ◌*◌, ◌≤◌};
ghost use Rattle.cps_expr.specs.Item.{bits_of};
ghost use Rattle.cps_state.specs.Machines as machines;

use cps_expr::Machine;

/// The bits that a word of either machine counts where a place is told by the bits before it.
pub const WORD: u32 = 60;

/// How many words a machine has.
pub fn limit_of(machine: Machine) -> u32
    ensures { result ≡ machines.limit machine }
{
    match machine {
        Machine::Cp => 131_072,
        Machine::Pp => 4_096,
    }
}

/// The bits of a machine's word.
pub fn word_bits(machine: Machine) -> u8
    ensures { result ≡ bits_of machine }
{
    match machine {
        Machine::Cp => 60,
        Machine::Pp => 12,
    }
}

/// The place after so many bits of a machine's words.
pub fn behind(machine: Machine, at: u32, width: u8) -> u32
    requires low { at ≤ 60 * machines.limit machine }
    requires few { width ≤ 60 }
    ensures { result ≡ machines.behind machine at width }
{
    match machine {
        Machine::Cp => at + u32::from(width),
        Machine::Pp => {
            let bits = at % WORD + u32::from(width);
            WORD * (at / WORD + bits / 12) + bits % 12
        }
    }
}

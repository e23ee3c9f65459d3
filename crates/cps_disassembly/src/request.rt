//! What the words of a disassembly ask.
ghost use Rattle.std.specs.Prelude.{◌≡◌, IfSome};
ghost use Rattle.cps_disassembly.specs.Running.{Selects};

use super::guess::guess_machine;
use super::selection::Selection;
use cps_claims::{OctalFormat, ReadColumns};
use cps_expr::Machine;

/// What the words of a disassembly ask of an octal text.
#[derive(Clone, Copy)]
pub struct Request {
    /// None: the rows of the text tell it.
    pub machine: Option<Machine>,
    pub format: OctalFormat,
    /// None: all columns are read.
    pub columns: Option<ReadColumns>,
    /// The first address. None: 0.
    pub from: Option<u32>,
    /// The last address. None: no address is the last.
    pub to: Option<u32>,
}

impl Request {
    /// The words of a text that are asked for.
    pub fn select(&self, octal: &[u8]) -> Selection
        ensures { Selects self.now result }
    {
        Selection {
            machine: machine_for(self.machine, octal),
            format: self.format,
            columns: self.columns,
            from: self.from,
            to: self.to,
        }
    }
}

fn machine_for(asked: Option<Machine>, octal: &[u8]) -> Machine
    ensures { IfSome asked (λ asked. asked ≡ result) }
{
    match asked {
        Some(machine) => machine,
        None => guess_machine(octal),
    }
}

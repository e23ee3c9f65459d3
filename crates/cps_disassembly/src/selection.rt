//! Which words of an octal text are taken.
ghost use Rattle.std.specs.Prelude.{◌≡◌, nat_le, true};
ghost use Rattle.std.specs.Option.{option_map_or};
ghost use Rattle.cps_compare.specs.Comparison as comparison;

use cps_claims::{OctalFormat, OctalLayout, ReadColumns, WordForm, WordOffset};
use cps_expr::Machine;

/// Which words of an octal text a source is to make, and how they are read.
#[derive(Clone, Copy)]
pub struct Selection {
    pub machine: Machine,
    pub format: OctalFormat,
    /// None: all columns are read.
    pub columns: Option<ReadColumns>,
    /// The first address. None: 0.
    pub from: Option<u32>,
    /// The last address. None: no address is the last.
    pub to: Option<u32>,
}

impl Selection {
    ghost use Rattle.std.specs.Prelude.{◌≡◌};
    ghost use Rattle.cps_disassembly.specs.Makes.{is_within, layout_of};

    /// How the octal text is laid out.
    pub fn layout(&self) -> OctalLayout
        ensures { result ≡ layout_of self.now }
    {
        OctalLayout {
            form: form_of(self.machine),
            format: self.format,
            columns: self.columns,
            offset: WordOffset::Up(0),
        }
    }

    /// Whether an address stands from the first to the last, both counted.
    pub fn takes(&self, address: u32) -> bool
        ensures { result ≡ is_within self.now address }
    {
        self.from.unwrap_or(0) <= address && is_up_to(address, self.to)
    }
}

fn is_up_to(address: u32, last: Option<u32>) -> bool
    ensures { result ≡ option_map_or (λ last. nat_le address last) last true }
{
    match last {
        Some(last) => address <= last,
        None => true,
    }
}

fn form_of(machine: Machine) -> WordForm
    ensures { result ≡ comparison.form_of machine }
{
    match machine {
        Machine::Cp => WordForm::Central,
        Machine::Pp => WordForm::Peripheral,
    }
}

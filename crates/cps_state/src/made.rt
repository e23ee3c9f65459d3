//! What a statement made in pass one.
ghost use Rattle.std.specs.Prelude.{◌≡◌, [], None, Some, true, false, All, nat_lt, option_map, ◌≤◌, ◌*◌, ◌<◌, ◌%◌, if◌then◌else◌};
ghost use Rattle.std.specs.Option.{option_to_list};
ghost use Rattle.cps_code.specs.Image.{piece_of};
ghost use Rattle.cps_expr.specs.Item.{bits_of};
ghost use Rattle.cps_state.specs.Flags.{joined};
ghost use Rattle.cps_state.specs.Machines.{limit};
ghost use Rattle.cps_state.specs.Made.{nothing_made, field_hole, holes_of, width_of, end_of, IsContent, IsHeld, HaveRoom};

use crate::contents::Contents;
use crate::flags::Flags;
use crate::instruction::InstructionForm;
use crate::machines::{WORD, behind, limit_of};
use cps_code::{Hole, HoleKind, Operand, Piece};
use cps_expr::{Expr, Machine, Value};
use cps_text::Name;
use std::marker::Model;
use std::slice::from_ref;

/// What stands in bits of a statement that are told as one.
#[derive(Drop)]
pub enum Content {
    /// An instruction.
    Instruction(InstructionForm),
    /// A value, in the bits of its hole.
    Value(Hole),
    /// A number of so many bits.
    Number(u8, u64),
    /// A value whose width is none: its hole has no bits.
    Unsized(Hole),
}

/// A hole of so many bits for the value of an expression, by itself.
pub fn field_hole(width: u8, value: Expr) -> Hole
    ensures { result ≡ field_hole width value }
{
    Hole {
        first: 0,
        width,
        kind: HoleKind::Value,
        operand: Operand::Expression(value),
    }
}

impl Content {
    /// How many bits it has.
    pub fn width(&self) -> u8
        ensures width { result ≡ width_of self.now }
        ensures most { IsContent self.now → result ≤ 60 }
    {
        match self {
            Content::Instruction(form) => form.bits(),
            Content::Value(hole) => hole.width,
            Content::Number(width, _) => *width,
            Content::Unsized(_) => 0,
        }
    }

    /// The holes that it fills under the final values, in their order.
    pub fn holes(&self) -> &[Hole]
        ensures { result.now ≡ holes_of self.now }
    {
        match self {
            Content::Instruction(form) => form.holes(),
            Content::Value(hole) => from_ref(hole),
            Content::Number(..) => &[],
            Content::Unsized(hole) => from_ref(hole),
        }
    }
}

/// The place after contents that stand one after another, None past the machine's words.
pub fn end_of(machine: Machine, start: u32, contents: &[Content]) -> Option<u32>
    requires start { start ≤ 60 * limit machine }
    requires each { All IsContent contents.now }
    ensures { result ≡ (if nat_lt (60 * limit machine) (end_of machine start contents.now) then None else Some (end_of machine start contents.now)) }
{
    let mut at = start;
    for content in contents {
        at = behind(machine, at, content.width());
        if at > WORD * limit_of(machine) {
            return None;
        }
    }
    Some(at)
}

/// Where the bits of a statement begin: the bits before it in its block, and what fills those that are skipped.
#[derive(Clone, Copy)]
pub struct Begun {
    pub start: u32,
    pub filling: Option<Piece>,
}

/// What a row shows beside codes.
#[derive(Clone, Copy, PartialEq, Eq)]
pub enum Shown {
    Nothing,
    /// EQU, `=` and SET: the value of the operand.
    Value(Value),
    /// ORG: the address of the next word.
    Address(Value),
    /// BSS and BSSZ: the address of the word where the statement starts.
    Start,
}

/// A symbol that an expression of the statement reads, and the value that SET had given it by then.
#[derive(Clone, Copy, PartialEq, Eq)]
pub struct SetValue {
    pub name: Name,
    pub value: Value,
}

/// What a statement made beside its flags, as it is kept.
#[derive(Drop)]
enum Making {
    /// It names the program.
    Naming(Name),
    /// It leaves bits of a block, if it fills some, and perhaps shows something.
    Leaving {
        machine: Machine,
        filling: Option<Piece>,
        shown: Shown,
    },
    /// It reserves words, or makes so many words of zeros.
    Reserving {
        machine: Machine,
        start: u32,
        zeros: u32,
        filling: Option<Piece>,
    },
    /// It has contents.
    Placing {
        machine: Machine,
        only_flags: bool,
        start: u32,
        filling: Option<Piece>,
        contents: Contents,
        held: Vec<SetValue>,
    },
}

/// What a statement made, for pass two.
#[derive(Drop)]
pub struct Made {
    flags: Flags,
    making: Making,
}

impl Model for Made {
    ghost use Rattle.std.specs.Prelude.{◌≡◌, All, false};
    ghost use Rattle.cps_state.specs.Made.{Made, IsContent, IsHeld, HaveRoom};
    ghost use Rattle.cps_state.specs.Code.MadeKept.{made_in};

    ghost Value = { Made };

    ghost view = { λ made. made_in made.flags made.making };

    ghost invariant = { λ made. let seen = made_in made.flags made.making in
        All IsContent seen.contents × All IsHeld seen.held × (seen.only_flags ≡ false → HaveRoom seen.machine seen.start seen.contents) };
}

impl Made {
    /// Of a statement that does nothing but have flags.
    #[inline(always)]
    pub fn nothing(flags: Flags) -> Made
        ensures { result ≡ nothing_made flags }
    {
        Made {
            flags,
            making: Making::Leaving {
                machine: Machine::Cp,
                filling: None,
                shown: Shown::Nothing,
            },
        }
    }

    /// Of a statement that names the program.
    #[inline(always)]
    pub fn naming(flags: Flags, name: Name) -> Made
        ensures { result ≡ record (nothing_made flags) { program = Some name } }
    {
        Made {
            flags,
            making: Making::Naming(name),
        }
    }

    /// Of a statement whose row shows something.
    #[inline(always)]
    pub fn showing(flags: Flags, shown: Shown) -> Made
        ensures { result ≡ record (nothing_made flags) { shown = shown } }
    {
        Made::leaving(flags, Machine::Cp, None, shown)
    }

    /// Of a statement that leaves bits of a block, and perhaps shows something.
    #[inline(always)]
    pub fn leaving(flags: Flags, machine: Machine, filling: Option<Piece>, shown: Shown) -> Made
        ensures { result ≡ record (nothing_made flags) { machine = machine; filling = option_to_list (option_map piece_of filling); shown = shown } }
    {
        Made {
            flags,
            making: Making::Leaving {
                machine,
                filling,
                shown,
            },
        }
    }

    /// Of a statement that reserves words, or that makes so many words of zeros.
    #[inline(always)]
    pub fn reserving(flags: Flags, machine: Machine, begun: Begun, zeros: u32) -> Made
        requires word { begun.start % 60 < bits_of machine }
        requires within { begun.start ≤ 60 * limit machine }
        ensures { result ≡ record (nothing_made flags) { machine = machine; filling = option_to_list (option_map piece_of begun.filling); start = begun.start; zeros = zeros; shown = Shown.Start } }
    {
        Made {
            flags,
            making: Making::Reserving {
                machine,
                start: begun.start,
                zeros,
                filling: begun.filling,
            },
        }
    }

    /// Of a statement with contents.
    #[inline(always)]
    pub fn placing(
        flags: Flags,
        machine: Machine,
        begun: Begun,
        contents: Contents,
        held: Vec<SetValue>,
    ) -> Made
        requires each { All IsContent contents }
        requires held { All IsHeld held.items }
        requires room { HaveRoom machine begun.start contents }
        ensures { result ≡ record (nothing_made flags) { machine = machine; filling = option_to_list (option_map piece_of begun.filling); start = begun.start; contents = contents; held = held.items } }
    {
        Made {
            flags,
            making: Making::Placing {
                machine,
                only_flags: false,
                start: begun.start,
                filling: begun.filling,
                contents,
                held,
            },
        }
    }

    /// Of a statement that makes nothing, with contents that give flags.
    #[inline(always)]
    pub fn flagging(
        flags: Flags,
        machine: Machine,
        begun: Begun,
        contents: Contents,
        held: Vec<SetValue>,
    ) -> Made
        requires each { All IsContent contents }
        requires held { All IsHeld held.items }
        ensures { result ≡ record (nothing_made flags) { machine = machine; filling = option_to_list (option_map piece_of begun.filling); start = begun.start; contents = contents; only_flags = true; held = held.items } }
    {
        Made {
            flags,
            making: Making::Placing {
                machine,
                only_flags: true,
                start: begun.start,
                filling: begun.filling,
                contents,
                held,
            },
        }
    }

    /// More flags.
    pub fn mark(&mut self, flags: Flags)
        ensures { self.new ≡ record self.old { flags = joined self.old.flags flags } }
    {
        self.flags = self.flags.joined(flags);
    }

    /// The flags of pass one.
    pub fn flags(&self) -> Flags
        ensures { result ≡ self.now.flags }
    {
        self.flags
    }

    /// The program's name, where the statement gives it.
    pub fn program(&self) -> Option<Name>
        ensures { result ≡ self.now.program }
    {
        match &self.making {
            Making::Naming(name) => Some(*name),
            _ => None,
        }
    }

    /// The machine whose words the bits are.
    pub fn machine(&self) -> Machine
        ensures { result ≡ self.now.machine }
    {
        match &self.making {
            Making::Naming(_) => Machine::Cp,
            Making::Leaving { machine, .. }
            | Making::Reserving { machine, .. }
            | Making::Placing { machine, .. } => *machine,
        }
    }

    /// What fills the bits that were skipped.
    pub fn filling(&self) -> Option<Piece>
        ensures { option_to_list (option_map piece_of result) ≡ self.now.filling }
    {
        match &self.making {
            Making::Naming(_) => None,
            Making::Leaving { filling, .. }
            | Making::Reserving { filling, .. }
            | Making::Placing { filling, .. } => *filling,
        }
    }

    /// Where the statement starts: the bits before it in its block.
    pub fn start(&self) -> u32
        ensures { result ≡ self.now.start }
    {
        match &self.making {
            Making::Reserving { start, .. } | Making::Placing { start, .. } => *start,
            _ => 0,
        }
    }

    /// The contents, in their order.
    pub fn contents(&self) -> &[Content]
        ensures contents { result.now ≡ self.now.contents }
        ensures each { All IsContent self.now.contents }
        ensures room { self.now.only_flags ≡ false → HaveRoom self.now.machine self.now.start self.now.contents }
    {
        match &self.making {
            Making::Placing { contents, .. } => contents.as_slice(),
            _ => &[],
        }
    }

    /// How many words of zeros there are from the start on.
    pub fn zeros(&self) -> u32
        ensures { result ≡ self.now.zeros }
    {
        match &self.making {
            Making::Reserving { zeros, .. } => *zeros,
            _ => 0,
        }
    }

    /// Whether the contents only give flags.
    pub fn only_flags(&self) -> bool
        ensures { result ≡ self.now.only_flags }
    {
        match &self.making {
            Making::Placing { only_flags, .. } => *only_flags,
            _ => false,
        }
    }

    /// What the row shows beside codes.
    pub fn shown(&self) -> Shown
        ensures { result ≡ self.now.shown }
    {
        match &self.making {
            Making::Leaving { shown, .. } => *shown,
            Making::Reserving { .. } => Shown::Start,
            _ => Shown::Nothing,
        }
    }

    /// The symbols that the contents read and that SET had given a value by then.
    pub fn held(&self) -> &[SetValue]
        ensures held { result.now ≡ self.now.held }
        ensures each { All IsHeld self.now.held }
    {
        match &self.making {
            Making::Placing { held, .. } => held.as_slice(),
            _ => &[],
        }
    }
}

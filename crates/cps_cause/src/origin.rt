//! Where a statement of an expansion is written.
ghost use Rattle.std.specs.Prelude.{◌≡◌, IfSome};
ghost use Rattle.cps_cause.specs.Origin as written;

use cps_state::{Key, Put, Trace};
use cps_text::Name;

/// A line of a body.
#[derive(Clone, Copy, PartialEq, Eq)]
pub struct BodyLine {
    /// How many lines of the body stand before it.
    pub before: u32,
    /// How many lines the body has.
    pub count: u32,
}

/// In which body a statement is written that comes in the expansion of a line.
#[derive(Clone, Copy, PartialEq, Eq)]
pub enum Origin {
    /// The line itself has it, or it isn't known which one has.
    Line,
    /// It is among the lines of the DUP that the line closes.
    Dup(BodyLine),
    /// It is in the body of a macro.
    Macro(Name, BodyLine),
}

impl BodyLine {
    /// So many lines further down.
    pub(crate) fn down(self, lines: u32) -> BodyLine {
        BodyLine {
            before: self.before.saturating_add(lines),
            count: self.count,
        }
    }

    /// So many lines further up.
    pub(crate) fn up(self, lines: u32) -> BodyLine {
        BodyLine {
            before: self.before.saturating_sub(lines),
            count: self.count,
        }
    }

    /// The number of the line, from 1, where the line of this number closes the body; None where the line that stands there isn't kept as it.
    fn number_above(self, closing: u32, traces: &[Trace]) -> Option<u32>
        ensures { IfSome result (λ number. written.IsBodyLine traces.now closing self number) }
    {
        let behind = self.count.checked_sub(self.before)?;
        let number = closing.checked_sub(behind)?;
        let above = number.checked_sub(1)?;
        let trace = traces.get(above as usize)?;
        if keeps(trace.puts(), self.before) {
            Some(number)
        } else {
            None
        }
    }
}

impl Origin {
    /// So many lines further down in its body.
    pub(crate) fn down(self, lines: u32) -> Origin {
        match self {
            Origin::Line => Origin::Line,
            Origin::Dup(line) => Origin::Dup(line.down(lines)),
            Origin::Macro(name, line) => Origin::Macro(name, line.down(lines)),
        }
    }

    /// So many lines further up in its body.
    pub(crate) fn up(self, lines: u32) -> Origin {
        match self {
            Origin::Line => Origin::Line,
            Origin::Dup(line) => Origin::Dup(line.up(lines)),
            Origin::Macro(name, line) => Origin::Macro(name, line.up(lines)),
        }
    }

    /// The number of the line, from 1, in which a statement is written that comes in the expansion of the line of a number, by what each line of the
    /// source does. `defined` is the number of the line above that ended the definition of the macro last. None: it isn't known.
    pub fn line_of(self, number: u32, defined: Option<u32>, traces: &[Trace]) -> Option<u32>
        ensures { IfSome result (λ line. written.IsWrittenIn traces.now number defined self line) }
    {
        match self {
            Origin::Line => None,
            Origin::Dup(line) => line.number_above(number, traces),
            Origin::Macro(_, line) => line.number_above(defined?, traces),
        }
    }
}

/// Whether a line that puts this is kept as one of a body, behind so many others.
fn keeps(puts: &[Put], before: u32) -> bool
    ensures { result ≡ written.keeps before puts.now }
{
    for put in puts {
        if put.key == Key::Kept(before) {
            return true;
        }
    }
    false
}

//! What is done with the next line of a source, as far as lines are looked at.

use cps_expr::Radix;
use cps_state::{Answer, Extent, Key, Mode, Phase, Put};
use std::alloc::AllocError;

/// What is done with a line.
#[derive(Clone, Copy, PartialEq, Eq)]
pub enum Handling {
    Assembled,
    /// So many lines are skipped.
    Skipped(u32),
    /// A range is skipped, with so many others open in it.
    SkippedInRange(u32),
    /// It is kept for a macro.
    KeptForMacro,
    /// It is kept for a DUP, up to its ENDD.
    KeptForDup,
    /// So many lines are kept for a DUP.
    KeptByCount,
}

/// What is done with the next line of a source.
#[derive(Clone, Copy)]
pub struct LineState {
    pub handling: Handling,
    /// How many ranges are open whose lines are assembled.
    ranges: usize,
    /// The base of numbers.
    pub radix: Radix,
    /// Whether END stands above.
    pub has_ended: bool,
}

impl LineState {
    /// Before the first line.
    pub fn new() -> LineState {
        LineState {
            handling: Handling::Assembled,
            ranges: 0,
            radix: Radix::Decimal,
            has_ended: false,
        }
    }

    /// How many ranges of IFs are open.
    pub fn depth(self) -> usize {
        match self.handling {
            Handling::SkippedInRange(nested) => {
                self.ranges
                    .saturating_add(nested as usize)
                    .saturating_add(1)
            }
            _ => self.ranges,
        }
    }

    /// Behind a line that puts this.
    pub fn behind(self, puts: &[Put]) -> Result<LineState, AllocError> {
        let mut state = self;
        for put in puts {
            state = state.with(put)?;
        }
        Ok(state)
    }

    fn with(self, put: &Put) -> Result<LineState, AllocError> {
        match (put.key, &put.answer) {
            (Key::Control, Answer::Control(control, mode)) => Ok(LineState {
                handling: handling_by(&mode.to_mode()?),
                ranges: self.ranges,
                radix: control.radix,
                has_ended: control.phase == Phase::AfterEnd,
            }),
            (Key::Ifs, Answer::Ifs(ranges)) => Ok(LineState {
                ranges: ranges.as_slice().len(),
                ..self
            }),
            _ => Ok(self),
        }
    }
}

fn handling_by(mode: &Mode) -> Handling {
    match mode {
        Mode::Normal => Handling::Assembled,
        Mode::SkipLines(count) => Handling::Skipped(*count),
        Mode::SkipRange(skip) => Handling::SkippedInRange(skip.nested),
        Mode::KeepMacro(_) => Handling::KeptForMacro,
        Mode::KeepDup(body) => match body.extent {
            Extent::Counted(_) => Handling::KeptByCount,
            Extent::ToEndd(_) => Handling::KeptForDup,
        },
    }
}

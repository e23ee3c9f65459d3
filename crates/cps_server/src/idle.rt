//! Lines that nothing assembles.

use crate::lead::mode_before;
use cps_cause::Card;
use cps_check::stands_behind_end;
use cps_state::{Mode, Trace};
use cps_text::Fields;
use std::alloc::AllocError;

/// Whether something assembles a line.
#[derive(Clone, Copy, PartialEq, Eq)]
pub enum Idle {
    /// It is assembled, or kept.
    Never,
    /// It is a comment, and like the lines around it.
    Comment,
    /// It is skipped.
    Skipped,
    /// It stands behind the end of the program.
    BehindEnd,
}

impl Idle {
    /// Of a line that did this.
    pub fn of(card: &Card<'_>, trace: &Trace) -> Result<Idle, AllocError> {
        if let Fields::Comment = card.fields {
            return Ok(Idle::Comment);
        }
        if stands_behind_end(trace) {
            return Ok(Idle::BehindEnd);
        }
        match mode_before(trace)? {
            Some(Mode::SkipLines(_) | Mode::SkipRange(_)) => Ok(Idle::Skipped),
            _ => Ok(Idle::Never),
        }
    }
}

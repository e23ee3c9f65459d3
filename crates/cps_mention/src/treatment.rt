//! What is done with a statement.

use cps_pass::Scope;
use cps_state::{Key, Lookup, Mode, Phase, State, control_of, mode_of};
use std::alloc::AllocError;

/// What is done with a statement.
#[derive(Clone, Copy)]
pub enum Treatment {
    Assembled,
    /// It is skipped, or stands behind END.
    Idle,
    KeptForMacro,
    /// So many lines are kept before it.
    KeptForDup(usize),
}

impl Treatment {
    /// Of the next statement in a state.
    pub fn in_state(state: &State, scope: &Scope) -> Result<Treatment, AllocError> {
        let answer = state.ask(&Key::Control);
        if control_of(answer).phase == Phase::AfterEnd {
            return Ok(Treatment::Idle);
        }
        match scope {
            Scope::Source => Ok(Treatment::under(&mode_of(answer)?)),
            Scope::Expansion(own) => Ok(Treatment::under(own.mode())),
        }
    }

    /// In a mode.
    fn under(mode: &Mode) -> Treatment {
        match mode {
            Mode::Normal => Treatment::Assembled,
            Mode::SkipLines(_) | Mode::SkipRange(_) => Treatment::Idle,
            Mode::KeepMacro(_) => Treatment::KeptForMacro,
            Mode::KeepDup(body) => Treatment::KeptForDup(body.kept.lines as usize),
        }
    }

    /// How many lines of an expansion are kept for DUP before its next statement.
    pub fn count_kept(scope: &Scope) -> usize {
        match scope {
            Scope::Source => 0,
            Scope::Expansion(own) => match Treatment::under(own.mode()) {
                Treatment::KeptForDup(count) => count,
                _ => 0,
            },
        }
    }
}

//! What is done with the lines to come, as it is kept in an answer.
ghost use Rattle.std.specs.Prelude.{◌≡◌, IfOk};
ghost use Rattle.cps_state.specs.Keys.{is_normal};
ghost use Rattle.cps_state.specs.declared.key.Mode.TheVariants.{Normal};

use crate::answers::is_normal;
use crate::key::Mode;
use std::alloc::{AllocError, Global};
use std::cmp::PartialEq;
use std::marker::Model;
use std::rc::Rc;

/// A mode that is shared and not changed. Most lines are assembled, and theirs takes no memory.
#[derive(Drop)]
pub struct SharedMode {
    /// None: the lines are assembled.
    mode: Option<Rc<Mode>>,
}

impl Model for SharedMode {
    ghost use Rattle.std.specs.Prelude.{option_map, unwrap_or};
    ghost use Rattle.cps_state.specs.declared.key.Mode.{Mode};
    ghost use Rattle.cps_state.specs.declared.key.Mode.TheVariants.{Normal};

    ghost Value = { Mode };

    ghost view = { λ shared. unwrap_or (option_map (λ rc. rc.value) shared.mode) Normal };
}

impl PartialEq for SharedMode {
    ghost use Rattle.cps_state.specs.contracts.key.ModePartialEq.TheImpl.Laws as mode_laws;

    ghost eq = { ⟦<Mode as PartialEq>⟧.eq };

    ghost laws = { mode_laws.laws-law };

    fn eq(&self, other: &SharedMode) -> bool {
        match (&self.mode, &other.mode) {
            (Some(mode), Some(other)) => mode.as_ref() == other.as_ref(),
            (Some(mode), None) => *mode.as_ref() == Mode::Normal,
            (None, Some(other)) => Mode::Normal == *other.as_ref(),
            (None, None) => true,
        }
    }
}

impl Eq for SharedMode {
    ghost use Rattle.cps_state.specs.contracts.key.ModeEq.TheImpl.Laws as mode_laws;

    ghost laws = { mode_laws.laws-law };
}

impl SharedMode {
    /// The lines are assembled. Takes no memory.
    pub fn normal() -> SharedMode
        ensures { result ≡ Normal }
    {
        SharedMode { mode: None }
    }

    /// The mode. It takes memory where the lines aren't assembled.
    pub fn new(alloc: Global, mode: Mode) -> Result<SharedMode, AllocError>
        ensures { IfOk result (λ shared. shared ≡ mode) }
    {
        if let Mode::Normal = mode {
            return Ok(SharedMode::normal());
        }
        let mode = Rc::new(alloc, mode)?;
        Ok(SharedMode { mode: Some(mode) })
    }

    /// A mode of one's own. Takes no memory; it is refused only past the most owners of what is shared.
    pub fn to_mode(&self) -> Result<Mode, AllocError>
        ensures { IfOk result (λ mode. mode ≡ self.now) }
    {
        match &self.mode {
            Some(mode) => mode.as_ref().share(),
            None => Ok(Mode::Normal),
        }
    }

    /// Whether the lines are assembled.
    pub fn is_normal(&self) -> bool
        ensures { result ≡ is_normal self.now }
    {
        match &self.mode {
            Some(mode) => is_normal(mode.as_ref()),
            None => true,
        }
    }

    /// The same mode once more. Takes no memory; it is refused only past the most owners of what is shared.
    pub fn share(&self) -> Result<SharedMode, AllocError>
        ensures { IfOk result (λ same. same ≡ self.now) }
    {
        match &self.mode {
            Some(mode) => {
                let mode = mode.clone()?;
                Ok(SharedMode { mode: Some(mode) })
            }
            None => Ok(SharedMode::normal()),
        }
    }
}

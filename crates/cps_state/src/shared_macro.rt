//! A macro, as it is kept in an answer.
ghost use Rattle.std.specs.Prelude.{◌≡◌, IfOk};

use crate::key::Macro;
use std::alloc::{AllocError, Global};
use std::cmp::PartialEq;
use std::marker::Model;
use std::rc::Rc;

/// A macro that is shared and not changed. So no answer is larger for the sake of macros, which are few.
#[derive(Drop)]
pub struct SharedMacro {
    named: Rc<Macro>,
}

impl Model for SharedMacro {
    ghost use Rattle.cps_state.specs.declared.key.Macro.{Macro};

    ghost Value = { Macro };

    ghost view = { λ shared. shared.named.value };
}

impl PartialEq for SharedMacro {
    ghost use Rattle.cps_state.specs.contracts.key.MacroPartialEq.TheImpl.Laws as macro_laws;

    ghost eq = { ⟦<Macro as PartialEq>⟧.eq };

    ghost laws = { macro_laws.laws-law };

    fn eq(&self, other: &SharedMacro) -> bool {
        self.named.as_ref() == other.named.as_ref()
    }
}

impl Eq for SharedMacro {
    ghost use Rattle.cps_state.specs.contracts.key.MacroEq.TheImpl.Laws as macro_laws;

    ghost laws = { macro_laws.laws-law };
}

impl SharedMacro {
    /// The macro. It takes memory.
    pub fn new(alloc: Global, named: Macro) -> Result<SharedMacro, AllocError>
        ensures { IfOk result (λ shared. shared ≡ named) }
    {
        let named = Rc::new(alloc, named)?;
        Ok(SharedMacro { named })
    }

    /// A macro of one's own. Takes no memory; it is refused only past the most owners of what is shared.
    pub fn to_macro(&self) -> Result<Macro, AllocError>
        ensures { IfOk result (λ named. named ≡ self.now) }
    {
        self.named.as_ref().share()
    }

    /// The same macro once more. Takes no memory; it is refused only past the most owners of what is shared.
    pub fn share(&self) -> Result<SharedMacro, AllocError>
        ensures { IfOk result (λ same. same ≡ self.now) }
    {
        let named = self.named.clone()?;
        Ok(SharedMacro { named })
    }
}

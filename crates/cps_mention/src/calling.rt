//! What symbols are called in a source that was changed.
ghost use Rattle.std.specs.Prelude.{◌≡◌};
ghost use Rattle.cps_mention.specs.SameBut.{called};

use cps_expr::is_same_name;
use cps_text::Name;

/// What symbols are called in a source that was changed: as before, or one of them otherwise.
#[derive(Clone, Copy)]
pub enum Calling {
    Same,
    Renamed { from: Name, to: Name },
}

impl Calling {
    /// What a symbol is called.
    pub fn called(self, name: Name) -> Name
        ensures { result ≡ called self name }
    {
        match self {
            Calling::Same => name,
            Calling::Renamed { from, to } => { if is_same_name(name, from) { to } else { name } }
        }
    }
}

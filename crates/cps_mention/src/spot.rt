//! Where a name stands.
ghost use Rattle.std.specs.Prelude.{◌≡◌};
ghost use Rattle.cps_mention.specs.Spots as spots;

use crate::mention::Mention;
use crate::role::Role;
use crate::stretch::Stretch;

/// What a line does with a name in its columns.
#[derive(Clone, Copy, PartialEq, Eq)]
pub enum SpotKind {
    Defined,
    /// It is read, called, used, or defined once more.
    Used,
    /// The assembler did nothing with it.
    Idle,
}

/// Where a name stands.
#[derive(Clone, Copy)]
pub struct Spot {
    pub stretch: Stretch,
    pub kind: SpotKind,
}

impl SpotKind {
    /// That of a mention.
    pub fn of(mention: &Mention) -> SpotKind
        ensures { result ≡ spots.spot_kind mention.now }
    {
        if mention.is_done {
            SpotKind::of_role(mention.role)
        } else {
            SpotKind::Idle
        }
    }

    pub fn is_definition(self) -> bool
        ensures { result ≡ spots.is_definition self }
    {
        match self {
            SpotKind::Defined => true,
            _ => false,
        }
    }

    fn of_role(role: Role) -> SpotKind
        ensures { result ≡ spots.done_kind role }
    {
        match role {
            Role::Defines => SpotKind::Defined,
            _ => SpotKind::Used,
        }
    }
}

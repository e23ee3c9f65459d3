//! What answers the keys that a line asks.
ghost use Rattle.std.specs.Prelude.{◌≡◌};

use crate::hashing::Hashing;
use crate::key::{Answer, Key};

/// What answers the keys that a line asks.
///
/// A caller's own lookup has `ask`, whose answers its ghost `answer` names, and `hashing`: the number by which its state hashes serves, as
/// `State::hashing` gives it. What a line does hangs on the answers alone, and on no number.
pub trait Lookup {
    ghost use Rattle.std.specs.Prelude.{◌≡◌, Option};
    ghost use Rattle.std.specs.Option.{option_copied};
    ghost use Rattle.cps_state.specs.declared.key.Key.{Key};
    ghost use Rattle.cps_state.specs.declared.key.Answer.{Answer};

    ghost answer: { Self → Key → Option Answer };

    /// What stands at a key, None where nothing does.
    fn ask(&self, key: &Key) -> Option<&Answer>
        ensures { option_copied result ≡ answer self.now key.now };

    /// How what a line asks and puts is hashed, where it is much.
    fn hashing(&self) -> Hashing;
}

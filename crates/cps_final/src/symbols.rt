//! What symbols stand for in a statement.
ghost use Rattle.std.specs.Prelude.{◌≡◌};
ghost use Rattle.cps_final.specs.Resolving.{resolved};
ghost use Rattle.cps_final.specs.Known.{values_in};

use crate::finals::Finals;
use cps_expr::{Names, Value, is_same_name};
use cps_state::SetValue;
use cps_text::Name;

/// The symbols of a statement: those that SET had given a value there, and all others by their labels.
#[derive(Clone, Copy)]
pub struct Symbols<'a> {
    pub finals: &'a Finals,
    pub held: &'a [SetValue],
}

impl Names for Symbols<'_> {
    ghost use Rattle.cps_final.specs.Resolving.{resolved};
    ghost use Rattle.cps_final.specs.Known.{values_in};

    ghost value = { λ symbols. values_in (resolved symbols.finals.now) symbols.held.now };

    #[inline(always)]
    fn value_of(&self, name: Name) -> Option<Value> {
        symbol_value(self.finals, self.held, name)
    }
}

fn symbol_value(finals: &Finals, held: &[SetValue], name: Name) -> Option<Value>
    ensures { result ≡ values_in (resolved finals.now) held.now name }
{
    for set in held {
        if is_same_name(set.name, name) {
            return finals.final_of(set.value);
        }
    }
    finals.label(name)
}

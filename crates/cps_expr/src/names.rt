ghost use Rattle.std.specs.Prelude.{◌≡◌};

use crate::value::Value;
use cps_text::Name;

/// What names stand for, when an expression is valued.
pub trait Names {
    ghost use Rattle.std.specs.Prelude.{◌≡◌, Option};
    ghost use Rattle.cps_text.specs.declared.name.Name.{Name};
    ghost use Rattle.cps_expr.specs.declared.value.Value.{Value};

    ghost value: { Self → Name → Option Value };

    /// The value of a name, None for an undefined one.
    fn value_of(&self, name: Name) -> Option<Value>
        ensures { result ≡ value self.now name };
}

//! Names that all stand for the same.

use cps_expr::{Names, Value};
use cps_text::Name;

/// Each name has this value, or is undefined.
#[derive(Clone, Copy)]
pub struct SameValue {
    pub value: Option<Value>,
}

impl Names for SameValue {
    ghost value = { λ same name. same.value };

    fn value_of(&self, _name: Name) -> Option<Value> {
        self.value
    }
}

/// No name is defined.
pub const UNDEFINED: SameValue = SameValue { value: None };

//! The operations that a macro may not have.
ghost use Rattle.std.specs.Prelude.{◌≡◌};
ghost use Rattle.cps_code.specs.Builtin.{is_builtin};

use crate::operation::is_operation;
use crate::peripheral_operation::named_operation;
use cps_expr::Operation;

/// Whether an operation is one of either machine or of the statement table. Lower-case letters stand for capitals.
pub fn is_builtin(name: &[u8]) -> bool
    ensures { result ≡ is_builtin name.now }
{
    Operation::named(name).is_some() || is_operation(name) || named_operation(name).is_some()
}

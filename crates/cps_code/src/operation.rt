ghost use Rattle.std.specs.Prelude.{◌≡◌, ◌<◌, IfSome, option_map};
ghost use Rattle.cps_code.specs.Digits.{first_digit, AreDigits};
ghost use Rattle.cps_code.specs.Rows.{named};
ghost use Rattle.cps_code.specs.Table.{instruction_named, is_operation};
ghost use Rattle.cps_code.specs.Code.Operations.{first_of, operation_values, named_value};

use super::digits::{Digits, first_and_rest, read_digits};
use super::operation_table::operations_with;
use cps_text::capital;

/// A form whose operands are registers and, after them, an expression or none; i, j and k in its texts stand for the
/// digits of registers.
#[derive(Clone, Copy)]
pub enum FieldForm {
    /// Five digits.
    Short(&'static [&'static [u8]], &'static [u8; 5]),
    /// Four digits and a constant.
    Constant(&'static [&'static [u8]], &'static [u8; 4]),
    /// The same with a forcing pending after it.
    Forcing(&'static [&'static [u8]], &'static [u8; 4]),
    /// Three digits and a count.
    Count(&'static [u8; 3]),
}

/// The forms of an operation.
#[derive(Clone, Copy)]
pub enum Forms {
    /// NO
    Pass,
    /// PS
    Stop,
    SetA,
    SetB,
    SetX,
    /// JP
    Jump,
    Fields(&'static [FieldForm]),
}

/// The operation that a name stands for, with the digits of the name.
pub fn named_operation(name: &[u8]) -> Option<(Forms, Digits)>
    ensures operation { instruction_named name.now ≡ option_map named_value result }
    ensures octal { IfSome result (λ found. AreDigits found.1) }
{
    match first_and_rest(name) {
        None => None,
        Some((first, _rest)) => find_operation(operations_with(capital(first)), name),
    }
}

/// Whether the central processor has an operation.
pub fn is_operation(name: &[u8]) -> bool
    ensures { result ≡ is_operation name.now }
{
    named_operation(name).is_some()
}

fn find_operation(
    operations: &'static [(&'static [u8], Forms)],
    name: &[u8],
) -> Option<(Forms, Digits)>
    ensures operation { named (operation_values operations.now) name.now ≡ option_map named_value result }
    ensures octal { IfSome result (λ found. AreDigits found.1) }
{
    for (letters, forms) in operations {
        if let Some(digits) = read_digits(letters, name, first_digits(*forms)) {
            return Some((*forms, digits));
        }
    }
    None
}

fn first_digits(forms: Forms) -> Digits
    ensures digits { result ≡ first_digit (first_of forms) }
    ensures octal { AreDigits result }
{
    let f = match forms {
        Forms::SetA => 5,
        Forms::SetB => 6,
        Forms::SetX => 7,
        Forms::Pass | Forms::Stop | Forms::Jump | Forms::Fields(_) => 0,
    };
    Digits {
        f,
        i: 0,
        j: 0,
        k: 0,
    }
}

//! The fields of VFD.
ghost use Rattle.std.specs.Prelude.{◌≡◌, ◌<◌, length, IfSome, Option, option_map};
ghost use Rattle.std.specs.List.{position};
ghost use Rattle.cps_expr.specs.Expression.{Expression};
ghost use Rattle.cps_expr.specs.OperandList.{paired};
ghost use Rattle.cps_expr.specs.Reads.{Reads};
ghost use Rattle.cps_expr.specs.Row.{field_of, is_slash};

use crate::expr::{Expr, ExprFault};
use crate::pseudo::Field;
use crate::radix::Radix;
use crate::reads::{ListOperand, paired, read_expression};
use std::alloc::Global;

impl ListOperand for Field {
    ghost written = { field_of };

    fn read_operand(alloc: Global, text: &[u8], radix: Radix) -> Result<Field, ExprFault> {
        read_field(alloc, text, radix)
    }
}

/// A width and a value, parted at the first `/`.
#[tactic(auto, unfolding(crate::specs::Row::field_of))]
fn read_field(alloc: Global, text: &[u8], radix: Radix) -> Result<Field, ExprFault>
    ensures { Reads result (field_of radix text.now) }
{
    let Some(at) = slash_at(text) else {
        return Err(ExprFault::Unreadable);
    };
    field(paired(
        read_expression(alloc, &text[..at], radix),
        read_expression(alloc, &text[at + 1..], radix),
    ))
}

fn field(parts: Result<(Expr, Expr), ExprFault>) -> Result<Field, ExprFault>
    ensures { (written : Option (Expression × Expression)) → Reads parts written
        → Reads result (option_map (λ parts. record { width = parts.0; value = parts.1 }) written) }
{
    let (width, value) = parts?;
    Ok(Field { width, value })
}

fn slash_at(text: &[u8]) -> Option<usize>
    ensures place { result ≡ position is_slash text.now }
    ensures within { IfSome result (λ at. at < length text.now) }
{
    text.iter().position(|byte| *byte == b'/')
}

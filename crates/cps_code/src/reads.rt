//! Readings of operands that may be literals.
ghost use Rattle.std.specs.Prelude.{IfOk};
ghost use Rattle.cps_text.specs.Operands.{operands_of};
ghost use Rattle.cps_expr.specs.declared.machine.Machine.TheVariants.{Pp};
ghost use Rattle.cps_expr.specs.OperandList.{only_one};
ghost use Rattle.cps_expr.specs.Reads.{Reads};
ghost use Rattle.cps_code.specs.Operand.{IsOperand, operand_of};
ghost use Rattle.cps_code.specs.PeripheralForms.{memory_of};

use crate::hole::Operand;
use crate::literal::read_operand;
use cps_expr::{Expr, ExprFault, Machine, Radix, paired, read_last};
use cps_text::operands;
use std::alloc::Global;

/// The only operand, an expression or a literal.
pub fn read_constant(alloc: Global, tail: &[u8], radix: Radix) -> Result<Operand, ExprFault>
    ensures constant { Reads result (only_one (operand_of Pp radix) (operands_of tail.now)) }
    ensures fits { IfOk result (IsOperand Pp) }
{
    let mut operands = operands(tail);
    let Some(operand) = operands.next() else {
        return Err(ExprFault::Unreadable);
    };
    if operands.next().is_some() {
        return Err(ExprFault::Unreadable);
    }
    read_operand(alloc, operand, radix, Machine::Pp)
}

/// The first operand, an expression or a literal, and the second one, if there is one, as an expression.
pub fn read_memory(
    alloc: Global,
    tail: &[u8],
    radix: Radix,
) -> Result<(Operand, Option<Expr>), ExprFault>
    ensures memory { Reads result (memory_of radix (operands_of tail.now)) }
    ensures fits { IfOk result (λ found. IsOperand Pp found.0) }
{
    let mut operands = operands(tail);
    let Some(operand) = operands.next() else {
        return Err(ExprFault::Unreadable);
    };
    paired(
        read_operand(alloc, operand, radix, Machine::Pp),
        read_last(alloc, operands, radix),
    )
}

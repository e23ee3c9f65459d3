//! Readings of operands. A reading of several goes on to the end where memory is refused, so that its fault is exact.
ghost use Rattle.std.specs.Prelude.{[], List, Option, option_map};
ghost use Rattle.cps_text.specs.Operands.{operands_of};
ghost use Rattle.cps_text.specs.Code.OperandsLeft.{operands_left};
ghost use Rattle.cps_expr.specs.Expression.{expression_of};
ghost use Rattle.cps_expr.specs.OperandList.{paired, all_some, one_or_more, only_one, at_most_one};
ghost use Rattle.cps_expr.specs.Reads.{Reads};
ghost use Rattle.cps_expr.specs.Code.ReadSoFar.{Continues, IsAdded};

use crate::expr::{Expr, ExprFault};
use crate::radix::Radix;
use crate::sequence::Sequence;
use cps_text::{Operands, operands};
use std::alloc::Global;

/// What an operand of a list is read as.
pub(crate) trait ListOperand: Drop {
    ghost use Rattle.std.specs.Prelude.{ℕ, List, Option};
    ghost use Rattle.cps_expr.specs.declared.radix.Radix.{Radix};
    ghost use Rattle.cps_expr.specs.Reads.{Reads};

    ghost written: { Radix → List ℕ → Option Self };

    fn read_operand(alloc: Global, text: &[u8], radix: Radix) -> Result<Self, ExprFault>
        ensures { Reads result (written radix text.now) };
}

impl ListOperand for Expr {
    ghost written = { expression_of };

    fn read_operand(alloc: Global, text: &[u8], radix: Radix) -> Result<Expr, ExprFault> {
        read_expression(alloc, text, radix)
    }
}

/// A text as an expression; numbers with no letter go by the radix.
#[inline(always)]
pub fn read_expression(alloc: Global, text: &[u8], radix: Radix) -> Result<Expr, ExprFault>
    ensures { Reads result (expression_of radix text.now) }
{
    match Expr::read(alloc, text, radix) {
        Ok(expression) => Ok(expression),
        Err(ExprFault::Unreadable) => Err(ExprFault::Unreadable),
        Err(ExprFault::Memory) => Err(ExprFault::Memory),
    }
}

/// Two readings as one. Where one is unreadable, so are both, also if memory was refused for the other.
#[inline(always)]
pub fn paired<T: Drop, U: Drop>(
    first: Result<T, ExprFault>,
    second: Result<U, ExprFault>,
) -> Result<(T, U), ExprFault>
    ensures { (x : Option T) (y : Option U) → Reads first x → Reads second y → Reads result (paired x y) }
{
    match (first, second) {
        (Ok(first), Ok(second)) => Ok((first, second)),
        (Err(ExprFault::Unreadable), _) => Err(ExprFault::Unreadable),
        (_, Err(ExprFault::Unreadable)) => Err(ExprFault::Unreadable),
        _ => Err(ExprFault::Memory),
    }
}

/// All operands.
pub(crate) fn read_all<T: ListOperand>(
    alloc: Global,
    tail: &[u8],
    radix: Radix,
) -> Result<Sequence<T>, ExprFault>
    ensures { Reads result (all_some (T.written radix) (operands_of tail.now)) }
{
    let mut kept = Some(Vec::new(alloc));
    for operand in operands(tail) {
        match T::read_operand(alloc, operand, radix) {
            Ok(value) => keep(&mut kept, value),
            Err(ExprFault::Memory) => kept = None,
            Err(ExprFault::Unreadable) => return Err(ExprFault::Unreadable),
        }
    }
    kept_items(kept)
}

/// What was kept to the end.
pub(crate) fn kept_items<T: Drop>(kept: Option<Vec<T>>) -> Result<Sequence<T>, ExprFault>
    ensures { (whole : Option (List T)) → Continues (option_map (λ list. list.items) kept) (Some []) whole → Reads result whole }
{
    match kept {
        Some(items) => Ok(Sequence::new(items)),
        None => Err(ExprFault::Memory),
    }
}

/// Adds an item at the end, or gives the list up where memory is refused.
pub(crate) fn keep<T: Drop>(kept: &mut Option<Vec<T>>, value: T)
    ensures { IsAdded (option_map (λ list. list.items) kept.old) value (option_map (λ list. list.items) kept.new) }
{
    if let Some(items) = kept {
        if items.push(value).is_ok() {
            return;
        }
    }
    *kept = None;
}

/// All operands, of which there must be one.
pub(crate) fn read_some<T: ListOperand>(
    alloc: Global,
    tail: &[u8],
    radix: Radix,
) -> Result<Sequence<T>, ExprFault>
    ensures { Reads result (one_or_more (T.written radix) (operands_of tail.now)) }
{
    if operands(tail).next().is_none() {
        return Err(ExprFault::Unreadable);
    }
    read_all(alloc, tail, radix)
}

/// The only operand as an expression.
pub fn read_only(alloc: Global, tail: &[u8], radix: Radix) -> Result<Expr, ExprFault>
    ensures { Reads result (only_one (expression_of radix) (operands_of tail.now)) }
{
    let mut operands = operands(tail);
    let Some(operand) = operands.next() else {
        return Err(ExprFault::Unreadable);
    };
    if operands.next().is_some() {
        return Err(ExprFault::Unreadable);
    }
    read_expression(alloc, operand, radix)
}

/// The operand that is left as an expression, if there is one.
pub fn read_last(
    alloc: Global,
    mut operands: Operands<'_>,
    radix: Radix,
) -> Result<Option<Expr>, ExprFault>
    ensures { Reads result (at_most_one (expression_of radix) (operands_left operands.entry)) }
{
    let Some(operand) = operands.next() else {
        return Ok(None);
    };
    if operands.next().is_some() {
        return Err(ExprFault::Unreadable);
    }
    match read_expression(alloc, operand, radix) {
        Ok(expression) => Ok(Some(expression)),
        Err(fault) => Err(fault),
    }
}

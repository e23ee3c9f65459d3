//! Operands of conditions and repetitions.
ghost use Rattle.std.specs.Prelude.{◌≡◌, Option, option_map};
ghost use Rattle.cps_text.specs.Operands.{operands_of};
ghost use Rattle.cps_expr.specs.Expression.{Expression, expression_of};
ghost use Rattle.cps_expr.specs.OperandList.{paired};
ghost use Rattle.cps_expr.specs.Reads.{Reads};
ghost use Rattle.cps_expr.specs.Row.{is_defined_of, comparison_of, symbol_test_of, repetition_of};

use crate::expr::{Expr, ExprFault};
use crate::operation::Relation;
use crate::pseudo::{Repetition, SymbolTest, ValueTest};
use crate::radix::Radix;
use crate::reads::{paired, read_expression, read_last};
use crate::text::is_same;
use cps_text::{Name, operands};
use std::alloc::Global;

/// Two expressions, and perhaps the number of lines.
#[tactic(auto, unfolding(crate::specs::Row::comparison_of))]
pub(crate) fn read_comparison(
    alloc: Global,
    tail: &[u8],
    radix: Radix,
    relation: Relation,
) -> Result<ValueTest, ExprFault>
    ensures { Reads result (comparison_of radix relation (operands_of tail.now)) }
{
    let mut operands = operands(tail);
    let Some(left) = operands.next() else {
        return Err(ExprFault::Unreadable);
    };
    let Some(right) = operands.next() else {
        return Err(ExprFault::Unreadable);
    };
    comparison(
        relation,
        paired(
            read_sides(alloc, left, right, radix),
            read_last(alloc, operands, radix),
        ),
    )
}

fn comparison(
    relation: Relation,
    parts: Result<((Expr, Expr), Option<Expr>), ExprFault>,
) -> Result<ValueTest, ExprFault>
    ensures { (written : Option ((Expression × Expression) × Option Expression)) → Reads parts written
        → Reads result (option_map (λ parts. record { relation = relation; left = parts.0.0; right = parts.0.1; lines = parts.1 }) written) }
{
    let ((left, right), lines) = parts?;
    Ok(ValueTest {
        relation,
        left,
        right,
        lines,
    })
}

fn read_sides(
    alloc: Global,
    left: &[u8],
    right: &[u8],
    radix: Radix,
) -> Result<(Expr, Expr), ExprFault>
    ensures { Reads result (paired (expression_of radix left.now) (expression_of radix right.now)) }
{
    paired(
        read_expression(alloc, left, radix),
        read_expression(alloc, right, radix),
    )
}

/// DEF or -DEF, a symbol, and perhaps the number of lines.
#[tactic(auto, unfolding(crate::specs::Row::symbol_test_of))]
pub(crate) fn read_symbol_test(
    alloc: Global,
    tail: &[u8],
    radix: Radix,
) -> Result<SymbolTest, ExprFault>
    ensures { Reads result (symbol_test_of radix (operands_of tail.now)) }
{
    let mut operands = operands(tail);
    let Some(test) = operands.next() else {
        return Err(ExprFault::Unreadable);
    };
    let Some(symbol) = operands.next() else {
        return Err(ExprFault::Unreadable);
    };
    let Some(is_defined) = read_is_defined(test) else {
        return Err(ExprFault::Unreadable);
    };
    let Some(symbol) = Name::read(symbol) else {
        return Err(ExprFault::Unreadable);
    };
    let lines = read_last(alloc, operands, radix)?;
    Ok(SymbolTest {
        is_defined,
        symbol,
        lines,
    })
}

fn read_is_defined(text: &[u8]) -> Option<bool>
    ensures { result ≡ is_defined_of text.now }
{
    if is_same(text, b"DEF") {
        Some(true)
    } else if is_same(text, b"-DEF") {
        Some(false)
    } else {
        None
    }
}

/// How often, and perhaps the number of lines.
#[tactic(auto, unfolding(crate::specs::Row::repetition_of))]
pub(crate) fn read_repetition(
    alloc: Global,
    tail: &[u8],
    radix: Radix,
) -> Result<Repetition, ExprFault>
    ensures { Reads result (repetition_of radix (operands_of tail.now)) }
{
    let mut operands = operands(tail);
    let Some(count) = operands.next() else {
        return Err(ExprFault::Unreadable);
    };
    repetition(paired(
        read_expression(alloc, count, radix),
        read_last(alloc, operands, radix),
    ))
}

fn repetition(parts: Result<(Expr, Option<Expr>), ExprFault>) -> Result<Repetition, ExprFault>
    ensures { (written : Option (Expression × Option Expression)) → Reads parts written
        → Reads result (option_map (λ parts. record { count = parts.0; lines = parts.1 }) written) }
{
    let (count, lines) = parts?;
    Ok(Repetition { count, lines })
}

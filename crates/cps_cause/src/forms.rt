//! Operands of instructions that can't be read: A.

use crate::cause::Cause;
use crate::expressions::{find_expression, is_expression, is_register};
use crate::findings::Findings;
use crate::letter::Letter;
use crate::operand_fault::OperandFault;
use crate::operands::{PlacedText, columns_from, element, list_operands};
use crate::statement::FlaggedStatement;
use crate::unreadable::find_count;
use cps_code::{FormFault, pp_form, read_operand};
use cps_expr::{ExprFault, Machine, Radix};
use std::alloc::{AllocError, Global};

/// What is wrong with the operands of an instruction of the central processor.
pub fn find_central(
    alloc: Global,
    findings: &mut Findings,
    statement: &FlaggedStatement<'_>,
) -> Result<(), AllocError> {
    let operands = list_operands(alloc, &statement.card)?;
    let radix = statement.control.radix;
    if operands.is_empty() {
        return find_count(findings, &statement.card, &operands, 1, 1);
    }
    for operand in &operands {
        if is_literal(operand) {
            if !is_operand(alloc, operand, radix, Machine::Cp)? {
                return findings.add(Cause::Operand(OperandFault::Literal), operand.columns());
            }
        } else {
            find_elements(alloc, findings, operand, radix)?;
        }
        if findings.has_cause(Letter::A) {
            return Ok(());
        }
    }
    match columns_from(&operands, 0) {
        Some(columns) => findings.add(Cause::Operand(OperandFault::Form), columns),
        None => Ok(()),
    }
}

fn is_literal(operand: &PlacedText<'_>) -> bool {
    operand.text.first().copied() == Some(b'=')
}

/// Whether a text is a literal of the machine, or an expression.
fn is_operand(
    alloc: Global,
    operand: &PlacedText<'_>,
    radix: Radix,
    machine: Machine,
) -> Result<bool, AllocError> {
    match read_operand(alloc, operand.text, radix, machine) {
        Ok(_) => Ok(true),
        Err(ExprFault::Unreadable) => Ok(false),
        Err(ExprFault::Memory) => Err(AllocError),
    }
}

/// What is wrong with an operand whose elements are registers and parts of an expression: the first element that is neither; where each is
/// one, and there is no register, what makes all of it no expression.
fn find_elements(
    alloc: Global,
    findings: &mut Findings,
    operand: &PlacedText<'_>,
    radix: Radix,
) -> Result<(), AllocError> {
    let mut from: usize = 0;
    let mut has_register = false;
    for _turn in 0..operand.text.len() {
        let at = element(operand, from);
        if is_register(at.text) {
            has_register = true;
        } else if !at.text.is_empty() && !is_expression(alloc, at.text, radix)? {
            return find_expression(alloc, findings, &at, radix);
        }
        from = from.saturating_add(at.text.len()).saturating_add(1);
    }
    if has_register {
        return Ok(());
    }
    find_expression(alloc, findings, operand, radix)
}

/// What is wrong with the operands of an instruction of a peripheral processor.
pub fn find_peripheral(
    alloc: Global,
    findings: &mut Findings,
    statement: &FlaggedStatement<'_>,
) -> Result<(), AllocError> {
    let operands = list_operands(alloc, &statement.card)?;
    let radix = statement.control.radix;
    let operation = statement.card.operation_text();
    let most = if takes(alloc, operation, b"1,1")? {
        2
    } else {
        1
    };
    find_count(findings, &statement.card, &operands, 1, most)?;
    let takes_literal = takes(alloc, operation, b"=1")?;
    for (at, operand) in operands.iter().enumerate() {
        if !is_literal(operand) {
            find_expression(alloc, findings, operand, radix)?;
        } else if at > 0 || !takes_literal || !is_operand(alloc, operand, radix, Machine::Pp)? {
            findings.add(Cause::Operand(OperandFault::Literal), operand.columns())?;
        }
    }
    Ok(())
}

/// Whether an instruction of a peripheral processor takes operands like these.
fn takes(alloc: Global, operation: &[u8], tail: &[u8]) -> Result<bool, AllocError> {
    match pp_form(alloc, operation, tail, Radix::Decimal) {
        Ok(_) => Ok(true),
        Err(FormFault::Memory) => Err(AllocError),
        Err(_) => Ok(false),
    }
}

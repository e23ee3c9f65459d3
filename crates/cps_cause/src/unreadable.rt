//! Operands of the statement table that can't be read: A.

use crate::card::Card;
use crate::cause::Cause;
use crate::characters::find_dis;
use crate::expressions::find_expression;
use crate::findings::Findings;
use crate::items::find_items;
use crate::operand_fault::OperandFault;
use crate::operands::{PlacedText, columns_from, list_operands};
use crate::statement::FlaggedStatement;
use cps_expr::{Operation, Radix, is_same_name};
use cps_text::Name;
use std::alloc::{AllocError, Global};

/// No operation has as many operands.
pub const MANY: usize = 100;

/// What is wrong with the operands of an operation that can't be read.
pub fn find_unreadable(
    alloc: Global,
    findings: &mut Findings,
    statement: &FlaggedStatement<'_>,
    operation: Operation,
) -> Result<(), AllocError> {
    let operands = list_operands(alloc, &statement.card)?;
    let radix = statement.control.radix;
    let (least, most) = count_of(operation);
    find_count(findings, &statement.card, &operands, least, most)?;
    match operation {
        Operation::Ident => find_name(findings, operands.first()),
        Operation::Base => find_fault(findings, operands.first(), OperandFault::Base),
        Operation::Use => find_block(findings, &operands),
        Operation::Data => find_items(findings, statement),
        Operation::Vfd => find_fields(alloc, findings, &operands, radix),
        Operation::Dis => find_dis(alloc, findings, statement),
        Operation::If => find_symbol_test(alloc, findings, &operands, radix),
        Operation::Macro | Operation::Local => find_parameters(findings, &operands, &[]),
        _ => find_expressions(alloc, findings, &operands, radix),
    }
}

/// How many operands an operation has at least, and at most.
fn count_of(operation: Operation) -> (usize, usize) {
    match operation {
        Operation::Equate | Operation::Set | Operation::Org | Operation::Bss | Operation::Bssz => (
            1, 1,
        ),
        Operation::Compare(_) | Operation::If => (2, 3),
        Operation::Dup => (1, 2),
        Operation::Use | Operation::Macro => (0, MANY),
        _ => (1, MANY),
    }
}

/// Too few operands, or too many.
pub fn find_count(
    findings: &mut Findings,
    card: &Card<'_>,
    operands: &[PlacedText<'_>],
    least: usize,
    most: usize,
) -> Result<(), AllocError> {
    if operands.len() < least {
        let columns = match operands.last() {
            Some(last) => last.columns(),
            None => card.operation_or_all(),
        };
        return findings.add(Cause::Operand(OperandFault::Missing), columns);
    }
    match columns_from(operands, most) {
        Some(columns) => findings.add(Cause::Operand(OperandFault::TooMany), columns),
        None => Ok(()),
    }
}

fn find_fault(
    findings: &mut Findings,
    operand: Option<&PlacedText<'_>>,
    fault: OperandFault,
) -> Result<(), AllocError> {
    match operand {
        Some(operand) => findings.add(Cause::Operand(fault), operand.columns()),
        None => Ok(()),
    }
}

/// An operand that should be a symbol.
fn find_name(findings: &mut Findings, operand: Option<&PlacedText<'_>>) -> Result<(), AllocError> {
    match operand {
        Some(operand) if Name::read(operand.text).is_none() => {
            find_fault(findings, Some(operand), OperandFault::NoName)
        }
        _ => Ok(()),
    }
}

/// The operand of USE: the second one, if there is one.
fn find_block(findings: &mut Findings, operands: &[PlacedText<'_>]) -> Result<(), AllocError> {
    match columns_from(operands, 1) {
        Some(columns) => findings.add(Cause::Operand(OperandFault::Block), columns),
        None => find_fault(findings, operands.first(), OperandFault::Block),
    }
}

pub fn find_expressions(
    alloc: Global,
    findings: &mut Findings,
    operands: &[PlacedText<'_>],
    radix: Radix,
) -> Result<(), AllocError> {
    for operand in operands {
        find_expression(alloc, findings, operand, radix)?;
    }
    Ok(())
}

/// The fields of VFD: a width and a value, parted at the first `/`.
fn find_fields(
    alloc: Global,
    findings: &mut Findings,
    operands: &[PlacedText<'_>],
    radix: Radix,
) -> Result<(), AllocError> {
    for operand in operands {
        match operand.parted(b'/') {
            Some((width, value)) => {
                find_expression(alloc, findings, &width, radix)?;
                find_expression(alloc, findings, &value, radix)?;
            }
            None => find_fault(findings, Some(operand), OperandFault::NoSlash)?,
        }
    }
    Ok(())
}

/// IF: DEF or -DEF, a symbol, and perhaps the number of lines.
fn find_symbol_test(
    alloc: Global,
    findings: &mut Findings,
    operands: &[PlacedText<'_>],
    radix: Radix,
) -> Result<(), AllocError> {
    if let Some(test) = operands.first() {
        if !is_defined_test(test.text) {
            find_fault(findings, Some(test), OperandFault::DefinedTest)?;
        }
    }
    find_name(findings, operands.get(1))?;
    match operands.get(2) {
        Some(lines) => find_expression(alloc, findings, lines, radix),
        None => Ok(()),
    }
}

fn is_defined_test(text: &[u8]) -> bool {
    let word = match text {
        [b'-', rest @ ..] => rest,
        _ => text,
    };
    matches!(word, [b'D' | b'd', b'E' | b'e', b'F' | b'f'])
}

/// The parameters of MACRO or the names of LOCAL, with names that are taken already.
pub fn find_parameters(
    findings: &mut Findings,
    operands: &[PlacedText<'_>],
    taken: &[Name],
) -> Result<(), AllocError> {
    for (at, operand) in operands.iter().enumerate() {
        match Name::read(operand.text) {
            Some(name) if !has_equal_sign(operand.text) => {
                if is_among(taken, name) || stands_before(operands, at, name) {
                    find_fault(findings, Some(operand), OperandFault::ParameterTwice)?;
                }
            }
            _ => find_fault(findings, Some(operand), OperandFault::Parameter)?,
        }
    }
    Ok(())
}

fn has_equal_sign(text: &[u8]) -> bool {
    text.iter().any(|byte| *byte == b'=')
}

fn is_among(names: &[Name], name: Name) -> bool {
    for other in names {
        if is_same_name(*other, name) {
            return true;
        }
    }
    false
}

/// Whether a symbol is one of the first so many operands.
fn stands_before(operands: &[PlacedText<'_>], count: usize, name: Name) -> bool {
    for operand in operands.iter().take(count) {
        if let Some(other) = Name::read(operand.text) {
            if is_same_name(other, name) {
                return true;
            }
        }
    }
    false
}

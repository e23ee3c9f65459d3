//! Operands of DIS that can't be read: A.

use crate::card::filled_len;
use crate::cause::Cause;
use crate::expressions::find_expression;
use crate::findings::Findings;
use crate::operand_fault::OperandFault;
use crate::operands::PlacedText;
use crate::statement::FlaggedStatement;
use cps_text::{capital, display};
use std::alloc::{AllocError, Global};

/// What is wrong with the operands of DIS.
pub fn find_dis(
    alloc: Global,
    findings: &mut Findings,
    statement: &FlaggedStatement<'_>,
) -> Result<(), AllocError> {
    let tail = statement.card.tail();
    let part = PlacedText {
        text: &tail[..filled_len(tail).min(tail.len())],
        before: statement.card.before_tail,
        has_comma: false,
    };
    match part.parted(b',') {
        None if part.text.is_empty() => Ok(()),
        None => findings.add(Cause::Operand(OperandFault::DisComma), part.columns()),
        Some((front, behind)) if front.text.is_empty() => {
            find_delimited(findings, &front, &behind)
        }
        Some((count, text)) => {
            find_expression(alloc, findings, &count, statement.control.radix)?;
            find_undisplayed(findings, &text)
        }
    }
}

/// Characters between delimiters, behind a comma.
fn find_delimited(
    findings: &mut Findings,
    comma: &PlacedText<'_>,
    text: &PlacedText<'_>,
) -> Result<(), AllocError> {
    let Some(delimiter) = text.text.first().copied() else {
        return findings.add(Cause::Operand(OperandFault::DisDelimiter), comma.columns());
    };
    if delimiter == b' ' || display(delimiter).is_none() {
        return findings.add(Cause::Operand(OperandFault::DisDelimiter), comma.columns());
    }
    let rest = text.cut(1, text.text.len());
    match delimiter_at(rest.text, delimiter) {
        None => findings.add(Cause::Operand(OperandFault::DisOpen), text.columns()),
        Some(at) => find_undisplayed(findings, &rest.cut(0, at)),
    }
}

fn delimiter_at(text: &[u8], delimiter: u8) -> Option<usize> {
    text.iter()
        .position(|byte| capital(*byte) == capital(delimiter))
}

/// The first character that has no display code.
fn find_undisplayed(findings: &mut Findings, part: &PlacedText<'_>) -> Result<(), AllocError> {
    match part.text.iter().position(|byte| display(*byte).is_none()) {
        Some(at) => findings.add(
            Cause::Operand(OperandFault::NoDisplayCode),
            part.cut(at, 1).columns(),
        ),
        None => Ok(()),
    }
}

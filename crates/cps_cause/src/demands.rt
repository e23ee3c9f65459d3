//! Expressions that are valued as a statement is read, and what the statement takes.

use crate::operands::PlacedText;
use cps_expr::{DisText, Expr, Field, Pseudo};
use cps_text::limits::{MOST_BODY_LINES, MOST_COUNTED_LINES, MOST_COUNTED_WORDS};
use std::alloc::{AllocError, Global};

/// What a statement takes of a value.
#[derive(Clone, Copy)]
pub enum Demand {
    Any,
    /// An address in any block.
    Address,
    /// A number of words.
    Words,
    /// A number from one to another.
    Between(u32, u32),
    /// How often lines are repeated.
    Times,
    /// The bits of a field.
    Width,
}

/// An expression that is valued as its statement is read, and where it stands.
#[derive(Clone, Copy)]
pub struct DemandedValue<'a> {
    pub expression: &'a Expr,
    pub part: PlacedText<'a>,
    pub demand: Demand,
}

/// What a statement values as it is read, in the order of its operands.
pub fn list_demands<'a>(
    alloc: Global,
    row: &'a Pseudo,
    operands: &[PlacedText<'a>],
) -> Result<Vec<DemandedValue<'a>>, AllocError> {
    let mut list = Vec::new(alloc);
    match row {
        Pseudo::Equate(operand) | Pseudo::Set(operand) => {
            push_demand(&mut list, operand, operands.first(), Demand::Any)?;
        }
        Pseudo::Org(operand) => push_demand(&mut list, operand, operands.first(), Demand::Address)?,
        Pseudo::Bss(operand) | Pseudo::Bssz(operand) => {
            push_demand(&mut list, operand, operands.first(), Demand::Words)?;
        }
        Pseudo::Dis(DisText::Counted(count, _)) => {
            let words = Demand::Between(1, u32::from(MOST_COUNTED_WORDS));
            push_demand(&mut list, count, operands.first(), words)?;
        }
        Pseudo::Vfd(fields) => demand_widths(&mut list, fields.as_slice(), operands)?,
        Pseudo::Compare(test) => {
            push_demand(&mut list, &test.left, operands.first(), Demand::Any)?;
            push_demand(&mut list, &test.right, operands.get(1), Demand::Any)?;
            demand_lines(&mut list, &test.lines, operands.get(2), counted_lines())?;
        }
        Pseudo::If(test) => demand_lines(&mut list, &test.lines, operands.get(2), counted_lines())?,
        Pseudo::Dup(repetition) => {
            push_demand(
                &mut list,
                &repetition.count,
                operands.first(),
                Demand::Times,
            )?;
            let lines = Demand::Between(1, MOST_BODY_LINES);
            demand_lines(&mut list, &repetition.lines, operands.get(1), lines)?;
        }
        _ => {}
    }
    Ok(list)
}

/// The lines that an IF counts.
fn counted_lines() -> Demand {
    Demand::Between(0, MOST_COUNTED_LINES as u32)
}

fn push_demand<'a>(
    list: &mut Vec<DemandedValue<'a>>,
    expression: &'a Expr,
    part: Option<&PlacedText<'a>>,
    demand: Demand,
) -> Result<(), AllocError> {
    if let Some(part) = part {
        list.push(DemandedValue {
            expression,
            part: *part,
            demand,
        })?;
    }
    Ok(())
}

fn demand_lines<'a>(
    list: &mut Vec<DemandedValue<'a>>,
    lines: &'a Option<Expr>,
    part: Option<&PlacedText<'a>>,
    kind: Demand,
) -> Result<(), AllocError> {
    match lines {
        Some(lines) => push_demand(list, lines, part, kind),
        None => Ok(()),
    }
}

/// The widths of fields: what stands before the first `/` of each.
fn demand_widths<'a>(
    list: &mut Vec<DemandedValue<'a>>,
    fields: &'a [Field],
    operands: &[PlacedText<'a>],
) -> Result<(), AllocError> {
    for (at, field) in fields.iter().enumerate() {
        if let Some(operand) = operands.get(at) {
            if let Some((width, _)) = operand.parted(b'/') {
                push_demand(list, &field.width, Some(&width), Demand::Width)?;
            }
        }
    }
    Ok(())
}

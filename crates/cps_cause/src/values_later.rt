//! Values under the final values: U, T, A, and limits.

use crate::cause::Cause;
use crate::columns::Columns;
use crate::cut_fault::CutFault;
use crate::findings::Findings;
use crate::limit_fault::{FarAddress, LimitFault};
use crate::near::near_symbol;
use crate::operands::{PlacedText, list_operands};
use crate::statement::FlaggedStatement;
use crate::symbol_fault::SymbolFault;
use crate::value_fault::ValueFault;
use cps_code::{Hole, HoleKind, Operand, fits_width};
use cps_expr::{Expr, Machine, Operation, Value, is_same_name};
use cps_final::PlacedStatement;
use cps_state::{Content, Shown, limit_of};
use cps_text::Name;
use std::alloc::{AllocError, Global};

/// The bits of a central processor's word.
const WORD_BITS: u8 = 60;

/// The words that a jump of a peripheral processor goes at most, either way.
const FARTHEST: u64 = 31;

/// What goes into bits.
#[derive(Clone, Copy)]
struct FieldValue<'a> {
    expression: &'a Expr,
    /// 0: the field has no bits.
    width: u8,
    kind: HoleKind,
    columns: Columns,
    /// None: the operand isn't there.
    part: Option<PlacedText<'a>>,
}

/// What is wrong with what a statement makes, under the final values.
pub fn find_later(
    alloc: Global,
    findings: &mut Findings,
    statement: &FlaggedStatement<'_>,
) -> Result<(), AllocError> {
    find_far_rows(findings, statement)?;
    let operands = list_operands(alloc, &statement.card)?;
    let placed = PlacedStatement::of(statement.item, statement.finals);
    for (at, content) in statement.item.made.contents().iter().enumerate() {
        for (hole_at, hole) in content.holes().iter().enumerate() {
            let part = match content {
                Content::Instruction(_) => instruction_part(statement, &operands, hole_at),
                _ => value_part(statement, operands.get(at).copied()),
            };
            find_in_hole(findings, statement, &placed, hole, part)?;
        }
    }
    Ok(())
}

/// The operand of an instruction's hole: the K of a central processor's instruction stands last, the holes of a peripheral one in the order of their operands.
fn instruction_part<'a>(
    statement: &FlaggedStatement<'_>,
    operands: &[PlacedText<'a>],
    at: usize,
) -> Option<PlacedText<'a>> {
    match statement.item.made.machine() {
        Machine::Cp => operands.last().copied(),
        Machine::Pp => operands.get(at).copied(),
    }
}

/// The value in an operand: of VFD what stands behind the first `/`.
fn value_part<'a>(
    statement: &FlaggedStatement<'_>,
    part: Option<PlacedText<'a>>,
) -> Option<PlacedText<'a>> {
    let part = part?;
    match Operation::named(statement.card.operation_text()) {
        Some(Operation::Vfd) => match part.parted(b'/') {
            Some((_, value)) => Some(value),
            None => Some(part),
        },
        _ => Some(part),
    }
}

fn columns_of(statement: &FlaggedStatement<'_>, part: Option<PlacedText<'_>>) -> Columns {
    match part {
        Some(part) => part.columns(),
        None => statement.card.statement(),
    }
}

fn find_in_hole(
    findings: &mut Findings,
    statement: &FlaggedStatement<'_>,
    placed: &PlacedStatement<'_>,
    hole: &Hole,
    part: Option<PlacedText<'_>>,
) -> Result<(), AllocError> {
    let columns = columns_of(statement, part);
    match &hole.operand {
        Operand::Expression(expression) => {
            let field = FieldValue {
                expression,
                width: hole.width,
                kind: hole.kind,
                columns,
                part,
            };
            find_in_field(findings, statement, placed, field)
        }
        Operand::Literal(word) => find_in_literal(findings, placed, *word, hole.width, columns),
    }
}

fn find_in_literal(
    findings: &mut Findings,
    placed: &PlacedStatement<'_>,
    word: u64,
    width: u8,
    columns: Columns,
) -> Result<(), AllocError> {
    let address = placed.literal_address(word);
    if placed.is_far_literal(word) {
        let words = limit_of(placed.machine());
        let place = FarAddress { address, words };
        findings.add(Cause::Limit(LimitFault::Literal(place)), columns)?;
    }
    let number = i64::try_from(address).unwrap_or(0);
    find_cut(findings, number, width, columns)
}

fn find_in_field(
    findings: &mut Findings,
    statement: &FlaggedStatement<'_>,
    placed: &PlacedStatement<'_>,
    field: FieldValue<'_>,
) -> Result<(), AllocError> {
    let valued = placed.value(field.expression);
    if valued.undefined {
        find_undefined(findings, statement, field)?;
    }
    let number = match valued.value {
        Some(
            Value {
                block: None,
                offset,
            },
        ) => offset,
        _ => {
            findings.add(Cause::Value(ValueFault::NoneLater), field.columns)?;
            0
        }
    };
    match field.kind {
        HoleKind::Value => find_cut(findings, number, field.width, field.columns),
        HoleKind::Count if number < 0 => findings.add(
            Cause::Value(ValueFault::NegativeCount(number)),
            field.columns,
        ),
        HoleKind::Count => find_cut(findings, number, field.width, field.columns),
        HoleKind::Target => {
            let here = i64::try_from(placed.here()).unwrap_or(0);
            find_far(findings, number.saturating_sub(here), field.columns)
        }
    }
}

/// A value that its bits don't hold, where it has bits.
fn find_cut(
    findings: &mut Findings,
    value: i64,
    width: u8,
    columns: Columns,
) -> Result<(), AllocError> {
    if width == 0 || width > WORD_BITS || fits_width(value, width) {
        return Ok(());
    }
    findings.add(Cause::Cut(CutFault { value, width }), columns)
}

/// A target that is too far away.
fn find_far(findings: &mut Findings, distance: i64, columns: Columns) -> Result<(), AllocError> {
    if distance.unsigned_abs() <= FARTHEST {
        return Ok(());
    }
    findings.add(Cause::Value(ValueFault::TooFar(distance)), columns)
}

/// The symbols of an expression that have no value.
fn find_undefined(
    findings: &mut Findings,
    statement: &FlaggedStatement<'_>,
    field: FieldValue<'_>,
) -> Result<(), AllocError> {
    for name in field.expression.names() {
        if !is_known(statement, *name) {
            let columns = match field.part {
                Some(part) => part.columns_of(*name),
                None => field.columns,
            };
            findings.add(
                undefined_later(findings.alloc(), statement, *name)?,
                columns,
            )?;
        }
    }
    Ok(())
}

/// Whether a symbol has a final value in a statement: one that SET had given it, or its label's.
fn is_known(statement: &FlaggedStatement<'_>, name: Name) -> bool {
    for held in statement.item.made.held() {
        if is_same_name(held.name, name) {
            return true;
        }
    }
    statement.finals.label(name).is_some()
}

fn undefined_later(
    alloc: Global,
    statement: &FlaggedStatement<'_>,
    name: Name,
) -> Result<Cause, AllocError> {
    if statement.finals.setting(name).is_some() {
        return Ok(Cause::Symbol(SymbolFault::SetBelow(name)));
    }
    let near = near_symbol(alloc, statement.finals, name)?;
    Ok(Cause::Symbol(SymbolFault::Undefined(name, near)))
}

/// Rows of a statement that stand past the machine's words, and statements that would pass them.
fn find_far_rows(
    findings: &mut Findings,
    statement: &FlaggedStatement<'_>,
) -> Result<(), AllocError> {
    let made = &statement.item.made;
    if made.only_flags() {
        if made.flags().structure {
            let words = limit_of(made.machine());
            findings.add_to_all(Cause::Limit(LimitFault::Words(words)))?;
        }
        return Ok(());
    }
    if made.contents().is_empty() && !is_start(made.shown()) {
        return Ok(());
    }
    let words = limit_of(made.machine());
    for row in statement.rows {
        if let Some(address) = row.location {
            if address >= u64::from(words) {
                let place = FarAddress { address, words };
                return findings.add_to_all(Cause::Limit(LimitFault::Address(place)));
            }
        }
    }
    Ok(())
}

fn is_start(shown: Shown) -> bool {
    match shown {
        Shown::Start => true,
        _ => false,
    }
}

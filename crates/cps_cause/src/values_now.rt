//! Values that a statement takes as it is read: U, A, V, and limits.

use crate::asks::Asks;
use crate::cause::Cause;
use crate::demands::{Demand, DemandedValue, list_demands};
use crate::findings::Findings;
use crate::limit_fault::LimitFault;
use crate::near::near_symbol;
use crate::operands::{PlacedText, list_operands};
use crate::statement::FlaggedStatement;
use crate::symbol_fault::SymbolFault;
use crate::symbols_now::SymbolsNow;
use crate::value_fault::{Bounds, ValueFault};
use crate::width_fault::WidthFault;
use cps_expr::{Expr, Pseudo, Value, ValueTest};
use cps_final::Finals;
use cps_pass::Location;
use cps_state::{Key, Recorder, is_same_block, limit_of, place_of};
use cps_text::Name;
use cps_text::limits::MOST_TIMES;
use std::alloc::{AllocError, Global};

/// The greatest width of a field.
const MOST_BITS: i64 = 60;

/// What is wrong with values that a statement takes as it is read.
pub fn find_now(
    recorder: &Recorder<'_, Asks>,
    findings: &mut Findings,
    statement: &FlaggedStatement<'_>,
    row: &Pseudo,
) -> Result<(), AllocError> {
    let operands = list_operands(recorder.alloc(), &statement.card)?;
    let demands = list_demands(recorder.alloc(), row, &operands)?;
    let here = here_for(recorder, statement, row);
    for demanded in &demands {
        find_in_demanded(recorder, findings, statement, demanded, here)?;
    }
    if let Pseudo::Compare(test) = row {
        let operands = ComparedOperands {
            left: operands.first().copied(),
            right: operands.get(1).copied(),
        };
        find_incomparable(recorder, findings, here, test, operands)?;
    }
    Ok(())
}

/// What `*` stands for in the expressions of a statement of this row: the present word, or the next one where that is left before.
fn here_for(
    recorder: &Recorder<'_, Asks>,
    statement: &FlaggedStatement<'_>,
    row: &Pseudo,
) -> Value {
    let control = statement.control;
    let place = place_of(recorder.peek(&Key::Counter(control.block)), control.machine);
    let leaves = match row {
        Pseudo::Org(_) | Pseudo::Bss(_) | Pseudo::Bssz(_) | Pseudo::Dis(_) => true,
        Pseudo::Vfd(_) => forces(statement.location(), place.is_pending),
        _ => false,
    };
    let words = if leaves && place.used > 0 { 1 } else { 0 };
    Value {
        block: control.block,
        offset: i64::from(place.word) + words,
    }
}

/// Whether a field of VFD begins a word, by its location field and by whether a forcing is pending.
fn forces(location: Location, is_pending: bool) -> bool {
    match location {
        Location::Plus | Location::Symbol(_) => true,
        Location::Minus => false,
        Location::Absent | Location::NoSymbol => is_pending,
    }
}

fn find_in_demanded(
    recorder: &Recorder<'_, Asks>,
    findings: &mut Findings,
    statement: &FlaggedStatement<'_>,
    demanded: &DemandedValue<'_>,
    here: Value,
) -> Result<(), AllocError> {
    let symbols = SymbolsNow::of(recorder, demanded.expression)?;
    let valued = symbols.value(demanded.expression, here);
    if valued.undefined {
        for symbol in symbols.as_slice() {
            if symbol.value.is_none() {
                let cause = undefined_now(findings.alloc(), statement.finals, symbol.name)?;
                findings.add(cause, demanded.part.columns_of(symbol.name))?;
            }
        }
        return Ok(());
    }
    let cause = match valued.value {
        None => Some(Cause::Value(ValueFault::None)),
        Some(value) => unfit(demanded.demand, value, statement),
    };
    match cause {
        Some(cause) => findings.add(cause, demanded.part.columns()),
        None => Ok(()),
    }
}

/// A symbol that has no value yet.
fn undefined_now(alloc: Global, finals: &Finals, name: Name) -> Result<Cause, AllocError> {
    if finals.label(name).is_some() || finals.setting(name).is_some() {
        return Ok(Cause::Symbol(SymbolFault::DefinedBelow(name)));
    }
    let near = near_symbol(alloc, finals, name)?;
    Ok(Cause::Symbol(SymbolFault::UndefinedNow(name, near)))
}

/// Why a statement doesn't take a value, None where it does.
fn unfit(demand: Demand, value: Value, statement: &FlaggedStatement<'_>) -> Option<Cause> {
    let words = limit_of(statement.control.machine);
    match demand {
        Demand::Any => None,
        Demand::Address => unfit_address(value.offset, words),
        Demand::Words => match plain(value) {
            Err(cause) => Some(cause),
            Ok(_) => None,
        },
        Demand::Between(least, most) => match plain(value) {
            Err(cause) => Some(cause),
            Ok(number) => outside(number, least, most),
        },
        Demand::Times => match plain(value) {
            Err(cause) => Some(cause),
            Ok(number) => too_often(number),
        },
        Demand::Width => unfit_width(value),
    }
}

/// A number that is in no block and not below 0.
fn plain(value: Value) -> Result<i64, Cause> {
    match value.block {
        Some(block) => Err(Cause::Value(ValueFault::InBlock(block))),
        None if value.offset < 0 => Err(Cause::Value(ValueFault::Negative(value.offset))),
        None => Ok(value.offset),
    }
}

fn unfit_address(offset: i64, words: u32) -> Option<Cause> {
    if offset < 0 {
        Some(Cause::Value(ValueFault::Negative(offset)))
    } else if offset > i64::from(words) {
        Some(Cause::Limit(LimitFault::Origin(words)))
    } else {
        None
    }
}

fn outside(number: i64, least: u32, most: u32) -> Option<Cause> {
    if i64::from(least) <= number && number <= i64::from(most) {
        return None;
    }
    Some(Cause::Value(ValueFault::OutOfRange(Bounds {
        value: number,
        least,
        most,
    })))
}

fn too_often(number: i64) -> Option<Cause> {
    if number.unsigned_abs() <= MOST_TIMES {
        return None;
    }
    Some(Cause::Limit(LimitFault::Times(number)))
}

/// Why a value is no width of a field.
fn unfit_width(value: Value) -> Option<Cause> {
    match value.block {
        Some(block) => Some(Cause::Width(WidthFault::InBlock(block))),
        None if (1..=MOST_BITS).contains(&value.offset) => None,
        None => Some(Cause::Width(WidthFault::OutOfRange(value.offset))),
    }
}

/// The two operands that an IF compares.
#[derive(Clone, Copy)]
struct ComparedOperands<'a> {
    left: Option<PlacedText<'a>>,
    right: Option<PlacedText<'a>>,
}

/// Two values that aren't in one block.
fn find_incomparable(
    recorder: &Recorder<'_, Asks>,
    findings: &mut Findings,
    here: Value,
    test: &ValueTest,
    sides: ComparedOperands<'_>,
) -> Result<(), AllocError> {
    let (Some(left), Some(right)) = (sides.left, sides.right) else {
        return Ok(());
    };
    let (Some(one), Some(other)) = (
        known_value(recorder, &test.left, here)?,
        known_value(recorder, &test.right, here)?,
    ) else {
        return Ok(());
    };
    if is_same_block(one.block, other.block) {
        return Ok(());
    }
    findings.add(
        Cause::Value(ValueFault::NotComparable),
        left.columns().through(right.columns()),
    )
}

/// The value of an expression, None where it has none or a symbol has none.
fn known_value(
    recorder: &Recorder<'_, Asks>,
    expression: &Expr,
    here: Value,
) -> Result<Option<Value>, AllocError> {
    let symbols = SymbolsNow::of(recorder, expression)?;
    let valued = symbols.value(expression, here);
    if valued.undefined {
        return Ok(None);
    }
    Ok(valued.value)
}

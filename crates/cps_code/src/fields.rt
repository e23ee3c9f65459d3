ghost use Rattle.std.specs.Prelude.{◌≡◌, ◌<◌, Some, None, [], ◌∷◌, map, option_map, IfOk, IfSome, MatchOption};
ghost use Rattle.cps_expr.specs.Reads.{Reads};
ghost use Rattle.cps_text.specs.Operands.{operands_of};
ghost use Rattle.cps_text.specs.Code.OperandsLeft.{operands_left};
ghost use Rattle.cps_code.specs.RowForms.{registers_in, form_in_row, form_of_rows, operands_in};
ghost use Rattle.cps_code.specs.Code.Operations.{texts, row_of_fields};
ghost use Rattle.cps_code.specs.Code.FoundForms.{no_sum, registers_alone, constant_in};
ghost use Rattle.cps_code.specs.Digits.{AreDigits};
ghost use Rattle.cps_code.specs.Operand.{IsOperand};
ghost use Rattle.cps_expr.specs.declared.machine.Machine.TheVariants.{Cp};

use super::form::CpForm;
use super::hole::Operand;
use super::literal::read_operand;
use crate::digits::{Digits, octal, read_digits};
use crate::operation::FieldForm;
use cps_expr::{ExprFault, Machine, Radix, read_only};
use cps_text::{Operands, operands};
use std::alloc::Global;

/// The form of the first row that fits the operands of a tail.
pub fn form_of_fields(
    alloc: Global,
    rows: &[FieldForm],
    digits: Digits,
    tail: &[u8],
    radix: Radix,
) -> Result<CpForm, ExprFault>
    requires { AreDigits digits }
    ensures { Reads result (form_of_rows radix digits (map row_of_fields rows.now) (operands_in radix tail.now)) }
{
    for row in rows {
        match form_of_row(alloc, *row, digits, tail, radix) {
            Ok(form) => return Ok(form),
            Err(ExprFault::Memory) => return Err(ExprFault::Memory),
            Err(ExprFault::Unreadable) => {}
        }
    }
    Err(ExprFault::Unreadable)
}

#[tactic(auto, using(crate::proofs::FieldLemmas::constant_found, crate::proofs::FieldLemmas::alone_found))]
fn form_of_row(
    alloc: Global,
    row: FieldForm,
    digits: Digits,
    tail: &[u8],
    radix: Radix,
) -> Result<CpForm, ExprFault>
    requires { AreDigits digits }
    ensures { Reads result (form_in_row radix digits (row_of_fields row) (no_sum (operands_of tail.now))) }
{
    match row {
        FieldForm::Short(registers, code) => {
            match read_registers_alone(registers, digits, tail) {
                None => Err(ExprFault::Unreadable),
                Some(known) => Ok(CpForm::short(octal(known, code))),
            }
        }
        FieldForm::Constant(registers, code) => {
            let found = read_fields(alloc, registers, digits, tail, radix)?;
            Ok(CpForm::long(octal(found.digits, code), found.operand, false))
        }
        FieldForm::Forcing(registers, code) => {
            let found = read_fields(alloc, registers, digits, tail, radix)?;
            Ok(CpForm::long(octal(found.digits, code), found.operand, true))
        }
        FieldForm::Count(code) => {
            let count = read_only(alloc, tail, radix)?;
            Ok(CpForm::counted(octal(digits, code), count))
        }
    }
}

/// The digits of the operands, all of registers.
fn read_registers_alone(registers: &[&[u8]], digits: Digits, tail: &[u8]) -> Option<Digits>
    requires { AreDigits digits }
    ensures digits { registers_alone (texts registers.now) (operands_of tail.now) digits ≡ result }
    ensures octal { IfSome result AreDigits }
{
    let (known, mut left) = read_registers(operands(tail), registers, digits)?;
    match left.next() {
        None => Some(known),
        Some(_) => None,
    }
}

#[derive(Drop)]
struct ReadFields {
    digits: Digits,
    operand: Operand,
}

/// The digits of the operands of registers, and K after them.
fn read_fields(
    alloc: Global,
    registers: &[&[u8]],
    digits: Digits,
    tail: &[u8],
    radix: Radix,
) -> Result<ReadFields, ExprFault>
    requires { AreDigits digits }
    ensures found { Reads result (constant_in radix (texts registers.now) (operands_of tail.now) digits) }
    ensures octal { IfOk result (λ found. AreDigits found.digits) }
    ensures fits { IfOk result (λ found. IsOperand Cp found.operand) }
{
    let Some((digits, mut left)) = read_registers(operands(tail), registers, digits) else {
        return Err(ExprFault::Unreadable);
    };
    let Some(text) = left.next() else {
        return Err(ExprFault::Unreadable);
    };
    if left.next().is_some() {
        return Err(ExprFault::Unreadable);
    }
    let operand = read_operand(alloc, text, radix, Machine::Cp)?;
    Ok(ReadFields { digits, operand })
}

/// The digits of the operands that begin with these of registers, and the operands after them.
fn read_registers<'a>(
    operands: Operands<'a>,
    registers: &[&[u8]],
    digits: Digits,
) -> Option<(Digits, Operands<'a>)>
    requires { AreDigits digits }
    ensures digits { registers_in (texts registers.now) (operands_left operands.entry) digits ≡ option_map (λ found. (found.0, operands_left found.1)) result }
    ensures octal { IfSome result (λ found. AreDigits found.0) }
{
    let mut known = digits;
    let mut left = operands;
    for letters in registers {
        match first_operand(left) {
            None => return None,
            Some((text, more)) => match read_digits(letters, text, known) {
                None => return None,
                Some(digits) => {
                    known = digits;
                    left = more;
                }
            },
        }
    }
    Some((known, left))
}

fn first_operand<'a>(mut operands: Operands<'a>) -> Option<(&'a [u8], Operands<'a>)>
    ensures { MatchOption result (operands_left operands.entry ≡ []) (λ found. operands_left operands.entry ≡ found.0.now ∷ operands_left found.1) }
{
    match operands.next() {
        None => None,
        Some(text) => Some((text, operands)),
    }
}

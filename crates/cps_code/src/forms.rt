ghost use Rattle.std.specs.Prelude.{◌≡◌, ◌<◌, ◌^◌, true, map, option_map, if◌then◌else◌, ◌↔◌, Some, None, false, IfOk, IfSome, IsErrOf, IsSome, IsTrue};
ghost use Rattle.cps_code.specs.Sum.{Summed};
ghost use Rattle.cps_code.specs.Digits.{AreDigits};
ghost use Rattle.cps_code.specs.Code.Terms.{AreRegisters, IsKeptSummed, is_empty, register_list};
ghost use Rattle.cps_expr.specs.declared.machine.Machine.TheVariants.{Cp};
ghost use Rattle.cps_code.specs.Operand.{IsOperand};
ghost use Rattle.cps_code.specs.RowForms.{operands_in, form_of_rows, form_of};
ghost use Rattle.cps_code.specs.Table.{is_operation};
ghost use Rattle.cps_code.specs.Code.Outcome.{Answers};
ghost use Rattle.cps_code.specs.Code.Operations.{rows_of, row_of_fields};
ghost use Rattle.cps_code.specs.Code.FoundForms.{sum_rows, sum_form, set_form, jump_form, long_form, bare_form};

use super::fields::form_of_fields;
use super::form::CpForm;
use super::hole::Operand;
use super::set::{code_with_constant, code_without_constant, four_digits};
use super::sum::Registers;
use super::summed::{KeptSummed, read_summed};
use crate::digits::Digits;
use crate::operation::{FieldForm, Forms, named_operation};
use crate::register::{RegisterLetter, RegisterTerm};
use cps_expr::{ExprFault, Radix};
use std::alloc::Global;
use thiserror::Error;

/// Why a statement has no form.
#[derive(Clone, Copy, Debug, PartialEq, Eq, Error)]
pub enum FormFault {
    /// The operation isn't in the table of the central processor.
    #[error("no such operation")]
    NoOperation,
    /// No row of the operation fits the operand.
    #[error("unreadable operand")]
    Unreadable,
    /// Memory was refused; nothing else is wrong.
    #[error("no memory")]
    Memory,
}

/// The operations whose operand is a sum of registers and K.
#[derive(Clone, Copy)]
enum SumForms {
    Set,
    Jump,
}

/// The form of a statement of the central processor: that of the row of the table that fits its operation and its
/// tail, which is the text from the variable field's first column on. Numbers with no letter go by the radix; lower-case
/// letters stand for capitals.
pub fn cp_form(
    alloc: Global,
    operation: &[u8],
    tail: &[u8],
    radix: Radix,
) -> Result<CpForm, FormFault>
    ensures form { IfOk result (λ form. form_of operation.now tail.now radix ≡ Some form) }
    ensures no_operation { IsErrOf result FormFault.NoOperation ↔ (is_operation operation.now ≡ false) }
    ensures unreadable { IsErrOf result FormFault.Unreadable
        ↔ (IsTrue (is_operation operation.now) × (form_of operation.now tail.now radix ≡ None)) }
    ensures memory { IsErrOf result FormFault.Memory → IsSome (form_of operation.now tail.now radix) }
{
    let Some((forms, digits)) = named_operation(operation) else {
        return Err(FormFault::NoOperation);
    };
    form_of_operation(alloc, forms, digits, tail, radix)
}

fn form_of_operation(
    alloc: Global,
    forms: Forms,
    digits: Digits,
    tail: &[u8],
    radix: Radix,
) -> Result<CpForm, FormFault>
    requires known { AreDigits digits }
    ensures { Answers (form_of_rows radix digits (rows_of forms) (operands_in radix tail.now)) result }
{
    match forms {
        Forms::Pass => Ok(CpForm::short(0o46000)),
        Forms::Stop => Ok(CpForm::bare(0)),
        Forms::SetA | Forms::SetB | Forms::SetX => {
            summed_form(alloc, SumForms::Set, digits, tail, radix)
        }
        Forms::Jump => summed_form(alloc, SumForms::Jump, digits, tail, radix),
        Forms::Fields(rows) => fields_form(alloc, rows, digits, tail, radix),
    }
}

#[tactic(auto, using(crate::proofs::FieldLemmas::none_read))]
fn fields_form(
    alloc: Global,
    rows: &[FieldForm],
    digits: Digits,
    tail: &[u8],
    radix: Radix,
) -> Result<CpForm, FormFault>
    requires known { AreDigits digits }
    ensures { Answers (form_of_rows radix digits (map row_of_fields rows.now) (operands_in radix tail.now)) result }
{
    match form_of_fields(alloc, rows, digits, tail, radix) {
        Ok(form) => Ok(form),
        Err(ExprFault::Unreadable) => Err(FormFault::Unreadable),
        Err(ExprFault::Memory) => Err(FormFault::Memory),
    }
}

/// The form of an operation whose operand is a sum of registers and K.
fn summed_form(
    alloc: Global,
    forms: SumForms,
    digits: Digits,
    tail: &[u8],
    radix: Radix,
) -> Result<CpForm, FormFault>
    requires known { AreDigits digits }
    ensures { Answers (form_of_rows radix digits (sum_rows forms) (operands_in radix tail.now)) result }
{
    match read_summed(alloc, tail, radix) {
        None => Err(FormFault::Unreadable),
        Some(kept) => form_of_sum(forms, digits, kept),
    }
}

fn form_of_sum(forms: SumForms, digits: Digits, kept: KeptSummed) -> Result<CpForm, FormFault>
    requires known { AreDigits digits }
    requires registers { AreRegisters kept.registers }
    requires fits { IfSome kept.constant (IsOperand Cp) }
    ensures { (summed : Summed) → IsKeptSummed kept summed → Answers (sum_form forms digits summed.registers summed.constant) result }
{
    let registers = kept.registers;
    match (forms, kept.has_constant) {
        (SumForms::Set, true) => {
            let front = code_with_constant(digits, registers);
            long_form(front, kept.constant, false)
        }
        (SumForms::Set, false) => short_form(digits, registers).ok_or(FormFault::Unreadable),
        (SumForms::Jump, true) => long_form(jump_front(registers), kept.constant, true),
        (SumForms::Jump, false) => bare_jump(registers).ok_or(FormFault::Unreadable),
    }
}

/// A form with a constant; there is none if no row has the digits before it.
fn long_form(
    front: Option<u16>,
    constant: Option<Operand>,
    forces_after: bool,
) -> Result<CpForm, FormFault>
    requires front { IfSome front (λ front. front < 2 ^ 12) }
    requires fits { IfSome constant (IsOperand Cp) }
    ensures { (operand : Operand) → IfSome constant (λ kept. kept ≡ operand)
        → Answers (option_map (λ front. long_form front operand forces_after) front) result }
{
    let Some(front) = front else {
        return Err(FormFault::Unreadable);
    };
    let Some(constant) = constant else {
        return Err(FormFault::Memory);
    };
    Ok(CpForm::long(front, constant, forces_after))
}

/// The form of a set instruction of registers without a constant.
fn short_form(digits: Digits, registers: Registers) -> Option<CpForm>
    requires known { AreDigits digits }
    requires digits { AreRegisters registers }
    ensures { set_form digits (register_list registers) None ≡ result }
{
    match code_without_constant(digits, registers) {
        None => None,
        Some(code) => Some(CpForm::short(code)),
    }
}

/// The form of a jump to a register without a constant.
fn bare_jump(registers: Registers) -> Option<CpForm>
    requires { AreRegisters registers }
    ensures { (digits : Digits) → jump_form digits (register_list registers) None ≡ result }
{
    match registers {
        Registers::Absent => None,
        _ => Some(CpForm::bare(jump_front(registers)?)),
    }
}

/// The first four digits of a jump to a register, if it is one, and a constant.
fn jump_front(registers: Registers) -> Option<u16>
    requires { AreRegisters registers }
    ensures front { (digits : Digits) (constant : Operand)
        → jump_form digits (register_list registers) (Some constant) ≡ option_map (λ front. long_form front constant true) result }
    ensures bare { (digits : Digits) → jump_form digits (register_list registers) None ≡ (if is_empty registers then None else option_map bare_form result) }
    ensures small { IfSome result (λ front. front < 4096) }
{
    match registers {
        Registers::Absent => Some(0o0200),
        Registers::One(
            RegisterTerm {
                is_minus: false,
                letter: RegisterLetter::B,
                digit,
            },
        ) => Some(four_digits(0, 2, digit, 0)),
        _ => None,
    }
}

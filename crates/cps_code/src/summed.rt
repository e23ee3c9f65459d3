//! Operands of registers and K.
ghost use Rattle.std.specs.Prelude.{◌≡◌, ◌<◌, List, length, option_map, IfSome, MatchOption, Some};
ghost use Rattle.cps_expr.specs.Term.{Term};
ghost use Rattle.cps_expr.specs.declared.machine.Machine.TheVariants.{Cp};
ghost use Rattle.cps_code.specs.Operand.{IsOperand};
ghost use Rattle.cps_code.specs.RowForms.{only_sum};
ghost use Rattle.cps_code.specs.Sum.{Summed, constant_of, of_terms, sum_of};
ghost use Rattle.cps_code.specs.Code.Terms.{AreRegisters, IsKeptSummed, is_some_list};

use super::hole::Operand;
use super::literal::read_literal;
use super::sum::{Registers, read_sum};
use cps_expr::{Expr, Machine, Radix};
use cps_text::operands;
use std::alloc::Global;

/// What is kept of an operand: its register terms, two at most, and K.
#[derive(Drop)]
pub struct KeptSummed {
    pub registers: Registers,
    /// Whether there is a K.
    pub has_constant: bool,
    /// None where there is none, or memory for it was refused.
    pub constant: Option<Operand>,
}

/// Reads the registers and the K that the only operand of a tail writes. None: it writes no such, or has more than two
/// registers, or there is another number of operands.
pub fn read_summed(alloc: Global, tail: &[u8], radix: Radix) -> Option<KeptSummed>
    ensures sum { MatchOption result
        ((summed : Summed) → only_sum radix tail.now ≡ Some summed → 2 < length summed.registers)
        (λ kept. (summed : Summed) × (only_sum radix tail.now ≡ Some summed) × IsKeptSummed kept summed) }
    ensures registers { IfSome result (λ kept. AreRegisters kept.registers) }
    ensures fits { IfSome result (λ kept. IfSome kept.constant (IsOperand Cp)) }
{
    let mut operands = operands(tail);
    let operand = operands.next()?;
    if operands.next().is_some() {
        return None;
    }
    match read_literal(operand, radix, Machine::Cp) {
        None => read_terms(alloc, operand, radix),
        Some(word) => Some(KeptSummed {
            registers: Registers::Absent,
            has_constant: true,
            constant: Some(Operand::Literal(word)),
        }),
    }
}

/// Reads a sum of registers and terms of an expression, which is K.
fn read_terms(alloc: Global, text: &[u8], radix: Radix) -> Option<KeptSummed>
    ensures sum { MatchOption result
        ((summed : Summed) → option_map of_terms (sum_of radix text.now) ≡ Some summed → 2 < length summed.registers)
        (λ kept. (summed : Summed) × (option_map of_terms (sum_of radix text.now) ≡ Some summed) × IsKeptSummed kept summed) }
    ensures registers { IfSome result (λ kept. AreRegisters kept.registers) }
    ensures fits { IfSome result (λ kept. IfSome kept.constant (IsOperand Cp)) }
{
    match read_sum(alloc, text, radix) {
        None => None,
        Some(kept) => Some(KeptSummed {
            registers: kept.registers,
            has_constant: kept.has_constant,
            constant: constant_of(kept.has_constant, kept.constant),
        }),
    }
}

/// The K of an expression that has a term.
fn constant_of(has_constant: bool, expression: Option<Expr>) -> Option<Operand>
    ensures constant { (terms : List Term) → has_constant ≡ is_some_list terms → IfSome expression (λ written. written ≡ terms)
        → IfSome result (λ operand. constant_of terms ≡ Some operand) }
    ensures fits { IfSome result (IsOperand Cp) }
{
    match expression {
        Some(expression) if has_constant => Some(Operand::Expression(expression)),
        _ => None,
    }
}

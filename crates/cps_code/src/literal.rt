//! Literals, and operands that may be literals.
ghost use Rattle.std.specs.Prelude.{◌≡◌, ◌<◌, ◌^◌, IfOk, IfSome};
ghost use Rattle.cps_expr.specs.Item.{bits_of};
ghost use Rattle.cps_expr.specs.Reads.{Reads};
ghost use Rattle.cps_code.specs.Operand.{IsOperand, literal_of, operand_of, whole_item};

use super::hole::Operand;
use crate::digits::first_and_rest;
use cps_expr::{ExprFault, Machine, Radix, read_expression, read_item};
use std::alloc::Global;

/// A text as an operand of an instruction: a literal of the machine, or an expression.
pub fn read_operand(
    alloc: Global,
    text: &[u8],
    radix: Radix,
    machine: Machine,
) -> Result<Operand, ExprFault>
    ensures operand { Reads result (operand_of machine radix text.now) }
    ensures fits { IfOk result (IsOperand machine) }
{
    match read_literal(text, radix, machine) {
        Some(word) => Ok(Operand::Literal(word)),
        None => match read_expression(alloc, text, radix) {
            Ok(expression) => Ok(Operand::Expression(expression)),
            Err(fault) => Err(fault),
        },
    }
}

/// The word of a literal: `=`, and after it one data item to the end of the text.
pub fn read_literal(text: &[u8], radix: Radix, machine: Machine) -> Option<u64>
    ensures word { result ≡ literal_of machine radix text.now }
    ensures fits { IfSome result (λ word. word < 2 ^ bits_of machine) }
{
    match first_and_rest(text) {
        None => None,
        Some((first, item)) => {
            if first == b'=' {
                whole_item(item, radix, machine)
            } else {
                None
            }
        }
    }
}

/// The word of a data item that is the whole text.
fn whole_item(text: &[u8], radix: Radix, machine: Machine) -> Option<u64>
    ensures word { result ≡ whole_item machine radix text.now }
    ensures fits { IfSome result (λ word. word < 2 ^ bits_of machine) }
{
    match read_item(text, radix, machine) {
        None => None,
        Some((word, extent)) => {
            if extent == text.len() {
                Some(word)
            } else {
                None
            }
        }
    }
}

//! The parameters of MACRO, and the local names of LOCAL.
ghost use Rattle.std.specs.Prelude.{◌≡◌};
ghost use Rattle.std.specs.List.{list_any};
ghost use Rattle.cps_text.specs.Operands.{operands_of};
ghost use Rattle.cps_expr.specs.Reads.{Reads};
ghost use Rattle.cps_expr.specs.Code.Twice.{is_twice};
ghost use Rattle.cps_expr.specs.Row.{is_equal_sign, parameter_of, parameters_of, locals_of, stands_twice};

use crate::expr::ExprFault;
use crate::radix::Radix;
use crate::reads::{ListOperand, read_all};
use crate::sequence::Sequence;
use crate::text::is_same;
use cps_text::{Name, operands};
use std::alloc::Global;

impl ListOperand for Name {
    ghost written = { λ radix. parameter_of };

    fn read_operand(_alloc: Global, text: &[u8], _radix: Radix) -> Result<Name, ExprFault> {
        match read_parameter(text) {
            Some(name) => Ok(name),
            None => Err(ExprFault::Unreadable),
        }
    }
}

/// A symbol without `=`.
fn read_parameter(text: &[u8]) -> Option<Name>
    ensures { result ≡ parameter_of text.now }
{
    if has_equal_sign(text) {
        None
    } else {
        Name::read(text)
    }
}

fn has_equal_sign(text: &[u8]) -> bool
    ensures { result ≡ list_any is_equal_sign text.now }
{
    text.iter().any(|byte| *byte == b'=')
}

/// All operands as parameters, no two the same.
#[tactic(auto, unfolding(crate::specs::Row::parameters_of))]
pub(crate) fn read_parameters(
    alloc: Global,
    tail: &[u8],
    radix: Radix,
) -> Result<Sequence<Name>, ExprFault>
    ensures { Reads result (parameters_of (operands_of tail.now)) }
{
    match read_all::<Name>(alloc, tail, radix) {
        Ok(names) => {
            if some_is_twice(names.as_slice()) {
                return Err(ExprFault::Unreadable);
            }
            Ok(names)
        }
        Err(ExprFault::Memory) if !some_stands_twice(tail) => Err(ExprFault::Memory),
        Err(_) => Err(ExprFault::Unreadable),
    }
}

/// One operand or more as local names, which are written as parameters are.
#[tactic(auto, unfolding(crate::specs::Row::locals_of))]
pub fn read_locals(alloc: Global, tail: &[u8]) -> Result<Sequence<Name>, ExprFault>
    ensures { Reads result (locals_of (operands_of tail.now)) }
{
    if operands(tail).next().is_none() {
        return Err(ExprFault::Unreadable);
    }
    read_parameters(alloc, tail, Radix::Decimal)
}

fn some_is_twice(names: &[Name]) -> bool
    ensures { result ≡ list_any (is_twice names.now) names.now }
{
    for name in names {
        if is_twice(names, *name) {
            return true;
        }
    }
    false
}

/// Whether a name is two of these.
fn is_twice(names: &[Name], name: Name) -> bool
    ensures { result ≡ is_twice names.now name }
{
    let mut was_found = false;
    for other in names {
        if name == *other {
            if was_found {
                return true;
            }
            was_found = true;
        }
    }
    false
}

// ---- where names found no room, the operands themselves are compared

fn some_stands_twice(tail: &[u8]) -> bool
    ensures { result ≡ list_any (stands_twice (operands_of tail.now)) (operands_of tail.now) }
{
    for operand in operands(tail) {
        if stands_twice(tail, operand) {
            return true;
        }
    }
    false
}

/// Whether a text is two of the operands.
fn stands_twice(tail: &[u8], text: &[u8]) -> bool
    ensures { result ≡ stands_twice (operands_of tail.now) text.now }
{
    let mut was_found = false;
    for operand in operands(tail) {
        if is_same(text, operand) {
            if was_found {
                return true;
            }
            was_found = true;
        }
    }
    false
}
